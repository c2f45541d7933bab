//! The administrator as he rises from records.

use crate::admins::{check_rows, three};
use crate::taken::{Said, Taken, WROTE_0, WROTE_1, log, promise};
use qc_admin::{RisenAdmin, admin_of};
use qc_list::OutOfMemory;
use qc_msg::{EpochStart, Record, Records};
use std::alloc::Global;
use std::process::Abort;
use tests_texts::turn_text;

/// A Decide record of an epoch, with a clock and lines.
fn decide(
    alloc: Global,
    epoch: u8,
    clock: u64,
    lines: &[(u64, u8, u8)],
) -> Result<Record, OutOfMemory> {
    Ok(Record::Decide(EpochStart {
        epoch,
        clock,
        lines: log(alloc, lines)?,
    }))
}

/// Over `@three`, he rises from these records: he writes the record of a rise, and
/// then does what the rows say.
fn check_risen(
    rt: &impl Abort,
    alloc: Global,
    records: &[Record],
    rows: &[(Taken<'_>, &str)],
) -> Result<(), OutOfMemory> {
    let decl = three(rt, alloc)?;
    let RisenAdmin { admin, turn } = admin_of(alloc, records)?;
    let mut admin = admin;
    let text = turn_text(alloc, &turn)?;
    assert_eq!(rt; text.as_str(), "write life");
    check_rows(rt, alloc, &decl, &mut admin, rows)
}

/// Without a Decide record the first epoch is decided, of which there is none to
/// install.
#[test]
fn nothing_was_decided(rt: HostRuntime) -> Result<(), OutOfMemory> {
    let alloc = rt.alloc();
    let mut records = Records::new(alloc);
    records.push(Record::Life)?;
    check_risen(
        &rt,
        alloc,
        records.items(),
        &[
            (Taken::Epoch(1), "tell Order { current: 1 }"),
            (Taken::Epoch(2), "0: close 2; 1: close 2"),
        ],
    )
}

/// The last Decide record counts; what others write gives him nothing. He
/// installs it again. The epoch behind it, which has no plan, needs no site.
#[test]
fn the_last_decision_counts(rt: HostRuntime) -> Result<(), OutOfMemory> {
    let alloc = rt.alloc();
    let mut records = Records::new(alloc);
    records.push(decide(alloc, 2, 9, &[(3, 2, WROTE_0)])?)?;
    records.push(Record::Life)?;
    records.push(decide(alloc, 3, 12, &[(3, 2, WROTE_0), (11, 0, WROTE_1)])?)?;
    records.push(Record::Prepare(promise(alloc, 1, 1, WROTE_1)?))?;
    records.push(Record::Close { epoch: 5 })?;
    records.push(Record::Install(EpochStart {
        epoch: 5,
        clock: 50,
        lines: log(alloc, &[])?,
    }))?;
    check_risen(
        &rt,
        alloc,
        records.items(),
        &[
            (Taken::Epoch(2), "tell Order { current: 3 }"),
            (
                Taken::Epoch(3),
                "0: install 3 clock 12 [3.2 2.1.1 1 0 2, 11.0 0.1.1 1 0 3]; \
                 1: install 3 clock 12 [3.2 2.1.1 1 0 2, 11.0 0.1.1 1 0 3]; \
                 2: install 3 clock 12 [3.2 2.1.1 1 0 2, 11.0 0.1.1 1 0 3]",
            ),
            (Taken::Answer(10, Said::Installed), ""),
            (Taken::Answer(11, Said::Installed), ""),
            (Taken::Lost(12), "tell Moved { closed: 0, installed: 3 }"),
            (
                Taken::Epoch(4),
                "write decide 4; 0: install 4 clock 0 []; 1: install 4 clock 0 []; \
                 2: install 4 clock 0 []; else tell Fault",
            ),
            (
                Taken::Epoch(5),
                "write decide 5; 0: install 5 clock 0 []; 1: install 5 clock 0 []; \
                 2: install 5 clock 0 []; else tell Fault",
            ),
        ],
    )
}
