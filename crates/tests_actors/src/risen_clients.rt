//! Clients that rise from their records: their lives, what committed, their
//! clocks.

use crate::client_rises::{Written, check_risen, check_rising, record};
use crate::declared::three;
use crate::taken::Taken;
use qc_list::OutOfMemory;
use qc_msg::Records;
use std::alloc::Global;

/// It rises in its second life, and nothing is known of the first: what began
/// there aborted. Its first stamp is 1.
#[test]
fn a_client_without_records(rt: HostRuntime) -> Result<(), OutOfMemory> {
    check_risen(
        &rt,
        rt.alloc(),
        &[],
        &[
            (Taken::Commit, "tell NoTransaction"),
            (Taken::Inquiry(1), "2: 1.1.1 is aborted"),
            (
                Taken::Begin,
                "tell Began { tx: TxId { client: 1, life: 2, number: 1 } }",
            ),
            (
                Taken::Commit,
                "write commit 1.1 1.2.1 []; tell Committed { stamp: Stamp { clock: 1, client: 1 } }; else tell Unknown",
            ),
        ],
    )
}

/// What committed is told so, to sites and to the administrator; of two records
/// of a transaction the last one tells the stamp.
#[test]
fn what_committed_is_known(rt: HostRuntime) -> Result<(), OutOfMemory> {
    check_risen(
        &rt,
        rt.alloc(),
        &[
            Written::Commit(1, 5),
            Written::Commit(2, 9),
            Written::Commit(1, 7),
            Written::Commit(4, 3),
        ],
        &[
            (Taken::Inquiry(1), "2: 1.1.1 is committed 7.1"),
            (Taken::Inquiry(2), "2: 1.1.2 is committed 9.1"),
            (Taken::Inquiry(3), "2: 1.1.3 is aborted"),
            (Taken::Ask(4), "6: 77 committed 3.1"),
            (Taken::Ask(3), "6: 77 aborted"),
        ],
    )
}

/// The next stamp is above those of all records, also above that of one that
/// another takes the place of.
#[test]
fn stamps_are_above_the_records(rt: HostRuntime) -> Result<(), OutOfMemory> {
    check_risen(
        &rt,
        rt.alloc(),
        &[
            Written::Commit(1, 5),
            Written::Commit(2, 9),
            Written::Commit(2, 8),
        ],
        &[
            (
                Taken::Begin,
                "tell Began { tx: TxId { client: 1, life: 2, number: 1 } }",
            ),
            (
                Taken::Commit,
                "write commit 10.1 1.2.1 []; tell Committed { stamp: Stamp { clock: 10, client: 1 } }; else tell Unknown",
            ),
            (Taken::Inquiry(2), "2: 1.1.2 is committed 8.1"),
        ],
    )
}

/// Each record of a rise is a life, and this rise one more. What no client
/// writes gives nothing.
#[test]
fn lives_are_counted(rt: HostRuntime) -> Result<(), OutOfMemory> {
    check_risen(
        &rt,
        rt.alloc(),
        &[
            Written::Life,
            Written::Commit(1, 5),
            Written::Close,
            Written::Life,
            Written::Done(9),
        ],
        &[
            (
                Taken::Begin,
                "tell Began { tx: TxId { client: 1, life: 4, number: 1 } }",
            ),
            (
                Taken::Commit,
                "write commit 6.1 1.4.1 []; tell Committed { stamp: Stamp { clock: 6, client: 1 } }; else tell Unknown",
            ),
        ],
    )
}

/// 1,000 Commits, with the clocks from 3,001 on, and then others of the same
/// transactions, the last one first, with the clocks from 2,001 on.
fn many_records(alloc: Global) -> Result<Records, OutOfMemory> {
    let mut records = Records::new(alloc);
    for n in 1..1_001u32 {
        let clock = u64::from(n).saturating_add(3_000);
        records.push(record(alloc, Written::Commit(n, clock)))?;
    }
    for n in 0..1_000u32 {
        let number = 1_000u32.saturating_sub(n);
        let clock = u64::from(number).saturating_add(2_000);
        records.push(record(alloc, Written::Commit(number, clock)))?;
    }
    Ok(records)
}

#[test]
fn two_thousand_records(rt: HostRuntime) -> Result<(), OutOfMemory> {
    let alloc = rt.alloc();
    let decl = three(&rt, alloc)?;
    let records = many_records(alloc)?;
    check_rising(
        &rt,
        alloc,
        &decl,
        records.items(),
        &[
            (Taken::Inquiry(1), "2: 1.1.1 is committed 2001.1"),
            (Taken::Inquiry(500), "2: 1.1.500 is committed 2500.1"),
            (Taken::Inquiry(1_000), "2: 1.1.1000 is committed 3000.1"),
            (Taken::Inquiry(1_001), "2: 1.1.1001 is aborted"),
            (
                Taken::Begin,
                "tell Began { tx: TxId { client: 1, life: 2, number: 1 } }",
            ),
            (
                Taken::Commit,
                "write commit 4001.1 1.2.1 []; tell Committed { stamp: Stamp { clock: 4001, client: 1 } }; else tell Unknown",
            ),
        ],
    )
}
