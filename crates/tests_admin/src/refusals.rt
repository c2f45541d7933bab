//! What keeps an epoch from being decided.

use crate::admins::check_three;
use crate::taken::{Said, Taken, WROTE_1};
use qc_list::OutOfMemory;
use std::alloc::Global;

/// A site that promised first is named, where a client says that the transaction
/// is active, or its answer is lost: the first such question, in the order of
/// asking. The epoch stays, and may be closed again.
#[test]
fn questions_stay_in_doubt(rt: HostRuntime) -> Result<(), OutOfMemory> {
    check_three(
        &rt,
        rt.alloc(),
        &[
            (Taken::Epoch(2), "0: close 2; 1: close 2"),
            (Taken::Shut(0, 7, &[], &[(2, 1, WROTE_1)]), ""),
            (
                Taken::Shut(
                    1,
                    5,
                    &[],
                    &[(0, 1, WROTE_1), (1, 1, WROTE_1), (2, 1, WROTE_1)],
                ),
                "5: ask 2.1.1; 3: ask 0.1.1; 4: ask 1.1.1",
            ),
            (Taken::Answer(22, Said::Active), ""),
            (Taken::Answer(20, Said::Committed(2, 9)), ""),
            (
                Taken::Lost(21),
                "tell InDoubt { tx: TxId { client: 0, life: 1, number: 1 }, site: 1 }",
            ),
            (Taken::Epoch(1), "tell Order { current: 1 }"),
            (Taken::Epoch(2), "0: close 2; 1: close 2"),
            (Taken::Shut(71, 5, &[], &[]), ""),
            (Taken::Shut(70, 7, &[], &[(2, 1, WROTE_1)]), "5: ask 2.1.1"),
            (
                Taken::Answer(90, Said::Active),
                "tell InDoubt { tx: TxId { client: 2, life: 1, number: 1 }, site: 0 }",
            ),
        ],
    )
}

/// A site that is in the epoch already, or too far behind, isn't closed: where too
/// few are, that is told once all were asked.
#[test]
fn too_few_close(rt: HostRuntime) -> Result<(), OutOfMemory> {
    check_three(
        &rt,
        rt.alloc(),
        &[
            (Taken::Epoch(2), "0: close 2; 1: close 2"),
            (Taken::Answer(0, Said::Closed), ""),
            (Taken::Shut(1, 5, &[], &[]), "2: close 2"),
            (
                Taken::Lost(20),
                "tell Quorum { half: Close, got: 1, need: 2 }",
            ),
            (Taken::Epoch(2), "0: close 2; 1: close 2"),
            (Taken::Lost(40), ""),
            (Taken::Answer(41, Said::Behind), "2: close 2"),
            (
                Taken::Answer(60, Said::Granted),
                "tell Quorum { half: Close, got: 0, need: 2 }",
            ),
            (Taken::Epoch(3), "tell Order { current: 1 }"),
        ],
    )
}

/// So many lines are one too many for a record.
const TOO_MANY_LINES: u64 = 3277;

/// So many lines of one client, with clocks from 0 on.
fn lines(alloc: Global, count: u64) -> Result<Vec<(u64, u8, u8)>, OutOfMemory> {
    let mut lines = Vec::new(alloc);
    for clock in 0..count {
        lines.push((clock, 0, WROTE_1))?;
    }
    Ok(lines)
}

/// A decision that is too long for its record is refused.
#[test]
fn a_decision_is_too_long(rt: HostRuntime) -> Result<(), OutOfMemory> {
    let alloc = rt.alloc();
    let lines = lines(alloc, TOO_MANY_LINES)?;
    check_three(
        &rt,
        alloc,
        &[
            (Taken::Epoch(2), "0: close 2; 1: close 2"),
            (Taken::Shut(0, 7, lines.as_slice(), &[]), ""),
            (Taken::Shut(1, 5, &[], &[]), "tell Fault"),
            (Taken::Epoch(3), "tell Order { current: 1 }"),
        ],
    )
}
