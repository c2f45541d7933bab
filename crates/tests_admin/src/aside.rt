//! What doesn't count: second answers, late ones, answers to nothing, and what
//! nobody sends or commands him.

use crate::admins::check_three;
use crate::taken::{Other, Said, Taken, WROTE_1};
use qc_list::OutOfMemory;

/// The first thing for an open request counts; all else is put aside.
#[test]
fn only_the_first_counts(rt: HostRuntime) -> Result<(), OutOfMemory> {
    check_three(
        &rt,
        rt.alloc(),
        &[
            (Taken::Lost(0), ""),
            (Taken::Shut(0, 50, &[], &[]), ""),
            (Taken::Epoch(2), "0: close 2; 1: close 2"),
            (Taken::Shut(20, 7, &[], &[(1, 1, WROTE_1)]), ""),
            (Taken::Lost(20), ""),
            (Taken::Shut(20, 50, &[], &[]), ""),
            (Taken::Lost(22), ""),
            (
                Taken::Shut(21, 5, &[], &[(2, 1, WROTE_1)]),
                "4: ask 1.1.1; 5: ask 2.1.1",
            ),
            (Taken::Answer(71, Said::Aborted), ""),
            (Taken::Answer(71, Said::Active), ""),
            (Taken::Answer(69, Said::Active), ""),
            (Taken::Answer(72, Said::Active), ""),
            (
                Taken::Answer(70, Said::Aborted),
                "write decide 2; 0: install 2 clock 7 []; 1: install 2 clock 7 []; \
                 2: install 2 clock 7 []; else tell Fault",
            ),
            (Taken::Answer(121, Said::Installed), ""),
            (Taken::Answer(121, Said::Installed), ""),
            (Taken::Answer(122, Said::Yes), ""),
            (Taken::Answer(122, Said::Installed), ""),
            (Taken::Answer(21, Said::Installed), ""),
            (
                Taken::Answer(120, Said::Restarted),
                "tell Moved { closed: 3, installed: 2 }",
            ),
            (Taken::Answer(120, Said::Installed), ""),
        ],
    )
}

/// A lost Ask stays lost, whatever its client says later.
#[test]
fn lost_asks_stay_lost(rt: HostRuntime) -> Result<(), OutOfMemory> {
    check_three(
        &rt,
        rt.alloc(),
        &[
            (Taken::Epoch(2), "0: close 2; 1: close 2"),
            (
                Taken::Shut(0, 7, &[], &[(0, 1, WROTE_1), (1, 1, WROTE_1)]),
                "",
            ),
            (Taken::Shut(1, 5, &[], &[]), "3: ask 0.1.1; 4: ask 1.1.1"),
            (Taken::Lost(20), ""),
            (Taken::Answer(20, Said::Committed(0, 9)), ""),
            (
                Taken::Answer(21, Said::Aborted),
                "tell InDoubt { tx: TxId { client: 0, life: 1, number: 1 }, site: 0 }",
            ),
        ],
    )
}

/// He isn't asked for transactions, and is sent answers alone.
#[test]
fn nothing_else_is_done(rt: HostRuntime) -> Result<(), OutOfMemory> {
    check_three(
        &rt,
        rt.alloc(),
        &[
            (Taken::Begin, ""),
            (Taken::Do, ""),
            (Taken::Commit, ""),
            (Taken::Abort, ""),
            (Taken::Epoch(2), "0: close 2; 1: close 2"),
            (Taken::Other(Other::Request), ""),
            (Taken::Other(Other::Decision), ""),
            (Taken::Other(Other::Inquiry), ""),
            (Taken::Other(Other::Ask), ""),
            (Taken::Other(Other::Close), ""),
            (Taken::Other(Other::Install), ""),
            (Taken::Answer(40, Said::Clash), ""),
            (Taken::Answer(41, Said::Stale), "2: close 2"),
        ],
    )
}
