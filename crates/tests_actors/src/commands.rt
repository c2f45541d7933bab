//! Commands that have no transaction, or one with too many operations;
//! Inquiries.

use crate::clients::{BEGAN, check_three, check_weighed};
use crate::declared::{BELL, READ, RING, X};
use crate::taken::Taken;
use qc_list::OutOfMemory;

/// A transaction begins once; commands that want one are told that there is
/// none.
#[test]
fn begins_are_told(rt: HostRuntime) -> Result<(), OutOfMemory> {
    check_three(
        &rt,
        rt.alloc(),
        &[
            (Taken::Do(X, READ), "tell NoTransaction"),
            (Taken::Commit, "tell NoTransaction"),
            (Taken::Abort, "tell NoTransaction"),
            (Taken::Begin, BEGAN),
            (
                Taken::Begin,
                "tell Already { tx: TxId { client: 1, life: 1, number: 1 } }",
            ),
            (Taken::Abort, "tell Dropped"),
            (Taken::Abort, "tell NoTransaction"),
            (
                Taken::Begin,
                "tell Began { tx: TxId { client: 1, life: 1, number: 2 } }",
            ),
            (
                Taken::Commit,
                "write commit 1.1 1.1.2 []; tell Committed { stamp: Stamp { clock: 1, client: 1 } }; else tell Unknown",
            ),
            (
                Taken::Begin,
                "tell Began { tx: TxId { client: 1, life: 1, number: 3 } }",
            ),
        ],
    )
}

/// Sixteen operations are the most. An event that needs nobody is told at once.
#[test]
fn transactions_may_be_too_long(rt: HostRuntime) -> Result<(), OutOfMemory> {
    let ring = (Taken::Do(BELL, RING), "tell Response { resp: 0 }");
    check_weighed(
        &rt,
        rt.alloc(),
        &[
            (Taken::Begin, BEGAN),
            ring,
            ring,
            ring,
            ring,
            ring,
            ring,
            ring,
            ring,
            ring,
            ring,
            ring,
            ring,
            ring,
            ring,
            ring,
            ring,
            (Taken::Do(BELL, RING), "tell TooLong"),
            (Taken::Do(X, READ), "tell TooLong"),
            (
                Taken::Commit,
                "write commit 1.1 1.1.1 [1 0 0, 1 0 0, 1 0 0, 1 0 0, 1 0 0, 1 0 0, 1 0 0, 1 0 0, 1 0 0, 1 0 0, \
                 1 0 0, 1 0 0, 1 0 0, 1 0 0, 1 0 0, 1 0 0]; tell Committed { stamp: Stamp { clock: 1, \
                 client: 1 } }; else tell Unknown",
            ),
        ],
    )
}

/// An Inquiry is answered to the site that asks, an Ask under its own number.
#[test]
fn outcomes_are_told(rt: HostRuntime) -> Result<(), OutOfMemory> {
    check_three(
        &rt,
        rt.alloc(),
        &[
            (Taken::Inquiry(1), "2: 1.1.1 is aborted"),
            (Taken::Begin, BEGAN),
            (Taken::Inquiry(1), "2: 1.1.1 is active"),
            (Taken::Ask(1), "6: 77 active"),
            (
                Taken::Commit,
                "write commit 1.1 1.1.1 []; tell Committed { stamp: Stamp { clock: 1, client: 1 } }; else tell Unknown",
            ),
            (Taken::Inquiry(1), "2: 1.1.1 is committed 1.1"),
            (Taken::Ask(1), "6: 77 committed 1.1"),
            (
                Taken::Begin,
                "tell Began { tx: TxId { client: 1, life: 1, number: 2 } }",
            ),
            (Taken::Abort, "tell Dropped"),
            (Taken::Inquiry(2), "2: 1.1.2 is aborted"),
            (Taken::Ask(2), "6: 77 aborted"),
            (Taken::Inquiry(1), "2: 1.1.1 is committed 1.1"),
        ],
    )
}
