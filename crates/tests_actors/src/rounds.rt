//! A `do` with both its rounds, counted answers and lost requests, and commits.

use crate::clients::{BEGAN, check_three, check_weighed};
use crate::declared::{GET, PUT, READ, SLOT, WRITE_0, WRITE_1, WROTE_0, WROTE_1, X};
use crate::taken::{Said, Taken};
use qc_list::OutOfMemory;

/// W1 appends at two sites; R reads at two, and its event needs no append. The
/// view and the own lines that weigh go along with the next Append. A lost
/// request is one further site's, once all others are noted. The stamp is above
/// all clocks that counted, and the next one above it.
#[test]
fn a_transaction_runs(rt: HostRuntime) -> Result<(), OutOfMemory> {
    check_three(
        &rt,
        rt.alloc(),
        &[
            (Taken::Begin, BEGAN),
            (
                Taken::Do(X, WRITE_1),
                "1: 1.1.1 epoch 1 life 0 append 0 [][1 0 3]; 2: 1.1.1 epoch 1 life 0 append 0 [][1 0 3]",
            ),
            (Taken::Answer(10, Said::Granted(4, &[])), ""),
            (
                Taken::Answer(11, Said::Granted(0, &[])),
                "tell Response { resp: 2 }",
            ),
            (
                Taken::Do(X, READ),
                "1: 1.1.1 epoch 1 life 1 read 0 0; 2: 1.1.1 epoch 1 life 1 read 0 0",
            ),
            (Taken::Answer(41, Said::Granted(6, &[(5, 0, WROTE_0)])), ""),
            (
                Taken::Answer(40, Said::Granted(1, &[(3, 2, WROTE_1)])),
                "tell Response { resp: 1 }",
            ),
            (
                Taken::Do(X, WRITE_0),
                "1: 1.1.1 epoch 1 life 1 append 0 [3.2 2.1.1 1 0 3, 5.0 0.1.1 1 0 2][1 0 3, 3 0 2]; \
                 2: 1.1.1 epoch 1 life 1 append 0 [3.2 2.1.1 1 0 3, 5.0 0.1.1 1 0 2][1 0 3, 3 0 2]",
            ),
            (Taken::Lost(70), ""),
            (
                Taken::Answer(71, Said::Granted(0, &[])),
                "0: 1.1.1 epoch 1 life 0 append 0 [3.2 2.1.1 1 0 3, 5.0 0.1.1 1 0 2][1 0 3, 3 0 2]",
            ),
            (
                Taken::Answer(90, Said::Granted(0, &[])),
                "tell Response { resp: 2 }",
            ),
            (
                Taken::Commit,
                "1: 1.1.1 epoch 1 life 1 prepare; 2: 1.1.1 epoch 1 life 1 prepare; 0: 1.1.1 epoch 1 life 1 prepare",
            ),
            (Taken::Answer(110, Said::Yes(2)), ""),
            (Taken::Answer(112, Said::Yes(9)), ""),
            (Taken::Inquiry(1), "2: 1.1.1 is active"),
            (
                Taken::Answer(111, Said::Yes(3)),
                "write commit 10.1 1.1.1 [0 2 2, 0 0 1, 0 1 2]; 0: 1.1.1 is committed 10.1; \
                 1: 1.1.1 is committed 10.1; 2: 1.1.1 is committed 10.1; \
                 tell Committed { stamp: Stamp { clock: 10, client: 1 } }; else tell Unknown",
            ),
            (Taken::Inquiry(1), "2: 1.1.1 is committed 10.1"),
            (
                Taken::Begin,
                "tell Began { tx: TxId { client: 1, life: 1, number: 2 } }",
            ),
            (
                Taken::Do(X, READ),
                "1: 1.1.2 epoch 1 life 0 read 0 0; 2: 1.1.2 epoch 1 life 0 read 0 0",
            ),
            (
                Taken::Answer(180, Said::Granted(0, &[(10, 1, WROTE_0)])),
                "",
            ),
            (
                Taken::Answer(181, Said::Granted(10, &[(3, 2, WROTE_1)])),
                "tell Response { resp: 0 }",
            ),
            (
                Taken::Commit,
                "1: 1.1.2 epoch 1 life 1 prepare; 2: 1.1.2 epoch 1 life 1 prepare",
            ),
            (Taken::Answer(210, Said::Yes(0)), ""),
            (
                Taken::Answer(211, Said::Yes(0)),
                "write commit 11.1 1.1.2 [0 0 0]; 1: 1.1.2 is committed 11.1; 2: 1.1.2 is committed 11.1; \
                 tell Committed { stamp: Stamp { clock: 11, client: 1 } }; else tell Unknown",
            ),
        ],
    )
}

/// With no participant a commit is at once, and all sites that were asked hear
/// of it.
#[test]
fn commits_without_a_participant(rt: HostRuntime) -> Result<(), OutOfMemory> {
    check_three(
        &rt,
        rt.alloc(),
        &[
            (Taken::Begin, BEGAN),
            (
                Taken::Commit,
                "write commit 1.1 1.1.1 []; tell Committed { stamp: Stamp { clock: 1, client: 1 } }; else tell Unknown",
            ),
            (
                Taken::Begin,
                "tell Began { tx: TxId { client: 1, life: 1, number: 2 } }",
            ),
            (
                Taken::Do(X, READ),
                "1: 1.1.2 epoch 1 life 0 read 0 0; 2: 1.1.2 epoch 1 life 0 read 0 0",
            ),
            (Taken::Lost(30), ""),
            (Taken::Lost(31), "0: 1.1.2 epoch 1 life 0 read 0 0"),
            (
                Taken::Lost(50),
                "tell Quorum { half: Read, got: 0, need: 2 }",
            ),
            (
                Taken::Commit,
                "write commit 2.1 1.1.2 []; 0: 1.1.2 is committed 2.1; 1: 1.1.2 is committed 2.1; \
                 2: 1.1.2 is committed 2.1; tell Committed { stamp: Stamp { clock: 2, client: 1 } }; \
                 else tell Unknown",
            ),
        ],
    )
}

/// An operation without a response is counted, and has no own line.
#[test]
fn absent_operations_are_recorded(rt: HostRuntime) -> Result<(), OutOfMemory> {
    check_weighed(
        &rt,
        rt.alloc(),
        &[
            (Taken::Begin, BEGAN),
            (
                Taken::Do(SLOT, GET),
                "1: 1.1.1 epoch 1 life 0 read 2 1; 2: 1.1.1 epoch 1 life 0 read 2 1",
            ),
            (Taken::Answer(10, Said::Granted(0, &[])), ""),
            (Taken::Answer(11, Said::Granted(0, &[])), "tell Absent"),
            (
                Taken::Do(SLOT, PUT),
                "1: 1.1.1 epoch 1 life 1 read 2 0; 2: 1.1.1 epoch 1 life 1 read 2 0",
            ),
            (Taken::Answer(40, Said::Granted(0, &[])), ""),
            (
                Taken::Answer(41, Said::Granted(0, &[])),
                "1: 1.1.1 epoch 1 life 1 append 2 [][2 2 0]",
            ),
            (
                Taken::Answer(60, Said::Granted(0, &[])),
                "tell Response { resp: 0 }",
            ),
            (
                Taken::Commit,
                "1: 1.1.1 epoch 1 life 1 prepare; 2: 1.1.1 epoch 1 life 1 prepare",
            ),
            (Taken::Answer(80, Said::Yes(0)), ""),
            (
                Taken::Answer(81, Said::Yes(0)),
                "write commit 1.1 1.1.1 [2 1 -, 2 0 0]; 1: 1.1.1 is committed 1.1; 2: 1.1.1 is committed 1.1; \
                 tell Committed { stamp: Stamp { clock: 1, client: 1 } }; else tell Unknown",
            ),
        ],
    )
}

/// A site of weight 2 is as good as two of weight 1: without it two grants meet
/// a read, and are too few for a write.
#[test]
fn weights_are_met(rt: HostRuntime) -> Result<(), OutOfMemory> {
    check_weighed(
        &rt,
        rt.alloc(),
        &[
            (Taken::Begin, BEGAN),
            (Taken::Do(X, READ), "1: 1.1.1 epoch 1 life 0 read 0 0"),
            (Taken::Lost(10), "2: 1.1.1 epoch 1 life 0 read 0 0"),
            (
                Taken::Answer(20, Said::Granted(0, &[])),
                "0: 1.1.1 epoch 1 life 0 read 0 0",
            ),
            (
                Taken::Answer(30, Said::Granted(0, &[])),
                "tell Response { resp: 0 }",
            ),
            (
                Taken::Do(X, WRITE_1),
                "1: 1.1.1 epoch 1 life 0 append 0 [][2 0 3]; 2: 1.1.1 epoch 1 life 1 append 0 [][2 0 3]",
            ),
            (Taken::Lost(50), ""),
            (
                Taken::Answer(51, Said::Granted(0, &[])),
                "0: 1.1.1 epoch 1 life 1 append 0 [][2 0 3]",
            ),
            (
                Taken::Answer(70, Said::Granted(0, &[])),
                "tell Quorum { half: Append, got: 2, need: 3 }",
            ),
        ],
    )
}
