//! A `do` that is refused, while reading and while appending.

use crate::clients::{BEGAN, check_three, check_weighed};
use crate::declared::{READ, WRITE_0, WRITE_1, WROTE_1, X};
use crate::taken::{Said, Taken};
use qc_list::OutOfMemory;

/// The refusal waits for all answers; a Closed comes before a Clash, and the
/// first of several in asked order. The transaction goes on, with the lines
/// that it was granted and the lives that it knows.
#[test]
fn reads_are_refused(rt: HostRuntime) -> Result<(), OutOfMemory> {
    check_three(
        &rt,
        rt.alloc(),
        &[
            (Taken::Begin, BEGAN),
            (
                Taken::Do(X, READ),
                "1: 1.1.1 epoch 1 life 0 read 0 0; 2: 1.1.1 epoch 1 life 0 read 0 0",
            ),
            (Taken::Answer(10, Said::Clash(2)), ""),
            (
                Taken::Answer(11, Said::Granted(4, &[(4, 0, WROTE_1)])),
                "tell Conflict { tx: TxId { client: 2, life: 1, number: 1 }, site: 1 }",
            ),
            (
                Taken::Do(X, READ),
                "1: 1.1.1 epoch 1 life 0 read 0 0; 2: 1.1.1 epoch 1 life 1 read 0 0",
            ),
            (Taken::Answer(41, Said::Closed(2)), ""),
            (
                Taken::Answer(40, Said::Clash(0)),
                "tell Closed { epoch: 2, site: 2 }",
            ),
            (
                Taken::Do(X, READ),
                "1: 1.1.1 epoch 1 life 0 read 0 0; 2: 1.1.1 epoch 1 life 1 read 0 0",
            ),
            (Taken::Answer(71, Said::Clash(0)), ""),
            (
                Taken::Answer(70, Said::Clash(2)),
                "tell Conflict { tx: TxId { client: 2, life: 1, number: 1 }, site: 1 }",
            ),
            (
                Taken::Do(X, READ),
                "1: 1.1.1 epoch 1 life 0 read 0 0; 2: 1.1.1 epoch 1 life 1 read 0 0",
            ),
            (Taken::Answer(100, Said::Granted(0, &[])), ""),
            (
                Taken::Answer(101, Said::Granted(0, &[])),
                "tell Response { resp: 1 }",
            ),
        ],
    )
}

/// Behind, Restarted, Stale and Fault are as if the site were missing.
#[test]
fn missing_sites_are_short(rt: HostRuntime) -> Result<(), OutOfMemory> {
    check_three(
        &rt,
        rt.alloc(),
        &[
            (Taken::Begin, BEGAN),
            (
                Taken::Do(X, READ),
                "1: 1.1.1 epoch 1 life 0 read 0 0; 2: 1.1.1 epoch 1 life 0 read 0 0",
            ),
            (Taken::Answer(10, Said::Behind), ""),
            (
                Taken::Answer(11, Said::Restarted(2)),
                "0: 1.1.1 epoch 1 life 0 read 0 0",
            ),
            (
                Taken::Answer(30, Said::Granted(0, &[])),
                "tell Quorum { half: Read, got: 1, need: 2 }",
            ),
            (
                Taken::Do(X, READ),
                "1: 1.1.1 epoch 1 life 0 read 0 0; 2: 1.1.1 epoch 1 life 0 read 0 0",
            ),
            (Taken::Answer(50, Said::Stale), ""),
            (
                Taken::Answer(51, Said::Fault),
                "0: 1.1.1 epoch 1 life 1 read 0 0",
            ),
            (
                Taken::Answer(70, Said::Restarted(3)),
                "tell Quorum { half: Read, got: 0, need: 2 }",
            ),
            (Taken::Commit, "0: 1.1.1 epoch 1 life 1 prepare"),
            (
                Taken::Answer(90, Said::Yes(0)),
                "write commit 1.1 1.1.1 []; 0: 1.1.1 is committed 1.1; 1: 1.1.1 is committed 1.1; \
                 2: 1.1.1 is committed 1.1; tell Committed { stamp: Stamp { clock: 1, client: 1 } }; \
                 else tell Unknown",
            ),
        ],
    )
}

/// A transaction that was refused while appending can only be given up.
#[test]
fn refused_appends_doom(rt: HostRuntime) -> Result<(), OutOfMemory> {
    check_three(
        &rt,
        rt.alloc(),
        &[
            (Taken::Begin, BEGAN),
            (
                Taken::Do(X, WRITE_1),
                "1: 1.1.1 epoch 1 life 0 append 0 [][1 0 3]; 2: 1.1.1 epoch 1 life 0 append 0 [][1 0 3]",
            ),
            (Taken::Answer(10, Said::Granted(4, &[])), ""),
            (
                Taken::Answer(11, Said::Clash(0)),
                "tell Conflict { tx: TxId { client: 0, life: 1, number: 1 }, site: 2 }",
            ),
            (Taken::Do(X, READ), "tell Doomed"),
            (Taken::Inquiry(1), "2: 1.1.1 is active"),
            (
                Taken::Commit,
                "1: 1.1.1 is aborted; 2: 1.1.1 is aborted; tell Aborted { why: Doomed }",
            ),
            (Taken::Inquiry(1), "2: 1.1.1 is aborted"),
            (Taken::Do(X, READ), "tell NoTransaction"),
        ],
    )
}

/// So is one that was told of a closed epoch while appending, or for which too
/// few sites are left; `abort` gives it up as well.
#[test]
fn closed_or_short_appends_doom(rt: HostRuntime) -> Result<(), OutOfMemory> {
    check_three(
        &rt,
        rt.alloc(),
        &[
            (Taken::Begin, BEGAN),
            (
                Taken::Do(X, WRITE_1),
                "1: 1.1.1 epoch 1 life 0 append 0 [][1 0 3]; 2: 1.1.1 epoch 1 life 0 append 0 [][1 0 3]",
            ),
            (Taken::Lost(10), ""),
            (
                Taken::Lost(11),
                "0: 1.1.1 epoch 1 life 0 append 0 [][1 0 3]",
            ),
            (
                Taken::Answer(30, Said::Granted(0, &[])),
                "tell Quorum { half: Append, got: 1, need: 2 }",
            ),
            (Taken::Do(X, READ), "tell Doomed"),
            (
                Taken::Abort,
                "0: 1.1.1 is aborted; 1: 1.1.1 is aborted; 2: 1.1.1 is aborted; tell Dropped",
            ),
            (
                Taken::Begin,
                "tell Began { tx: TxId { client: 1, life: 1, number: 2 } }",
            ),
            (
                Taken::Do(X, WRITE_0),
                "1: 1.1.2 epoch 1 life 0 append 0 [][1 0 2]; 2: 1.1.2 epoch 1 life 0 append 0 [][1 0 2]",
            ),
            (Taken::Answer(80, Said::Closed(2)), ""),
            (
                Taken::Answer(81, Said::Granted(0, &[])),
                "tell Closed { epoch: 2, site: 1 }",
            ),
            (
                Taken::Commit,
                "1: 1.1.2 is aborted; 2: 1.1.2 is aborted; tell Aborted { why: Doomed }",
            ),
        ],
    )
}

/// In the second epoch site 2 weighs nothing, and is never asked.
#[test]
fn known_epochs_are_begun_in(rt: HostRuntime) -> Result<(), OutOfMemory> {
    check_weighed(
        &rt,
        rt.alloc(),
        &[
            (Taken::Begin, BEGAN),
            (Taken::Do(X, READ), "1: 1.1.1 epoch 1 life 0 read 0 0"),
            (
                Taken::Answer(10, Said::Closed(2)),
                "tell Closed { epoch: 2, site: 1 }",
            ),
            (Taken::Abort, "1: 1.1.1 is aborted; tell Dropped"),
            (
                Taken::Begin,
                "tell Began { tx: TxId { client: 1, life: 1, number: 2 } }",
            ),
            (
                Taken::Do(X, READ),
                "1: 1.1.2 epoch 2 life 0 read 0 0; 0: 1.1.2 epoch 2 life 0 read 0 0",
            ),
            (Taken::Answer(50, Said::Granted(0, &[])), ""),
            (
                Taken::Answer(51, Said::Granted(0, &[])),
                "tell Response { resp: 0 }",
            ),
            (
                Taken::Do(X, WRITE_0),
                "1: 1.1.2 epoch 2 life 1 append 0 [][2 0 2]; 0: 1.1.2 epoch 2 life 1 append 0 [][2 0 2]",
            ),
        ],
    )
}
