//! Commits that a participant refuses.

use crate::clients::{BEGAN, check_three, check_weighed};
use crate::declared::{READ, WRITE_0, WRITE_1, X};
use crate::taken::{Said, Taken};
use qc_list::OutOfMemory;
use std::alloc::Global;
use std::process::Abort;

/// The participants are the sites 1 and 2, in the lives 3 and 4; the Prepares
/// are the messages 40 and 41. Each row has what comes first, what comes
/// second, and what the client does then. The cause is the first against in the
/// client's order of sites, and not the first that came.
#[test]
fn the_first_vote_against_is_the_cause(rt: HostRuntime) -> Result<(), OutOfMemory> {
    for (one, two, want) in [
        (
            Taken::Answer(40, Said::Restarted(5)),
            Taken::Answer(41, Said::Yes(0)),
            "1: 1.1.1 is aborted; 2: 1.1.1 is aborted; tell Aborted { why: Restarted { site: 1, old: 3, new: 5 } }",
        ),
        (
            Taken::Answer(40, Said::Yes(0)),
            Taken::Answer(41, Said::Restarted(9)),
            "1: 1.1.1 is aborted; 2: 1.1.1 is aborted; tell Aborted { why: Restarted { site: 2, old: 4, new: 9 } }",
        ),
        (
            Taken::Answer(40, Said::Closed(2)),
            Taken::Answer(41, Said::Fault),
            "1: 1.1.1 is aborted; 2: 1.1.1 is aborted; tell Aborted { why: Closed { epoch: 2, site: 1 } }",
        ),
        (
            Taken::Answer(41, Said::Fault),
            Taken::Answer(40, Said::Yes(9)),
            "1: 1.1.1 is aborted; 2: 1.1.1 is aborted; tell Aborted { why: Fault { site: 2 } }",
        ),
        (
            Taken::Answer(41, Said::Fault),
            Taken::Answer(40, Said::Stale),
            "1: 1.1.1 is aborted; 2: 1.1.1 is aborted; tell Aborted { why: Forgot { site: 1 } }",
        ),
        (
            Taken::Lost(41),
            Taken::Answer(40, Said::Yes(9)),
            "1: 1.1.1 is aborted; 2: 1.1.1 is aborted; tell Aborted { why: NoAnswer { site: 2 } }",
        ),
        (
            Taken::Answer(41, Said::Yes(0)),
            Taken::Lost(40),
            "1: 1.1.1 is aborted; 2: 1.1.1 is aborted; tell Aborted { why: NoAnswer { site: 1 } }",
        ),
        (
            Taken::Answer(40, Said::Stale),
            Taken::Lost(41),
            "1: 1.1.1 is aborted; 2: 1.1.1 is aborted; tell Aborted { why: Forgot { site: 1 } }",
        ),
        (
            Taken::Answer(41, Said::Behind),
            Taken::Answer(40, Said::Yes(0)),
            "1: 1.1.1 is aborted; 2: 1.1.1 is aborted; tell Aborted { why: Forgot { site: 2 } }",
        ),
    ] {
        check_votes(&rt, rt.alloc(), one, two, want)?;
    }
    Ok(())
}

/// A write that the sites 1 and 2 granted is to commit, and this comes of it.
fn check_votes<'a>(
    rt: &impl Abort,
    alloc: Global,
    one: Taken<'a>,
    two: Taken<'a>,
    want: &'a str,
) -> Result<(), OutOfMemory> {
    check_three(
        rt,
        alloc,
        &[
            (Taken::Begin, BEGAN),
            (
                Taken::Do(X, WRITE_1),
                "1: 1.1.1 epoch 1 life 0 append 0 [][1 0 3]; 2: 1.1.1 epoch 1 life 0 append 0 [][1 0 3]",
            ),
            (Taken::Answer(10, Said::GrantedIn(3)), ""),
            (
                Taken::Answer(11, Said::GrantedIn(4)),
                "tell Response { resp: 2 }",
            ),
            (
                Taken::Commit,
                "1: 1.1.1 epoch 1 life 3 prepare; 2: 1.1.1 epoch 1 life 4 prepare",
            ),
            (one, ""),
            (two, want),
            (Taken::Inquiry(1), "2: 1.1.1 is aborted"),
            (Taken::Commit, "tell NoTransaction"),
        ],
    )
}

/// A vote that tells of a closed epoch tells the client: it begins in that.
#[test]
fn closed_votes_tell_the_epoch(rt: HostRuntime) -> Result<(), OutOfMemory> {
    check_weighed(
        &rt,
        rt.alloc(),
        &[
            (Taken::Begin, BEGAN),
            (
                Taken::Do(X, WRITE_0),
                "1: 1.1.1 epoch 1 life 0 append 0 [][1 0 2]; 2: 1.1.1 epoch 1 life 0 append 0 [][1 0 2]",
            ),
            (Taken::Answer(11, Said::Granted(0, &[])), ""),
            (
                Taken::Answer(10, Said::Granted(0, &[])),
                "tell Response { resp: 2 }",
            ),
            (
                Taken::Commit,
                "1: 1.1.1 epoch 1 life 1 prepare; 2: 1.1.1 epoch 1 life 1 prepare",
            ),
            (Taken::Answer(40, Said::Yes(6)), ""),
            (
                Taken::Answer(41, Said::Closed(2)),
                "1: 1.1.1 is aborted; 2: 1.1.1 is aborted; tell Aborted { why: Closed { epoch: 2, site: 2 } }",
            ),
            (
                Taken::Begin,
                "tell Began { tx: TxId { client: 1, life: 1, number: 2 } }",
            ),
            (
                Taken::Do(X, READ),
                "1: 1.1.2 epoch 2 life 0 read 0 0; 0: 1.1.2 epoch 2 life 0 read 0 0",
            ),
        ],
    )
}
