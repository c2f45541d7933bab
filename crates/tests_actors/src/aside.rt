//! What doesn't count: second answers, late ones, answers to nothing.

use crate::clients::{BEGAN, check_three};
use crate::declared::{READ, WRITE_1, WROTE_1, X};
use crate::taken::{Said, Taken};
use qc_list::OutOfMemory;

/// What is put aside doesn't even move the clock: the stamp is above the
/// counted ones alone.
#[test]
fn only_the_first_answer_counts(rt: HostRuntime) -> Result<(), OutOfMemory> {
    check_three(
        &rt,
        rt.alloc(),
        &[
            (Taken::Answer(0, Said::Granted(50, &[])), ""),
            (Taken::Begin, BEGAN),
            (Taken::Answer(0, Said::Granted(50, &[])), ""),
            (
                Taken::Do(X, WRITE_1),
                "1: 1.1.1 epoch 1 life 0 append 0 [][1 0 3]; 2: 1.1.1 epoch 1 life 0 append 0 [][1 0 3]",
            ),
            (Taken::Answer(30, Said::Granted(3, &[])), ""),
            (Taken::Answer(30, Said::Granted(50, &[])), ""),
            (Taken::Answer(30, Said::Clash(2)), ""),
            (Taken::Lost(30), ""),
            (Taken::Answer(37, Said::Granted(50, &[])), ""),
            (
                Taken::Answer(31, Said::Granted(0, &[])),
                "tell Response { resp: 2 }",
            ),
            (Taken::Answer(31, Said::Granted(50, &[])), ""),
            (
                Taken::Commit,
                "1: 1.1.1 epoch 1 life 1 prepare; 2: 1.1.1 epoch 1 life 1 prepare",
            ),
            (Taken::Answer(31, Said::Granted(50, &[])), ""),
            (Taken::Answer(110, Said::Yes(4)), ""),
            (Taken::Answer(110, Said::Yes(50)), ""),
            (Taken::Answer(110, Said::Fault), ""),
            (Taken::Lost(110), ""),
            (
                Taken::Answer(111, Said::Yes(0)),
                "write commit 5.1 1.1.1 [0 2 2]; 1: 1.1.1 is committed 5.1; 2: 1.1.1 is committed 5.1; \
                 tell Committed { stamp: Stamp { clock: 5, client: 1 } }; else tell Unknown",
            ),
            (Taken::Answer(111, Said::Fault), ""),
        ],
    )
}

/// A lost request stays so: a late grant doesn't count, and shows no line.
#[test]
fn late_grants_do_not_count(rt: HostRuntime) -> Result<(), OutOfMemory> {
    check_three(
        &rt,
        rt.alloc(),
        &[
            (Taken::Begin, BEGAN),
            (
                Taken::Do(X, READ),
                "1: 1.1.1 epoch 1 life 0 read 0 0; 2: 1.1.1 epoch 1 life 0 read 0 0",
            ),
            (Taken::Lost(10), ""),
            (Taken::Answer(10, Said::Granted(9, &[(9, 2, WROTE_1)])), ""),
            (
                Taken::Answer(11, Said::Granted(0, &[])),
                "0: 1.1.1 epoch 1 life 0 read 0 0",
            ),
            (Taken::Answer(10, Said::Granted(9, &[(9, 2, WROTE_1)])), ""),
            (
                Taken::Answer(40, Said::Granted(0, &[])),
                "tell Response { resp: 0 }",
            ),
            (
                Taken::Commit,
                "2: 1.1.1 epoch 1 life 1 prepare; 0: 1.1.1 epoch 1 life 1 prepare",
            ),
            (Taken::Answer(70, Said::Yes(0)), ""),
            (
                Taken::Answer(71, Said::Yes(0)),
                "write commit 1.1 1.1.1 [0 0 0]; 0: 1.1.1 is committed 1.1; 1: 1.1.1 is committed 1.1; \
                 2: 1.1.1 is committed 1.1; tell Committed { stamp: Stamp { clock: 1, client: 1 } }; \
                 else tell Unknown",
            ),
        ],
    )
}
