//! Sites that rise from their records: what they ask, what they are, and what
//! they do then.

use crate::journals::Written;
use crate::messages::Taken;
use crate::rises::check_risen;
use crate::sites::{READ, WROTE_0, WROTE_1};
use qc_list::OutOfMemory;

/// It rises in its second life, and is a new site otherwise.
#[test]
fn a_site_without_records(rt: HostRuntime) -> Result<(), OutOfMemory> {
    check_risen(
        &rt,
        rt.alloc(),
        &[],
        "write life",
        (2, 1, 0, 0),
        &[
            (Taken::ReadIn(1, 1), "3: 10 restarted 2"),
            (Taken::Read(0, READ), "3: 11 granted life 2 clock 0 []"),
        ],
    )
}

/// What was promised is held, and asked about; the promise stands, in the new
/// life. Its own lines become lines as the decision comes.
#[test]
fn promises_stand(rt: HostRuntime) -> Result<(), OutOfMemory> {
    check_risen(
        &rt,
        rt.alloc(),
        &[Written::Prepare(0, &[READ], &[(1, WROTE_1)], &[(5, 1, WROTE_0)])],
        "write life; 3: how is 0.1.1",
        (2, 1, 1, 1),
        &[
            (
                Taken::Read(1, READ),
                "4: 10 clash 0.1.1 0 3; 3: how is 0.1.1",
            ),
            (Taken::PrepareIn(1, 1), "3: 11 restarted 2"),
            (Taken::Prepare(0), "3: 12 yes 5"),
            (Taken::Committed(0, 7), "write done 0.1.1 clock 7"),
            (
                Taken::Read(1, READ),
                "4: 14 granted life 2 clock 7 [5.1 1.1.1 1 0 2, 7.0 0.1.1 1 0 3]",
            ),
        ],
    )
}

/// A transaction that is done gave its own lines, and is promised no more.
#[test]
fn what_is_done_is_no_promise(rt: HostRuntime) -> Result<(), OutOfMemory> {
    check_risen(
        &rt,
        rt.alloc(),
        &[
            Written::Prepare(0, &[READ], &[(1, WROTE_1)], &[]),
            Written::Done(0, 7),
        ],
        "write life",
        (2, 1, 1, 0),
        &[
            (
                Taken::Read(1, READ),
                "4: 10 granted life 2 clock 7 [7.0 0.1.1 1 0 3]",
            ),
            (Taken::Prepare(0), "3: 11 stale"),
        ],
    )
}

/// Of two Prepares of a transaction the last counts: it has no lock, and an own
/// line of its own.
#[test]
fn the_last_prepare_counts(rt: HostRuntime) -> Result<(), OutOfMemory> {
    check_risen(
        &rt,
        rt.alloc(),
        &[
            Written::Prepare(0, &[READ], &[(1, WROTE_0)], &[]),
            Written::Prepare(0, &[], &[(1, WROTE_1)], &[]),
        ],
        "write life; 3: how is 0.1.1",
        (2, 1, 0, 1),
        &[
            (
                Taken::Append(1, &[], &[(1, WROTE_0)]),
                "4: 10 granted life 2 clock 0 []",
            ),
            (
                Taken::Read(2, READ),
                "5: 11 clash 0.1.1 0 3; 3: how is 0.1.1",
            ),
            (Taken::Committed(0, 7), "write done 0.1.1 clock 7"),
            (
                Taken::Read(1, READ),
                "4: 13 granted life 2 clock 7 [7.0 0.1.1 1 0 3]",
            ),
        ],
    )
}

/// Each Done gives the own lines of the last Prepare its stamp: another one
/// gives others, the same one none.
#[test]
fn a_late_done_gives_lines_again(rt: HostRuntime) -> Result<(), OutOfMemory> {
    check_risen(
        &rt,
        rt.alloc(),
        &[
            Written::Prepare(0, &[], &[(1, WROTE_1)], &[]),
            Written::Done(0, 9),
            Written::Done(0, 7),
            Written::Done(0, 9),
        ],
        "write life",
        (2, 1, 2, 0),
        &[(
            Taken::Read(1, READ),
            "4: 10 granted life 2 clock 9 [7.0 0.1.1 1 0 3, 9.0 0.1.1 1 0 3]",
        )],
    )
}

/// A Done without a Prepare gives no line, and its clock passes.
#[test]
fn a_done_without_a_prepare(rt: HostRuntime) -> Result<(), OutOfMemory> {
    check_risen(
        &rt,
        rt.alloc(),
        &[Written::Prepare(0, &[READ], &[], &[]), Written::Done(2, 11)],
        "write life; 3: how is 0.1.1",
        (2, 1, 0, 1),
        &[(Taken::Read(1, READ), "4: 10 granted life 2 clock 11 []")],
    )
}

/// What is prepared again behind its Done is promised again.
#[test]
fn what_is_prepared_again_is_promised(rt: HostRuntime) -> Result<(), OutOfMemory> {
    check_risen(
        &rt,
        rt.alloc(),
        &[
            Written::Prepare(0, &[], &[(1, WROTE_1)], &[]),
            Written::Done(0, 7),
            Written::Prepare(0, &[READ], &[], &[]),
        ],
        "write life; 3: how is 0.1.1",
        (2, 1, 1, 1),
        &[
            (Taken::Prepare(0), "3: 10 yes 7"),
            (Taken::Committed(0, 9), "write done 0.1.1 clock 9"),
            (
                Taken::Read(1, READ),
                "4: 12 granted life 2 clock 9 [7.0 0.1.1 1 0 3]",
            ),
        ],
    )
}

/// A closed epoch is closed after a rise, which is one life more; the promise
/// stands.
#[test]
fn a_closed_site_is_closed(rt: HostRuntime) -> Result<(), OutOfMemory> {
    check_risen(
        &rt,
        rt.alloc(),
        &[Written::Prepare(0, &[READ], &[], &[]), Written::Close(2)],
        "write life; 3: how is 0.1.1",
        (3, 1, 0, 1),
        &[
            (Taken::Read(1, READ), "4: 10 closed 2"),
            (Taken::PrepareIn(1, 1), "3: 11 closed 2"),
            (Taken::Committed(0, 4), "write done 0.1.1 clock 4"),
        ],
    )
}

/// With an Install the site begins anew: what was prepared before is gone, also
/// for a Done behind it.
#[test]
fn an_install_begins_anew(rt: HostRuntime) -> Result<(), OutOfMemory> {
    check_risen(
        &rt,
        rt.alloc(),
        &[
            Written::Prepare(0, &[READ], &[(1, WROTE_1)], &[(3, 2, WROTE_1)]),
            Written::Install(2, 9, &[(5, 1, WROTE_0)]),
            Written::Done(0, 11),
        ],
        "write life",
        (2, 2, 1, 0),
        &[
            (Taken::ReadIn(1, 0), "3: 10 closed 2"),
            (Taken::ReadIn(3, 0), "3: 11 behind 2"),
            (
                Taken::ReadIn(2, 0),
                "3: 12 granted life 2 clock 11 [5.1 1.1.1 1 0 2]",
            ),
        ],
    )
}

/// The epoch that was closed for it is open, in the life of the Close. Its clock
/// and its lines' both pass.
#[test]
fn an_install_opens_a_closed_site(rt: HostRuntime) -> Result<(), OutOfMemory> {
    check_risen(
        &rt,
        rt.alloc(),
        &[
            Written::Close(2),
            Written::Install(2, 4, &[(6, 1, WROTE_0)]),
        ],
        "write life",
        (3, 2, 1, 0),
        &[(
            Taken::ReadIn(2, 0),
            "3: 10 granted life 3 clock 6 [6.1 1.1.1 1 0 2]",
        )],
    )
}

/// Promises are asked about in the order of their transactions, and not in that
/// of their records.
#[test]
fn inquiries_are_in_order(rt: HostRuntime) -> Result<(), OutOfMemory> {
    check_risen(
        &rt,
        rt.alloc(),
        &[
            Written::Prepare(2, &[READ], &[], &[]),
            Written::Prepare(0, &[READ], &[], &[]),
            Written::Prepare(1, &[READ], &[], &[]),
        ],
        "write life; 3: how is 0.1.1; 4: how is 1.1.1; 5: how is 2.1.1",
        (2, 1, 0, 3),
        &[],
    )
}

/// Each rise and each Close is a life. What no site writes gives nothing.
#[test]
fn lives_are_counted(rt: HostRuntime) -> Result<(), OutOfMemory> {
    check_risen(
        &rt,
        rt.alloc(),
        &[
            Written::Life,
            Written::Life,
            Written::Close(2),
            Written::Life,
            Written::Commit(0, 9),
            Written::Decide(3),
        ],
        "write life",
        (6, 1, 0, 0),
        &[(Taken::Read(0, READ), "3: 10 closed 2")],
    )
}
