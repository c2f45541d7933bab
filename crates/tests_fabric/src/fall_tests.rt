//! A table of calls by which disks are armed, actors fall and rise, and records
//! aren't written.

use crate::calls::{Act, Finds, Row, Saw, Says};
use crate::steps::Short;
use crate::tests::plays;
use qc_fabric::Picked;
use qc_msg::{Appended, Fall};

/// In the first phase the disk of the site 0 is armed, and the site 1 crashes; in
/// the second both are restarted; in the third they are again, and lines that have
/// nothing to do are passed over.
const SCRIPT: &[u8] = b"phase\nfail s0 at 4\ncrash s1\nc0 begin\n\
    phase\nrestart s1\nrestart s0\nc0 abort\n\
    phase\ncrash s0\nrestart s0\nrestart s1\nrestart s2\ncrash c1\nc1 begin\n";

/// Each call with its answer.
const ROWS: [Row; 47] = [
    (Act::Phase, Saw::Began),
    // what comes first is the arming: nobody else may do anything
    (Act::Take(3), Saw::Took(None)),
    (Act::Control, Saw::MayNot),
    (Act::Crash(1), Saw::MayNot),
    (Act::Arm(1), Saw::MayNot),
    (Act::Arm(0), Saw::Acted),
    (Act::Crash(0), Saw::MayNot),
    (Act::Crash(1), Saw::Acted),
    // the request to the site 1 is lost, since that is down
    (Act::Take(3), Saw::Took(Some((3, b'C', 0)))),
    (Act::Post(3, Says::AsksBoth(0, 1)), Saw::Posted(0)),
    (Act::Take(1), Saw::Took(None)),
    // the disk of the site 0 fails: it asks the client, and falls, so the other
    // request is lost too
    (Act::Take(0), Saw::Took(Some((0, b'G', 0)))),
    (
        Act::Post(0, Says::Writes(Appended::Failed, 3)),
        Saw::Posted(2),
    ),
    (Act::Take(3), Saw::Took(Some((3, b'G', 2)))),
    (Act::Post(3, Says::Nothing), Saw::Posted(3)),
    (Act::Take(3), Saw::Took(Some((3, b'L', 0)))),
    (Act::Post(3, Says::Nothing), Saw::Posted(3)),
    (Act::Take(3), Saw::Took(Some((3, b'L', 1)))),
    (Act::Post(3, Says::Tells), Saw::Posted(3)),
    (Act::Quiet, Saw::Is(true)),
    (Act::Phase, Saw::Began),
    // the journal of the site 1 is damaged, and the site 0 rises
    (Act::Restart(0, Finds::Damage), Saw::MayNot),
    (Act::Restart(1, Finds::Fault(Fall::Script)), Saw::MayNot),
    (Act::Restart(1, Finds::Damage), Saw::Posted(3)),
    (
        Act::Restart(0, Finds::Nothing(Appended::Done, 3)),
        Saw::Posted(3),
    ),
    (Act::Take(3), Saw::Took(Some((3, b'G', 3)))),
    (Act::Post(3, Says::Answers(0, 3)), Saw::Posted(4)),
    // its disk stops: it only tells, and falls
    (Act::Take(0), Saw::Took(Some((0, b'G', 4)))),
    (
        Act::Post(0, Says::Writes(Appended::Stopped, 3)),
        Saw::Posted(5),
    ),
    (Act::Take(3), Saw::Took(Some((3, b'C', 0)))),
    (
        Act::Post(3, Says::Writes(Appended::Done, 2)),
        Saw::Posted(5),
    ),
    (Act::Take(2), Saw::Took(Some((2, b'G', 5)))),
    (Act::Post(2, Says::Answers(3, 5)), Saw::Posted(6)),
    (Act::Take(3), Saw::Took(Some((3, b'G', 6)))),
    (Act::Post(3, Says::Tells), Saw::Posted(7)),
    (Act::Quiet, Saw::Is(true)),
    (Act::Phase, Saw::Began),
    // the disk of the site 0 fails as the journal is opened, and the site 1 rises in
    // vain
    (Act::Restart(0, Finds::Fault(Fall::Disk)), Saw::Posted(7)),
    (
        Act::Restart(1, Finds::Nothing(Appended::Failed, 3)),
        Saw::Posted(7),
    ),
    (Act::Crash(4), Saw::Acted),
    // a client that is down takes commands, and may only tell replies
    (Act::Take(4), Saw::Took(Some((4, b'C', 0)))),
    (Act::Post(4, Says::Asks(2)), Saw::MayNot),
    (Act::Post(4, Says::Tells), Saw::Posted(8)),
    (Act::Take(3), Saw::Took(Some((3, b'G', 7)))),
    (Act::Post(3, Says::Nothing), Saw::Posted(8)),
    (Act::Pick, Saw::Picked(Some(Picked::Quiet))),
    (Act::Quiet, Saw::Is(true)),
];

/// The history that these calls make.
const STEPS: [Short; 41] = [
    (7, b'P', 1),
    (7, b'A', 4),
    (1, b'f', 0),
    (3, b'C', 0),
    (3, b'S', 0),
    (3, b'S', 1),
    (0, b'G', 0),
    (0, b'S', 2),
    (0, b'T', 0),
    (0, b'F', 2),
    (3, b'G', 2),
    (3, b'L', 0),
    (3, b'L', 1),
    (3, b'T', 0),
    (7, b'P', 2),
    (1, b'D', 0),
    (0, b'R', 0),
    (0, b'W', 0),
    (0, b'S', 3),
    (3, b'G', 3),
    (3, b'S', 4),
    (0, b'G', 4),
    (0, b'T', 0),
    (0, b'F', 1),
    (3, b'C', 0),
    (3, b'W', 0),
    (3, b'S', 5),
    (2, b'G', 5),
    (2, b'S', 6),
    (3, b'G', 6),
    (3, b'T', 0),
    (7, b'P', 3),
    (0, b'f', 2),
    (1, b'R', 0),
    (1, b'S', 7),
    (1, b'T', 0),
    (1, b'F', 2),
    (4, b'f', 0),
    (4, b'C', 0),
    (4, b'T', 0),
    (3, b'G', 7),
];

#[test]
fn falls_and_rises_of_one_thread(rt: HostRuntime) {
    plays(&rt, rt.alloc(), SCRIPT, &ROWS, &STEPS);
}
