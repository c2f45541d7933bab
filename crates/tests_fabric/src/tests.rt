//! Tables of calls, with their answers and the histories that they make.

ghost use Rattle.std.specs.Prelude.{◌≤◌, length};
ghost use Rattle.qc_decl.specs.Limits.{most_script_bytes};

use crate::calls::{Act, Row, Saw, Says};
use crate::steps::Short;
use crate::top::{Then, played};
use qc_fabric::Picked;
use std::alloc::Global;
use std::process::Abort;
use std::sync::Wait;
use std::thread::Threads;

/// Each row answers what it is to, and the history is this one.
pub(crate) fn plays<R: Threads + Wait + Sync + Abort>(
    rt: &R,
    alloc: Global,
    script: &[u8],
    rows: &[Row],
    steps: &[Short],
)
    requires { length script.now ≤ most_script_bytes }
{
    let Some(ran) = played(rt, alloc, script, rows, Then::Ends) else {
        panic!(rt; "it wants memory, or refuses the script");
    };
    assert_eq!(rt; ran.rows, rows.len());
    assert_eq!(rt; ran.steps.as_slice(), steps);
}

/// Two commands of the client 3 in the first phase, and one of the client 4 in
/// the second.
const SCRIPT: &[u8] = b"phase\nc0 begin\nc0 do x R\nphase\nc1 begin\n";

/// Each call with its answer, by the rules of scripts and of `pick`.
const ROWS: [Row; 40] = [
    (Act::Full, Saw::Is(false)),
    (Act::Quiet, Saw::Is(true)),
    (Act::Pick, Saw::Picked(Some(Picked::Quiet))),
    (Act::Phase, Saw::Began),
    (Act::Quiet, Saw::Is(false)),
    (Act::Phase, Saw::MayNot),
    // the client 3 begins: it alone has something to take
    (Act::Pick, Saw::Picked(Some(Picked::Actor(3)))),
    (Act::Held(3), Saw::Is(true)),
    (Act::Pick, Saw::Picked(None)),
    (Act::Take(3), Saw::Took(Some((3, b'C', 0)))),
    (Act::Post(3, Says::Tells), Saw::Posted(0)),
    (Act::Held(3), Saw::Is(false)),
    // it asks two sites
    (Act::Pick, Saw::Picked(Some(Picked::Actor(3)))),
    (Act::Take(3), Saw::Took(Some((3, b'C', 0)))),
    (Act::Post(3, Says::AsksBoth(0, 1)), Saw::Posted(0)),
    // both sites have an open input at once, and post in the other order
    (Act::Pick, Saw::Picked(Some(Picked::Actor(0)))),
    (Act::Pick, Saw::Picked(Some(Picked::Actor(1)))),
    (Act::Take(0), Saw::Took(Some((0, b'G', 0)))),
    (Act::Take(1), Saw::Took(Some((1, b'G', 1)))),
    (Act::Quiet, Saw::Is(false)),
    (Act::Pick, Saw::Picked(None)),
    (Act::Post(1, Says::Answers(3, 1)), Saw::Posted(2)),
    (Act::Post(0, Says::Answers(3, 0)), Saw::Posted(3)),
    // the client leaves its input open: nothing more is ready for it, and it
    // isn't picked
    (Act::Pick, Saw::Picked(Some(Picked::Actor(3)))),
    (Act::Take(3), Saw::Took(Some((3, b'G', 2)))),
    (Act::Leave(3), Saw::Left),
    (Act::Held(3), Saw::Is(false)),
    (Act::Take(3), Saw::Took(None)),
    (Act::Pick, Saw::Picked(Some(Picked::Quiet))),
    (Act::Quiet, Saw::Is(false)),
    (Act::Phase, Saw::MayNot),
    (Act::Post(3, Says::Nothing), Saw::Posted(4)),
    (Act::Take(3), Saw::Took(Some((3, b'G', 3)))),
    (Act::Post(3, Says::Tells), Saw::Posted(4)),
    (Act::Quiet, Saw::Is(true)),
    (Act::Phase, Saw::Began),
    // what has no seat, and what is no actor, may do nothing
    (Act::Take(7), Saw::MayNot),
    (Act::Take(9), Saw::MayNot),
    (Act::Take(4), Saw::Took(Some((4, b'C', 0)))),
    (Act::Post(4, Says::Asks(2)), Saw::Posted(4)),
];

/// The history that these calls make.
const STEPS: [Short; 16] = [
    (7, b'P', 1),
    (3, b'C', 0),
    (3, b'T', 0),
    (3, b'C', 0),
    (3, b'S', 0),
    (3, b'S', 1),
    (0, b'G', 0),
    (1, b'G', 1),
    (1, b'S', 2),
    (0, b'S', 3),
    (3, b'G', 2),
    (3, b'G', 3),
    (3, b'T', 0),
    (7, b'P', 2),
    (4, b'C', 0),
    (4, b'S', 4),
];

#[test]
fn calls_of_one_thread(rt: HostRuntime) {
    plays(&rt, rt.alloc(), SCRIPT, &ROWS, &STEPS);
}

/// In the first phase the client 3 is cut from the site 0, and in the second they
/// are joined again.
const SCRIPT_OF_CUTS: &[u8] =
    b"phase\ncut c0 s0\nheal s1 s2\nc0 begin\nphase\nheal s0 c0\nc0 abort\n";

/// Each call with its answer: nothing is taken before the control lines have
/// acted, and what goes to the site 0 is lost as long as it is cut.
const ROWS_OF_CUTS: [Row; 26] = [
    (Act::Control, Saw::MayNot),
    (Act::Phase, Saw::Began),
    (Act::Take(3), Saw::Took(None)),
    (Act::Control, Saw::Acted),
    (Act::Pick, Saw::Picked(Some(Picked::Quiet))),
    (Act::Quiet, Saw::Is(false)),
    (Act::Phase, Saw::MayNot),
    (Act::Control, Saw::Acted),
    (Act::Control, Saw::MayNot),
    (Act::Pick, Saw::Picked(Some(Picked::Actor(3)))),
    (Act::Take(3), Saw::Took(Some((3, b'C', 0)))),
    (Act::Post(3, Says::AsksBoth(0, 1)), Saw::Posted(0)),
    (Act::Take(0), Saw::Took(None)),
    (Act::Take(1), Saw::Took(Some((1, b'G', 1)))),
    (Act::Post(1, Says::Answers(3, 1)), Saw::Posted(2)),
    (Act::Take(3), Saw::Took(Some((3, b'G', 2)))),
    (Act::Post(3, Says::Nothing), Saw::Posted(3)),
    (Act::Take(3), Saw::Took(Some((3, b'L', 0)))),
    (Act::Post(3, Says::Tells), Saw::Posted(3)),
    (Act::Quiet, Saw::Is(true)),
    (Act::Phase, Saw::Began),
    (Act::Control, Saw::Acted),
    (Act::Take(3), Saw::Took(Some((3, b'C', 0)))),
    (Act::Post(3, Says::Asks(0)), Saw::Posted(3)),
    (Act::Take(0), Saw::Took(Some((0, b'G', 3)))),
    (Act::Post(0, Says::Nothing), Saw::Posted(4)),
];

/// The history that these calls make.
const STEPS_OF_CUTS: [Short; 16] = [
    (7, b'P', 1),
    (7, b'X', 0),
    (7, b'H', 0),
    (3, b'C', 0),
    (3, b'S', 0),
    (3, b'S', 1),
    (1, b'G', 1),
    (1, b'S', 2),
    (3, b'G', 2),
    (3, b'L', 0),
    (3, b'T', 0),
    (7, b'P', 2),
    (7, b'H', 0),
    (3, b'C', 0),
    (3, b'S', 3),
    (0, b'G', 3),
];

#[test]
fn control_lines_of_one_thread(rt: HostRuntime) {
    plays(
        &rt,
        rt.alloc(),
        SCRIPT_OF_CUTS,
        &ROWS_OF_CUTS,
        &STEPS_OF_CUTS,
    );
}
