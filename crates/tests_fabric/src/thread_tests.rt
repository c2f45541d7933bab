//! Two threads share the state.

use crate::calls::{Act, Row, Saw, Says};
use crate::steps::Short;
use crate::top::{Then, played};
use qc_fabric::Picked;

/// A command of the client 3.
const SCRIPT: &[u8] = b"phase\nc0 begin\n";

/// The client asks two sites, which are held before threads share the state.
const ASKED: [Row; 6] = [
    (Act::Phase, Saw::Began),
    (Act::Pick, Saw::Picked(Some(Picked::Actor(3)))),
    (Act::Take(3), Saw::Took(Some((3, b'C', 0)))),
    (Act::Post(3, Says::AsksBoth(0, 1)), Saw::Posted(0)),
    (Act::Pick, Saw::Picked(Some(Picked::Actor(0)))),
    (Act::Pick, Saw::Picked(Some(Picked::Actor(1)))),
];

/// The histories that may come of it: both sites take before either posts, and
/// who comes first is open each time. Then the site 0 takes what was posted first,
/// and answers. The numbers are those of the first messages of the site 0 and of
/// the site 1.
const HISTORIES: [([Short; 10], u32, u32); 4] = [
    (
        [
            (7, b'P', 1),
            (3, b'C', 0),
            (3, b'S', 0),
            (3, b'S', 1),
            (0, b'G', 0),
            (1, b'G', 1),
            (0, b'S', 2),
            (1, b'S', 3),
            (0, b'G', 2),
            (0, b'S', 4),
        ],
        2,
        3,
    ),
    (
        [
            (7, b'P', 1),
            (3, b'C', 0),
            (3, b'S', 0),
            (3, b'S', 1),
            (0, b'G', 0),
            (1, b'G', 1),
            (1, b'S', 2),
            (0, b'S', 3),
            (0, b'G', 2),
            (0, b'S', 4),
        ],
        3,
        2,
    ),
    (
        [
            (7, b'P', 1),
            (3, b'C', 0),
            (3, b'S', 0),
            (3, b'S', 1),
            (1, b'G', 1),
            (0, b'G', 0),
            (0, b'S', 2),
            (1, b'S', 3),
            (0, b'G', 2),
            (0, b'S', 4),
        ],
        2,
        3,
    ),
    (
        [
            (7, b'P', 1),
            (3, b'C', 0),
            (3, b'S', 0),
            (3, b'S', 1),
            (1, b'G', 1),
            (0, b'G', 0),
            (1, b'S', 2),
            (0, b'S', 3),
            (0, b'G', 2),
            (0, b'S', 4),
        ],
        3,
        2,
    ),
];

/// The numbers of the two threads' first messages in a history, where it is one of
/// these.
fn numbers_of(steps: &[Short]) -> Option<(u32, u32)> {
    for row in HISTORIES.iter() {
        if row.0.as_slice() == steps {
            return Some((row.1, row.2));
        }
    }
    None
}

#[test]
fn two_threads_have_open_inputs_at_once_and_a_pick_waits(rt: HostRuntime) {
    let Some(ran) = played(&rt, rt.alloc(), SCRIPT, &ASKED, Then::Threads) else {
        panic!(rt; "it wants memory, or refuses the script");
    };
    assert_eq!(rt; ran.rows, ASKED.len());
    let Some(numbers) = numbers_of(ran.steps.as_slice()) else {
        panic!(rt; "another history");
    };
    // the site 0 is held while its second request waits, and nothing waits for
    // others: the other thread's pick comes, but doesn't answer before it has posted
    let holder = [
        Saw::Took(Some((0, b'G', 0))),
        Saw::Is(true),
        Saw::Posted(numbers.0),
        Saw::Picked(Some(Picked::Actor(0))),
        Saw::Is(true),
        Saw::Is(false),
        Saw::Took(Some((0, b'G', 2))),
        Saw::Posted(4),
        Saw::Is(true),
    ];
    // a request is left to the site 0
    let picker = [
        Saw::Took(Some((1, b'G', 1))),
        Saw::Is(true),
        Saw::Posted(numbers.1),
        Saw::Is(true),
        Saw::Picked(Some(Picked::Actor(0))),
    ];
    assert_eq!(rt; ran.both, Some((Ok(holder), Ok(picker))));
}
