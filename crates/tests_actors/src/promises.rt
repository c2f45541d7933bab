//! Prepares: Stale, Yes with its record, Yes again.

use crate::messages::Taken;
use crate::sites::{READ, WROTE_0, WROTE_1, check_prepare, check_site};
use qc_list::OutOfMemory;

#[test]
fn what_holds_nothing_is_stale(rt: HostRuntime) -> Result<(), OutOfMemory> {
    check_site(
        &rt,
        rt.alloc(),
        &[
            (Taken::Prepare(0), "3: 10 stale"),
            (Taken::Read(1, READ), "4: 11 granted life 1 clock 0 []"),
            (Taken::Prepare(0), "3: 12 stale"),
        ],
        0,
        1,
    )
}

/// The promise stands, and is told with the clock of the moment.
#[test]
fn promises_are_told_again(rt: HostRuntime) -> Result<(), OutOfMemory> {
    check_site(
        &rt,
        rt.alloc(),
        &[
            (Taken::Read(0, READ), "3: 10 granted life 1 clock 0 []"),
            (
                Taken::Prepare(0),
                "write prepare 0.1.1 epoch 1 [0 0][][]; 3: 11 yes 0; else 3: 11 fault",
            ),
            (Taken::Prepare(0), "3: 12 yes 0"),
            (Taken::Committed(2, 9), ""),
            (Taken::Prepare(0), "3: 14 yes 9"),
        ],
        0,
        1,
    )
}

/// A line that a record of the site gives isn't in a later one.
#[test]
fn promises_have_the_lines_that_no_record_gives(rt: HostRuntime) -> Result<(), OutOfMemory> {
    check_site(
        &rt,
        rt.alloc(),
        &[
            (
                Taken::Append(0, &[(5, 1, WROTE_1)], &[(1, WROTE_0)]),
                "3: 10 granted life 1 clock 5 []",
            ),
            (
                Taken::Prepare(0),
                "write prepare 0.1.1 epoch 1 [][1 0 2][5.1 1.1.1 1 0 3]; 3: 11 yes 5; else 3: 11 fault",
            ),
            (
                Taken::Append(1, &[(5, 1, WROTE_1), (6, 2, WROTE_0)], &[(1, WROTE_1)]),
                "4: 12 granted life 1 clock 6 []",
            ),
            (
                Taken::Prepare(1),
                "write prepare 1.1.1 epoch 1 [][1 0 3][6.2 2.1.1 1 0 2]; 4: 13 yes 6; else 4: 13 fault",
            ),
        ],
        2,
        2,
    )
}

/// A record's body is 18 bytes, and 2 for each lock, 3 for each own line and 20
/// for each line. One of 65,536 bytes fits.
#[test]
fn promises_fit_a_record(rt: HostRuntime) -> Result<(), OutOfMemory> {
    for (counts, is_promised) in [
        ((0, 6, 3_275), true),
        ((1, 6, 3_275), false),
        ((2, 5, 3_275), false),
        ((1, 5, 3_275), true),
        ((0, 1, 3_276), false),
    ] {
        check_prepare(&rt, rt.alloc(), counts, is_promised)?;
    }
    Ok(())
}
