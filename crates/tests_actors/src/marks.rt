//! What a site tells of an object to who has a mark: the lines that came behind
//! it, or all.

use crate::epochs::check_epochs;
use crate::messages::Taken;
use crate::sites::{WROTE_0, WROTE_1, check_site};
use qc_list::OutOfMemory;

/// Lines are counted in the order in which they came, and told in their own.
#[test]
fn lines_are_told_from_the_mark_on(rt: HostRuntime) -> Result<(), OutOfMemory> {
    check_site(
        &rt,
        rt.alloc(),
        &[
            (
                Taken::AppendIn(1, &[(5, 1, WROTE_1)]),
                "3: 10 granted life 1 clock 5 []",
            ),
            (
                Taken::AppendIn(1, &[(2, 2, WROTE_0), (5, 1, WROTE_1)]),
                "3: 11 granted life 1 clock 5 []",
            ),
            (
                Taken::ReadSince(1, (1, 1, 0)),
                "3: 12 granted life 1 clock 5 [2.2 2.1.1 1 0 2, 5.1 1.1.1 1 0 3]",
            ),
            (
                Taken::ReadSince(1, (1, 1, 1)),
                "3: 13 granted life 1 clock 5 [2.2 2.1.1 1 0 2] of 2",
            ),
            (
                Taken::ReadSince(1, (1, 1, 2)),
                "3: 14 granted life 1 clock 5 [] of 2",
            ),
        ],
        2,
        1,
    )
}

/// A mark of another life or epoch, and one of more lines than came, tells
/// nothing: all lines are told.
#[test]
fn marks_of_another_time_are_put_aside(rt: HostRuntime) -> Result<(), OutOfMemory> {
    check_site(
        &rt,
        rt.alloc(),
        &[
            (
                Taken::AppendIn(1, &[(5, 1, WROTE_1)]),
                "3: 10 granted life 1 clock 5 []",
            ),
            (
                Taken::ReadSince(1, (2, 1, 1)),
                "3: 11 granted life 1 clock 5 [5.1 1.1.1 1 0 3]",
            ),
            (
                Taken::ReadSince(1, (1, 2, 1)),
                "3: 12 granted life 1 clock 5 [5.1 1.1.1 1 0 3]",
            ),
            (
                Taken::ReadSince(1, (1, 1, 2)),
                "3: 13 granted life 1 clock 5 [5.1 1.1.1 1 0 3]",
            ),
            (
                Taken::ReadSince(1, (0, 0, 0)),
                "3: 14 granted life 1 clock 5 [5.1 1.1.1 1 0 3]",
            ),
        ],
        1,
        1,
    )
}

/// With an Install, what the epoch begins with came first, in line order; what
/// came before isn't counted any more.
#[test]
fn an_install_counts_anew(rt: HostRuntime) -> Result<(), OutOfMemory> {
    check_epochs(
        &rt,
        rt.alloc(),
        &[
            (
                Taken::AppendIn(1, &[(5, 1, WROTE_1)]),
                "3: 10 granted life 1 clock 5 []",
            ),
            (
                Taken::Install(2, 6, &[(5, 1, WROTE_1), (2, 2, WROTE_0)]),
                "write install 2; 6: 11 installed; else 6: 11 fault",
            ),
            (
                Taken::ReadSince(2, (1, 1, 1)),
                "3: 12 granted life 1 clock 6 [2.2 2.1.1 1 0 2, 5.1 1.1.1 1 0 3]",
            ),
            (
                Taken::ReadSince(2, (1, 2, 1)),
                "3: 13 granted life 1 clock 6 [5.1 1.1.1 1 0 3] of 2",
            ),
        ],
        (1, 2, 2, 1),
    )
}
