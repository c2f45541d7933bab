//! Closes and Installs: what a closed site tells, and how an epoch begins.

use crate::messages::Taken;
use crate::rises::check_state;
use crate::sites::{READ, WROTE_0, WROTE_1, new_site_after};
use qc_list::OutOfMemory;
use std::alloc::Global;
use std::process::Abort;

/// A new site does what the rows say, and has this life, this epoch, so many lines
/// and so many holders then.
pub(crate) fn check_epochs(
    rt: &impl Abort,
    alloc: Global,
    rows: &[(Taken<'_>, &str)],
    state: (u32, u8, u64, u64),
) -> Result<(), OutOfMemory> {
    let site = new_site_after(rt, alloc, rows)?;
    check_state(rt, &site, state)
}

/// It closes for the next epoch alone, begins a life, and holds what it has
/// promised; then it grants nothing, and tells again that it is closed.
#[test]
fn a_site_closes_for_the_next_epoch(rt: HostRuntime) -> Result<(), OutOfMemory> {
    check_epochs(
        &rt,
        rt.alloc(),
        &[
            (Taken::Read(0, READ), "3: 10 granted life 1 clock 0 []"),
            (
                Taken::Prepare(0),
                "write prepare 0.1.1 epoch 1 [0 0][][]; 3: 11 yes 0; else 3: 11 fault",
            ),
            (Taken::Read(1, READ), "4: 12 granted life 1 clock 0 []"),
            (Taken::Close(3), "6: 13 behind 1"),
            (Taken::Close(1), "6: 14 closed 1"),
            (
                Taken::Close(2),
                "write close 2; 6: 15 shut clock 0 [], prepare 0.1.1 epoch 1 [0 0][][]; else 6: 15 fault",
            ),
            (
                Taken::Close(2),
                "6: 16 shut clock 0 [], prepare 0.1.1 epoch 1 [0 0][][]",
            ),
            (Taken::Read(1, READ), "4: 17 closed 2"),
            (Taken::Prepare(1), "4: 18 closed 2"),
        ],
        (2, 1, 0, 1),
    )
}

/// Promises are told in the order of their transactions, and not in that of their
/// records.
#[test]
fn promises_are_told_in_order(rt: HostRuntime) -> Result<(), OutOfMemory> {
    check_epochs(
        &rt,
        rt.alloc(),
        &[
            (Taken::Read(2, READ), "5: 10 granted life 1 clock 0 []"),
            (
                Taken::Prepare(2),
                "write prepare 2.1.1 epoch 1 [0 0][][]; 5: 11 yes 0; else 5: 11 fault",
            ),
            (Taken::Read(0, READ), "3: 12 granted life 1 clock 0 []"),
            (
                Taken::Prepare(0),
                "write prepare 0.1.1 epoch 1 [0 0][][]; 3: 13 yes 0; else 3: 13 fault",
            ),
            (
                Taken::Close(2),
                "write close 2; 6: 14 shut clock 0 [], prepare 0.1.1 epoch 1 [0 0][][], prepare 2.1.1 epoch 1 [0 0][][]; else 6: 14 fault",
            ),
        ],
        (2, 1, 0, 2),
    )
}

/// What is told again is the present: a verdict that came since is in it.
#[test]
fn a_closed_site_tells_what_it_has_now(rt: HostRuntime) -> Result<(), OutOfMemory> {
    check_epochs(
        &rt,
        rt.alloc(),
        &[
            (
                Taken::Append(0, &[(5, 1, WROTE_1)], &[(1, WROTE_0)]),
                "3: 10 granted life 1 clock 5 []",
            ),
            (
                Taken::Prepare(0),
                "write prepare 0.1.1 epoch 1 [][1 0 2][5.1 1.1.1 1 0 3]; 3: 11 yes 5; else 3: 11 fault",
            ),
            (
                Taken::Close(2),
                "write close 2; 6: 12 shut clock 5 [5.1 1.1.1 1 0 3], prepare 0.1.1 epoch 1 [][1 0 2][5.1 1.1.1 1 0 3]; else 6: 12 fault",
            ),
            (Taken::Committed(0, 9), "write done 0.1.1 clock 9"),
            (
                Taken::Close(2),
                "6: 14 shut clock 9 [5.1 1.1.1 1 0 3, 9.0 0.1.1 1 0 2]",
            ),
        ],
        (2, 1, 2, 0),
    )
}

/// An epoch begins with its own lines and clock, and with nothing held, in the same
/// life; an Install of it that comes again, or of an earlier one, writes nothing,
/// but its lines' clocks pass.
#[test]
fn an_epoch_is_installed_once(rt: HostRuntime) -> Result<(), OutOfMemory> {
    check_epochs(
        &rt,
        rt.alloc(),
        &[
            (
                Taken::Append(0, &[(5, 1, WROTE_1)], &[(1, WROTE_0)]),
                "3: 10 granted life 1 clock 5 []",
            ),
            (
                Taken::Install(2, 4, &[(7, 2, WROTE_0)]),
                "write install 2; 6: 11 installed; else 6: 11 fault",
            ),
            (Taken::Install(2, 30, &[(8, 1, WROTE_1)]), "6: 12 installed"),
            (Taken::Install(1, 40, &[]), "6: 13 installed"),
            (Taken::Read(0, READ), "3: 14 closed 2"),
            (
                Taken::ReadIn(2, 0),
                "3: 15 granted life 1 clock 8 [7.2 2.1.1 1 0 2]",
            ),
            (Taken::ReadIn(3, 0), "3: 16 behind 2"),
        ],
        (1, 2, 1, 1),
    )
}

/// A closed site is open in the epoch that it installs, in the life of its Close;
/// and a site may pass an epoch over.
#[test]
fn an_install_opens_what_was_closed(rt: HostRuntime) -> Result<(), OutOfMemory> {
    check_epochs(
        &rt,
        rt.alloc(),
        &[
            (
                Taken::Close(2),
                "write close 2; 6: 10 shut clock 0 []; else 6: 10 fault",
            ),
            (
                Taken::Install(2, 4, &[]),
                "write install 2; 6: 11 installed; else 6: 11 fault",
            ),
            (Taken::ReadIn(2, 2), "3: 12 granted life 2 clock 4 []"),
            (
                Taken::Close(3),
                "write close 3; 6: 13 shut clock 4 []; else 6: 13 fault",
            ),
            (
                Taken::Install(4, 4, &[]),
                "write install 4; 6: 14 installed; else 6: 14 fault",
            ),
        ],
        (3, 4, 0, 0),
    )
}
