//! Requests that a site may not grant: of another epoch, that name another life,
//! of what isn't declared; and what nobody sends.

use crate::messages::Taken;
use crate::sites::{READ, WROTE_1, check_site};
use qc_list::OutOfMemory;

/// The epoch is tested before the life.
#[test]
fn other_epochs_and_lives(rt: HostRuntime) -> Result<(), OutOfMemory> {
    check_site(
        &rt,
        rt.alloc(),
        &[
            (Taken::ReadIn(2, 0), "3: 10 behind 1"),
            (Taken::ReadIn(2, 7), "3: 11 behind 1"),
            (Taken::ReadIn(0, 0), "3: 12 closed 1"),
            (Taken::PrepareIn(0, 7), "3: 13 closed 1"),
            (Taken::PrepareIn(3, 1), "3: 14 behind 1"),
            (Taken::ReadIn(1, 2), "3: 15 restarted 1"),
            (Taken::PrepareIn(1, 2), "3: 16 restarted 1"),
            (Taken::Prepare(0), "3: 17 stale"),
            (Taken::ReadIn(1, 1), "3: 18 granted life 1 clock 0 []"),
            (
                Taken::PrepareIn(1, 1),
                "write prepare 0.1.1 epoch 1 [0 0][][]; 3: 19 yes 0; else 3: 19 fault",
            ),
            (Taken::PrepareIn(1, 2), "3: 20 restarted 1"),
        ],
        0,
        1,
    )
}

/// The clock passes the stamps of a view that comes too early.
#[test]
fn clocks_pass_what_is_refused(rt: HostRuntime) -> Result<(), OutOfMemory> {
    check_site(
        &rt,
        rt.alloc(),
        &[
            (Taken::AppendIn(2, &[(6, 1, WROTE_1)]), "3: 10 behind 1"),
            (Taken::AppendIn(0, &[(3, 1, WROTE_1)]), "3: 11 closed 1"),
            (Taken::Read(1, READ), "4: 12 granted life 1 clock 6 []"),
        ],
        0,
        1,
    )
}

#[test]
fn what_is_not_declared_is_put_aside(rt: HostRuntime) -> Result<(), OutOfMemory> {
    check_site(
        &rt,
        rt.alloc(),
        &[
            (Taken::Read(3, READ), ""),
            (Taken::Prepare(3), ""),
            (Taken::ReadOf(0, 1), ""),
            (Taken::Append(200, &[(6, 1, WROTE_1)], &[]), ""),
            (Taken::Read(1, READ), "4: 14 granted life 1 clock 6 []"),
        ],
        0,
        1,
    )
}

#[test]
fn what_nobody_sends_is_put_aside(rt: HostRuntime) -> Result<(), OutOfMemory> {
    check_site(
        &rt,
        rt.alloc(),
        &[
            (Taken::Read(0, READ), "3: 10 granted life 1 clock 0 []"),
            (Taken::Answer, ""),
            (Taken::Inquiry, ""),
            (Taken::Ask, ""),
            (
                Taken::Prepare(0),
                "write prepare 0.1.1 epoch 1 [0 0][][]; 3: 14 yes 0; else 3: 14 fault",
            ),
        ],
        0,
        1,
    )
}
