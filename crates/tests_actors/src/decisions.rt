//! Decisions: Committed of a prepared and of another transaction, Aborted,
//! Active.

use crate::messages::Taken;
use crate::sites::{READ, WROTE_0, WROTE_1, check_site};
use qc_list::OutOfMemory;

/// The own lines become lines with the stamp, nothing is held any more, and the
/// lines are those of a record, so that no later promise has them.
#[test]
fn what_was_promised_joins_the_log(rt: HostRuntime) -> Result<(), OutOfMemory> {
    check_site(
        &rt,
        rt.alloc(),
        &[
            (
                Taken::Append(0, &[], &[(1, WROTE_1), (3, WROTE_0)]),
                "3: 10 granted life 1 clock 0 []",
            ),
            (
                Taken::Prepare(0),
                "write prepare 0.1.1 epoch 1 [][1 0 3, 3 0 2][]; 3: 11 yes 0; else 3: 11 fault",
            ),
            (Taken::Committed(0, 4), "write done 0.1.1 clock 4"),
            (
                Taken::Read(1, READ),
                "4: 13 granted life 1 clock 4 [4.0 0.1.1 1 0 3, 4.0 0.1.1 3 0 2]",
            ),
            (Taken::Prepare(0), "3: 14 stale"),
            (Taken::Committed(0, 4), ""),
            (
                Taken::Prepare(1),
                "write prepare 1.1.1 epoch 1 [0 0][][]; 4: 16 yes 4; else 4: 16 fault",
            ),
        ],
        2,
        1,
    )
}

/// An own line that was granted behind the promise doesn't join.
#[test]
fn what_was_not_promised_does_not_join(rt: HostRuntime) -> Result<(), OutOfMemory> {
    check_site(
        &rt,
        rt.alloc(),
        &[
            (
                Taken::Append(0, &[], &[(1, WROTE_1)]),
                "3: 10 granted life 1 clock 0 []",
            ),
            (
                Taken::Prepare(0),
                "write prepare 0.1.1 epoch 1 [][1 0 3][]; 3: 11 yes 0; else 3: 11 fault",
            ),
            (
                Taken::Append(0, &[], &[(2, WROTE_0)]),
                "3: 12 granted life 1 clock 0 []",
            ),
            (Taken::Committed(0, 4), "write done 0.1.1 clock 4"),
            (
                Taken::Read(1, READ),
                "4: 14 granted life 1 clock 4 [4.0 0.1.1 1 0 3]",
            ),
        ],
        1,
        1,
    )
}

/// What isn't prepared is dropped, and nothing is written; the clock passes.
#[test]
fn what_is_not_prepared_is_dropped(rt: HostRuntime) -> Result<(), OutOfMemory> {
    check_site(
        &rt,
        rt.alloc(),
        &[
            (
                Taken::Append(0, &[], &[(1, WROTE_1)]),
                "3: 10 granted life 1 clock 0 []",
            ),
            (
                Taken::Read(1, READ),
                "4: 11 clash 0.1.1 0 3; 3: how is 0.1.1",
            ),
            (Taken::Committed(0, 8), ""),
            (Taken::Read(1, READ), "4: 13 granted life 1 clock 8 []"),
            (Taken::Committed(2, 7), ""),
            (Taken::Prepare(0), "3: 15 stale"),
        ],
        0,
        1,
    )
}

/// Nothing is written, and the promise is gone.
#[test]
fn what_aborted_is_dropped(rt: HostRuntime) -> Result<(), OutOfMemory> {
    check_site(
        &rt,
        rt.alloc(),
        &[
            (Taken::Read(0, READ), "3: 10 granted life 1 clock 0 []"),
            (
                Taken::Append(0, &[], &[(1, WROTE_1)]),
                "3: 11 granted life 1 clock 0 []",
            ),
            (
                Taken::Prepare(0),
                "write prepare 0.1.1 epoch 1 [0 0][1 0 3][]; 3: 12 yes 0; else 3: 12 fault",
            ),
            (Taken::Aborted(0), ""),
            (Taken::Aborted(1), ""),
            (Taken::Prepare(0), "3: 15 stale"),
            (Taken::Committed(0, 4), ""),
            (Taken::Read(1, READ), "4: 17 granted life 1 clock 4 []"),
        ],
        0,
        1,
    )
}

/// What is active stays held and promised.
#[test]
fn what_is_active_stays(rt: HostRuntime) -> Result<(), OutOfMemory> {
    check_site(
        &rt,
        rt.alloc(),
        &[
            (
                Taken::Append(0, &[], &[(1, WROTE_0)]),
                "3: 10 granted life 1 clock 0 []",
            ),
            (Taken::Active(0), ""),
            (
                Taken::Read(1, READ),
                "4: 12 clash 0.1.1 0 2; 3: how is 0.1.1",
            ),
            (
                Taken::Prepare(0),
                "write prepare 0.1.1 epoch 1 [][1 0 2][]; 3: 13 yes 0; else 3: 13 fault",
            ),
            (Taken::Active(0), ""),
            (Taken::Committed(0, 1), "write done 0.1.1 clock 1"),
        ],
        1,
        0,
    )
}
