//! Reads and Appends that are granted, and those that are refused with a Clash.

use crate::messages::Taken;
use crate::sites::{READ, READ_0, WRITE_0, WROTE_0, WROTE_1, check_site};
use qc_list::OutOfMemory;

#[test]
fn reads_are_granted(rt: HostRuntime) -> Result<(), OutOfMemory> {
    check_site(
        &rt,
        rt.alloc(),
        &[
            (Taken::Read(0, READ), "3: 10 granted life 1 clock 0 []"),
            (Taken::Read(0, READ), "3: 11 granted life 1 clock 0 []"),
            (Taken::Read(1, READ), "4: 12 granted life 1 clock 0 []"),
            (Taken::Read(0, WRITE_0), "3: 13 granted life 1 clock 0 []"),
            (
                Taken::Prepare(0),
                "write prepare 0.1.1 epoch 1 [0 0, 0 1][][]; 3: 14 yes 0; else 3: 14 fault",
            ),
        ],
        0,
        2,
    )
}

/// The view joins the log, the clock passes its stamps, and the own lines are
/// held, one for each operation.
#[test]
fn appends_are_granted(rt: HostRuntime) -> Result<(), OutOfMemory> {
    check_site(
        &rt,
        rt.alloc(),
        &[
            (
                Taken::Append(0, &[(5, 1, WROTE_1)], &[(1, WROTE_0)]),
                "3: 10 granted life 1 clock 5 []",
            ),
            (
                Taken::Append(0, &[(2, 2, WROTE_0)], &[(1, WROTE_0), (2, WROTE_1)]),
                "3: 11 granted life 1 clock 5 []",
            ),
            (
                Taken::Read(0, READ),
                "3: 12 granted life 1 clock 5 [2.2 2.1.1 1 0 2, 5.1 1.1.1 1 0 3]",
            ),
            (
                Taken::Prepare(0),
                "write prepare 0.1.1 epoch 1 [0 0][1 0 2, 2 0 3][2.2 2.1.1 1 0 2, 5.1 1.1.1 1 0 3]; \
                 3: 13 yes 5; else 3: 13 fault",
            ),
        ],
        2,
        1,
    )
}

/// The smallest holder is told, then the smallest event, and the holder's client
/// is asked. Nothing is held then.
#[test]
fn reads_are_refused(rt: HostRuntime) -> Result<(), OutOfMemory> {
    check_site(
        &rt,
        rt.alloc(),
        &[
            (
                Taken::Append(2, &[], &[(1, WROTE_1)]),
                "5: 10 granted life 1 clock 0 []",
            ),
            (
                Taken::Append(1, &[], &[(1, WROTE_1), (2, WROTE_0)]),
                "4: 11 granted life 1 clock 0 []",
            ),
            (
                Taken::Read(0, READ),
                "3: 12 clash 1.1.1 0 2; 4: how is 1.1.1",
            ),
            (
                Taken::Read(1, READ),
                "4: 13 clash 2.1.1 0 3; 5: how is 2.1.1",
            ),
            (Taken::Prepare(0), "3: 14 stale"),
            (Taken::Read(0, WRITE_0), "3: 15 granted life 1 clock 0 []"),
        ],
        0,
        3,
    )
}

/// The smallest holder is told, then the smallest invocation, then the smallest
/// event. The view doesn't join the log, though the clock passes its stamps.
#[test]
fn appends_are_refused(rt: HostRuntime) -> Result<(), OutOfMemory> {
    check_site(
        &rt,
        rt.alloc(),
        &[
            (Taken::Read(2, READ), "5: 10 granted life 1 clock 0 []"),
            (Taken::Read(1, READ), "4: 11 granted life 1 clock 0 []"),
            (
                Taken::Append(0, &[(7, 2, WROTE_1)], &[(1, WROTE_1), (2, WROTE_0)]),
                "3: 12 clash 1.1.1 0 2; 4: how is 1.1.1",
            ),
            (Taken::Read(1, READ), "4: 13 granted life 1 clock 7 []"),
            (
                Taken::Append(1, &[], &[(1, WROTE_1)]),
                "4: 14 clash 2.1.1 0 3; 5: how is 2.1.1",
            ),
            (
                Taken::Append(0, &[], &[(1, READ_0)]),
                "3: 15 granted life 1 clock 7 []",
            ),
        ],
        0,
        3,
    )
}
