//! Lines that may not stand where they do, the order in which faults are looked
//! for on one line, and the first refused line of several.

use crate::reading::{check_faults, check_lines};
use qc_list::OutOfMemory;
use qc_script::LineKind;

#[test]
fn lines_before_the_first_phase(rt: HostRuntime) -> Result<(), OutOfMemory> {
    check_lines(
        &rt,
        rt.alloc(),
        LineKind::Place,
        &[
            "cut s0 s1",
            "heal s0 s1",
            "crash s0",
            "restart s0",
            "stop s0 at 1",
            "fail s0 at 1",
            "c0 begin",
            "c0 do x R",
            "c0 commit",
            "c0 abort",
            "admin epoch 2",
        ],
    )
}

#[test]
fn lines_behind_a_phase_or_a_command(rt: HostRuntime) -> Result<(), OutOfMemory> {
    check_faults(
        &rt,
        rt.alloc(),
        &[
            ("phase\nlink s0 s1 1 drop", 2, LineKind::Place),
            (
                "phase\nc0 begin\nphase\nlink * * * late",
                4,
                LineKind::Place,
            ),
            ("phase\nc0 begin\ncut s0 s1", 3, LineKind::Place),
            ("phase\nc0 begin\nheal s0 s1", 3, LineKind::Place),
            ("phase\nadmin epoch 2\ncrash s0", 3, LineKind::Place),
            ("phase\nc0 begin\nrestart s0", 3, LineKind::Place),
            ("phase\nphase\nc0 begin\nstop s0 at 1", 4, LineKind::Place),
            ("phase\nc0 begin\nfail s0 at 1", 3, LineKind::Place),
        ],
    )
}

#[test]
fn faults_of_one_line_are_in_order(rt: HostRuntime) -> Result<(), OutOfMemory> {
    check_faults(
        &rt,
        rt.alloc(),
        &[
            ("cut s9 s9 ", 1, LineKind::Words),
            ("cut s9 s9", 1, LineKind::Name),
            ("cut s0 s0", 1, LineKind::Number),
            ("cut s0 s1", 1, LineKind::Place),
            ("stop s9 at x", 1, LineKind::Words),
            ("stop s9 at 0", 1, LineKind::Name),
            ("stop s0 at 0", 1, LineKind::Number),
            ("stop s0 at 1", 1, LineKind::Place),
            ("phase\nlink s9 * 0 loose", 2, LineKind::Words),
            ("phase\nlink s9 * 0 late", 2, LineKind::Name),
            ("phase\nlink s1 * 0 late", 2, LineKind::Number),
            ("phase\nlink s1 * 1 late", 2, LineKind::Place),
            ("c9 do x", 1, LineKind::Words),
            ("c9 do x R", 1, LineKind::Name),
            ("c0 do x R", 1, LineKind::Place),
            ("admin epoch two", 1, LineKind::Words),
            ("admin epoch 1", 1, LineKind::Number),
            ("admin epoch 2", 1, LineKind::Place),
        ],
    )
}

#[test]
fn the_first_refused_line_is_named(rt: HostRuntime) -> Result<(), OutOfMemory> {
    check_faults(
        &rt,
        rt.alloc(),
        &[
            ("phase\nc0 begin\nno\nc9 begin", 3, LineKind::Words),
            ("phase\nc9 begin\nno", 2, LineKind::Name),
            ("\n\n# c9 begin\n\nphase\n\nc9 begin\n", 7, LineKind::Name),
            ("link s0 s1 0 drop\r\nphase\r\nno\r\n", 1, LineKind::Number),
            (
                "phase\r\n\r\nc0 begin\r\nc0 do x R\rc0 commit\r\n",
                4,
                LineKind::Words,
            ),
            (
                "phase\nc0 begin\nphase\nc0 commit\ncrash s0\nno",
                5,
                LineKind::Place,
            ),
            ("phase\n\nc0 begin \n", 3, LineKind::Words),
            ("phase\nc0 begin\ncommit", 3, LineKind::Words),
        ],
    )
}
