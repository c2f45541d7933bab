//! Words that have none of the forms.

use crate::reading::check_lines;
use qc_list::OutOfMemory;
use qc_script::LineKind;

#[test]
fn phases_and_first_words(rt: HostRuntime) -> Result<(), OutOfMemory> {
    check_lines(
        &rt,
        rt.alloc(),
        LineKind::Words,
        &[
            "phase 1",
            "phase ",
            " phase",
            "Phase",
            "phase\r\r",
            "\tphase",
            " ",
            " # phase",
            "go",
            "links",
            "epoch 2",
            "s0 begin",
            "* begin",
        ],
    )
}

#[test]
fn links(rt: HostRuntime) -> Result<(), OutOfMemory> {
    check_lines(
        &rt,
        rt.alloc(),
        LineKind::Words,
        &[
            "link",
            "link s0 s1 1",
            "link s0 s1 1 drop now",
            "link s0  s1 1 drop",
            "link x s1 1 drop",
            "link s0 y 1 drop",
            "link s00 s1 1 drop",
            "link s0 c01 1 drop",
            "link s s1 1 drop",
            "link s0 s100000 1 drop",
            "link s-1 s1 1 drop",
            "link s0 s1 one drop",
            "link s0 s1 100000 drop",
            "link s0 s1 -1 drop",
            "link s0 s1  drop",
            "link s0 s1 1 Drop",
            "link s0 s1 1 lose",
            "link s0 s1 1 ",
        ],
    )
}

#[test]
fn cuts_and_heals(rt: HostRuntime) -> Result<(), OutOfMemory> {
    check_lines(
        &rt,
        rt.alloc(),
        LineKind::Words,
        &[
            "cut s0",
            "cut s0 s1 c0",
            "cut s0 *",
            "cut * s0",
            "cut s0 s01",
            "heal s0",
            "heal s0 s1 c0",
            "heal * s0",
            "heal s0 Admin",
        ],
    )
}

#[test]
fn falls_and_disks(rt: HostRuntime) -> Result<(), OutOfMemory> {
    check_lines(
        &rt,
        rt.alloc(),
        LineKind::Words,
        &[
            "crash",
            "crash s0 s1",
            "crash *",
            "restart",
            "restart s0 ",
            "restart x",
            "stop s0",
            "stop s0 at",
            "stop s0 at x",
            "stop s0 on 1",
            "stop at 1",
            "stop s0 at 1 2",
            "fail * at 1",
            "fail s0 at 100000",
            "fail s0 at ",
            "fail s0  1",
        ],
    )
}

#[test]
fn commands(rt: HostRuntime) -> Result<(), OutOfMemory> {
    check_lines(
        &rt,
        rt.alloc(),
        LineKind::Words,
        &[
            "c0",
            "c0 ",
            "c0 start",
            "c0  begin",
            "c0 begin now",
            "c00 begin",
            "c begin",
            "c1x begin",
            "c100000 begin",
            "C0 begin",
            "c0 do",
            "c0 do x",
            "c0 do x R R",
            "c0 do  R",
            "c0 do x ",
            "c0 Do x R",
            "c0 begin x R",
            "c0 commit now",
            "c0 aborts",
            "admin",
            "admin begin",
            "admin epoch",
            "admin epoch x",
            "admin epoch 2 3",
            "admin epochs 2",
            "admin epoch 000002",
        ],
    )
}
