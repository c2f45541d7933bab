//! Actors, objects and invocations that aren't declared, and numbers out of
//! range. They are told before the line's place.

use crate::reading::check_lines;
use qc_list::OutOfMemory;
use qc_script::LineKind;

#[test]
fn actors(rt: HostRuntime) -> Result<(), OutOfMemory> {
    check_lines(
        &rt,
        rt.alloc(),
        LineKind::Name,
        &[
            "link s2 s0 1 drop",
            "link * c3 * late",
            "cut s2 s0",
            "cut s0 c3",
            "heal c3 s0",
            "heal admin s99999",
            "crash s2",
            "restart c3",
            "stop c3 at 1",
            "fail s2 at 1",
            "c3 begin",
            "c3 do x R",
            "c3 commit",
            "c99999 abort",
        ],
    )
}

#[test]
fn objects_and_invocations(rt: HostRuntime) -> Result<(), OutOfMemory> {
    check_lines(
        &rt,
        rt.alloc(),
        LineKind::Name,
        &[
            "c0 do y R",
            "c0 do X R",
            "c0 do register R",
            "c0 do x W2",
            "c0 do x TAS",
            "c0 do f R",
            "c0 do x ok",
            "c0 do xx R",
            "c0 do x \tR",
            "c0 do x R\r\r",
        ],
    )
}

#[test]
fn numbers(rt: HostRuntime) -> Result<(), OutOfMemory> {
    check_lines(
        &rt,
        rt.alloc(),
        LineKind::Number,
        &[
            "link s0 s1 0 drop",
            "link * * 00000 twice",
            "cut s1 s1",
            "cut c0 c0",
            "cut admin admin",
            "heal s0 s0",
            "stop s0 at 0",
            "stop admin at 00000",
            "fail c2 at 0",
            "admin epoch 0",
            "admin epoch 1",
            "admin epoch 3",
            "admin epoch 99999",
        ],
    )
}
