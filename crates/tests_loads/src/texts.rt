//! The texts of loads.

use qc_gen::load_script;
use std::alloc::Global;
use std::process::Abort;

/// Whether the load of this count and seed is this text.
fn is_text(rt: &impl Abort, alloc: Global, count: u32, seed: u32, want: &str) -> bool {
    assert!(rt; seed < 65_537);
    match load_script(alloc, count, seed) {
        Ok(text) => text.as_slice() == want.as_bytes(),
        Err(_) => false,
    }
}

#[test]
fn loads_are_written(rt: HostRuntime) {
    for (count, seed, want) in [
        (0, 7, ""),
        (1, 0, "phase\nc0 begin\nc0 do x W0\nc0 do x R\nc0 commit\n"),
        (
            2,
            65_535,
            "phase\nc0 begin\nc0 do x W1\nc0 do x R\nc0 commit\n\
             phase\nc1 begin\nc1 do x W1\nc1 do x R\nc1 commit\n",
        ),
        (
            1,
            65_536,
            "phase\nc0 begin\nc0 do x W0\nc0 do x R\nc0 commit\n",
        ),
        (
            4,
            7,
            "phase\nc0 begin\nc0 do x W1\nc0 do x R\nc0 commit\n\
             phase\nc1 begin\nc1 do x W1\nc1 do x R\nc1 commit\n\
             phase\nc2 begin\nc2 do x W0\nc2 do x R\nc2 commit\n\
             phase\nc0 begin\nc0 do x W1\nc0 do x R\nc0 commit\n",
        ),
    ] {
        assert!(rt;
            is_text(&rt, rt.alloc(), count, seed, want),
            "at {count} {seed}"
        );
    }
}

/// A sum of a text, to which the place of each byte matters.
fn sum_of(text: &[u8]) -> u32 {
    text.iter().fold(0_u32, |sum, byte| {
        sum.wrapping_mul(257).wrapping_add(u32::from(*byte))
    })
}

/// The length and the sum of a load's text; `None` without memory.
fn measure(rt: &impl Abort, alloc: Global, count: u32, seed: u32) -> Option<(usize, u32)> {
    assert!(rt; seed < 65_537);
    match load_script(alloc, count, seed) {
        Ok(text) => Some((text.len(), sum_of(text.as_slice()))),
        Err(_) => None,
    }
}

/// The longest loads, by their lengths and sums.
#[test]
fn long_loads_are_written(rt: HostRuntime) {
    for (count, seed, sum) in [
        (500, 0, 982_225_971),
        (500, 7, 1_675_540_505),
        (500, 65_535, 1_679_367_737),
        (500, 65_536, 627_233_852),
    ] {
        let found = measure(&rt, rt.alloc(), count, seed);
        assert!(rt; found == Some((23_000, sum)), "at {count} {seed}");
    }
}
