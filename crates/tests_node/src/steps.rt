//! Steps in short.

use qc_list::OutOfMemory;
use qc_msg::{Entry, Step};
use std::alloc::Global;

/// The actor, the kind's letter, and the number of the phase, message or disk call,
/// or 0.
pub type Short = (u8, u8, u32);

/// A step in short: `P`hase, cut (`X`), `H`eal, `A`rmed, `C`alled, `G`ot, `L`ost,
/// `W`rote, `S`ent, `T`old, `F`ell, `R`ose, `D`amaged.
pub(crate) fn short(entry: &Entry) -> Short {
    match &entry.step {
        Step::Phase(number) => (entry.actor, b'P', *number),
        Step::Cut(_, _) => (entry.actor, b'X', 0),
        Step::Heal(_, _) => (entry.actor, b'H', 0),
        Step::Called(_) => (entry.actor, b'C', 0),
        Step::Got(number) => (entry.actor, b'G', *number),
        Step::Lost(number) => (entry.actor, b'L', *number),
        Step::Wrote(_) => (entry.actor, b'W', 0),
        Step::Sent { number, .. } => (entry.actor, b'S', *number),
        Step::Told(_) => (entry.actor, b'T', 0),
        Step::Armed { at, .. } => (entry.actor, b'A', *at),
        Step::Fell { .. } => (entry.actor, b'F', 0),
        Step::Rose(_) => (entry.actor, b'R', 0),
        Step::Damaged(_) => (entry.actor, b'D', 0),
    }
}

/// Each step in short.
pub(crate) fn shorts(alloc: Global, entries: &[Entry]) -> Result<Vec<Short>, OutOfMemory> {
    let mut steps = Vec::new(alloc);
    for entry in entries {
        steps.push(short(entry))?;
    }
    Ok(steps)
}
