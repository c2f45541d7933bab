//! Steps and inputs in short.

use qc_list::OutOfMemory;
use qc_msg::{Entry, Fall, Input, Step};
use std::alloc::Global;

/// The actor, the kind's letter, and the number of the phase or message, or 0.
pub(crate) type Short = (u8, u8, u32);

/// A step in short: `P`hase, cut (`X`), `H`eal, `A`rmed, `C`alled, `G`ot, `L`ost,
/// `W`rote, `S`ent, `T`old, `F`ell, or `f`ell with no record pending, `R`ose,
/// `D`amaged. The number of an arming is the call's; that of a fall is 0 where the
/// script made it, 1 where the disk stopped, and 2 where it failed.
pub(crate) fn short(entry: &Entry) -> Short {
    match &entry.step {
        Step::Phase(number) => (entry.actor, b'P', *number),
        Step::Cut(_, _) => (entry.actor, b'X', 0),
        Step::Heal(_, _) => (entry.actor, b'H', 0),
        Step::Called(_) => (entry.actor, b'C', 0),
        Step::Got(number) => (entry.actor, b'G', *number),
        Step::Lost(number) => (entry.actor, b'L', *number),
        Step::Wrote(_) => (entry.actor, b'W', 0),
        Step::Sent { number, .. } => (entry.actor, b'S', *number),
        Step::Told(_) => (entry.actor, b'T', 0),
        Step::Armed { at, .. } => (entry.actor, b'A', *at),
        Step::Fell { cause, pending } => {
            let letter = if pending.is_some() { b'F' } else { b'f' };
            (entry.actor, letter, number_of(*cause))
        }
        Step::Rose(_) => (entry.actor, b'R', 0),
        Step::Damaged(_) => (entry.actor, b'D', 0),
    }
}

/// The number of a fall's cause.
fn number_of(cause: Fall) -> u32 {
    match cause {
        Fall::Script => 0,
        Fall::Stop => 1,
        Fall::Disk => 2,
    }
}

/// An input of an actor in short, by the letters of its step.
pub(crate) fn short_of(actor: u8, given: &Input) -> Short {
    match given {
        Input::Called(_) => (actor, b'C', 0),
        Input::Got(envelope) => (actor, b'G', envelope.number),
        Input::Lost { number } => (actor, b'L', *number),
    }
}

/// Each step in short.
pub(crate) fn shorts(alloc: Global, entries: &[Entry]) -> Result<Vec<Short>, OutOfMemory> {
    let mut steps = Vec::new(alloc);
    for entry in entries {
        steps.push(short(entry))?;
    }
    Ok(steps)
}
