//! A bit for each site and client.

ghost use Rattle.std.specs.Prelude.{◌≡◌, IfOk, false, replicate, slice_set};
ghost use Rattle.qc_fabric.specs.Picks.{has_any};

use qc_list::OutOfMemory;
use std::alloc::Global;

/// So many bits that aren't set.
pub(crate) fn closed(alloc: Global, actors: u8) -> Result<Vec<bool>, OutOfMemory>
    ensures { IfOk result (λ v. v.items ≡ replicate actors false) }
{
    let mut bits = Vec::new(alloc);
    bits.resize(usize::from(actors), false)?;
    Ok(bits)
}

/// Sets an actor's bit, or takes it away. Who has none has none afterwards.
pub(crate) fn set(bits: &mut Vec<bool>, actor: u8, value: bool)
    ensures { bits.new.items ≡ slice_set bits.old.items actor value }
{
    if (actor as usize) < bits.len() {
        bits[actor as usize] = value;
    }
}

/// Whether some bit is set.
pub(crate) fn any(bits: &[bool]) -> bool
    ensures { result ≡ has_any bits.now }
{
    bits.iter().any(|bit| *bit)
}
