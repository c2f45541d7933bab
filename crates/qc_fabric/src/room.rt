//! How much room is asked for, and whether there may be so much.

ghost use Rattle.std.specs.Prelude.{◌≡◌, ◌+◌, ◌≤◌, ◌<◌, None, IfOk, IfSome};
ghost use Rattle.qc_fabric.specs.Risings.{size_of_rising};
ghost use Rattle.qc_fabric.specs.FabricStates.{most_history};
ghost use Rattle.qc_fabric.specs.Tells.{size_of};

use crate::rising::Rising;
use qc_list::OutOfMemory;
use qc_msg::Turn;
use std::alloc::AllocError;

/// The most steps of a history.
pub const MOST_HISTORY: usize = 8_388_608;

/// The room for so many steps more than are reserved and spare, where the history
/// of so many steps stays within the most with them, and else `None`.
pub(crate) fn more(steps: usize, reserved: usize, spare: usize, added: usize) -> Option<usize>
    ensures some { IfSome result (λ room. (room ≡ (reserved + spare) + added) × (steps + room ≤ most_history)) }
    ensures none { result ≡ None → most_history < steps + ((reserved + spare) + added) }
{
    let room = reserved.checked_add(spare)?.checked_add(added)?;
    if steps <= MOST_HISTORY && room <= MOST_HISTORY - steps {
        Some(room)
    } else {
        None
    }
}

/// A sum. Lists in memory are never so long that it would wrap.
fn sum(count: usize, more: usize) -> Result<usize, OutOfMemory>
    ensures { IfOk result (λ total. total ≡ count + more) }
{
    match count.checked_add(more) {
        Some(total) => Ok(total),
        None => Err(AllocError),
    }
}

/// The room that a turn asks for.
pub(crate) fn size_of(turn: &Turn) -> Result<usize, OutOfMemory>
    ensures { IfOk result (λ size. size ≡ size_of turn.now) }
{
    let writes = if turn.write.is_some() { 1 } else { 0 };
    let tells = if turn.told.is_some() { 1 } else { 0 };
    let failed_tells = if turn.failed_told.is_some() { 1 } else { 0 };
    let written = sum(turn.sends.items().len(), writes + tells)?;
    let failed = sum(turn.failed_sends.items().len(), failed_tells + 1)?;
    sum(written.max(failed), 1)
}

/// The room that a restart asks for.
pub(crate) fn size_of_rising(rising: &Rising) -> Result<usize, OutOfMemory>
    ensures { IfOk result (λ size. size ≡ size_of_rising rising.now) }
{
    match rising {
        Rising::Rose { turn, .. } => sum(size_of(turn)?, 1),
        Rising::Damaged { .. } | Rising::NotOpened { .. } => Ok(1),
    }
}
