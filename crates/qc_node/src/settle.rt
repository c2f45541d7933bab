//! Cells settle once no thread shares them: each has seen the whole history, and
//! each disk goes back to the rack.

ghost use Rattle.std.specs.Prelude.{◌≡◌, ◌+◌, ℕ, IfSome, is_some, option_copied};
ghost use Rattle.qc_decl.specs.Actors.{controller};
ghost use Rattle.laws_bounds.specs.Places.{AreHandedOut};
ghost use Rattle.qc_node.specs.Settling.{IsSettling};

use crate::cell::Cell;
use crate::cells::Cells;
use qc_fabric::{Roll, RunName};
use qc_outside::Rack;

/// Each pass is called, and each disk goes back to its place in this folder, or in
/// none: then all did. It takes no memory.
pub(crate) fn settle<K: Rack, N: RunName>(
    dir: Option<&str>,
    cells: Cells<K::D, N>,
    roll: &mut Roll<N>,
    rack: &mut K,
)
    requires tells { is_some (K.places rack.old) ≡ N.tells }
    requires handed { IfSome (K.places rack.old) (AreHandedOut (option_copied dir) (controller N.declaration)) }
    ensures history { roll.new.history ≡ roll.old.history }
    ensures settled { IsSettling (option_copied dir.entry) N.tells N.declaration roll.new.history roll.new.rooms
        (controller N.declaration) (K.faults rack.old) (K.faults rack.new) (K.places rack.new) }
{
    let Cells {
        cells,
        controller: _,
    } = cells;
    for cell in cells {
        settle_one(dir, cell.into_inner(), roll, rack);
    }
}

/// The disk of one cell goes back, which hadn't gone back before.
fn settle_one<K: Rack, N: RunName>(
    dir: Option<&str>,
    cell: Cell<K::D, N>,
    roll: &mut Roll<N>,
    rack: &mut K,
)
    ensures history { roll.new.history ≡ roll.old.history }
    ensures one { (count before : ℕ) → IsSettling (option_copied dir.entry) N.tells N.declaration roll.old.history
        roll.old.rooms count before (K.faults rack.old) (K.places rack.old)
        → IsSettling (option_copied dir.entry) N.tells N.declaration roll.new.history roll.new.rooms (count + 1) before
        (K.faults rack.new) (K.places rack.new) }
{
    let mut cell = cell;
    roll.call(&mut cell.pass);
    let actor = cell.pass.number();
    rack.keep(dir, actor, cell.process.into_disk());
}
