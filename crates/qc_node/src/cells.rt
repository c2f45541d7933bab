//! The cells of all actors, with the controller.

ghost use Rattle.std.specs.Prelude.{◌≡◌, vec_len};
ghost use Rattle.qc_decl.specs.Actors.{actors};

use crate::cell::Cell;
use crate::controller::Controller;
use qc_fabric::RunName;
use qc_outside::Disk;
use std::sync::Mutex;

/// The cells of all actors, by number, and the controller. Locks are taken in this
/// order: a cell's, the controller's, the fabric's; and no thread holds two of one
/// kind.
#[derive(Drop)]
pub struct Cells<D: Disk, N: RunName> {
    pub(crate) cells: Vec<Mutex<Cell<D, N>>>,
    pub(crate) controller: Mutex<Controller<N>>,
    ghost whole: { vec_len cells ≡ actors N.declaration },
}
