//! One worker.

ghost use Rattle.std.specs.Prelude.{◌≡◌, ◌<◌};
ghost use Rattle.qc_decl.specs.Actors.{actors};
ghost use Rattle.qc_node.specs.Runnable.{IsRunnable};

use crate::cells::Cells;
use crate::ends::{DriveEnd, TurnEnd};
use crate::rules::Rules;
use qc_decl::Declaration;
use qc_fabric::{Fabric, Picked, RunName};
use qc_list::OutOfMemory;
use qc_msg::Control;
use qc_outside::{Disk, Gate};
use std::alloc::Global;
use std::sync::Wait;
use std::thread::Threads;

/// What a worker goes by: the run's declaration, the history that all workers share,
/// the cells of the actors, and what each turn passes before it is posted.
#[derive(Drop)]
pub(crate) struct Worker<'a, D: Disk, N: RunName, G: Gate, R: Threads + Wait + Sync> {
    pub(crate) rt: &'a R,
    pub(crate) alloc: Global,
    pub(crate) decl: &'a Declaration,
    pub(crate) fabric: &'a Fabric<Rules, N>,
    pub(crate) cells: &'a Cells<D, N>,
    pub(crate) gate: &'a G,
    ghost declaration: { decl.now ≡ N.declaration },
}

impl<'a, D: Disk, N: RunName, G: Gate, R: Threads + Wait + Sync> Worker<'a, D, N, G, R> {
    /// It picks an actor, which takes its turn, and so on; where nothing is ready
    /// and nobody is held it has done what comes next, in phases up to the last one
    /// that is given: a control line acts, or the next phase begins. It ends where
    /// nothing is left in these, a counted quantity has reached its limit, or memory
    /// was wanting. Then it wakes the others.
    pub(crate) fn drive(&self, last: u32) -> DriveEnd
        requires runnable { IsRunnable N.declaration N.script }
    {
        let end = self.serve(last);
        self.fabric.wake();
        end
    }

    /// The same, while the others may sleep.
    fn serve(&self, last: u32) -> DriveEnd
        requires runnable { IsRunnable N.declaration N.script }
    {
        for _ in self.rt.forever() {
            match self.fabric.pick(self.rt, self.decl) {
                Picked::Full(full) => return DriveEnd::Full(full),
                Picked::Actor(actor) => {
                    if self.turn(actor).is_err() {
                        return DriveEnd::OutOfMemory;
                    }
                }
                Picked::Quiet => match self.go_on(last) {
                    Ok(true) => {}
                    Ok(false) => return DriveEnd::Quiet,
                    Err(_) => return DriveEnd::OutOfMemory,
                },
            }
        }
        unreachable!()
    }

    /// A turn of the actor in the cell of this number.
    fn turn(&self, actor: u8) -> Result<TurnEnd, OutOfMemory>
        requires runnable { IsRunnable N.declaration N.script }
        requires actor { actor < actors N.declaration }
    {
        let mut cell = self.cells.cells[actor as usize].lock(self.rt);
        cell.turn(self)
    }

    /// What comes next is done, in phases up to the last one that is given: a control
    /// line acts, in the cell of its actor or by the controller, or the next phase
    /// begins, of which the gate is told before. Whether something is left.
    fn go_on(&self, last: u32) -> Result<bool, OutOfMemory>
        requires runnable { IsRunnable N.declaration N.script }
    {
        match self.fabric.next_order(self.rt, self.decl, last) {
            Some(Control::Armed { actor, .. }) => {
                let mut cell = self.cells.cells[actor as usize].lock(self.rt);
                let mut controller = self.cells.controller.lock(self.rt);
                cell.arm(self, &mut controller, last)
            }
            Some(Control::Crash(actor)) => {
                let mut cell = self.cells.cells[actor as usize].lock(self.rt);
                cell.crash(self, last)
            }
            Some(Control::Restart(actor)) => {
                let mut cell = self.cells.cells[actor as usize].lock(self.rt);
                cell.restart(self, last)
            }
            Some(Control::Phase(number)) => {
                self.gate.phase(self.rt, number, last);
                self.act(last)
            }
            Some(Control::Cut(_, _) | Control::Heal(_, _)) | None => self.act(last),
        }
    }

    /// The controller does what it may do next.
    fn act(&self, last: u32) -> Result<bool, OutOfMemory> {
        let mut controller = self.cells.controller.lock(self.rt);
        controller.act(self.rt, self.decl, self.fabric, last)
    }
}
