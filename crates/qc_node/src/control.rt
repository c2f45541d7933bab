//! Control lines of an actor, carried out in its cell: one arms its disk, one has it
//! fall, one has it rise. Each holds the fabric's lock until the line has acted, over
//! the calls of the disk too: between control lines nobody else has anything to do.
//! Where the line isn't the next one any more, another worker carried it out.

ghost use Rattle.std.specs.Prelude.{◌≡◌, ◌≢◌, None, IfOk, IfSome, OnErr, false};
ghost use Rattle.qc_core.specs.declared.actor.Actor.TheVariants.{Down};
ghost use Rattle.qc_decl.specs.Accepted.{IsAccepted};
ghost use Rattle.qc_process.specs.Opens.{OpensAs, StaysOnDisk};
ghost use Rattle.qc_process.specs.Views.{HasFewRecords};
ghost use Rattle.qc_fabric.specs.Controls.{MayDo};
ghost use Rattle.qc_fabric.specs.Risings.{size_of_rising};
ghost use Rattle.qc_node.specs.OwnLines.{IsLineOf};
ghost use Rattle.qc_node.specs.Runnable.{IsRunnable};
ghost use Rattle.qc_node.specs.Restarts.{IsClosed, IsRecorded, opened_of};

use crate::cell::Cell;
use crate::controller::Controller;
use crate::rules::Rules;
use crate::worker::Worker;
use qc_decl::Declaration;
use qc_fabric::{FabricState, Rising, RunName};
use qc_list::OutOfMemory;
use qc_msg::Control;
use qc_outside::{Disk, Gate};
use qc_process::{Opened, Process};
use std::alloc::{AllocError, Global};
use std::sync::Wait;
use std::thread::Threads;

impl<D: Disk, N: RunName> Cell<D, N> {
    /// The control line that is next, where it is of this cell's actor: another worker
    /// may have carried out the one that was looked at.
    fn next_line<G: Gate, R: Threads + Wait + Sync>(
        &self,
        worker: &Worker<'_, D, N, G, R>,
        state: &FabricState<Rules, N>,
        last: u32,
    ) -> Option<Control>
        ensures { IfSome result (λ line. IsLineOf self.now.number line
            × MayDo N.declaration N.script state.now.history state.now.open_inputs line) }
    {
        let line = state.next_order(worker.decl, last)?;
        let actor = match line {
            Control::Armed { actor, .. } | Control::Crash(actor) | Control::Restart(actor) => actor,
            Control::Phase(_) | Control::Cut(..) | Control::Heal(..) => return None,
        };
        if actor == self.pass.number() {
            Some(line)
        } else {
            None
        }
    }

    /// A fault is armed for the actor's disk, where the next control line says so.
    /// Whether something is left: always.
    pub(crate) fn arm<G: Gate, R: Threads + Wait + Sync>(
        &mut self,
        worker: &Worker<'_, D, N, G, R>,
        controller: &mut Controller<N>,
        last: u32,
    ) -> Result<bool, OutOfMemory>
        requires runnable { IsRunnable N.declaration N.script }
        ensures number { self.new.number ≡ self.old.number }
    {
        let mut held = worker.fabric.hold(worker.rt);
        let Some(Control::Armed { kind, at, .. }) = self.next_line(worker, &held.state, last) else {
            return Ok(true);
        };
        if self.given_up {
            return Err(AllocError);
        }
        controller.arm(&mut held.state, &mut self.pass, kind, at)?;
        self.process.arm(kind, at);
        Ok(true)
    }

    /// The actor falls, where the next control line crashes it.
    pub(crate) fn crash<G: Gate, R: Threads + Wait + Sync>(
        &mut self,
        worker: &Worker<'_, D, N, G, R>,
        last: u32,
    ) -> Result<bool, OutOfMemory>
        requires runnable { IsRunnable N.declaration N.script }
        ensures number { self.new.number ≡ self.old.number }
    {
        let mut held = worker.fabric.hold(worker.rt);
        let Some(Control::Crash(_)) = self.next_line(worker, &held.state, last) else {
            return Ok(true);
        };
        if self.given_up {
            return Err(AllocError);
        }
        held.state.look(&mut self.pass);
        held.state.fall(&mut self.pass)?;
        self.process.crash();
        Ok(true)
    }

    /// The actor rises from its records, where the next control line restarts it, or
    /// stays down. It is tried once: after want of memory the process is given up,
    /// since its disk was called and no step shows it.
    pub(crate) fn restart<G: Gate, R: Threads + Wait + Sync>(
        &mut self,
        worker: &Worker<'_, D, N, G, R>,
        last: u32,
    ) -> Result<bool, OutOfMemory>
        requires runnable { IsRunnable N.declaration N.script }
        ensures number { self.new.number ≡ self.old.number }
    {
        let mut held = worker.fabric.hold(worker.rt);
        let Some(Control::Restart(_)) = self.next_line(worker, &held.state, last) else {
            return Ok(true);
        };
        if self.given_up {
            return Err(AllocError);
        }
        held.state.look(&mut self.pass);
        held.state.room(&Rising::Damaged { offset: 0 })?;
        self.given_up = true;
        let rising = open(
            worker.alloc,
            worker.decl,
            &mut self.process,
            &mut held.state,
        )?;
        let rising = with_record(&mut self.process, rising);
        let first = held.state.rise(&mut self.pass, rising);
        self.process.sent(first);
        self.given_up = false;
        Ok(true)
    }
}

/// The process opens its journal, where there is room for one step, which is all that
/// an actor does that stays down. Then there is room for what was found. After want
/// of memory the disk holds what it held.
fn open<D: Disk, N: RunName>(
    alloc: Global,
    decl: &Declaration,
    process: &mut Process<D>,
    state: &mut FabricState<Rules, N>,
) -> Result<Rising, OutOfMemory>
    requires accepted { IsAccepted decl.now }
    requires down { process.old.actor ≡ Down }
    requires room { state.old.spare ≡ 1 }
    ensures ok { IfOk result (λ rising. OpensAs decl.now process.old process.new (opened_of rising)) }
    ensures room { IfOk result (λ rising. state.new.spare ≡ size_of_rising rising) }
    ensures same { (state.new.history ≡ state.old.history) × (state.new.open_inputs ≡ state.old.open_inputs) }
    ensures err { OnErr result ((process.new.store.journal ≡ None)
        × StaysOnDisk decl.now process.old.store process.new.store) }
{
    match process.open(alloc, decl) {
        Ok(Opened::Rose { records, turn }) => {
            let rising = Rising::Rose { records, turn };
            make_room(process, state, rising)
        }
        Ok(Opened::Damaged { offset }) => Ok(Rising::Damaged { offset }),
        Ok(Opened::NotOpened { cause }) => Ok(Rising::NotOpened { cause }),
        Err(error) => Err(error),
    }
}

/// Makes room for an actor that rose. Without it the journal is closed.
fn make_room<D: Disk, N: RunName>(
    process: &mut Process<D>,
    state: &mut FabricState<Rules, N>,
    rising: Rising,
) -> Result<Rising, OutOfMemory>
    requires up { process.old.actor ≢ Down }
    ensures ok { IfOk result (λ r. (r ≡ rising) × (state.new.spare ≡ size_of_rising r)
        × (process.new ≡ process.old)) }
    ensures same { (state.new.history ≡ state.old.history) × (state.new.open_inputs ≡ state.old.open_inputs) }
    ensures err { OnErr result (IsClosed process.old process.new) }
{
    if let Err(error) = state.room(&rising) {
        process.crash();
        return Err(error);
    }
    Ok(rising)
}

/// What was found, with what became of the record of the rise, which is written now.
fn with_record<D: Disk>(process: &mut Process<D>, rising: Rising) -> Rising
    requires few { HasFewRecords process.old.store }
    ensures { IsRecorded process.old process.new rising result }
{
    match rising {
        Rising::Rose { records, turn } => {
            let mut turn = turn;
            turn.append = process.append();
            Rising::Rose { records, turn }
        }
        Rising::Damaged { offset } => Rising::Damaged { offset },
        Rising::NotOpened { cause } => Rising::NotOpened { cause },
    }
}
