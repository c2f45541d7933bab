//! An actor's process in its cell, and its turns.

ghost use Rattle.std.specs.Prelude.{◌≡◌, ◌<◌, [], IfOk, false};
ghost use Rattle.qc_decl.specs.Actors.{actors};
ghost use Rattle.qc_pass.specs.Made.{IsNew};
ghost use Rattle.qc_pass.specs.Tokens.{number};
ghost use Rattle.qc_process.specs.Stored.{IsProcess};
ghost use Rattle.qc_node.specs.Runnable.{IsRunnable};
ghost use Rattle.qc_node.specs.Cells.{IsTurn};

use crate::ends::TurnEnd;
use crate::worker::Worker;
use qc_fabric::{RunName, Taken};
use qc_list::OutOfMemory;
use qc_msg::Step;
use qc_outside::{Disk, Gate};
use qc_pass::Pass;
use qc_process::Process;
use std::alloc::AllocError;
use std::marker::{Model, PhantomData};
use std::sync::Wait;
use std::thread::Threads;

/// A process with its pass. Where it was given up, its disk is all that is known
/// of it.
#[derive(Drop)]
pub struct Cell<D: Disk, N: RunName> {
    pub(crate) process: Process<D>,
    pub(crate) given_up: bool,
    pub(crate) pass: Pass<Step>,
    of: PhantomData<N>,
}

impl<D: Disk, N: RunName> Model for Cell<D, N> {
    ghost use Rattle.qc_pass.specs.Tokens.{number, seen};
    ghost use Rattle.qc_node.specs.Cells.{IsCell, Known};

    ghost Value = { Known };

    ghost view = { λ c. record {
      number = number c.pass;
      seen = seen c.pass;
      given_up = c.given_up;
      process = c.process;
    } };

    ghost invariant = { λ c. IsCell N.tells N.table N.declaration c.given_up c.process c.pass };
}

impl<D: Disk, N: RunName> Cell<D, N> {
    /// The cell of a pass that has seen nothing, with the process of its number
    /// before that does anything. It takes no memory.
    pub(crate) fn new(process: Process<D>, pass: Pass<Step>) -> Cell<D, N>
        requires fresh { IsNew N.table (number pass) pass }
        requires actor { number pass < actors N.declaration }
        requires process { IsProcess N.tells N.declaration (number pass) [] process }
        ensures number { result.number ≡ number pass }
    {
        Cell {
            process,
            given_up: false,
            pass,
            of: PhantomData,
        }
    }

    /// The actor takes its next input, acts, writes its record, and posts. After
    /// want of memory its holding ends, and where it took an input this stays open:
    /// then the process is given up.
    pub(crate) fn turn<G: Gate, R: Threads + Wait + Sync>(
        &mut self,
        worker: &Worker<'_, D, N, G, R>,
    ) -> Result<TurnEnd, OutOfMemory>
        requires runnable { IsRunnable N.declaration N.script }
        ensures number { self.new.number ≡ self.old.number }
        ensures ok { IfOk result (λ end. IsTurn N.declaration N.script self.old self.new end) }
    {
        let end = self.try_turn(worker);
        if end.is_err() {
            worker.fabric.leave(worker.rt, &mut self.pass);
        }
        end
    }

    /// The same, but after want of memory the actor is still held. Its process counts
    /// as given up from the input until all is posted, so each way out between them
    /// leaves it so. All memory is taken before the disk is called.
    fn try_turn<G: Gate, R: Threads + Wait + Sync>(
        &mut self,
        worker: &Worker<'_, D, N, G, R>,
    ) -> Result<TurnEnd, OutOfMemory>
        requires runnable { IsRunnable N.declaration N.script }
        ensures number { self.new.number ≡ self.old.number }
        ensures ok { IfOk result (λ end. IsTurn N.declaration N.script self.old self.new end) }
    {
        let Worker {
            rt,
            alloc,
            decl,
            fabric,
            gate,
            ..
        } = *worker;
        let Some(Taken { given, steps }) = fabric.take(rt, alloc, decl, &mut self.pass)? else {
            return Ok(TurnEnd::NothingReady);
        };
        // A process that was given up has an open input, so nothing is ready for
        // it, and none was taken here. The lock doesn't let that be known.
        if self.given_up {
            return Err(AllocError);
        }
        self.given_up = true;
        let turn = self.process.take(alloc, decl, given)?;
        self.process.prepare(alloc, &turn)?;
        fabric.reserve(rt, &mut self.pass, &turn)?;
        gate.at(rt, self.pass.number(), steps);
        let mut turn = turn;
        turn.append = self.process.append();
        let first = fabric.post(rt, &mut self.pass, turn);
        self.process.sent(first);
        self.given_up = false;
        Ok(TurnEnd::Done)
    }
}
