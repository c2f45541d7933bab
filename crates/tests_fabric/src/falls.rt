//! Control lines of actors: they arm disks, crash actors and restart them.

ghost use Rattle.std.specs.Prelude.{◌≡◌, ◌<◌, None, true, IfOk, IfSome};
ghost use Rattle.qc_decl.specs.Actors.{actors};
ghost use Rattle.qc_fabric.specs.Logs.{full_of};
ghost use Rattle.qc_pass.specs.Tokens.{number};
ghost use Rattle.tests_fabric.specs.Seats.{MayRise, down_by};

use crate::calls::{Finds, Saw};
use crate::conduct::AnyTurn;
use crate::seat::Seat;
use crate::turn::{down_after, is_actor, is_controller, writing};
use qc_decl::Declaration;
use qc_fabric::{FabricState, Rising, RunName};
use qc_list::{List, OutOfMemory};
use qc_msg::{Appended, Control, Fall, Record};
use std::alloc::Global;

impl<N: RunName> Seat<N> {
    /// Whether it is an actor's, and no limit is reached.
    fn may_act(&self, state: &FabricState<AnyTurn, N>, decl: &Declaration) -> bool
        requires { decl.now ≡ N.declaration }
        ensures { result ≡ true → (number self.now < actors N.declaration) × (full_of state.now.history ≡ None) }
    {
        is_actor(decl, self.pass.number()) && state.full().is_none()
    }

    /// The first control line left arms the seat's disk, where it does.
    pub(crate) fn arm(
        &mut self,
        controller: &mut Seat<N>,
        state: &mut FabricState<AnyTurn, N>,
        decl: &Declaration,
    ) -> Result<Saw, OutOfMemory>
        requires { decl.now ≡ N.declaration }
    {
        if !is_controller(decl, controller.pass.number()) || !self.may_act(state, decl) {
            return Ok(Saw::MayNot);
        }
        let Some(Control::Armed { actor, kind, at }) = state.next_control() else {
            return Ok(Saw::MayNot);
        };
        if actor != self.pass.number() {
            return Ok(Saw::MayNot);
        }
        state.arm(&mut controller.pass, &mut self.pass, kind, at)?;
        Ok(Saw::Acted)
    }

    /// The first control line left crashes the actor, where it does.
    pub(crate) fn crash(
        &mut self,
        state: &mut FabricState<AnyTurn, N>,
        decl: &Declaration,
    ) -> Result<Saw, OutOfMemory>
        requires { decl.now ≡ N.declaration }
    {
        if !self.may_act(state, decl) {
            return Ok(Saw::MayNot);
        }
        let Some(Control::Crash(actor)) = state.next_control() else {
            return Ok(Saw::MayNot);
        };
        if actor != self.pass.number() {
            return Ok(Saw::MayNot);
        }
        state.fall(&mut self.pass)?;
        self.down = true;
        Ok(Saw::Acted)
    }

    /// The first control line left restarts the actor, where it does, and this is
    /// found.
    pub(crate) fn restart(
        &mut self,
        alloc: Global,
        state: &mut FabricState<AnyTurn, N>,
        decl: &Declaration,
        finds: Finds,
    ) -> Result<Saw, OutOfMemory>
        requires { decl.now ≡ N.declaration }
    {
        if !self.may_act(state, decl) {
            return Ok(Saw::MayNot);
        }
        let Some(Control::Restart(actor)) = state.next_control() else {
            return Ok(Saw::MayNot);
        };
        if actor != self.pass.number() {
            return Ok(Saw::MayNot);
        }
        let Some(rising) = rising_of(alloc, finds)? else {
            return Ok(Saw::MayNot);
        };
        state.room(&rising)?;
        let down = down_by(self.down, &rising);
        let first = state.rise(&mut self.pass, rising);
        self.down = down;
        Ok(Saw::Posted(first))
    }
}

/// What a restart found, or none where a receiver's number is none of an actor, or
/// the script is to be a disk's doing.
fn rising_of(alloc: Global, finds: Finds) -> Result<Option<Rising>, OutOfMemory>
    ensures { IfOk result (λ rising. IfSome rising MayRise) }
{
    match finds {
        Finds::Nothing(append, to) => risen(alloc, append, to),
        Finds::Damage => Ok(Some(Rising::Damaged { offset: 0 })),
        Finds::Fault(Fall::Script) => Ok(None),
        Finds::Fault(Fall::Stop) => Ok(Some(Rising::NotOpened { cause: Fall::Stop })),
        Finds::Fault(Fall::Disk) => Ok(Some(Rising::NotOpened { cause: Fall::Disk })),
    }
}

/// A rise with no records, whose turn asks an actor.
fn risen(alloc: Global, append: Appended, to: u8) -> Result<Option<Rising>, OutOfMemory>
    ensures { IfOk result (λ rising. IfSome rising MayRise) }
{
    match writing(alloc, Record::Life, append, to)? {
        Some(turn) => {
            let records = List::new(alloc);
            Ok(Some(Rising::Rose { records, turn }))
        }
        None => Ok(None),
    }
}

/// Whether who was down, or wasn't, is so after a restart.
fn down_by(down: bool, rising: &Rising) -> bool
    ensures { result ≡ down_by down rising.now }
{
    match rising {
        Rising::Rose { turn, .. } => down_after(false, turn.append),
        Rising::Damaged { .. } => down,
        Rising::NotOpened { .. } => true,
    }
}
