//! A pass of the run's table, by which its actor does the calls of rows.

ghost use Rattle.std.specs.Prelude.{◌≡◌, [], None, true};
ghost use Rattle.qc_decl.specs.Actors.{controller};
ghost use Rattle.qc_fabric.specs.Logs.{full_of};
ghost use Rattle.qc_pass.specs.Tokens.{number, pass_table, seen};

use crate::calls::{Act, Saw, Says};
use crate::conduct::AnyTurn;
use crate::steps::short_of;
use crate::turn::{down_after, is_actor, is_controller, may_say, turn_of};
use qc_decl::Declaration;
use qc_fabric::{FabricState, RunName};
use qc_list::OutOfMemory;
use qc_msg::{Control, Step};
use qc_pass::Pass;
use std::alloc::Global;
use std::marker::{Model, PhantomData};

/// A pass of the run's table, and whether its actor is down.
#[derive(Drop)]
pub(crate) struct Seat<N: RunName> {
    pub(crate) pass: Pass<Step>,
    pub(crate) down: bool,
    of: PhantomData<N>,
}

impl<N: RunName> Model for Seat<N> {
    ghost use Rattle.qc_pass.specs.declared.token.Pass.{Pass};
    ghost use Rattle.qc_msg.specs.declared.step.Step.{Step};
    ghost use Rattle.tests_fabric.specs.Seats.{IsSeat};

    ghost Value = { Pass Step };

    ghost view = { λ s. s.pass };

    ghost invariant = { λ s. IsSeat N.table N.declaration s.pass s.down };
}

impl<N: RunName> Seat<N> {
    /// The seat of a pass that has seen nothing: its actor is up.
    pub(crate) fn new(pass: Pass<Step>) -> Seat<N>
        requires table { pass_table pass ≡ N.table }
        requires none { seen pass ≡ [] }
    {
        Seat {
            pass,
            down: false,
            of: PhantomData,
        }
    }

    /// Whether it is the controller's, and no limit is reached.
    fn may_order(&self, state: &FabricState<AnyTurn, N>, decl: &Declaration) -> bool
        requires { decl.now ≡ N.declaration }
        ensures { result ≡ true → (number self.now ≡ controller N.declaration) × (full_of state.now.history ≡ None) }
    {
        is_controller(decl, self.pass.number()) && state.full().is_none()
    }

    /// The call, and what it answers.
    pub(crate) fn act(
        &mut self,
        alloc: Global,
        state: &mut FabricState<AnyTurn, N>,
        decl: &Declaration,
        act: Act,
    ) -> Result<Saw, OutOfMemory>
        requires { decl.now ≡ N.declaration }
    {
        match act {
            Act::Phase => self.begin(state, decl),
            Act::Control => self.control(state, decl),
            Act::Arm(_) => Ok(Saw::MayNot),
            Act::Crash(_) => self.crash(state, decl),
            Act::Restart(_, finds) => self.restart(alloc, state, decl, finds),
            Act::Pick => Ok(Saw::Picked(state.pick(decl))),
            Act::Take(_) => self.take(alloc, state, decl),
            Act::Post(_, says) => self.post(alloc, state, decl, says),
            Act::Leave(_) => Ok(self.leave(state)),
            Act::Quiet => Ok(Saw::Is(state.quiet(decl))),
            Act::Full => Ok(Saw::Is(state.full().is_some())),
            Act::Held(actor) => Ok(Saw::Is(state.is_held(actor))),
        }
    }

    /// The next phase begins, where it may.
    fn begin(
        &mut self,
        state: &mut FabricState<AnyTurn, N>,
        decl: &Declaration,
    ) -> Result<Saw, OutOfMemory>
        requires { decl.now ≡ N.declaration }
    {
        let phase = state.phase();
        let Some(next) = phase.checked_add(1) else {
            return Ok(Saw::MayNot);
        };
        let is_last = phase as usize >= state.script().phases.items().len();
        if is_last || !self.may_order(state, decl) || !state.quiet(decl) {
            return Ok(Saw::MayNot);
        }
        state.order(&mut self.pass, Control::Phase(next))?;
        Ok(Saw::Began)
    }

    /// The first control line left of the phase acts, where it may.
    fn control(
        &mut self,
        state: &mut FabricState<AnyTurn, N>,
        decl: &Declaration,
    ) -> Result<Saw, OutOfMemory>
        requires { decl.now ≡ N.declaration }
    {
        if !self.may_order(state, decl) {
            return Ok(Saw::MayNot);
        }
        match state.next_control() {
            Some(Control::Cut(a, b)) => {
                state.order(&mut self.pass, Control::Cut(a, b))?;
                Ok(Saw::Acted)
            }
            Some(Control::Heal(a, b)) => {
                state.order(&mut self.pass, Control::Heal(a, b))?;
                Ok(Saw::Acted)
            }
            _ => Ok(Saw::MayNot),
        }
    }

    /// The actor takes its next input.
    fn take(
        &mut self,
        alloc: Global,
        state: &mut FabricState<AnyTurn, N>,
        decl: &Declaration,
    ) -> Result<Saw, OutOfMemory>
        requires { decl.now ≡ N.declaration }
    {
        let actor = self.pass.number();
        if !is_actor(decl, actor) {
            return Ok(Saw::MayNot);
        }
        let taken = state.take(alloc, decl, &mut self.pass)?;
        Ok(Saw::Took(taken.map(|taken| short_of(actor, &taken.given))))
    }

    /// The actor makes room for its turn, and posts it.
    fn post(
        &mut self,
        alloc: Global,
        state: &mut FabricState<AnyTurn, N>,
        decl: &Declaration,
        says: Says,
    ) -> Result<Saw, OutOfMemory>
        requires { decl.now ≡ N.declaration }
    {
        if !is_actor(decl, self.pass.number()) || self.pass.room() != 0 {
            return Ok(Saw::MayNot);
        }
        let Some(turn) = turn_of(alloc, says)? else {
            return Ok(Saw::MayNot);
        };
        if !may_say(self.down, &turn) {
            return Ok(Saw::MayNot);
        }
        let append = turn.append;
        state.reserve(&mut self.pass, &turn)?;
        let first = state.post(&mut self.pass, turn);
        self.down = down_after(self.down, append);
        Ok(Saw::Posted(first))
    }

    /// The pass sees the history, and its actor isn't held any more.
    fn leave(&mut self, state: &mut FabricState<AnyTurn, N>) -> Saw {
        state.look(&mut self.pass);
        state.leave(&mut self.pass);
        Saw::Left
    }
}
