//! The calls of a seat through the lock.

ghost use Rattle.std.specs.Prelude.{◌≡◌};

use crate::calls::{Saw, Says};
use crate::conduct::AnyTurn;
use crate::seat::Seat;
use crate::steps::short_of;
use crate::turn::{down_after, is_actor, may_say, turn_of};
use qc_decl::Declaration;
use qc_fabric::{Fabric, RunName};
use qc_list::OutOfMemory;
use std::alloc::Global;
use std::sync::Wait;

impl<N: RunName> Seat<N> {
    /// The actor takes its next input.
    pub(crate) fn take_by_lock<R: Wait>(
        &mut self,
        rt: &R,
        alloc: Global,
        fabric: &Fabric<AnyTurn, N>,
        decl: &Declaration,
    ) -> Result<Saw, OutOfMemory>
        requires { decl.now ≡ N.declaration }
    {
        let actor = self.pass.number();
        if !is_actor(decl, actor) {
            return Ok(Saw::MayNot);
        }
        let taken = fabric.take(rt, alloc, decl, &mut self.pass)?;
        Ok(Saw::Took(taken.map(|taken| short_of(actor, &taken.given))))
    }

    /// The actor makes room for its turn, and posts it.
    pub(crate) fn post_by_lock<R: Wait>(
        &mut self,
        rt: &R,
        alloc: Global,
        fabric: &Fabric<AnyTurn, N>,
        decl: &Declaration,
        says: Says,
    ) -> Result<Saw, OutOfMemory>
        requires { decl.now ≡ N.declaration }
    {
        if !is_actor(decl, self.pass.number()) || self.pass.room() != 0 {
            return Ok(Saw::MayNot);
        }
        let Some(turn) = turn_of(alloc, says)? else {
            return Ok(Saw::MayNot);
        };
        if !may_say(self.down, &turn) {
            return Ok(Saw::MayNot);
        }
        let append = turn.append;
        fabric.reserve(rt, &mut self.pass, &turn)?;
        let first = fabric.post(rt, &mut self.pass, turn);
        self.down = down_after(self.down, append);
        Ok(Saw::Posted(first))
    }

    /// The actor isn't held any more.
    pub(crate) fn leave_by_lock<R: Wait>(&mut self, rt: &R, fabric: &Fabric<AnyTurn, N>) {
        fabric.leave(rt, &mut self.pass);
    }

    /// Its pass sees the history of a state that is held. Whether its actor isn't
    /// held then, and nothing is left that the controller may do.
    pub(crate) fn rests<R: Wait>(
        &mut self,
        rt: &R,
        fabric: &Fabric<AnyTurn, N>,
        decl: &Declaration,
    ) -> bool
        requires { decl.now ≡ N.declaration }
    {
        let is_last = fabric.next_order(rt, decl, 9).is_none();
        let mut held = fabric.hold(rt);
        held.state.look(&mut self.pass);
        is_last && !held.state.is_held(self.pass.number())
    }
}
