//! The roll of passes, once nobody adds to the history any more.
//!
//! A lock doesn't tell which of its cells has which pass. Here each pass is called
//! once, sees the whole history, and is given a room, which it had none of before:
//! so no two that were called have one number.

ghost use Rattle.std.specs.Prelude.{◌≡◌, ◌≤◌, None, Some, length, slice_get, slice_set};
ghost use Rattle.qc_decl.specs.Actors.{actors};
ghost use Rattle.qc_pass.specs.Tokens.{number, pass_table, room, seen};
ghost use Rattle.qc_script.specs.RunsWithFalls.{RunsWithFalls};
ghost use Rattle.qc_fabric.specs.Events.{before_last_event};
ghost use Rattle.qc_fabric.specs.Logs.{full_of};
ghost use Rattle.qc_fabric.specs.FabricStates.{most_history};
ghost use Rattle.qc_fabric.specs.Tells.{Sees};

use crate::conduct::{Conduct, RunName};
use crate::state::FabricState;
use qc_msg::{Entry, Step};
use qc_pass::{Pass, Passes, Right};
use qc_script::Script;
use std::marker::{Model, PhantomData};

/// A history to which nobody adds any more, with the right to it.
#[derive(Drop)]
pub struct Roll<N: RunName> {
    script: Script,
    entries: Vec<Entry>,
    passes: Passes<Step>,
    right: Option<Right<Step>>,
    of: PhantomData<N>,
}

impl<N: RunName> Model for Roll<N> {
    ghost use Rattle.qc_pass.specs.Tokens.{table_of};
    ghost use Rattle.qc_fabric.specs.Rolls.{Called, IsRoll, rooms_of};

    ghost Value = { Called };

    ghost view = { λ r. record { history = r.entries.items; rooms = rooms_of r.right } };

    ghost invariant = { λ r. IsRoll N.script N.table r.script r.entries.items (table_of r.passes) r.right };
}

impl<C: Conduct, N: RunName> FabricState<C, N> {
    /// The roll of all passes of the history, which is a run. Before its last event
    /// each counted quantity was below its limit. It takes no memory.
    pub fn roll(self) -> Roll<N>
        ensures history { result.history ≡ self.history }
        ensures inputs { length self.open_inputs ≡ actors N.declaration }
        ensures runs { RunsWithFalls (C.lawful N.declaration) (C.fits N.declaration) N.declaration N.script
            result.history self.open_inputs }
        ensures few { length result.history ≤ most_history }
        ensures below { full_of (before_last_event result.history) ≡ None }
    {
        let FabricState {
            script,
            log,
            passes,
            right,
            ..
        } = self;
        Roll {
            script,
            entries: log.into_entries(),
            passes,
            right,
            of: PhantomData,
        }
    }
}

impl<N: RunName> Roll<N> {
    /// A pass without room is called: it sees the history, and has a room from now
    /// on. So it wasn't called before. It takes no memory.
    pub fn call(&mut self, pass: &mut Pass<Step>)
        requires table { pass_table pass.old ≡ N.table }
        requires room { room pass.old ≡ 0 }
        ensures history { self.new.history ≡ self.old.history }
        ensures saw { Sees pass.old pass.new }
        ensures seen { seen pass.new ≡ self.new.history }
        ensures first { slice_get self.old.rooms (number pass.old) ≡ Some 0 }
        ensures called { self.new.rooms ≡ slice_set self.old.rooms (number pass.old) 1 }
    {
        let Some(right) = self.right.take() else {
            unreachable!()
        };
        let right = self.passes.look(pass, right, 1);
        self.right = Some(right);
    }

    /// The script, and the history's entries by themselves. It takes no memory.
    pub fn end(self) -> (Script, Vec<Entry>)
        ensures script { result.0 ≡ N.script }
        ensures history { result.1.items ≡ self.history }
    {
        let Roll {
            script,
            entries,
            ..
        } = self;
        (script, entries)
    }
}
