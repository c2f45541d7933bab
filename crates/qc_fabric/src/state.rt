//! The state that the lock holds: the history with the right to add to it, what
//! is ready, which inputs are open, and who is held.

ghost use Rattle.std.specs.Prelude.{◌≡◌, ◌<◌, ◌≤◌, ◌+◌, [], None, IfOk, false, length, replicate, slice_set};
ghost use Rattle.qc_decl.specs.Actors.{actors, controller};
ghost use Rattle.qc_mailbox.specs.Downs.{TellsWhereDown};
ghost use Rattle.qc_pass.specs.Made.{IsFirst};
ghost use Rattle.qc_pass.specs.Tokens.{number, pass_table, room, seen, table_of};
ghost use Rattle.qc_script.specs.RunsWithFalls.{RunsWithFalls};
ghost use Rattle.qc_script.specs.Sound.{IsScriptFor};
ghost use Rattle.qc_fabric.specs.Events.{before_last_event};
ghost use Rattle.qc_fabric.specs.Logs.{full_of};
ghost use Rattle.qc_fabric.specs.FabricStates.{most_history};
ghost use Rattle.qc_fabric.specs.Tells.{Sees};
ghost use Rattle.qc_link.specs.Limits.{most_actors};

use crate::bits::{closed, set};
use crate::conduct::{Conduct, RunName};
use crate::log::HistoryStore;
use qc_decl::Declaration;
use qc_list::OutOfMemory;
use qc_mailbox::Mailboxes;
use qc_msg::{Entry, Step};
use qc_pass::{Pass, Passes, Right};
use qc_script::Script;
use std::alloc::Global;
use std::marker::{Model, PhantomData};

/// The script, the history, the right to add to it, what is ready, who took an
/// input, and who is held.
#[derive(Drop)]
pub struct FabricState<C: Conduct, N: RunName> {
    pub(crate) script: Script,
    pub(crate) log: HistoryStore,
    pub(crate) mailboxes: Mailboxes,
    pub(crate) inputs: Vec<bool>,
    pub(crate) held: Vec<bool>,
    pub(crate) phase: u32,
    pub(crate) reserved: usize,
    pub(crate) spare: usize,
    pub(crate) passes: Passes<Step>,
    pub(crate) right: Option<Right<Step>>,
    of: PhantomData<(C, N)>,
}

impl<C: Conduct, N: RunName> Model for FabricState<C, N> {
    ghost use Rattle.qc_pass.specs.Tokens.{table_of};
    ghost use Rattle.qc_fabric.specs.FabricStates.{IsFabricState, Shown};

    ghost Value = { Shown };

    ghost view = { λ s. record {
      history = s.log.history;
      open_inputs = s.inputs.items;
      held = s.held.items;
      spare = s.spare;
    } };

    ghost invariant = { λ s. IsFabricState (C.lawful N.declaration)
        (C.fits N.declaration) N.declaration N.script N.table
        s.script s.log s.mailboxes s.inputs.items s.held.items s.phase s.reserved s.spare (table_of s.passes) s.right };
}

impl<C: Conduct, N: RunName> FabricState<C, N> {
    /// An empty history, with the right to it and a pass for each site, each
    /// client, the administrator and the controller.
    pub fn make(
        alloc: Global,
        decl: &Declaration,
        script: Script,
        passes: Passes<Step>,
        right: Right<Step>,
    ) -> Result<FabricState<C, N>, OutOfMemory>
        requires declaration { decl.now ≡ N.declaration }
        requires script { script ≡ N.script }
        requires sound { IsScriptFor N.declaration N.script }
        requires few { controller N.declaration < most_actors }
        requires table { table_of passes ≡ N.table }
        requires right { IsFirst N.table (controller N.declaration + 1) right }
        requires down { TellsWhereDown (C.lawful N.declaration) }
        ensures history { IfOk result (λ s. s.history ≡ []) }
        ensures inputs { IfOk result (λ s. s.open_inputs ≡ replicate (actors N.declaration) false) }
        ensures held { IfOk result (λ s. s.held ≡ replicate (actors N.declaration) false) }
        ensures spare { IfOk result (λ s. s.spare ≡ 0) }
    {
        let actors = decl.sites + decl.clients + 1;
        let mailboxes = Mailboxes::new(alloc, &script)?;
        let inputs = closed(alloc, actors)?;
        let held = closed(alloc, actors)?;
        Ok(FabricState {
            script,
            log: HistoryStore::new(alloc),
            mailboxes,
            inputs,
            held,
            phase: 0,
            reserved: 0,
            spare: 0,
            passes,
            right: Some(right),
            of: PhantomData,
        })
    }

    /// The script. It takes no memory.
    pub fn script(&self) -> &Script
        ensures { result.now ≡ N.script }
    {
        &self.script
    }

    /// The history's entries, which are a run, and no more than the most.
    pub fn history(&self) -> &[Entry]
        ensures history { result.now ≡ self.now.history }
        ensures runs { RunsWithFalls (C.lawful N.declaration) (C.fits N.declaration) N.declaration N.script result.now
            self.now.open_inputs }
        ensures below { full_of (before_last_event result.now) ≡ None }
        ensures few { length result.now ≤ most_history }
    {
        self.log.entries()
    }

    /// The pass sees the history. It takes no memory.
    pub fn look(&mut self, pass: &mut Pass<Step>)
        requires table { pass_table pass.old ≡ N.table }
        ensures same { self.new ≡ self.old }
        ensures saw { Sees pass.old pass.new }
        ensures seen { seen pass.new ≡ self.new.history }
        ensures runs { RunsWithFalls (C.lawful N.declaration) (C.fits N.declaration) N.declaration N.script
            (seen pass.new) self.new.open_inputs }
        ensures room { room pass.new ≡ room pass.old }
    {
        let kept = pass.room();
        let Some(right) = self.right.take() else {
            unreachable!()
        };
        let right = self.passes.look(pass, right, kept);
        self.right = Some(right);
    }

    /// Ends the holding of the pass's actor, and gives its room up. An input that
    /// is open stays open. It takes no memory.
    pub fn leave(&mut self, pass: &mut Pass<Step>)
        requires table { pass_table pass.old ≡ N.table }
        ensures same { (self.new.history ≡ self.old.history) × (self.new.open_inputs ≡ self.old.open_inputs) }
        ensures held { self.new.held ≡ slice_set self.old.held (number pass.old) false }
        ensures spare { self.new.spare ≡ self.old.spare }
        ensures saw { Sees pass.old pass.new }
        ensures seen { seen pass.new ≡ self.new.history }
        ensures room { room pass.new ≡ 0 }
    {
        let kept = pass.room();
        let actor = pass.number();
        let Some(right) = self.right.take() else {
            unreachable!()
        };
        let right = self.passes.look(pass, right, 0);
        self.reserved -= kept as usize;
        set(&mut self.held, actor, false);
        self.right = Some(right);
    }

    /// The script, and the history's entries by themselves, which are a run.
    /// Before its last event each counted quantity was below its limit. It takes
    /// no memory.
    pub fn end(self) -> (Script, Vec<Entry>)
        ensures script { result.0 ≡ N.script }
        ensures history { result.1.items ≡ self.history }
        ensures inputs { length self.open_inputs ≡ actors N.declaration }
        ensures runs { RunsWithFalls (C.lawful N.declaration) (C.fits N.declaration) N.declaration N.script
            result.1.items self.open_inputs }
        ensures few { length result.1.items ≤ most_history }
        ensures below { full_of (before_last_event result.1.items) ≡ None }
    {
        let FabricState { script, log, .. } = self;
        (script, log.into_entries())
    }
}
