//! An actor takes an input, reserves room for its turn, and posts it.

ghost use Rattle.std.specs.Prelude.{◌≡◌, ◌<◌, [], IfOk, IfSome, OnOk, OnErr, MatchOption};
ghost use Rattle.std.specs.Prelude.{false, true, length, slice_set};
ghost use Rattle.qc_decl.specs.Actors.{actors};
ghost use Rattle.qc_msg.specs.Deeds.{deeds};
ghost use Rattle.qc_pass.specs.Tokens.{number, pass_table, room, seen};
ghost use Rattle.qc_fabric.specs.Tells.{GoesToActors, HasNext, HasNone, Posts, Sees, Takes, Waits, size_of};

use crate::bits::set;
use crate::conduct::{Conduct, RunName};
use crate::feed::{HistoryWriter, add};
use crate::given::{given_of, input_for, step_of};
use crate::room::{more, size_of};
use crate::state::FabricState;
use crate::taken::Taken;
use qc_decl::Declaration;
use qc_list::OutOfMemory;
use qc_mailbox::is_set;
use qc_msg::{Step, Turn};
use qc_pass::Pass;
use std::alloc::{AllocError, Global};

impl<C: Conduct, N: RunName> FabricState<C, N> {
    /// The pass's actor takes its next input. Where a counted quantity has reached
    /// its limit, its input is open, or nothing is ready for it, its holding ends,
    /// and so does its room. After want of memory nothing has changed.
    pub fn take(
        &mut self,
        alloc: Global,
        decl: &Declaration,
        pass: &mut Pass<Step>,
    ) -> Result<Option<Taken>, OutOfMemory>
        requires declaration { decl.now ≡ N.declaration }
        requires table { pass_table pass.old ≡ N.table }
        requires actor { number pass.old < actors N.declaration }
        ensures history { IfOk result (λ r. self.new.history ≡ seen pass.new) }
        ensures err { OnErr result ((self.new ≡ self.old) × (pass.new ≡ pass.old)) }
        ensures told { IfOk result (λ r. MatchOption r
            (Waits (C.lawful N.declaration) (C.fits N.declaration) N.declaration N.script pass.old pass.new)
            (λ taken. Takes (C.lawful N.declaration) (C.fits N.declaration) N.declaration N.script pass.old pass.new
            taken.given)) }
        ensures steps { IfOk result (λ r. IfSome r (λ taken. taken.steps ≡ length self.new.history)) }
        ensures exact { IfOk result (λ r. MatchOption r
            (HasNone N.declaration N.script self.old.open_inputs (number pass.old) self.old.history)
            (λ taken. HasNext N.declaration N.script self.old.open_inputs (number pass.old) self.old.history
            taken.given)) }
        ensures inputs { IfOk result (λ r. MatchOption r (self.new.open_inputs ≡ self.old.open_inputs)
            (λ taken. self.new.open_inputs ≡ slice_set self.old.open_inputs (number pass.old) true)) }
        ensures held { IfOk result (λ r. MatchOption r (self.new.held ≡ slice_set self.old.held (number pass.old) false)
            (λ taken. self.new.held ≡ self.old.held)) }
        ensures spare { self.new.spare ≡ self.old.spare }
    {
        let actor = pass.number();
        let inputs = self.inputs.as_slice();
        let Some(input) = input_for(&self.log, &self.mailboxes, inputs, decl, actor) else {
            self.leave(pass);
            return Ok(None);
        };
        let given = given_of(alloc, &self.log, input)?;
        let Some(room) = more(self.log.steps(), self.reserved, self.spare, 1) else {
            return Err(AllocError);
        };
        self.log.reserve(room)?;
        let Some(right) = self.right.take() else {
            unreachable!()
        };
        let step = step_of(&given);
        let right = add(&self.passes, right, &mut self.log, pass, step);
        self.mailboxes.take(actor);
        set(&mut self.inputs, actor, true);
        self.right = Some(right);
        let steps = self.log.steps() as u64;
        Ok(Some(Taken { given, steps }))
    }

    /// Makes room for the turn of the pass's actor, which has an open input, and
    /// sets the pass's room. After want of memory nothing has changed.
    pub fn reserve(&mut self, pass: &mut Pass<Step>, turn: &Turn) -> Result<(), OutOfMemory>
        requires table { pass_table pass.old ≡ N.table }
        requires actor { number pass.old < actors N.declaration }
        requires room { room pass.old ≡ 0 }
        ensures same { self.new ≡ self.old }
        ensures ok { OnOk result (Sees pass.old pass.new × (room pass.new ≡ size_of turn.now)) }
        ensures err { OnErr result (pass.new ≡ pass.old) }
    {
        // No worker comes here without an open input: it took one, and nobody
        // else closes it. What others did under the lock isn't known here, so
        // this is told as the one answer that is always free.
        if !is_set(self.inputs.as_slice(), pass.number()) {
            return Err(AllocError);
        }
        let size = size_of(turn)?;
        // Memory ends long before a history of the most steps.
        let Some(room) = more(self.log.steps(), self.reserved, self.spare, size) else {
            return Err(AllocError);
        };
        self.log.reserve(room)?;
        self.mailboxes.reserve(room)?;
        let Some(right) = self.right.take() else {
            unreachable!()
        };
        let right = self.passes.look(pass, right, size as u64);
        self.reserved += size;
        self.right = Some(right);
        Ok(())
    }

    /// Posts the turn for which there is room, by what became of its record: where
    /// that isn't written the actor falls. The holding of the pass's actor ends, and
    /// its input is no longer open. It answers the number of the first message, or
    /// of the next one where none is sent. It takes no memory.
    pub fn post(&mut self, pass: &mut Pass<Step>, turn: Turn) -> u32
        requires table { pass_table pass.old ≡ N.table }
        requires actor { number pass.old < actors N.declaration }
        requires room { room pass.old ≡ size_of turn }
        requires receivers { GoesToActors turn }
        requires lawful { C.lawful N.declaration (number pass.old) (deeds (number pass.old) [] (seen pass.old)) turn }
        ensures history { self.new.history ≡ seen pass.new }
        ensures told { Posts (C.lawful N.declaration) (C.fits N.declaration) N.declaration N.script pass.old pass.new
            turn result }
        ensures inputs { self.new.open_inputs ≡ slice_set self.old.open_inputs (number pass.old) false }
        ensures held { self.new.held ≡ slice_set self.old.held (number pass.old) false }
        ensures spare { self.new.spare ≡ self.old.spare }
    {
        let first = self.mailboxes.sent();
        let size = pass.room();
        let actor = pass.number();
        let Some(right) = self.right.take() else {
            unreachable!()
        };
        let right = self.passes.look(pass, right, size);
        self.mailboxes.post_as(actor, &turn);
        let mut writer = HistoryWriter {
            passes: &self.passes,
            log: &mut self.log,
            pass,
        };
        let right = writer.post(right, turn, first);
        let right = self.passes.look(pass, right, 0);
        set(&mut self.inputs, actor, false);
        set(&mut self.held, actor, false);
        self.reserved -= size as usize;
        self.right = Some(right);
        first
    }
}
