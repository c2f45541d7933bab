//! An actor is restarted: room for it, and that it rises or stays down.

ghost use Rattle.std.specs.Prelude.{◌≡◌, ◌+◌, ◌^◌, ◌<◌, ◌≤◌, length, OnOk, OnErr};
ghost use Rattle.qc_decl.specs.Actors.{actors};
ghost use Rattle.qc_link.specs.Limits.{most_actors};
ghost use Rattle.qc_msg.specs.declared.step.Control.TheVariants.{Restart};
ghost use Rattle.qc_pass.specs.Tokens.{number, pass_table, seen};
ghost use Rattle.qc_mailbox.specs.Rooms.{after_rising_as};
ghost use Rattle.qc_msg.specs.Steps.{sends_as};
ghost use Rattle.qc_fabric.specs.Controls.{MayDo};
ghost use Rattle.qc_fabric.specs.Risings.{IsRising, RisesAs, RisesToActors, after_rising, sends_of_rising};
ghost use Rattle.qc_fabric.specs.Risings.{size_of_rising};
ghost use Rattle.qc_fabric.specs.Tells.{GoesToActors};

use crate::conduct::{Conduct, RunName};
use crate::feed::HistoryWriter;
use crate::rising::Rising;
use crate::room::{more, size_of_rising};
use crate::state::FabricState;
use qc_list::OutOfMemory;
use qc_mailbox::Mailboxes;
use qc_msg::{Appended, Step, Turn};
use qc_pass::Pass;
use std::alloc::AllocError;

impl<C: Conduct, N: RunName> FabricState<C, N> {
    /// Makes spare room for what a restart found, in place of what is spare. After
    /// want of memory nothing has changed.
    pub fn room(&mut self, rising: &Rising) -> Result<(), OutOfMemory>
        ensures ok { OnOk result (self.new.spare ≡ size_of_rising rising.now) }
        ensures same { (self.new.history ≡ self.old.history) × (self.new.open_inputs ≡ self.old.open_inputs)
            × (self.new.held ≡ self.old.held) }
        ensures err { OnErr result (self.new ≡ self.old) }
    {
        let size = size_of_rising(rising)?;
        // Memory ends long before a history of the most steps.
        let Some(room) = more(self.log.steps(), self.reserved, size, 0) else {
            return Err(AllocError);
        };
        self.log.reserve(room)?;
        self.mailboxes.reserve(room)?;
        self.spare = size;
        Ok(())
    }

    /// The first control line left restarts the pass's actor, for which there is
    /// room: it rises with the journal's records and posts its rising turn, or stays
    /// down. It answers the number of the first message, as `post` does. It takes no
    /// memory.
    pub fn rise(&mut self, pass: &mut Pass<Step>, rising: Rising) -> u32
        requires table { pass_table pass.old ≡ N.table }
        requires actor { number pass.old < actors N.declaration }
        requires room { self.old.spare ≡ size_of_rising rising }
        requires may { MayDo N.declaration N.script self.old.history self.old.open_inputs
            (Restart (number pass.old)) }
        requires lawful { IsRising (C.lawful N.declaration) (C.fits N.declaration) (number pass.old) (seen pass.old)
            rising }
        ensures history { self.new.history ≡ seen pass.new }
        ensures told { RisesAs (C.lawful N.declaration) (C.fits N.declaration) N.declaration N.script pass.old pass.new
            rising result }
        ensures same { (self.new.open_inputs ≡ self.old.open_inputs) × (self.new.held ≡ self.old.held) }
        ensures spare { self.new.spare ≡ 0 }
    {
        let first = self.mailboxes.sent();
        let kept = pass.room();
        let actor = pass.number();
        let Some(right) = self.right.take() else {
            unreachable!()
        };
        let right = self.passes.look(pass, right, kept);
        post_rising(&mut self.mailboxes, actor, &rising);
        let mut writer = HistoryWriter {
            passes: &self.passes,
            log: &mut self.log,
            pass,
        };
        let right = writer.rise(right, rising, first);
        let right = self.passes.look(pass, right, kept);
        self.spare = 0;
        self.right = Some(right);
        first
    }
}

/// What waits for whom, as an actor that is down is restarted.
fn post_rising(mailboxes: &mut Mailboxes, actor: u8, rising: &Rising)
    requires actor { actor < most_actors }
    requires receivers { RisesToActors rising.now }
    requires few { mailboxes.old.inboxes.counts.all + length (sends_of_rising rising.now) < 2 ^ 32 }
    requires room { length (sends_of_rising rising.now) ≤ mailboxes.old.room }
    ensures inboxes { mailboxes.new.inboxes ≡ after_rising mailboxes.old.inboxes actor rising.now }
    ensures room { mailboxes.new.room + length (sends_of_rising rising.now) ≡ mailboxes.old.room }
{
    match rising {
        Rising::Rose { turn, .. } => post_risen(mailboxes, actor, turn),
        Rising::Damaged { .. } => mailboxes.end_line(),
        Rising::NotOpened { .. } => {
            mailboxes.fall(actor);
            mailboxes.end_line();
        }
    }
}

/// What waits for whom, as an actor rises and posts its rising turn. Where the
/// turn's record isn't written it rose in vain.
fn post_risen(mailboxes: &mut Mailboxes, actor: u8, turn: &Turn)
    requires actor { actor < most_actors }
    requires receivers { GoesToActors turn.now }
    requires few { mailboxes.old.inboxes.counts.all + length (sends_as turn.now.append turn.now) < 2 ^ 32 }
    requires room { length (sends_as turn.now.append turn.now) ≤ mailboxes.old.room }
    ensures inboxes { mailboxes.new.inboxes
        ≡ after_rising_as turn.now.append mailboxes.old.inboxes actor turn.now }
    ensures room { mailboxes.new.room + length (sends_as turn.now.append turn.now) ≡ mailboxes.old.room }
{
    match turn.append {
        Appended::Done => {
            mailboxes.rise(actor);
            mailboxes.post(actor, turn);
        }
        Appended::Failed | Appended::Stopped => {
            mailboxes.post_as(actor, turn);
            mailboxes.end_line();
        }
    }
}
