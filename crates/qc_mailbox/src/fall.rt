//! Actors fall and rise. None of it takes memory: the places that it wants were
//! counted as messages went out.

ghost use Rattle.std.specs.Prelude.{◌≡◌, ◌+◌, ◌^◌, ◌≤◌, ◌<◌, length};
ghost use Rattle.std.specs.List.{AllByRecursion as Every};
ghost use Rattle.qc_mailbox.specs.Rooms.{after_fall, after_post_as, after_rise, with_control_gone};
ghost use Rattle.qc_mailbox.specs.Trays.{tray_emptied, tray_losing};
ghost use Rattle.qc_link.specs.Limits.{most_actors};
ghost use Rattle.qc_mailbox.specs.Boxes.{HasRoom, HasUsed, tray};
ghost use Rattle.qc_msg.specs.Steps.{sends_as};
ghost use Rattle.qc_msg.specs.declared.turn.Posting.{Posting};

use crate::boxes;
use crate::lines::pass_idle;
use crate::mailbox::Mailbox;
use crate::mailboxes::Mailboxes;
use qc_msg::{Appended, Turn};

impl Mailbox {
    /// Another actor falls: what this one asked it and has no answer is lost.
    pub(crate) fn lose(&mut self, actor: u8)
        requires { HasRoom 0 self.old }
        ensures tray { tray self.new ≡ tray_losing actor (tray self.old) }
        ensures used { HasUsed 0 self.old self.new }
    {
        self.unanswered.lose(actor, &mut self.lost);
    }

    /// The actor falls: nothing waits for it any more but commands, and late
    /// copies that aren't ready yet.
    pub(crate) fn fall(&mut self)
        ensures tray { tray self.new ≡ tray_emptied (tray self.old) }
        ensures used { HasUsed 0 self.old self.new }
    {
        self.copies.clear();
        self.unanswered.clear();
        self.lost.clear();
    }
}

impl Mailboxes {
    /// An actor that is up posts a turn, by what became of its record: where that
    /// isn't written, the actor falls. There is room for its messages.
    pub fn post_as(&mut self, actor: u8, turn: &Turn)
        requires actor { actor < most_actors }
        requires receivers { Every (λ (p : Posting). p.to < most_actors) (sends_as turn.now.append turn.now) }
        requires few { self.old.inboxes.counts.all + length (sends_as turn.now.append turn.now) < 2 ^ 32 }
        requires room { length (sends_as turn.now.append turn.now) ≤ self.old.room }
        ensures inboxes { self.new.inboxes ≡ after_post_as turn.now.append self.old.inboxes actor turn.now }
        ensures room { self.new.room + length (sends_as turn.now.append turn.now) ≡ self.old.room }
    {
        match turn.append {
            Appended::Done => self.post(actor, turn),
            Appended::Failed => {
                self.send_all(actor, turn.failed_sends.items());
                self.tell(actor, &turn.failed_told);
                self.fall(actor);
            }
            Appended::Stopped => {
                self.tell(actor, &turn.failed_told);
                self.fall(actor);
            }
        }
    }

    /// An actor falls: nothing waits for it any more, and what others asked it and
    /// has no answer is lost. It takes no memory.
    pub fn fall(&mut self, actor: u8)
        requires { actor < most_actors }
        ensures inboxes { self.new.inboxes ≡ after_fall self.old.inboxes actor }
        ensures room { self.new.room ≡ self.old.room }
    {
        self.up.set(actor, false);
        boxes::lose(&mut self.boxes, actor);
        boxes::fall(&mut self.boxes, actor);
    }

    /// An actor rises, by the first control line left. Its rising turn is posted
    /// after that. It takes no memory.
    pub fn rise(&mut self, actor: u8)
        requires { actor < most_actors }
        ensures inboxes { self.new.inboxes ≡ after_rise self.old.inboxes actor }
        ensures room { self.new.room ≡ self.old.room }
    {
        self.up.set(actor, true);
        self.end_line();
    }

    /// The first control line left has acted, and those behind it that have
    /// nothing to do are passed over. It takes no memory.
    pub fn end_line(&mut self)
        ensures inboxes { self.new.inboxes ≡ with_control_gone self.old.inboxes }
        ensures room { self.new.room ≡ self.old.room }
    {
        self.controls.drop_first();
        pass_idle(&mut self.controls, &self.up);
        boxes::open(&mut self.boxes, self.controls.len() == 0, &self.up);
    }
}
