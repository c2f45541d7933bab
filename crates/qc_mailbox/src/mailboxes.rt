//! What is kept beside a history: what waits for each actor, which actors are
//! cut from each other, and how many messages there were.

ghost use Rattle.std.specs.Prelude.{◌≡◌, ◌+◌, ◌^◌, ◌≤◌, ◌<◌, IfOk, IfSome, OnOk, OnErr};
ghost use Rattle.std.specs.Prelude.{length, slice_get};
ghost use Rattle.std.specs.List.{AllByRecursion as Every};
ghost use Rattle.qc_msg.specs.declared.turn.Posting.{Posting};
ghost use Rattle.qc_mailbox.specs.Inputs.{IsWithin, next_in};
ghost use Rattle.qc_mailbox.specs.Rooms.{after_first, after_phase, after_reply};
ghost use Rattle.qc_mailbox.specs.Rooms.{after_send, after_sends, after_take, after_turn, empty_inboxes};
ghost use Rattle.qc_mailbox.specs.Rooms.{tray_at};
ghost use Rattle.qc_msg.specs.declared.reply.Reply.{Reply};
ghost use Rattle.qc_mailbox.specs.Queues.{items};
ghost use Rattle.qc_link.specs.Limits.{most_actors};

use crate::counts::Counts;
use crate::lines::pass_idle;
use crate::mailbox::Mailbox;
use crate::queue::Queue;
use crate::ups::Ups;
use crate::{ReadyInput, boxes};
use qc_link::{Cuts, Link, LinkPlan, fate};
use qc_list::OutOfMemory;
use qc_msg::{Control, Posting, Reply, Turn};
use qc_script::{PhaseLines, Script};
use std::alloc::{AllocError, Global};
use std::marker::Model;

/// The mailboxes of all actors, with room for so many messages in each.
#[derive(Drop)]
pub struct Mailboxes {
    links: LinkPlan,
    cuts: Cuts,
    pub(crate) up: Ups,
    counts: Counts,
    pub(crate) controls: Queue<Control>,
    pub(crate) boxes: Vec<Mailbox>,
    room: usize,
}

impl Model for Mailboxes {
    ghost use Rattle.qc_mailbox.specs.Kept.{IsRoomy, Roomy, shown};

    ghost Value = { Roomy };

    ghost view = { λ m. record {
      inboxes = shown m.links m.cuts m.up m.counts m.controls m.boxes.items;
      room = m.room;
    } };

    ghost invariant = { λ m. IsRoomy m.room m.boxes.items };
}

/// More room than is asked for is made at once, for so many messages.
const MORE: usize = 64;

impl Mailboxes {
    /// Before the first step of a script.
    pub fn new(alloc: Global, script: &Script) -> Result<Mailboxes, OutOfMemory>
        ensures inboxes { IfOk result (λ m. m.inboxes ≡ empty_inboxes script.now) }
        ensures room { IfOk result (λ m. m.room ≡ 0) }
    {
        Ok(Mailboxes {
            links: plan_of(alloc, script.links.items())?,
            cuts: Cuts::new(),
            up: Ups::new(),
            counts: Counts::new(),
            controls: Queue::new(alloc),
            boxes: boxes::empty(alloc)?,
            room: 0,
        })
    }

    /// How many messages were sent so far: the number of the next one.
    pub fn sent(&self) -> u32
        ensures { result ≡ self.now.inboxes.counts.all }
    {
        self.counts.all()
    }

    /// How many commands an actor called in this phase.
    pub(crate) fn calls(&self, actor: u8) -> u32
        requires { actor < most_actors }
        ensures { result ≡ (tray_at self.now.inboxes.trays actor).calls }
    {
        self.boxes[actor as usize].calls
    }

    /// What is ready next for an actor that takes commands or doesn't, where the
    /// phase's control lines have acted.
    pub(crate) fn ready_for(&self, actor: u8, takes_commands: bool) -> Option<ReadyInput>
        requires { actor < most_actors }
        ensures { result ≡ next_in takes_commands (tray_at self.now.inboxes.trays actor) }
    {
        self.boxes[actor as usize].ready_input(takes_commands)
    }

    /// The first control line left of the phase.
    pub fn next_control(&self) -> Option<Control>
        ensures { result ≡ slice_get self.now.inboxes.controls 0 }
    {
        self.controls.first()
    }

    /// Makes room for so many messages, where it isn't there. What waits stays,
    /// and so does a smaller room, also after want of memory.
    pub fn reserve(&mut self, messages: usize) -> Result<(), OutOfMemory>
        ensures same { self.new.inboxes ≡ self.old.inboxes }
        ensures kept { self.old.room ≤ self.new.room }
        ensures ok { OnOk result (messages ≤ self.new.room) }
    {
        if messages <= self.room {
            return Ok(());
        }
        // Such numbers of messages find no memory anyhow.
        let Some(room) = messages.checked_add(MORE) else {
            return Err(AllocError);
        };
        let Some(places) = room.checked_mul(4) else {
            return Err(AllocError);
        };
        boxes::reserve(&mut self.boxes, places)?;
        self.room = room;
        Ok(())
    }

    /// An actor takes what is ready next for it.
    pub fn take(&mut self, actor: u8)
        requires actor { actor < most_actors }
        requires calls { (tray_at self.old.inboxes.trays actor).calls + 1 < 2 ^ 32 }
        ensures inboxes { self.new.inboxes ≡ after_take self.old.inboxes actor }
        ensures room { self.new.room ≡ self.old.room }
    {
        boxes::take(&mut self.boxes, actor);
    }

    /// An actor posts a turn whose record is written, or that has none. There
    /// is room for its messages.
    pub fn post(&mut self, actor: u8, turn: &Turn)
        requires actor { actor < most_actors }
        requires receivers { Every (λ (p : Posting). p.to < most_actors) turn.now.sends }
        requires few { self.old.inboxes.counts.all + length turn.now.sends < 2 ^ 32 }
        requires room { length turn.now.sends ≤ self.old.room }
        ensures inboxes { self.new.inboxes ≡ after_turn self.old.inboxes actor turn.now }
        ensures room { self.new.room + length turn.now.sends ≡ self.old.room }
    {
        self.send_all(actor, turn.sends.items());
        self.tell(actor, &turn.told);
    }

    /// An actor tells a reply, if it has one.
    pub(crate) fn tell(&mut self, actor: u8, reply: &Option<Reply>)
        requires { actor < most_actors }
        ensures inboxes { self.new.inboxes ≡ after_reply self.old.inboxes actor reply.now }
        ensures room { self.new.room ≡ self.old.room }
    {
        if reply.is_some() {
            boxes::tell(&mut self.boxes, actor);
        }
    }

    /// An actor sends messages, one after another.
    pub(crate) fn send_all(&mut self, actor: u8, postings: &[Posting])
        requires actor { actor < most_actors }
        requires receivers { Every (λ (p : Posting). p.to < most_actors) postings.now }
        requires few { self.old.inboxes.counts.all + length postings.now < 2 ^ 32 }
        requires room { length postings.now ≤ self.old.room }
        ensures inboxes { self.new.inboxes ≡ after_sends self.old.inboxes actor postings.now }
        ensures room { self.new.room + length postings.now ≡ self.old.room }
    {
        'postings: for posting in postings {
            self.send(actor, posting);
        }
    }

    /// An actor sends a message: its fate is decided at once.
    fn send(&mut self, actor: u8, posting: &Posting)
        requires actor { actor < most_actors }
        requires receiver { posting.now.to < most_actors }
        requires few { self.old.inboxes.counts.all + 1 < 2 ^ 32 }
        requires room { 0 < self.old.room }
        ensures inboxes { self.new.inboxes ≡ after_send self.old.inboxes actor posting.now }
        ensures room { self.new.room + 1 ≡ self.old.room }
    {
        let Posting { to, message } = posting;
        let number = self.counts.all();
        let ordinal = self.counts.add(actor, *to);
        let fate = fate(&self.links, &self.cuts, actor, *to, ordinal);
        let up = self.up.is_up(*to as usize);
        boxes::come(&mut self.boxes, up, *to, number, message, fate);
        boxes::go(&mut self.boxes, up, actor, number, *to, message, fate);
        self.room -= 1;
    }

    /// The next phase begins. After want of memory nothing has changed.
    pub fn begin_phase(&mut self, phase: &PhaseLines) -> Result<(), OutOfMemory>
        ensures ok { OnOk result (self.new.inboxes ≡ after_phase self.old.inboxes phase.now) }
        ensures err { OnErr result (self.new.inboxes ≡ self.old.inboxes) }
        ensures room { self.new.room ≡ self.old.room }
    {
        let (controls, lines) = (phase.controls.items(), phase.commands.items());
        let Some(places) = self.room.checked_mul(4) else {
            return Err(AllocError);
        };
        self.controls.reserve(controls.len())?;
        boxes::prepare(&mut self.boxes, places, lines.len())?;
        self.controls.refill(controls);
        pass_idle(&mut self.controls, &self.up);
        boxes::ask_commands(&mut self.boxes, places, lines);
        boxes::begin(&mut self.boxes, self.controls.len() == 0, &self.up);
        Ok(())
    }

    /// The first control line left acts, if it is the controller's own: it cuts,
    /// heals or arms. It takes no memory.
    pub fn control(&mut self)
        requires { IfSome (slice_get self.old.inboxes.controls 0) IsWithin }
        ensures inboxes { self.new.inboxes ≡ after_first self.old.inboxes self.old.inboxes.controls }
        ensures room { self.new.room ≡ self.old.room }
    {
        match self.controls.first() {
            Some(Control::Cut(a, b)) => {
                self.cuts.cut(a, b);
                self.end_line();
            }
            Some(Control::Heal(a, b)) => {
                self.cuts.heal(a, b);
                self.end_line();
            }
            Some(Control::Armed { .. }) => self.end_line(),
            Some(Control::Phase(_)) | Some(Control::Crash(_)) | Some(Control::Restart(_)) | None =>
                {}
        }
    }
}

/// The rules of links, looked up by what they name.
fn plan_of(alloc: Global, links: &[Link]) -> Result<LinkPlan, OutOfMemory>
    ensures { IfOk result (λ p. p ≡ links.now) }
{
    let mut plan = LinkPlan::new(alloc);
    'links: for link in links {
        plan.add(link.from, link.to, link.ordinal, link.rule)?;
    }
    Ok(plan)
}
