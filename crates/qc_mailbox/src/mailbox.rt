//! What waits for one actor.

ghost use Rattle.std.specs.Prelude.{◌≡◌, ◌+◌, ◌^◌, ◌<◌, true, false, OnOk};
ghost use Rattle.qc_script.specs.Inbox.{comes_at_once, is_request};
ghost use Rattle.qc_mailbox.specs.Inputs.{first_command, next_in};
ghost use Rattle.qc_mailbox.specs.Trays.{empty_tray, tray_answered, tray_answered_by, tray_asks};
ghost use Rattle.qc_mailbox.specs.Trays.{tray_called, tray_comes, tray_goes, tray_lost_unless};
ghost use Rattle.qc_mailbox.specs.Trays.{tray_taken, tray_told, tray_with_copies};
ghost use Rattle.qc_mailbox.specs.Boxes.{HasRoom, HasUsed, tray};

use crate::ReadyInput;
use crate::asked::Asked;
use crate::queue::Queue;
use qc_link::Fate;
use qc_list::OutOfMemory;
use qc_msg::{Command, Message};
use std::alloc::{AllocError, Global};

/// What waits for one actor, its messages named by their numbers. A message
/// that comes or goes finds its places spare.
#[derive(Drop)]
pub struct Mailbox {
    /// The copies that are ready.
    pub(crate) copies: Queue<u32>,
    /// The late copies that are ready once the phase's control lines have
    /// acted.
    pub(crate) opening: Queue<u32>,
    /// The late copies that are ready in the next phase.
    pub(crate) late: Queue<u32>,
    /// The actor's requests that made a copy at once and have no answer yet.
    pub(crate) unanswered: Queue<Asked>,
    /// The actor's requests that are lost, ascending.
    pub(crate) lost: Queue<u32>,
    /// The commands that the actor hasn't called.
    pub(crate) commands: Queue<Command>,
    /// Whether the actor has called one and not told its reply.
    pub(crate) busy: bool,
    /// How many it called in this phase.
    pub(crate) calls: u32,
}

impl Mailbox {
    /// Nothing waits. It takes no memory.
    pub(crate) fn new(alloc: Global) -> Mailbox
        ensures tray { tray result ≡ empty_tray }
        ensures room { HasRoom 0 result }
    {
        Mailbox {
            copies: Queue::new(alloc),
            opening: Queue::new(alloc),
            late: Queue::new(alloc),
            unanswered: Queue::new(alloc),
            lost: Queue::new(alloc),
            commands: Queue::new(alloc),
            busy: false,
            calls: 0,
        }
    }

    /// What is ready next, for an actor that takes commands or doesn't.
    pub(crate) fn ready_input(&self, takes_commands: bool) -> Option<ReadyInput>
        ensures { result ≡ next_in takes_commands (tray self.now) }
    {
        if let Some(number) = self.copies.first() {
            return Some(ReadyInput::Copy(number));
        }
        if let Some(number) = self.lost.first() {
            return Some(ReadyInput::Lost(number));
        }
        if takes_commands && !self.busy {
            self.next_command()
        } else {
            None
        }
    }

    /// The first command.
    fn next_command(&self) -> Option<ReadyInput>
        ensures { result ≡ first_command (tray self.now).commands }
    {
        match self.commands.first() {
            Some(command) => Some(ReadyInput::Command(command)),
            None => None,
        }
    }

    /// Makes room for so many messages' places in each queue that messages come
    /// into, beside the places that late copies find when they are ready, and
    /// requests when they are lost. What waits stays, also after want of memory.
    pub(crate) fn reserve(&mut self, room: usize) -> Result<(), OutOfMemory>
        ensures same { tray self.new ≡ tray self.old }
        ensures kept { HasUsed 0 self.old self.new }
        ensures ok { OnOk result (HasRoom room self.new) }
    {
        let (opening, late, unanswered) = (
            self.opening.len(),
            self.late.len(),
            self.unanswered.len(),
        );
        // Such numbers of places find no memory anyhow.
        let Some(opened) = late.checked_add(room) else {
            return Err(AllocError);
        };
        let Some(copied) = opening.checked_add(opened) else {
            return Err(AllocError);
        };
        let Some(lost) = unanswered.checked_add(room) else {
            return Err(AllocError);
        };
        self.copies.reserve(copied)?;
        self.opening.reserve(opened)?;
        self.late.reserve(room)?;
        self.unanswered.reserve(room)?;
        self.lost.reserve(lost)
    }

    /// A message comes, where the actor is up or down.
    pub(crate) fn come(&mut self, up: bool, number: u32, message: &Message, fate: Fate)
        requires { HasRoom 3 self.old }
        ensures tray { tray self.new ≡ tray_comes up (tray self.old) number message.now fate }
        ensures used { HasUsed 3 self.old self.new }
    {
        if up {
            self.add_copies(number, fate);
        } else {
            self.add_late_copy(number, fate);
        }
        self.answer_by(message, fate);
    }

    /// Adds the late copy of a message, if it has one: its others are gone, as
    /// the actor is down.
    fn add_late_copy(&mut self, number: u32, fate: Fate)
        requires { HasRoom 2 self.old }
        ensures tray { tray self.new ≡ tray_with_copies false (tray self.old) number fate }
        ensures used { HasUsed 2 self.old self.new }
    {
        match fate {
            Fate::Pass | Fate::Drop | Fate::Twice => {}
            Fate::Late | Fate::Again => self.late.push(number),
        }
    }

    /// Adds the copies of a message.
    fn add_copies(&mut self, number: u32, fate: Fate)
        requires { HasRoom 2 self.old }
        ensures tray { tray self.new ≡ tray_with_copies true (tray self.old) number fate }
        ensures used { HasUsed 2 self.old self.new }
    {
        match fate {
            Fate::Pass => self.copies.push(number),
            Fate::Drop => {}
            Fate::Twice => {
                self.copies.push(number);
                self.copies.push(number);
            }
            Fate::Late => self.late.push(number),
            Fate::Again => {
                self.copies.push(number);
                self.late.push(number);
            }
        }
    }

    /// Ends the wait for an answer, if the message is one.
    fn answer_by(&mut self, message: &Message, fate: Fate)
        requires { HasRoom 1 self.old }
        ensures tray { tray self.new ≡ tray_answered_by (tray self.old) message.now fate }
        ensures used { HasUsed 1 self.old self.new }
    {
        match message {
            Message::Answer { to, .. } => self.answer(*to, fate),
            Message::Request { .. }
            | Message::Decision { .. }
            | Message::Inquiry { .. }
            | Message::Ask { .. }
            | Message::Close { .. }
            | Message::Install(_) => {}
        }
    }

    /// Ends the wait for the answer to a request, if there is one: the request
    /// is lost where no copy comes at once.
    fn answer(&mut self, number: u32, fate: Fate)
        requires { HasRoom 1 self.old }
        ensures tray { tray self.new ≡ tray_answered (tray self.old) number fate }
        ensures used { HasUsed 1 self.old self.new }
    {
        if self.unanswered.has_request(number) {
            self.unanswered.remove_request(number);
            self.lose_unless(comes_at_once(fate), number);
        }
    }

    /// A request is lost, unless a copy came at once.
    fn lose_unless(&mut self, comes: bool, number: u32)
        requires { HasRoom 1 self.old }
        ensures tray { tray self.new ≡ tray_lost_unless comes (tray self.old) number }
        ensures used { HasUsed 1 self.old self.new }
    {
        if !comes {
            self.lost.put(number);
        }
    }

    /// A message of the actor's goes out, to an actor that is up or down.
    pub(crate) fn go(&mut self, up: bool, number: u32, to: u8, message: &Message, fate: Fate)
        requires { HasRoom 1 self.old }
        ensures tray { tray self.new ≡ tray_goes up (tray self.old) number to message.now fate }
        ensures used { HasUsed 1 self.old self.new }
    {
        if is_request(message) {
            self.ask(comes_at_once(fate) && up, number, to);
        }
    }

    /// A request of the actor's goes out, and is lost at once or isn't.
    fn ask(&mut self, comes: bool, number: u32, to: u8)
        requires { HasRoom 1 self.old }
        ensures tray { tray self.new ≡ tray_asks comes (tray self.old) number to }
        ensures used { HasUsed 1 self.old self.new }
    {
        if comes {
            self.unanswered.push(Asked { number, to });
        } else {
            self.lost.put(number);
        }
    }

    /// What is ready first is taken.
    pub(crate) fn take(&mut self)
        requires { self.old.calls + 1 < 2 ^ 32 }
        ensures tray { tray self.new ≡ tray_taken (tray self.old) }
        ensures used { HasUsed 0 self.old self.new }
    {
        if self.copies.first().is_some() {
            self.copies.drop_first();
        } else if self.lost.first().is_some() {
            self.lost.drop_first();
        } else {
            self.call();
        }
    }

    /// The first command is called.
    fn call(&mut self)
        requires { self.old.calls + 1 < 2 ^ 32 }
        ensures tray { tray self.new ≡ tray_called (tray self.old) }
        ensures used { HasUsed 0 self.old self.new }
    {
        self.commands.drop_first();
        self.busy = true;
        self.calls += 1;
    }

    /// The reply to the command is told.
    pub(crate) fn tell(&mut self)
        ensures tray { tray self.new ≡ tray_told (tray self.old) }
        ensures used { HasUsed 0 self.old self.new }
    {
        self.busy = false;
    }
}

/// Whether a message of a fate comes at once.
fn comes_at_once(fate: Fate) -> bool
    ensures { result ≡ comes_at_once fate }
{
    match fate {
        Fate::Pass | Fate::Twice | Fate::Again => true,
        Fate::Drop | Fate::Late => false,
    }
}

/// Whether a message is answered.
fn is_request(message: &Message) -> bool
    ensures { result ≡ is_request message.now }
{
    match message {
        Message::Request { .. }
        | Message::Ask { .. }
        | Message::Close { .. }
        | Message::Install(_) => true,
        Message::Answer { .. } | Message::Decision { .. } | Message::Inquiry { .. } => false,
    }
}
