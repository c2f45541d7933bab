//! A phase begins, and late copies are ready: what commands want of memory is
//! taken before anything changes, and copies find their places.

ghost use Rattle.std.specs.Prelude.{◌≡◌, ◌+◌, ◌≤◌, ◌<◌, ℕ, OnOk};
ghost use Rattle.qc_mailbox.specs.Trays.{tray_asked, tray_begun, tray_opened};
ghost use Rattle.qc_mailbox.specs.Boxes.{HasRoom, HasUsed, tray};
ghost use Rattle.qc_mailbox.specs.Phases.{HasOthers, IsPrepared};
ghost use Rattle.qc_mailbox.specs.Queues.{spare};

use crate::mailbox::Mailbox;
use qc_list::OutOfMemory;
use qc_msg::Command;

impl Mailbox {
    /// Takes the memory that the next phase wants, with so many commands. What
    /// waits stays, also after want of memory.
    pub(crate) fn prepare(&mut self, commands: usize) -> Result<(), OutOfMemory>
        ensures same { tray self.new ≡ tray self.old }
        ensures kept { HasUsed 0 self.old self.new }
        ensures ok { OnOk result ((room : ℕ) → HasRoom room self.old → IsPrepared room commands self.new) }
    {
        self.commands.reserve(commands)
    }

    /// The actor is asked a command more.
    pub(crate) fn ask_command(&mut self, command: Command)
        requires { 0 < spare self.old.commands }
        ensures tray { tray self.new ≡ tray_asked (tray self.old) command }
        ensures spare { spare self.old.commands ≤ spare self.new.commands + 1 }
        ensures others { HasOthers self.old self.new }
    {
        self.commands.push(command);
    }

    /// Late copies are ready, where no control line is left; they are gone where
    /// the actor is down.
    pub(crate) fn open(&mut self, none_left: bool, up: bool)
        requires { HasRoom 0 self.old }
        ensures tray { tray self.new ≡ tray_opened none_left up (tray self.old) }
        ensures used { HasUsed 0 self.old self.new }
    {
        if none_left {
            if up {
                self.copies.prepend(&mut self.opening);
            } else {
                self.opening.clear();
            }
        }
    }

    /// The next phase begins, with no control line or some.
    pub(crate) fn begin(&mut self, none_left: bool, up: bool)
        requires { HasRoom 0 self.old }
        ensures tray { tray self.new ≡ tray_begun none_left up (tray self.old) }
        ensures used { HasUsed 0 self.old self.new }
    {
        self.opening.append(&mut self.late);
        self.calls = 0;
        self.open(none_left, up);
    }
}
