//! His calls: commands, messages, lost requests, and the numbers of what he
//! sent.

ghost use Rattle.std.specs.Prelude.{◌≡◌, ◌<◌, ◌+◌, ◌^◌, None, IfOk, OnErr};
ghost use Rattle.std.specs.Option.{option_copied};
ghost use Rattle.qc_decl.specs.Accepted.{IsAccepted};
ghost use Rattle.qc_epoch.specs.Admin.{moved};
ghost use Rattle.qc_epoch.specs.Conduct.{again, answered, called, heard, moves_to};
ghost use Rattle.qc_epoch.specs.Deciding.{most_asks};
ghost use Rattle.qc_admin.specs.Fits.{AdminFits, AnswerFits, MessageFits};
ghost use Rattle.qc_admin.specs.Next.{becomes};
ghost use Rattle.qc_admin.specs.Sent.{sent};

use crate::admin::Admin;
use crate::closing::Closing;
use crate::doing::Doing;
use crate::installing::install_again;
use crate::next::Next;
use qc_decl::Declaration;
use qc_list::OutOfMemory;
use qc_msg::{Answer, Command, Message, Reply, Turn};
use std::alloc::Global;

impl Admin {
    /// Takes a command: to move the sites to an epoch. Nobody asks him for
    /// transactions. After want of memory he is as he was.
    pub fn command(
        &mut self,
        alloc: Global,
        decl: &Declaration,
        command: &Command,
    ) -> Result<Turn, OutOfMemory>
        requires { IsAccepted decl.now }
        ensures ok { IfOk result (λ turn. called decl.now self.old command.now ≡ moved self.new turn) }
        ensures err { OnErr result (self.new ≡ self.old) }
    {
        match *command {
            Command::Epoch { number } => self.move_to(alloc, decl, number),
            Command::Begin | Command::Do { .. } | Command::Commit | Command::Abort => {
                Ok(Turn::quiet(alloc))
            }
        }
    }

    /// Takes a message: the answer to a request of his. Nobody sends him
    /// anything else. After want of memory he is as he was.
    pub fn hear(
        &mut self,
        alloc: Global,
        decl: &Declaration,
        message: &Message,
    ) -> Result<Turn, OutOfMemory>
        requires accepted { IsAccepted decl.now }
        requires fits { AdminFits self.old }
        requires message { MessageFits message.now }
        ensures ok { IfOk result (λ turn. heard decl.now self.old message.now ≡ moved self.new turn) }
        ensures err { OnErr result (self.new ≡ self.old) }
    {
        match message {
            Message::Answer { to, answer } => self.answer(alloc, decl, *to, Some(answer)),
            Message::Request { .. }
            | Message::Decision { .. }
            | Message::Inquiry { .. }
            | Message::Ask { .. }
            | Message::Close { .. }
            | Message::Install(_) => Ok(Turn::quiet(alloc)),
        }
    }

    /// Learns that his request of this number is lost. After want of memory he
    /// is as he was.
    pub fn lose(
        &mut self,
        alloc: Global,
        decl: &Declaration,
        number: u32,
    ) -> Result<Turn, OutOfMemory>
        requires accepted { IsAccepted decl.now }
        requires fits { AdminFits self.old }
        ensures ok { IfOk result (λ turn. answered decl.now self.old number None ≡ moved self.new turn) }
        ensures err { OnErr result (self.new ≡ self.old) }
    {
        self.answer(alloc, decl, number, None)
    }

    /// The messages of his last turn were given the numbers from `first` on. It
    /// takes no memory.
    pub fn sent(&mut self, first: u32)
        requires fits { AdminFits self.old }
        requires numbers { first + most_asks < 2 ^ 32 }
        ensures { self.new ≡ sent self.old first }
    {
        match &mut self.doing {
            Doing::Resting => {}
            Doing::Closing(closing) => closing.sent(first),
            Doing::Asking(asking) => asking.sent(first),
            Doing::Installing(installing) => installing.sent(first),
        }
    }

    /// Moves the sites to an epoch: the decided one is installed again, the next
    /// one is decided, and no other one.
    fn move_to(
        &mut self,
        alloc: Global,
        decl: &Declaration,
        number: u8,
    ) -> Result<Turn, OutOfMemory>
        requires { IsAccepted decl.now }
        ensures ok { IfOk result (λ turn. moves_to decl.now self.old number ≡ moved self.new turn) }
        ensures err { OnErr result (self.new ≡ self.old) }
    {
        let next = if number == self.epoch {
            self.again(alloc, decl)?
        } else if Some(number) == self.epoch.checked_add(1) {
            Closing::begin(alloc, decl, self.epoch, number)?
        } else {
            Next::telling(
                alloc,
                Reply::Order {
                    current: self.epoch,
                },
            )
        };
        Ok(self.turn_to(next))
    }

    /// Installs the decided epoch again, where there is a record of it.
    fn again(&self, alloc: Global, decl: &Declaration) -> Result<Next, OutOfMemory>
        ensures { IfOk result (λ next. again decl.now self.now self.now.decided
            ≡ becomes self.now self.now.doing next) }
    {
        match &self.decided {
            Some(decided) => install_again(alloc, decl, decided),
            None => Ok(Next::telling(
                alloc,
                Reply::Order {
                    current: self.epoch,
                },
            )),
        }
    }

    /// Takes what came of the request of this number: its answer, or, with
    /// none, that it is lost.
    fn answer(
        &mut self,
        alloc: Global,
        decl: &Declaration,
        number: u32,
        answer: Option<&Answer>,
    ) -> Result<Turn, OutOfMemory>
        requires accepted { IsAccepted decl.now }
        requires fits { AdminFits self.old }
        requires answer { AnswerFits (option_copied answer) }
        ensures ok { IfOk result (λ turn. answered decl.now self.old number (option_copied answer.entry)
            ≡ moved self.new turn) }
        ensures err { OnErr result (self.new ≡ self.old) }
    {
        let next = match &mut self.doing {
            Doing::Resting => Next::quiet(alloc),
            Doing::Closing(closing) => closing.answer(alloc, decl, number, answer)?,
            Doing::Asking(asking) => asking.answer(alloc, decl, number, answer)?,
            Doing::Installing(installing) => installing.answer(alloc, number, answer)?,
        };
        Ok(self.turn_to(next))
    }

    /// Becomes this, and gives the turn. It takes no memory.
    fn turn_to(&mut self, next: Next) -> Turn
        ensures { becomes self.old self.old.doing next ≡ moved self.new result }
    {
        match next {
            Next::GoesOn { turn } => turn,
            Next::Runs { doing, turn } => {
                self.doing = doing;
                turn
            }
            Next::Decides {
                decided,
                doing,
                turn,
            } => {
                self.epoch = decided.epoch;
                self.decided = Some(decided);
                self.doing = doing;
                turn
            }
        }
    }
}
