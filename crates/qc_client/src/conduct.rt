//! A client's calls: commands, messages, lost requests, and the numbers of what
//! it sent.

ghost use Rattle.std.specs.Prelude.{◌≡◌, ◌<◌, ◌+◌, ◌^◌, None, IfOk, OnErr, is_some, if◌then◌else◌};
ghost use Rattle.std.specs.Option.{option_copied};
ghost use Rattle.qc_commit.specs.Fits.{AsksFew as DeskAsksFew};
ghost use Rattle.qc_commit.specs.Learning.{promised};
ghost use Rattle.qc_decl.specs.Accepted.{IsAccepted};
ghost use Rattle.qc_front.specs.Fits.{AsksFew as FrontAsksFew};
ghost use Rattle.qc_front.specs.Front.{ended};
ghost use Rattle.qc_client.specs.Conduct.{answered, called, commits, heard, sent};
ghost use Rattle.qc_client.specs.Fits.{ClientFits, promise_in};

use crate::client::Client;
use qc_decl::Declaration;
use qc_list::OutOfMemory;
use qc_msg::{Answer, Command, Message, Turn};
use std::alloc::Global;

impl Client {
    /// Takes a command. After want of memory the client is as it was.
    pub fn command(
        &mut self,
        alloc: Global,
        decl: &Declaration,
        command: &Command,
    ) -> Result<Turn, OutOfMemory>
        requires accepted { IsAccepted decl.now }
        requires fits { ClientFits self.old }
        ensures ok { IfOk result (λ turn. called decl.now self.old command.now
            ≡ record { client = self.new; turn = turn }) }
        ensures err { OnErr result (self.new ≡ self.old) }
    {
        match command {
            Command::Commit => self.commit(alloc, decl),
            _ => self.front.command(alloc, decl, command),
        }
    }

    /// Takes a message of this sender and number: an answer to a request, an
    /// Inquiry or an Ask. Nobody sends a client anything else. After want of
    /// memory the client is as it was.
    pub fn hear(
        &mut self,
        alloc: Global,
        decl: &Declaration,
        from: u8,
        number: u32,
        message: &Message,
    ) -> Result<Turn, OutOfMemory>
        requires accepted { IsAccepted decl.now }
        requires fits { ClientFits self.old }
        requires promise { promise_in message.now < 2 ^ 63 }
        ensures ok { IfOk result (λ turn. heard decl.now self.old from number message.now
            ≡ record { client = self.new; turn = turn }) }
        ensures err { OnErr result (self.new ≡ self.old) }
    {
        match message {
            Message::Answer { to, answer } => self.take_answer(alloc, decl, *to, Some(answer)),
            Message::Inquiry { tx } => {
                let verdict = self.outcome(*tx);
                Turn::sending_one(alloc, from, Message::Decision { tx: *tx, verdict })
            }
            Message::Ask { tx } => {
                let verdict = self.outcome(*tx);
                let answer = Answer::Answered { verdict };
                Turn::sending_one(alloc, from, Message::Answer { to: number, answer })
            }
            Message::Request { .. }
            | Message::Decision { .. }
            | Message::Close { .. }
            | Message::Install(_) => Ok(Turn::quiet(alloc)),
        }
    }

    /// Learns that its request of this number is lost. After want of memory the
    /// client is as it was.
    pub fn lose(
        &mut self,
        alloc: Global,
        decl: &Declaration,
        number: u32,
    ) -> Result<Turn, OutOfMemory>
        requires accepted { IsAccepted decl.now }
        requires fits { ClientFits self.old }
        ensures ok { IfOk result (λ turn. answered decl.now self.old number None
            ≡ record { client = self.new; turn = turn }) }
        ensures err { OnErr result (self.new ≡ self.old) }
    {
        self.take_answer(alloc, decl, number, None)
    }

    /// The messages of the last turn were given the numbers from `first` on. It
    /// takes no memory.
    pub fn sent(&mut self, first: u32)
        requires desk { DeskAsksFew self.old.desk.voting }
        requires front { FrontAsksFew self.old.front.doing }
        requires numbers { first + 16 < 2 ^ 32 }
        ensures { self.new ≡ sent self.old first }
    {
        if self.desk.is_voting() {
            self.desk.sent(first);
        } else {
            self.front.sent(first);
        }
    }

    /// Commits the begun transaction: by the desk, where it can commit.
    fn commit(&mut self, alloc: Global, decl: &Declaration) -> Result<Turn, OutOfMemory>
        requires accepted { IsAccepted decl.now }
        requires fits { ClientFits self.old }
        ensures ok { IfOk result (λ turn. commits decl.now self.old self.old.front.transaction
            ≡ record { client = self.new; turn = turn }) }
        ensures err { OnErr result (self.new ≡ self.old) }
    {
        let clock = self.front.clock();
        match self.front.begun() {
            Some(begun) if !begun.doomed => {
                let turn = self.desk.prepare(alloc, decl, begun, clock)?;
                self.end_by(&turn);
                Ok(turn)
            }
            _ => self.front.command(alloc, decl, &Command::Commit),
        }
    }

    /// Takes what came of the request of this number: its answer, or, with
    /// none, that it is lost. While the desk waits for votes it is one.
    fn take_answer(
        &mut self,
        alloc: Global,
        decl: &Declaration,
        number: u32,
        answer: Option<&Answer>,
    ) -> Result<Turn, OutOfMemory>
        requires accepted { IsAccepted decl.now }
        requires fits { ClientFits self.old }
        requires promise { promised (option_copied answer) < 2 ^ 63 }
        ensures ok { IfOk result (λ turn. answered decl.now self.old number (option_copied answer.entry)
            ≡ record { client = self.new; turn = turn }) }
        ensures err { OnErr result (self.new ≡ self.old) }
    {
        if !self.desk.is_voting() {
            return self.front.hear_answer(alloc, decl, number, answer);
        }
        let turn = self.desk.vote(alloc, number, answer)?;
        self.end_by(&turn);
        Ok(turn)
    }

    /// After a turn of the desk that tells the reply, the front end's
    /// transaction has ended.
    fn end_by(&mut self, turn: &Turn)
        ensures { self.new ≡ record self.old {
          front = (if is_some turn.now.told
              then ended self.old.front self.old.desk.clock.value self.old.desk.epoch
              else self.old.front);
        } }
    {
        if turn.told.is_some() {
            self.front.end(self.desk.clock(), self.desk.epoch());
        }
    }
}
