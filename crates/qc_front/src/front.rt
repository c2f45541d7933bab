//! A front end's state, and its calls.

ghost use Rattle.std.specs.Prelude.{◌≡◌, ◌↔◌, None, Some, IfOk, IfSome, IsNone, OnErr, option_map};
ghost use Rattle.qc_decl.specs.Accepted.{IsAccepted};
ghost use Rattle.qc_front.specs.Conduct.{called};
ghost use Rattle.qc_front.specs.Fits.{FrontFits};
ghost use Rattle.qc_front.specs.Front.{moved, new_front};
ghost use Rattle.qc_front.specs.Going.{is_idle};
ghost use Rattle.qc_front.specs.declared.transaction.Transaction.{Transaction};

use crate::doing::Doing;
use crate::transaction::Transaction;
use qc_decl::Declaration;
use qc_list::OutOfMemory;
use qc_msg::{Begun, Command, FIRST_EPOCH, Turn};
use qc_stamp::{Clock, FIRST_LIFE};
use std::alloc::Global;

/// The front end of a client.
#[derive(Drop)]
pub struct Front {
    /// The client's number, from 0.
    pub(crate) client: u8,
    /// The client's life, from 1.
    pub(crate) life: u32,
    /// How many transactions it has begun in this life.
    pub(crate) count: u32,
    /// The greatest clock of the grants that counted and of its own stamps.
    pub(crate) clock: Clock,
    /// The greatest epoch that it knows of.
    pub(crate) epoch: u8,
    /// The transaction that is begun.
    pub(crate) transaction: Option<Transaction>,
    /// What the running command waits for.
    pub(crate) doing: Doing,
}

impl Front {
    /// The front end of the client of this number, before it does anything. It
    /// takes no memory.
    pub fn new(client: u8) -> Front
        ensures { result ≡ new_front client }
    {
        Front {
            client,
            life: FIRST_LIFE,
            count: 0,
            clock: Clock { value: 0 },
            epoch: FIRST_EPOCH,
            transaction: None,
            doing: Doing::Idle,
        }
    }

    /// The front end of the client of this number, risen in this life, with a
    /// clock that its records give; nothing is begun. It takes no memory.
    pub fn risen(client: u8, life: u32, clock: Clock) -> Front
        ensures { result ≡ record (new_front client) { life = life; clock = clock } }
    {
        Front {
            client,
            life,
            count: 0,
            clock,
            epoch: FIRST_EPOCH,
            transaction: None,
            doing: Doing::Idle,
        }
    }

    /// What the front end does for a command. After want of memory it is as it
    /// was.
    pub fn command(
        &mut self,
        alloc: Global,
        decl: &Declaration,
        command: &Command,
    ) -> Result<Turn, OutOfMemory>
        requires accepted { IsAccepted decl.now }
        requires fits { FrontFits self.old }
        ensures ok { IfOk result (λ turn. called decl.now self.old command.now ≡ moved self.new turn) }
        ensures err { OnErr result (self.new ≡ self.old) }
    {
        match *command {
            Command::Begin => self.begin(alloc, decl),
            Command::Do { object, inv } => self.perform(alloc, decl, object, inv),
            Command::Commit => self.commit(alloc),
            Command::Abort => self.abort(alloc),
            Command::Epoch { .. } => Ok(Turn::quiet(alloc)),
        }
    }

    /// The transaction that is begun, as far as its commit reads it.
    pub fn begun(&self) -> Option<&Begun>
        ensures some { IfSome result (λ b. option_map (λ (t : Transaction). t.begun) self.now.transaction
            ≡ Some b.now) }
        ensures none { IsNone result ↔ (self.now.transaction ≡ None) }
    {
        let transaction = self.transaction.as_ref()?;
        Some(&transaction.begun)
    }

    /// The greatest clock of the grants that counted and of the own stamps.
    pub fn clock(&self) -> u64
        ensures { result ≡ self.now.clock.value }
    {
        self.clock.value
    }

    /// Whether no `do` runs.
    pub fn is_idle(&self) -> bool
        ensures { result ≡ is_idle self.now.doing }
    {
        self.doing.is_idle()
    }
}
