//! A client's state, and what it tells of a transaction.

ghost use Rattle.std.specs.Prelude.{◌≡◌};
ghost use Rattle.qc_client.specs.Client.{is_begun, new_client, outcome_of};
ghost use Rattle.qc_commit.specs.Desk.{new_desk};
ghost use Rattle.qc_front.specs.Front.{new_front};

use qc_commit::{Commits, Desk, Known};
use qc_front::Front;
use qc_msg::Outcome;
use qc_stamp::{Clock, TxId};
use std::alloc::Global;

/// A client: the front end executes invocations, the desk commits.
#[derive(Drop)]
pub struct Client {
    /// The front end.
    pub(crate) front: Front,
    /// The desk.
    pub(crate) desk: Desk,
}

impl Client {
    /// The client of this number, from 0, before it does anything. It takes no
    /// memory.
    pub fn new(alloc: Global, number: u8) -> Client
        ensures { result ≡ new_client number }
    {
        Client {
            front: Front::new(number),
            desk: Desk::new(alloc, number),
        }
    }

    /// The client of this number, risen in this life, with these commit records
    /// and a clock that they give; nothing is begun. It takes no memory.
    pub fn risen(number: u8, life: u32, clock: Clock, commits: Commits) -> Client
        ensures { result ≡ record {
          front = record (new_front number) { life = life; clock = clock };
          desk = record (new_desk number) { clock = clock; commits = commits };
        } }
    {
        Client {
            front: Front::risen(number, life, clock),
            desk: Desk::risen(number, clock, commits),
        }
    }

    /// How a transaction stands: it committed where a record says so, it is
    /// active where it is the begun one, and it aborted otherwise (presumed
    /// abort).
    pub fn outcome(&self, tx: TxId) -> Outcome
        ensures { result ≡ outcome_of self.now tx }
    {
        match self.desk.outcome(tx) {
            Known::Committed { stamp } => Outcome::Committed { stamp },
            Known::Uncommitted if self.is_begun(tx) => Outcome::Active,
            Known::Uncommitted => Outcome::Aborted,
        }
    }

    /// Whether this transaction is begun and hasn't ended.
    fn is_begun(&self, tx: TxId) -> bool
        ensures { result ≡ is_begun tx self.now.front.transaction }
    {
        match self.front.begun() {
            Some(begun) => begun.tx == tx,
            None => false,
        }
    }
}
