//! A desk's state.

ghost use Rattle.std.specs.Prelude.{◌≡◌, is_some};
ghost use Rattle.qc_commit.specs.Desk.{known, new_desk};

use crate::ballot::Ballots;
use qc_entry::Commit;
use qc_list::List;
use qc_msg::{Begun, Calls, FIRST_EPOCH};
use qc_stamp::{Clock, Stamp, TxId};
use std::alloc::Global;

/// Commit records, in the order of their writing.
pub type Commits = List<Commit>;

/// A commit that waits for votes.
#[derive(Drop)]
pub struct Voting {
    /// The transaction.
    pub begun: Begun,
    /// The Prepares that nothing was taken for yet.
    pub calls: Calls,
    /// The participants' votes.
    pub ballots: Ballots,
}

/// What a client's records tell of a transaction.
#[derive(Clone, Copy)]
pub enum Known {
    /// It committed, with this stamp.
    Committed { stamp: Stamp },
    /// No record says so.
    Uncommitted,
}

/// The desk of a client.
#[derive(Drop)]
pub struct Desk {
    /// The client's number, from 0.
    pub(crate) client: u8,
    /// The greatest clock of those it was handed, of the votes that counted,
    /// and of its own stamps.
    pub(crate) clock: Clock,
    /// The greatest epoch that a vote told of, or 1.
    pub(crate) epoch: u8,
    /// Its commit records.
    pub(crate) commits: Commits,
    /// The commit that waits for votes.
    pub(crate) voting: Option<Voting>,
}

impl Desk {
    /// The desk of the client of this number, from 0, before it does anything.
    /// It takes no memory.
    pub fn new(alloc: Global, client: u8) -> Desk
        ensures { result ≡ new_desk client }
    {
        Desk {
            client,
            clock: Clock { value: 0 },
            epoch: FIRST_EPOCH,
            commits: List::new(alloc),
            voting: None,
        }
    }

    /// The desk of the client of this number, risen with these commit records
    /// and a clock that they give; nothing waits. It takes no memory.
    pub fn risen(client: u8, clock: Clock, commits: Commits) -> Desk
        ensures { result ≡ record (new_desk client) { clock = clock; commits = commits } }
    {
        Desk {
            client,
            clock,
            epoch: FIRST_EPOCH,
            commits,
            voting: None,
        }
    }

    /// It has this clock, and waits for these votes, or for none.
    pub(crate) fn replace(&mut self, clock: Clock, voting: Option<Voting>)
        ensures { self.new ≡ record self.old { clock = clock; voting = voting } }
    {
        self.clock = clock;
        self.voting = voting;
    }

    /// The greatest clock of those that it was handed, of the votes that
    /// counted, and of its own stamps.
    pub fn clock(&self) -> u64
        ensures { result ≡ self.now.clock.value }
    {
        self.clock.value
    }

    /// The greatest epoch that a vote told of, or 1.
    pub fn epoch(&self) -> u8
        ensures { result ≡ self.now.epoch }
    {
        self.epoch
    }

    /// Whether a commit waits for votes.
    pub fn is_voting(&self) -> bool
        ensures { result ≡ is_some self.now.voting }
    {
        self.voting.is_some()
    }

    /// The commit records, in the order of their writing.
    pub fn commits(&self) -> &[Commit]
        ensures { result.now ≡ self.now.commits }
    {
        self.commits.items()
    }

    /// What the records tell of a transaction. It walks the records from the
    /// first: as many steps as the client has committed transactions, for a
    /// question that only a site asks that has lost the verdict, or the
    /// administrator.
    pub fn outcome(&self, tx: TxId) -> Known
        ensures { result ≡ known self.now tx }
    {
        'commits: for commit in self.commits.items() {
            if commit.tx == tx {
                return Known::Committed {
                    stamp: commit.stamp,
                };
            }
        }
        Known::Uncommitted
    }
}
