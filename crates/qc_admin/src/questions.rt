//! The questions about promised transactions: who is asked, what was taken, and
//! what is in doubt.

ghost use Rattle.std.specs.Prelude.{◌≡◌, ◌==◌, ◌<◌, ◌≤◌, Option, IfOk, length, map, option_map, take};
ghost use Rattle.std.specs.List.{AllByRecursion as Every};
ghost use Rattle.qc_decl.specs.Limits.{most_clients, most_sites};
ghost use Rattle.qc_epoch.specs.Admin.{Question};
ghost use Rattle.qc_epoch.specs.Answers.{taken_for};
ghost use Rattle.qc_epoch.specs.Conduct.{ask_of};
ghost use Rattle.qc_epoch.specs.Deciding.{all_taken, first_doubt, is_settled, most_asks, stamp_in, stamp_of};
ghost use Rattle.qc_msg.specs.declared.message.Outcome.{Outcome as OutcomeTold};
ghost use Rattle.qc_stamp.specs.declared.stamp.TxId.{TxId as Tx};
ghost use Rattle.qc_admin.specs.Merging.{stamp_at};
ghost use Rattle.qc_admin.specs.Queries.{ask_about, in_doubt, latest_of, open_at, unasked};
ghost use Rattle.qc_admin.specs.declared.questions.Query.{Query as QueryAsked};
ghost use Rattle.qc_admin.specs.Sent.{with_numbers};

use crate::stamps::Stamps;
use qc_decl::Declaration;
use qc_list::{List, OutOfMemory};
use qc_msg::{Message, Outcome, Posting, Reply, Sends};
use qc_stamp::{Stamp, TxId};
use std::alloc::Global;
use std::marker::Model;

/// At most so many transactions are asked about.
pub(crate) const MOST_ASKS: usize = 65_536;

/// A transaction that a closed site has promised.
#[derive(Clone, Copy)]
pub(crate) struct Query {
    /// The transaction.
    pub(crate) tx: TxId,
    /// The first such site.
    pub(crate) site: u8,
    /// What was taken first for the Ask about it: a verdict, or that it is
    /// lost.
    pub(crate) taken: Option<Option<Outcome>>,
}

/// Questions about promised transactions, seen as each with the number of its
/// Ask. Asks go out in one turn, so their numbers go up by one: the first is
/// kept.
#[derive(Drop)]
pub(crate) struct Questions {
    /// The questions.
    pub(crate) queries: Vec<Query>,
    /// The number of the first Ask, once they are sent.
    pub(crate) first: Option<u32>,
    /// How many Asks have nothing taken for them.
    pub(crate) waiting: usize,
}

impl Model for Questions {
    ghost use Rattle.std.specs.Prelude.{◌≡◌, List};
    ghost use Rattle.qc_epoch.specs.Admin.{Question};
    ghost use Rattle.qc_admin.specs.Queries.{shown, waiting_in};

    ghost Value = { List Question };

    ghost view = { λ q. shown q.first q.queries.items };

    ghost invariant = { λ q. q.waiting ≡ waiting_in q.queries.items };
}

impl Questions {
    /// Whether there is none.
    pub(crate) fn is_empty(&self) -> bool
        ensures { result ≡ (length self.now == 0) }
    {
        self.queries.is_empty()
    }

    /// The same questions, in memory of their own.
    pub(crate) fn copy(&self) -> Result<Questions, OutOfMemory>
        ensures { IfOk result (λ q. q ≡ self.now) }
    {
        Ok(Questions {
            queries: Vec::from_slice(*self.queries.allocator(), self.queries.as_slice())?,
            first: self.first,
            waiting: self.waiting,
        })
    }

    /// An Ask about each transaction, to its client, as far as they are asked.
    pub(crate) fn asks(&self, alloc: Global, decl: &Declaration) -> Result<Sends, OutOfMemory>
        requires sites { decl.now.sites ≤ most_sites }
        requires clients { Every (λ (q : Question). q.tx.client < most_clients) self.now }
        ensures { IfOk result (λ sends. sends ≡ map (ask_of decl.now) (take most_asks self.now)) }
    {
        let asked = self.queries.len().min(MOST_ASKS);
        asks_about(alloc, decl, &self.queries.as_slice()[..asked])
    }

    /// The Asks were given the numbers from this one on. It changes nothing
    /// where they have numbers.
    pub(crate) fn sent(&mut self, first: u32)
        ensures { self.new ≡ with_numbers self.old first }
    {
        if self.first.is_none() {
            self.first = Some(first);
        }
    }

    /// Takes this verdict, or none, for the Ask of this number. What was taken
    /// before stands.
    pub(crate) fn take(&mut self, number: u32, outcome: Option<Outcome>)
        ensures { self.new ≡ map (taken_for number outcome) self.old }
    {
        if let Some(place) = open_at(self.first, self.queries.as_slice(), number) {
            let Query { tx, site, .. } = self.queries[place];
            self.queries[place] = Query {
                tx,
                site,
                taken: Some(outcome),
            };
            self.waiting -= 1;
        }
    }

    /// Whether nothing is waited for once something is taken for the Ask of
    /// this number.
    pub(crate) fn ends_with(&self, number: u32) -> bool
        ensures { (outcome : Option OutcomeTold) → result ≡ all_taken (map (taken_for number outcome) self.now) }
    {
        match open_at(self.first, self.queries.as_slice(), number) {
            Some(_) => self.waiting == 1,
            None => self.waiting == 0,
        }
    }

    /// What is told where a question is in doubt: the first one.
    pub(crate) fn doubt(&self) -> Option<Reply>
        ensures { result ≡ option_map in_doubt (first_doubt self.now) }
    {
        doubt_in(self.queries.as_slice())
    }

    /// The stamps that clients told.
    pub(crate) fn stamps(&self, alloc: Global) -> Result<Stamps, OutOfMemory>
        ensures { IfOk result (λ stamps. (tx : Tx) → stamp_at stamps tx ≡ stamp_of self.now tx) }
    {
        stamps_in(alloc, self.queries.as_slice())
    }

    /// The greatest of a clock and those of the stamps.
    pub(crate) fn latest(&self, clock: u64) -> u64
        ensures { result ≡ latest_of clock self.now }
    {
        latest_in(clock, self.queries.as_slice())
    }
}

/// An Ask about each of the transactions, to its client.
fn asks_about(alloc: Global, decl: &Declaration, queries: &[Query]) -> Result<Sends, OutOfMemory>
    requires sites { decl.now.sites ≤ most_sites }
    requires clients { Every (λ (q : QueryAsked). q.tx.client < most_clients) queries.now }
    ensures { IfOk result (λ sends. sends ≡ map (ask_about decl.now) queries.now) }
{
    let mut sends = List::new(alloc);
    for query in queries {
        sends.push(Posting {
            to: decl.client_actor(query.tx.client),
            message: Message::Ask { tx: query.tx },
        })?;
    }
    Ok(sends)
}

/// What is told of the first one in doubt.
fn doubt_in(queries: &[Query]) -> Option<Reply>
    ensures { result ≡ option_map in_doubt (first_doubt (unasked queries.now)) }
{
    'queries: for query in queries {
        if !is_settled(query.taken) {
            return Some(Reply::InDoubt {
                tx: query.tx,
                site: query.site,
            });
        }
    }
    None
}

/// The stamp of each transaction, which the first question about it tells.
fn stamps_in(alloc: Global, queries: &[Query]) -> Result<Stamps, OutOfMemory>
    ensures { IfOk result (λ stamps. (tx : Tx) → stamp_at stamps tx ≡ stamp_of (unasked queries.now) tx) }
{
    let mut stamps = Stamps::new(alloc);
    let mut i = queries.len();
    'queries: while i > 0 {
        i -= 1;
        let query = queries[i];
        stamps.put(query.tx, stamp_in(query.taken))?;
    }
    Ok(stamps)
}

/// The greatest of a clock and those of the stamps.
fn latest_in(clock: u64, queries: &[Query]) -> u64
    ensures { result ≡ latest_of clock (unasked queries.now) }
{
    let mut latest = clock;
    'queries: for query in queries {
        if let Some(stamp) = stamp_in(query.taken) {
            latest = latest.max(stamp.clock);
        }
    }
    latest
}

/// The place of the Ask of this number, where nothing was taken for it.
fn open_at(first: Option<u32>, queries: &[Query], number: u32) -> Option<usize>
    ensures { result ≡ open_at first queries.now number }
{
    let place = number.checked_sub(first?)? as usize;
    match queries.get(place) {
        Some(query) if place < MOST_ASKS && query.taken.is_none() => Some(place),
        _ => None,
    }
}

/// Whether this tells how the transaction ended.
fn is_settled(taken: Option<Option<Outcome>>) -> bool
    ensures { result ≡ is_settled taken }
{
    matches!(
        taken,
        Some(Some(Outcome::Committed { .. } | Outcome::Aborted))
    )
}

/// The stamp that this tells, if the transaction committed.
fn stamp_in(taken: Option<Option<Outcome>>) -> Option<Stamp>
    ensures { result ≡ stamp_in taken }
{
    match taken {
        Some(Some(Outcome::Committed { stamp })) => Some(stamp),
        _ => None,
    }
}
