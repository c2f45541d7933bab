//! What a walk of one triple knows: with which two states a triple of the list
//! covers the events that it leaves out.

ghost use Rattle.std.specs.Prelude.{◌≡◌, ℕ, ◌<◌, List, true};
ghost use Rattle.qc_cert.specs.Asked.{AreFound, is_found};
ghost use Rattle.qc_cert.specs.Faults.{is_covered};
ghost use Rattle.qc_cert.specs.Inductive.{triple};
ghost use Rattle.qc_cert.specs.declared.triple.Triple.{Triple};
ghost use Rattle.qc_table.specs.Limits.{most_events};
ghost use Rattle.qc_table.specs.Sets.{with_member};

use crate::blocks::with_bit;
use crate::groups::Grouped;
use crate::triple::Triple;
use qc_table::MOST_STATES;
use std::marker::Model;

/// A list, the events that one of its triples leaves out, and in which groups
/// they were found to be covered. There they needn't be looked up again, nor
/// with one event more: what covers some events covers more.
#[derive(Drop)]
pub(crate) struct Covered<'a> {
    triples: &'a Grouped<'a>,
    out: u64,
    /// What a triple that covers the events is likely to leave out.
    near: u64,
    /// For each view's state the logs' states, bit k for state k.
    found: [u64; MOST_STATES],
    /// For each log's state how often one event more was asked of with it.
    counts: [u8; MOST_STATES],
}

impl<'a> Model for Covered<'a> {
    ghost use Rattle.qc_cert.specs.Asked.{AreFound, Asked};

    ghost Value = { Asked };

    ghost view = { λ c. record { list = c.triples.now; out = c.out } };

    ghost invariant = { λ c. AreFound c.triples.now c.out c.found };
}

impl<'a> Covered<'a> {
    /// What is known as the walk of a triple of the list begins.
    pub(crate) fn new(triples: &'a Grouped<'a>, triple: &Triple) -> Covered<'a>
        requires { is_covered triples.now triple.now ≡ true }
        ensures list { result.list ≡ triples.now }
        ensures out { result.out ≡ triple.now.out }
    {
        let mut found = [0; MOST_STATES];
        put(&mut found, triple.view, triple.log);
        Covered {
            triples,
            out: triple.out,
            near: triples.near(triple),
            found,
            counts: [0; MOST_STATES],
        }
    }

    /// Whether the events are covered with these two states.
    pub(crate) fn tells(&mut self, view: u8, log: u8) -> bool
        ensures same { self.new ≡ self.old }
        ensures told { result ≡ true → is_covered self.old.list (triple view log self.old.out) ≡ true }
    {
        if is_found(&self.found, view, log) {
            return true;
        }
        let asked = Triple {
            view,
            log,
            out: self.out,
        };
        let is_covered = self.triples.covers(&asked, self.near);
        if is_covered {
            put(&mut self.found, view, log);
        }
        is_covered
    }

    /// Whether the events are found to be covered with these two states, with
    /// which one event more is asked of. They are looked up the fourth time: that
    /// may tell of all others, and in vain it is at most one look in five.
    fn knows(&mut self, view: u8, log: u8) -> bool
        ensures same { self.new ≡ self.old }
        ensures told { result ≡ true → is_covered self.old.list (triple view log self.old.out) ≡ true }
    {
        if self.is_fourth(log) {
            self.tells(view, log)
        } else {
            is_found(&self.found, view, log)
        }
    }

    /// Counts one time more with a log's state, and tells whether it is the fourth.
    fn is_fourth(&mut self, log: u8) -> bool
        ensures { self.new ≡ self.old }
    {
        let place = log as usize;
        if place >= MOST_STATES {
            return false;
        }
        self.counts[place] = self.counts[place].saturating_add(1);
        self.counts[place] == 4
    }

    /// Whether the events and one more are covered with these two states.
    pub(crate) fn tells_with(&mut self, view: u8, log: u8, event: u8) -> bool
        requires { event < most_events }
        ensures same { self.new ≡ self.old }
        ensures told { result ≡ true
            → is_covered self.old.list (triple view log (with_member self.old.out event)) ≡ true }
    {
        if self.knows(view, log) {
            return true;
        }
        let asked = Triple {
            view,
            log,
            out: self.out | 1 << event,
        };
        self.triples.covers(&asked, self.near)
    }
}

/// Whether there is a bit for two states.
#[inline(always)]
fn is_found(words: &[u64], view: u8, log: u8) -> bool
    ensures { result ≡ true → is_found words.now view log ≡ true }
{
    let view = view as usize;
    view < words.len() && (log as usize) < MOST_STATES && words[view] >> log & 1 == 1
}

/// Puts a bit for two states.
#[inline(always)]
fn put(words: &mut [u64], view: u8, log: u8)
    ensures { (list : List Triple) (out : ℕ) → AreFound list out words.old
        → is_covered list (triple view log out) ≡ true → AreFound list out words.new }
{
    let view = view as usize;
    if view < words.len() && (log as usize) < MOST_STATES {
        words[view] = with_bit(words[view], log as u32);
    }
}
