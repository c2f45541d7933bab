//! Dependency relations.

ghost use Rattle.std.specs.Prelude.{◌≡◌, ℕ, ◌<◌, All};
ghost use Rattle.qc_table.specs.Limits.{most_events, most_invocations};
ghost use Rattle.qc_table.specs.Depends.{depended, depends, with_pair, relation_of, is_given};
ghost use Rattle.qc_table.specs.declared.relation.Pair.{Pair};

use crate::limits::{MOST_EVENTS, MOST_INVOCATIONS};
use std::marker::Model;

/// An invocation with an event on which it depends.
#[derive(Clone, Copy, PartialEq, Eq, Debug)]
pub struct Pair {
    /// The invocation, below the most invocations.
    pub inv: u8,
    /// The event's number, below the most events.
    pub event: u8,
}

/// Which invocations depend on which events (Herlihy 1986).
#[derive(Drop)]
pub struct Relation {
    /// For each invocation the events on which it depends, bit k for event k.
    depended: [u64; MOST_INVOCATIONS],
}

impl Model for Relation {
    ghost use Rattle.std.specs.Prelude.{List, ℕ};

    ghost Value = { List ℕ };

    ghost view = { λ r. r.depended };
}

impl Relation {
    /// The relation of these pairs.
    pub fn new(pairs: &[Pair]) -> Relation
        requires { All (λ (p : Pair). (p.inv < most_invocations) × (p.event < most_events)) pairs.now }
        ensures relation { result ≡ relation_of pairs.now }
        ensures given { (inv event : ℕ) → depends result inv event ≡ is_given pairs.now inv event }
    {
        let mut relation = Relation {
            depended: [0; MOST_INVOCATIONS],
        };
        for pair in pairs {
            relation.add(*pair);
        }
        relation
    }

    /// Adds a pair.
    fn add(&mut self, pair: Pair)
        requires inv { pair.inv < most_invocations }
        requires event { pair.event < most_events }
        ensures { self.new ≡ with_pair self.old pair }
    {
        let place = pair.inv as usize;
        self.depended[place] = self.depended[place] | 1 << pair.event;
    }

    /// The events on which an invocation depends, bit k for event k.
    pub fn depended(&self, inv: u8) -> u64
        ensures { result ≡ depended self.now inv }
    {
        match self.depended.get(inv as usize) {
            Some(events) => *events,
            None => 0,
        }
    }

    /// Whether the invocation depends on the event.
    pub fn depends(&self, inv: u8, event: u8) -> bool
        ensures { result ≡ depends self.now inv event }
    {
        let events = self.depended(inv);
        (event as usize) < MOST_EVENTS && (events >> event) & 1 == 1
    }
}
