//! Plans of links: rules, and an index of them by what they name.

ghost use Rattle.std.specs.Prelude.{◌≡◌, ◌++◌, ◌∷◌, [], ◌<◌, ◌&&◌, nat_eq, Some, None, length, OnOk, OnErr};
ghost use Rattle.std.specs.Option.{option_eq};
ghost use Rattle.qc_link.specs.Fate.{fate, matches, is_for, by_rules};
ghost use Rattle.qc_link.specs.Places.{first, has_pattern};
ghost use Rattle.qc_link.specs.Limits.{most_actors};

use crate::cuts::Cuts;
use crate::rule::{Fate, Rule};
use qc_list::OutOfMemory;
use std::alloc::{AllocError, Global};
use std::collections::BTreeMap;
use std::marker::Model;

/// A rule for the messages from an actor to another that have this ordinal;
/// none stands for all.
#[derive(Clone, Copy, Debug, PartialEq, Eq)]
pub struct Link {
    /// The sender's number.
    pub from: Option<u8>,
    /// The receiver's number.
    pub to: Option<u8>,
    /// The message's number among those from the one to the other, from 1.
    pub ordinal: Option<u32>,
    /// What becomes of them.
    pub rule: Rule,
}

/// What a rule names: sender, receiver, ordinal, in this order among others.
type Pattern = (Option<u8>, Option<u8>, Option<u32>);

/// The rules of the links, which contracts see as the list of the rules in the
/// order in which they were added.
#[derive(Drop)]
pub struct LinkPlan {
    rules: Vec<Link>,
    /// The place of the first rule of each pattern. The patterns are in order,
    /// so that no choice of rules makes a look-up long.
    places: BTreeMap<Pattern, usize>,
}

impl Model for LinkPlan {
    ghost use Rattle.std.specs.Prelude.{List};
    ghost use Rattle.qc_link.specs.Places.{IsIndex};
    ghost use Rattle.qc_link.specs.declared.plan.Link.{Link};

    ghost Value = { List Link };

    ghost view = { λ p. p.rules.items };

    ghost invariant = { λ p. IsIndex p.places p.rules.items };
}

impl LinkPlan {
    /// A plan without rules: all messages pass.
    pub fn new(alloc: Global) -> LinkPlan
        ensures { result ≡ [] }
    {
        LinkPlan {
            rules: Vec::new(alloc),
            places: BTreeMap::new(alloc),
        }
    }

    /// Adds a rule behind the others. After want of memory the plan is as it
    /// was.
    pub fn add(
        &mut self,
        from: Option<u8>,
        to: Option<u8>,
        ordinal: Option<u32>,
        rule: Rule,
    ) -> Result<(), OutOfMemory>
        ensures ok { OnOk result
            (self.new ≡ self.old ++ record { from = from; to = to; ordinal = ordinal; rule = rule } ∷ []) }
        ensures err { OnErr result (self.new ≡ self.old) }
    {
        let pattern = (from, to, ordinal);
        let place = self.rules.len();
        self.rules.push(Link {
            from,
            to,
            ordinal,
            rule,
        })?;
        if self.places.contains_key(&pattern) {
            return Ok(());
        }
        match self.places.insert(pattern, place) {
            Ok(_) => Ok(()),
            Err(_) => {
                self.rules.pop();
                Err(AllocError)
            }
        }
    }

    /// The fate that the first rule for a message gives, and `Pass` where there
    /// is none.
    fn by_rules(&self, from: u8, to: u8, ordinal: u32) -> Fate
        ensures { result ≡ by_rules self.now from to ordinal }
    {
        if self.rules.is_empty() {
            return Fate::Pass;
        }
        match self.rules.get(self.first(from, to, ordinal)) {
            Some(link) => link.rule.fate(),
            None => Fate::Pass,
        }
    }

    /// How many rules come before the first that is for a message.
    fn first(&self, from: u8, to: u8, ordinal: u32) -> usize
        ensures { result ≡ first (is_for from to ordinal) self.now }
    {
        self.first_from(None, to, ordinal)
            .min(self.first_from(Some(from), to, ordinal))
    }

    /// How many come before the first with this sender.
    fn first_from(&self, from: Option<u8>, to: u8, ordinal: u32) -> usize
        ensures { result
            ≡ first (λ l. (option_eq nat_eq from l.from && matches l.to to) && matches l.ordinal ordinal) self.now }
    {
        self.first_to(from, None, ordinal)
            .min(self.first_to(from, Some(to), ordinal))
    }

    /// How many come before the first with this sender and receiver.
    fn first_to(&self, from: Option<u8>, to: Option<u8>, ordinal: u32) -> usize
        ensures { result ≡ first
            (λ l. (option_eq nat_eq from l.from && option_eq nat_eq to l.to) && matches l.ordinal ordinal) self.now }
    {
        self.first_of((from, to, None))
            .min(self.first_of((from, to, Some(ordinal))))
    }

    /// How many come before the first of this pattern.
    fn first_of(&self, pattern: Pattern) -> usize
        ensures { result ≡ first (has_pattern pattern) self.now }
    {
        match self.places.get(&pattern) {
            Some(place) => *place,
            None => self.rules.len(),
        }
    }
}

/// What becomes of a message from an actor to another with this ordinal:
/// `Drop` where the two are cut from each other, else what the first rule added
/// that is for it says, and `Pass` where there is none. It takes no memory, and
/// looks up eight patterns, each in steps that grow with the logarithm of the
/// patterns.
pub fn fate(plan: &LinkPlan, cuts: &Cuts, from: u8, to: u8, ordinal: u32) -> Fate
    requires from { from < most_actors }
    requires to { to < most_actors }
    ensures { result ≡ fate plan.now cuts.now from to ordinal }
{
    if cuts.is_cut(from, to) {
        Fate::Drop
    } else {
        plan.by_rules(from, to, ordinal)
    }
}
