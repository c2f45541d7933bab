//! Where to look first for a triple that covers another: places of a list that
//! mostly have one. No contract says so, and none has to: what stands at a place
//! is looked at, and where it doesn't cover, a search tells.

ghost use Rattle.std.specs.Prelude.{◌≡◌, ◌≤◌, length, true};
ghost use Rattle.qc_cert.specs.Faults.{covers, is_covered};
ghost use Rattle.qc_cert.specs.Limits.{most_triples};

use crate::pairs::Pairs;
use crate::places::{GROUPS, SPREAD, group, put, read, zeros};
use crate::triple::Triple;
use qc_list::OutOfMemory;
use std::alloc::Global;

/// How many slots there are: two for each triple of the longest list.
const SLOTS: usize = 131_072;

/// How many events a triple leaves out at most of which all hints are looked at.
const FEW_EVENTS: u32 = 3;

/// Places in a list, which is no part of it.
#[derive(Drop)]
pub(crate) struct Hints {
    /// What events are hashed with. It comes of the whole list, so that no list is
    /// made against its slots.
    key: u64,
    /// For each two states a triple with the fewest events.
    least: Vec<u16>,
    /// Each triple in one of the two slots of its states and events, unless a later
    /// one has it.
    slots: Vec<u16>,
    /// The sets of one event and of two.
    pairs: Pairs,
}

impl Hints {
    /// The hints of this list.
    pub(crate) fn new(alloc: Global, list: &[Triple]) -> Result<Hints, OutOfMemory>
        requires { length list.now ≤ most_triples }
    {
        let key = key_of(list);
        let mut least = zeros(alloc, GROUPS)?;
        let mut slots = zeros(alloc, SLOTS)?;
        for (place, triple) in list.iter().enumerate() {
            add_least(&mut least, list, place as u16, triple);
            add_slot(&mut slots, key, place as u16, triple);
        }
        let pairs = Pairs::new(alloc, list)?;
        Ok(Hints {
            key,
            least,
            slots,
            pairs,
        })
    }

    /// Whether a hint leads to a triple of the list that covers this one. One is
    /// sought that leaves out just the events `near`.
    pub(crate) fn tell(&self, list: &[Triple], triple: &Triple, near: u64) -> bool
        ensures { result ≡ true → is_covered list.now triple.now ≡ true }
    {
        covers_at(list, read(&self.least, group(triple)), triple)
            || covers_at(
                list,
                read(&self.slots, first_slot(self.key, triple, near)),
                triple,
            )
            || triple.out.count_ones() <= FEW_EVENTS && self.tell_few(list, triple, near)
    }

    /// The same, of a triple that leaves out few events: they are sought themselves,
    /// and each one and two of them. What isn't covered by one or two of its events,
    /// and has three, is covered by all of them alone.
    fn tell_few(&self, list: &[Triple], triple: &Triple, near: u64) -> bool
        ensures { result ≡ true → is_covered list.now triple.now ≡ true }
    {
        if self.stands(list, triple, near) || self.stands(list, triple, triple.out) {
            return true;
        }
        match self.pairs.within(triple) {
            Some(pair) => self.stands(list, triple, pair),
            None => false,
        }
    }

    /// Whether a triple that stands in a slot of these events covers this one.
    fn stands(&self, list: &[Triple], triple: &Triple, out: u64) -> bool
        ensures { result ≡ true → is_covered list.now triple.now ≡ true }
    {
        covers_at(
            list,
            read(&self.slots, first_slot(self.key, triple, out)),
            triple,
        ) || covers_at(
            list,
            read(&self.slots, second_slot(self.key, triple, out)),
            triple,
        )
    }
}

/// A word that comes of each triple of a list.
fn key_of(list: &[Triple]) -> u64 {
    let mut first = 0u64;
    let mut second = 0u64;
    for triple in list {
        first = mixed(first ^ triple.out).wrapping_add(group(triple) as u64);
        second = mixed(second.wrapping_add(first));
    }
    first ^ second
}

/// A word of which each bit comes of many bits of this one.
fn mixed(word: u64) -> u64 {
    let product = (word ^ word >> 32).wrapping_mul(SPREAD);
    product ^ product >> 29
}

/// The first slot of a triple's states and of some events. The groups' slots of the
/// same events lie side by side.
#[inline(always)]
fn first_slot(key: u64, triple: &Triple, out: u64) -> usize {
    ((out ^ key).wrapping_mul(SPREAD) >> 47) as usize ^ group(triple)
}

/// The second slot, of other bits of the same product.
fn second_slot(key: u64, triple: &Triple, out: u64) -> usize {
    ((out ^ key).wrapping_mul(SPREAD) >> 30) as usize % SLOTS ^ group(triple)
}

/// Keeps the place of a triple in its first slot, or, where another one stands
/// there, in its second one, or else in the first.
fn add_slot(slots: &mut [u16], key: u64, place: u16, triple: &Triple) {
    let first = first_slot(key, triple, triple.out);
    let second = second_slot(key, triple, triple.out);
    if read(slots, first) != 0 && read(slots, second) == 0 {
        put(slots, second, place);
    } else {
        put(slots, first, place);
    }
}

/// Keeps the place of a triple, unless its group has one with no more events.
fn add_least(least: &mut [u16], list: &[Triple], place: u16, triple: &Triple) {
    let number = group(triple);
    if let Some(old) = list.get(read(least, number) as usize) {
        if old.view != triple.view
            || old.log != triple.log
            || triple.out.count_ones() < old.out.count_ones()
        {
            put(least, number, place);
        }
    }
}

/// Whether there is a triple at a place of the list, and it covers this one.
#[inline(always)]
fn covers_at(list: &[Triple], place: u16, triple: &Triple) -> bool
    ensures { result ≡ true → is_covered list.now triple.now ≡ true }
{
    match list.get(place as usize) {
        Some(by) => covers(by, triple),
        None => false,
    }
}

/// Whether a triple covers another.
#[inline(always)]
fn covers(by: &Triple, triple: &Triple) -> bool
    ensures { result ≡ covers by.now triple.now }
{
    by.view == triple.view && by.log == triple.log && by.out & triple.out == by.out
}
