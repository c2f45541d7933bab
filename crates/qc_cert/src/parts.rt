//! Sets of events in parts, one for each event: the sets of a part have its
//! event, and each set stands in one part.

ghost use Rattle.std.specs.Prelude.{◌≡◌, ℕ, ◌<◌, ◌≤◌, ◌++◌, ◌∷◌, []};
ghost use Rattle.std.specs.Prelude.{◌||◌, true, false, OnOk, OnErr, length, slice_index_or};
ghost use Rattle.qc_cert.specs.Groups.{any_within, parts_within, AreParted};
ghost use Rattle.qc_table.specs.Limits.{most_events};
ghost use Rattle.qc_table.specs.Sets.{has, is_within};

use crate::places::SPREAD;
use qc_list::OutOfMemory;
use qc_table::MOST_EVENTS;
use std::alloc::Global;
use std::marker::Model;

/// What a part costs beside its sets, counted in sets.
const PART: usize = 8;

/// Sets of events.
#[derive(Drop)]
pub(crate) struct Part {
    sets: Vec<u64>,
}

impl Model for Part {
    ghost use Rattle.std.specs.Prelude.{List, ℕ};

    ghost Value = { List ℕ };

    ghost view = { λ p. p.sets.items };
}

impl Part {
    /// No set.
    fn new(alloc: Global) -> Part
        ensures { result ≡ [] }
    {
        Part {
            sets: Vec::new(alloc),
        }
    }

    /// How many sets there are.
    fn len(&self) -> usize
        ensures { result ≡ length self.now }
    {
        self.sets.len()
    }

    /// Adds a set.
    fn push(&mut self, set: u64) -> Result<(), OutOfMemory>
        ensures ok { OnOk result (self.new ≡ self.old ++ set ∷ []) }
        ensures err { OnErr result (self.new ≡ self.old) }
    {
        self.sets.push(set)?;
        Ok(())
    }

    /// Whether one of the sets is within this one. All are looked at, also
    /// behind one that is: without a way out the loop takes several at a time.
    fn covers(&self, out: u64) -> bool
        ensures { result ≡ any_within self.now out }
    {
        let mut covered = false;
        for set in self.sets.iter() {
            covered |= *set & out == *set;
        }
        covered
    }

    /// The set with the fewest events of those within this one and of one more.
    fn least(&self, out: u64, other: u64) -> u64 {
        let mut least = other;
        for set in self.sets.iter() {
            if *set & out == *set && set.count_ones() < least.count_ones() {
                least = *set;
            }
        }
        least
    }
}

/// Adds a set to the shortest part of one of its events. The parts are made
/// with the first set.
pub(crate) fn add(parts: &mut Vec<Part>, alloc: Global, set: u64) -> Result<(), OutOfMemory>
    requires some { 0 < set }
    requires parted { AreParted parts.old.items }
    ensures parted { AreParted parts.new.items }
    ensures added { OnOk result ((out : ℕ)
        → parts_within parts.new.items out ≡ (parts_within parts.old.items out || is_within set out)) }
{
    fill(parts, alloc)?;
    let event = shortest(parts, set);
    parts[event].push(set)
}

/// Adds parts without sets until there is one for each event.
fn fill(parts: &mut Vec<Part>, alloc: Global) -> Result<(), OutOfMemory>
    requires { AreParted parts.old.items }
    ensures parted { AreParted parts.new.items }
    ensures all { OnOk result (most_events ≤ length parts.new.items) }
    ensures same { OnOk result ((out : ℕ) → parts_within parts.new.items out ≡ parts_within parts.old.items out) }
{
    'parts: for _part in parts.len()..MOST_EVENTS {
        parts.push(Part::new(alloc))?;
    }
    Ok(())
}

/// The event of a set whose part is the shortest.
fn shortest(parts: &[Part], set: u64) -> usize
    requires { 0 < set }
    ensures within { result < most_events }
    ensures has { has set result ≡ true }
{
    let mut found = set.trailing_zeros() as usize;
    for event in 0..MOST_EVENTS {
        if set >> event & 1 == 1 && len_at(parts, event) < len_at(parts, found) {
            found = event;
        }
    }
    found
}

/// How many sets an event's part has.
fn len_at(parts: &[Part], event: usize) -> usize
    ensures { result ≡ length (slice_index_or parts.now event []) }
{
    if event < parts.len() {
        parts[event].len()
    } else {
        0
    }
}

/// Whether a set of an event's part is within this one.
fn covers_at(parts: &[Part], event: usize, out: u64) -> bool
    ensures { result ≡ any_within (slice_index_or parts.now event []) out }
{
    if event < parts.len() {
        parts[event].covers(out)
    } else {
        false
    }
}

/// Whether a set of one of the parts is within this one. Only the parts of its
/// events can have one. Where the search begins seems drawn by chance, so that
/// no order of a list puts what covers last for all.
pub(crate) fn covers(parts: &[Part], out: u64) -> bool
    requires { AreParted parts.now }
    ensures { result ≡ parts_within parts.now out }
{
    let high = u64::MAX << (out.wrapping_mul(SPREAD) >> 32) % 64;
    covers_among(parts, out & high, out) || covers_among(parts, out & !high, out)
}

/// Whether a set of the part of one of these events is within this one. The
/// parts are looked at in the events' order.
fn covers_among(parts: &[Part], events: u64, out: u64) -> bool
    ensures some { result ≡ true → parts_within parts.now out ≡ true }
    ensures none { result ≡ false → (event : ℕ) → has events event ≡ true
        → any_within (slice_index_or parts.now event []) out ≡ false }
{
    let mut rest = events;
    'turns: for _turn in 0..MOST_EVENTS {
        if rest == 0 {
            return false;
        }
        let event = rest.trailing_zeros();
        if covers_at(parts, event as usize, out) {
            return true;
        }
        rest &= !(1 << event);
    }
    false
}

/// How many sets the parts of a set's events have, and some more for each part,
/// which is what a walk of them costs.
pub(crate) fn looks(parts: &[Part], out: u64) -> usize {
    let mut looks = 0usize;
    let mut rest = out;
    'turns: for _turn in 0..MOST_EVENTS {
        if rest == 0 {
            return looks;
        }
        let event = rest.trailing_zeros();
        looks = looks
            .saturating_add(len_at(parts, event as usize))
            .saturating_add(PART);
        rest &= !(1 << event);
    }
    looks
}

/// A set with the fewest events that is within this one, or else this one.
pub(crate) fn least(parts: &[Part], out: u64) -> u64 {
    let mut least = out;
    for event in 0..MOST_EVENTS {
        if out >> event & 1 == 1 && event < parts.len() {
            least = parts[event].least(out, least);
        }
    }
    least
}
