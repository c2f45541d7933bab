//! The log: the history, what is counted in it, and where its messages stand.

ghost use Rattle.std.specs.Prelude.{◌≡◌, ◌+◌, ◌^◌, ◌≤◌, ◌<◌, [], ◌∷◌, ◌++◌};
ghost use Rattle.std.specs.Prelude.{IfOk, OnOk, length, slice_get, vec_capacity, vec_len};
ghost use Rattle.qc_msg.specs.Deeds.{envelope_of, mail};
ghost use Rattle.qc_fabric.specs.Logs.{full_of};
ghost use Rattle.qc_fabric.specs.Places.{place_of, places_of};

use crate::full::Full;
use crate::weigh::{carried_by, operations_by, standing_by};
use qc_decl::{MOST_CARRIED_LINES, MOST_COMMITTED_OPERATIONS, MOST_STEPS};
use qc_list::OutOfMemory;
use qc_msg::{Entry, Quantity, Step};
use std::alloc::Global;
use std::marker::Model;

/// All that happened, oldest first, with room for so many steps more.
#[derive(Drop)]
pub struct HistoryStore {
    entries: Vec<Entry>,
    places: Vec<u32>,
    standing: [usize; NAMED_ACTORS],
    operations: u32,
    carried: u32,
    room: usize,
}

impl Model for HistoryStore {
    ghost use Rattle.std.specs.Prelude.{vec_capacity};
    ghost use Rattle.qc_fabric.specs.Logs.{IsLog, Logged};

    ghost Value = { Logged };

    ghost view = { λ l. record { history = l.entries.items; room = l.room } };

    ghost invariant = { λ l. IsLog l.entries.items (vec_capacity l.entries) l.places.items (vec_capacity l.places)
        l.standing l.operations l.carried l.room };
}

/// How many actors a number of 8 bits may name: of each it is counted how many
/// records stand in its journal.
const NAMED_ACTORS: usize = 256;

/// More room than is asked for is made at once, for so many steps.
const MORE: usize = 256;

impl HistoryStore {
    /// The empty log, which takes no memory.
    pub(crate) fn new(alloc: Global) -> HistoryStore
        ensures { result ≡ record { history = []; room = 0 } }
    {
        HistoryStore {
            entries: Vec::new(alloc),
            places: Vec::new(alloc),
            standing: [0; NAMED_ACTORS],
            operations: 0,
            carried: 0,
            room: 0,
        }
    }

    /// The history's entries, oldest first.
    pub fn entries(&self) -> &[Entry]
        ensures { result.now ≡ self.now.history }
    {
        self.entries.as_slice()
    }

    /// The history's entries, by themselves. It takes no memory.
    pub fn into_entries(self) -> Vec<Entry>
        ensures { result.items ≡ self.history }
    {
        let HistoryStore { entries, .. } = self;
        entries
    }

    /// The number of steps.
    pub fn steps(&self) -> usize
        ensures { result ≡ length self.now.history }
    {
        self.entries.len()
    }

    /// Makes room for so many steps, where it isn't there. The history stays,
    /// and so does a smaller room, also after want of memory.
    pub(crate) fn reserve(&mut self, steps: usize) -> Result<(), OutOfMemory>
        ensures same { self.new.history ≡ self.old.history }
        ensures kept { self.old.room ≤ self.new.room }
        ensures ok { OnOk result (steps ≤ self.new.room) }
    {
        if steps <= self.room {
            return Ok(());
        }
        let room = steps.saturating_add(MORE);
        self.entries.reserve(room)?;
        self.places.reserve(room)?;
        self.room = room;
        Ok(())
    }

    /// Adds an entry. It takes no memory.
    pub(crate) fn add(&mut self, entry: Entry)
        requires room { 0 < self.old.room }
        requires few { length self.old.history < 2 ^ 32 }
        ensures history { self.new.history ≡ self.old.history ++ entry ∷ [] }
        ensures room { self.new.room + 1 ≡ self.old.room }
    {
        let place = self.entries.len() as u32;
        let actor = usize::from(entry.actor);
        let standing = self.standing[actor];
        self.operations = self
            .operations
            .saturating_add(operations_by(standing, &entry.step));
        self.carried = self.carried.saturating_add(carried_by(&entry.step));
        self.standing[actor] = standing_by(standing, &entry.step);
        add_place(&mut self.places, place, &entry.step);
        self.entries.push_reserved(entry);
        self.room -= 1;
    }

    /// The entry that sent the message of this number.
    pub(crate) fn sent(&self, number: u32) -> &Entry
        requires { number < length (mail self.now.history) }
        ensures { envelope_of result.now ≡ slice_get (mail self.now.history) number }
    {
        entry_of(self.entries.as_slice(), self.places.as_slice(), number)
    }

    /// Which counted quantity has reached its limit, if any: steps, then
    /// operations, then carried lines.
    pub fn full(&self) -> Option<Full>
        ensures { result ≡ full_of self.now.history }
    {
        let steps = self.entries.len() as u64;
        if steps >= MOST_STEPS {
            return Some(Full {
                what: Quantity::Steps,
                number: steps,
            });
        }
        if self.operations >= MOST_COMMITTED_OPERATIONS {
            return Some(Full {
                what: Quantity::Operations,
                number: u64::from(self.operations),
            });
        }
        if self.carried >= MOST_CARRIED_LINES {
            return Some(Full {
                what: Quantity::Carried,
                number: u64::from(self.carried),
            });
        }
        None
    }
}

/// Adds the place of a step if it sends a message.
fn add_place(places: &mut Vec<u32>, place: u32, step: &Step)
    requires { vec_len places.old < vec_capacity places.old }
    ensures places { places.new.items ≡ places.old.items ++ place_of place step.now }
    ensures longer { length places.new.items ≤ length places.old.items + 1 }
    ensures capacity { vec_capacity places.new ≡ vec_capacity places.old }
{
    if let Step::Sent { .. } = step {
        places.push_reserved(place);
    }
}

/// The entry that sent the message of this number.
fn entry_of<'a>(entries: &'a [Entry], places: &[u32], number: u32) -> &'a Entry
    requires placed { places.now ≡ places_of 0 entries.now }
    requires there { number < length (mail entries.now) }
    ensures { envelope_of result.now ≡ slice_get (mail entries.now) number }
{
    let place = places[number as usize];
    &entries[place as usize]
}
