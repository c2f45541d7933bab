//! Which sets of one event and of two the groups of a list have, a word for each
//! event. No contract says so, and none has to: what is told is only looked for.

ghost use Rattle.std.specs.Prelude.{◌<◌};
ghost use Rattle.qc_table.specs.Limits.{most_events};

use crate::places::{FEW, GROUPS, group, put, read, zeros};
use crate::triple::Triple;
use qc_list::OutOfMemory;
use qc_table::MOST_EVENTS;
use std::alloc::Global;

/// The sets of one event and of two, of each group that hasn't few triples.
#[derive(Drop)]
pub(crate) struct Pairs {
    /// For each two states the number of their group, from 1, or 0 where none are kept.
    numbers: Vec<u16>,
    /// For each group and each event those that it is in a set with: with itself,
    /// where it is a set alone.
    partners: Vec<u64>,
}

impl Pairs {
    /// The sets of one event and of two of this list.
    pub(crate) fn new(alloc: Global, list: &[Triple]) -> Result<Pairs, OutOfMemory> {
        let mut pairs = Pairs {
            numbers: counts(alloc, list)?,
            partners: Vec::new(alloc),
        };
        pairs.number()?;
        for triple in list {
            pairs.add(triple);
        }
        Ok(pairs)
    }

    /// Gives each group that hasn't few triples a number, and a word for each event.
    fn number(&mut self) -> Result<(), OutOfMemory> {
        let mut last = 0u16;
        'groups: for place in 0..GROUPS {
            if read(&self.numbers, place) as usize > FEW {
                last = last.saturating_add(1);
                put(&mut self.numbers, place, last);
                push_words(&mut self.partners)?;
            } else {
                put(&mut self.numbers, place, 0);
            }
        }
        Ok(())
    }

    /// Adds a triple that leaves out one event or two.
    fn add(&mut self, triple: &Triple) {
        if triple.out == 0 || triple.out.count_ones() > 2 {
            return;
        }
        let first = triple.out.trailing_zeros();
        let others = triple.out & !(1 << first);
        let second = if others == 0 {
            first
        } else {
            others.trailing_zeros()
        };
        let number = read(&self.numbers, group(triple));
        join(&mut self.partners, place(number, first), second);
        join(&mut self.partners, place(number, second), first);
    }

    /// A set of one of these events, or of two, that the group of a triple has.
    pub(crate) fn within(&self, triple: &Triple) -> Option<u64> {
        let number = read(&self.numbers, group(triple));
        let mut rest = triple.out;
        'turns: for _turn in 0..MOST_EVENTS {
            if rest == 0 {
                return None;
            }
            let event = rest.trailing_zeros();
            let both = partners(&self.partners, place(number, event)) & triple.out;
            if both != 0 {
                return Some(1 << event | 1 << both.trailing_zeros());
            }
            rest &= !(1 << event);
        }
        None
    }
}

/// How many triples each group has.
fn counts(alloc: Global, list: &[Triple]) -> Result<Vec<u16>, OutOfMemory> {
    let mut counts = zeros(alloc, GROUPS)?;
    for triple in list {
        let count = read(&counts, group(triple));
        put(&mut counts, group(triple), count.saturating_add(1));
    }
    Ok(counts)
}

/// Adds a word for each event.
fn push_words(words: &mut Vec<u64>) -> Result<(), OutOfMemory> {
    'events: for _event in 0..MOST_EVENTS {
        words.push(0)?;
    }
    Ok(())
}

/// The place of the word of an event of the group with this number, behind all
/// words where no pairs are kept.
fn place(number: u16, event: u32) -> usize {
    if number == 0 {
        usize::MAX
    } else {
        (number as usize - 1) * MOST_EVENTS + event as usize
    }
}

/// The word at a place, empty where there is none.
fn partners(words: &[u64], place: usize) -> u64 {
    if place < words.len() { words[place] } else { 0 }
}

/// Adds an event to the word at a place.
fn join(words: &mut [u64], place: usize, event: u32)
    requires { event < most_events }
{
    if place < words.len() {
        words[place] |= 1 << event;
    }
}
