//! Places of a list by number, as hints have them: what is read past the last
//! number is 0, and what is put there is passed over.

use crate::triple::Triple;
use qc_list::OutOfMemory;
use qc_table::MOST_STATES;
use std::alloc::Global;

/// How many groups there are: one for each two states.
pub(crate) const GROUPS: usize = MOST_STATES * MOST_STATES;

/// How many sets of a group a search looks at as fast as it would ask tables.
pub(crate) const FEW: usize = 96;

/// What spreads words over the high bits of a product: 2^64 by the golden ratio.
pub(crate) const SPREAD: u64 = 0x9e37_79b9_7f4a_7c15;

/// So many places, all 0.
pub(crate) fn zeros(alloc: Global, count: usize) -> Result<Vec<u16>, OutOfMemory> {
    let mut places = Vec::new(alloc);
    'places: for _place in 0..count {
        places.push(0)?;
    }
    Ok(places)
}

/// The number of a triple's group.
#[inline(always)]
pub(crate) fn group(triple: &Triple) -> usize {
    triple.view as usize * MOST_STATES + triple.log as usize
}

/// The place that is kept at a number, and 0 where there is none.
#[inline(always)]
pub(crate) fn read(places: &[u16], number: usize) -> u16 {
    if number < places.len() {
        places[number]
    } else {
        0
    }
}

/// Keeps a place at a number.
pub(crate) fn put(places: &mut [u16], number: usize, place: u16) {
    if number < places.len() {
        places[number] = place;
    }
}
