//! The next state of each state and each event.

ghost use Rattle.std.specs.Prelude.{◌≡◌, ◌<◌, ◌≤◌, length, All, IfOk};
ghost use Rattle.qc_table.specs.Limits.{most_events, most_states};
ghost use Rattle.qc_table.specs.Cases.{IsSmall};
ghost use Rattle.qc_table.specs.Grid.{grid_next, with_next, with_row, IsGrid};
ghost use Rattle.qc_table.specs.Rules.{event_of, events_of, event_number};

use crate::limits::{MOST_EVENTS, MOST_STATES};
use crate::row::{Event, Row};
use crate::rows;
use qc_list::OutOfMemory;
use std::alloc::Global;
use std::marker::Model;

/// A grid of next states.
#[derive(Drop)]
pub(crate) struct Grid {
    /// For each state and each event's number the next state, if any.
    next: Vec<Option<u8>>,
}

impl Model for Grid {
    ghost use Rattle.std.specs.Prelude.{List, ℕ, Option, length, ◌≡◌, ◌*◌};
    ghost use Rattle.qc_table.specs.Limits.{most_states, most_events};

    ghost Value = { List (Option ℕ) };

    ghost view = { λ g. g.next.items };

    ghost invariant = { λ g. length g.next.items ≡ most_states * most_events };
}

impl Grid {
    /// The grid of these rows. The events are theirs.
    pub(crate) fn new(alloc: Global, rows: &[Row], events: &[Event]) -> Result<Grid, OutOfMemory>
        requires small { All IsSmall rows.now }
        requires events { events.now ≡ events_of rows.now }
        requires few { length events.now ≤ most_events }
        ensures { IfOk result (λ grid. IsGrid rows.now grid) }
    {
        let mut grid = Grid {
            next: vec![in alloc; None; MOST_STATES * MOST_EVENTS]?,
        };
        for row in rows {
            grid.add(row, events);
        }
        Ok(grid)
    }

    /// Adds a row.
    fn add(&mut self, row: &Row, events: &[Event])
        requires state { row.now.state < most_states }
        requires few { length events.now ≤ most_events }
        ensures { self.new ≡ with_row self.old row.now (event_number events.now (event_of row.now)) }
    {
        if let Some(number) = rows::number(events, row.event()) {
            self.add_next(row, number);
        }
    }

    /// Adds the next state of a row, whose event has this number, where an
    /// earlier row gave none.
    fn add_next(&mut self, row: &Row, number: u8)
        requires state { row.now.state < most_states }
        requires number { number < most_events }
        ensures { self.new ≡ with_next self.old row.now number }
    {
        let place = row.state as usize * MOST_EVENTS + number as usize;
        let next = self.next[place];
        self.next[place] = next.or(Some(row.next));
    }

    /// The state after an event, by its number.
    pub(crate) fn next(&self, state: u8, number: u8) -> Option<u8>
        ensures { result ≡ grid_next self.now state number }
    {
        let number = number as usize;
        if number >= MOST_EVENTS {
            return None;
        }
        *self.next.get(state as usize * MOST_EVENTS + number)?
    }
}
