//! A table.

ghost use Rattle.std.specs.Prelude.{◌==◌, ◌&&◌, is_some, ◌≡◌, ℕ, ◌<◌, ◌≤◌, ◌↔◌, None, length, OnOk, IfOk};
ghost use Rattle.std.specs.Prelude.{IfErr, IfSome, IsSome, IsBitSet};
ghost use Rattle.qc_table.specs.Limits.{most_events, most_invocations, most_responses, most_rows, most_states};
ghost use Rattle.qc_table.specs.Faults.{fault_of, IsTold};
ghost use Rattle.qc_table.specs.Rules.{event, events_of, rules_of};
ghost use Rattle.qc_table.specs.Run.{next_in, step_of, first_of, IsLowest};
ghost use Rattle.qc_table.specs.Sets.{with_member};
ghost use Rattle.qc_table.specs.Sound.{IsSound};

use crate::fault::TableFault;
use crate::grid::Grid;
use crate::row::{Event, Row};
use crate::rows::{self, Counts};
use qc_list::List;
use std::alloc::Global;
use std::marker::Model;

/// A table, which contracts see as what it was made of.
#[derive(Drop)]
pub struct Table {
    counts: Counts,
    start: u8,
    rows: List<Row>,
    events: List<Event>,
    grid: Grid,
}

impl Model for Table {
    ghost use Rattle.std.specs.Prelude.{◌≡◌};
    ghost use Rattle.qc_table.specs.Rules.{Rules, events_of, rules_of};
    ghost use Rattle.qc_table.specs.Sound.{IsSound};
    ghost use Rattle.qc_table.specs.Grid.{IsGrid};

    ghost Value = { Rules };

    ghost view = { λ t. rules_of t.counts.states t.counts.invs t.counts.resps t.start t.rows };

    ghost invariant = { λ t.
        IsSound (rules_of t.counts.states t.counts.invs t.counts.resps t.start t.rows)
        × (t.events ≡ events_of t.rows)
        × IsGrid t.rows t.grid };
}

impl Table {
    /// The table of these rows. There is at least one state, one invocation and
    /// one response, each keeps to its limit, as the rows do, and `start` is a
    /// state. A fault is told in the order of `TableFault`'s variants.
    pub fn new(
        alloc: Global,
        states: u8,
        invs: u8,
        resps: u8,
        start: u8,
        rows: &[Row],
    ) -> Result<Table, TableFault>
        requires has_state { 0 < states }
        requires has_inv { 0 < invs }
        requires has_resp { 0 < resps }
        requires states { states ≤ most_states }
        requires invs { invs ≤ most_invocations }
        requires resps { resps ≤ most_responses }
        requires begins { start < states }
        requires rows { length rows.now ≤ most_rows }
        ensures ok { IfOk result (λ t. t ≡ rules_of states invs resps start rows.now) }
        ensures faultless { OnOk result (fault_of (rules_of states invs resps start rows.now) ≡ None) }
        ensures err { IfErr result (λ e. IsTold e (fault_of (rules_of states invs resps start rows.now))) }
    {
        let counts = Counts {
            states,
            invs,
            resps,
        };
        if let Some(row) = rows::first_unknown(counts, rows) {
            return Err(TableFault::UnknownName { row });
        }
        if let Some(row) = rows::first_repeated(alloc, rows)? {
            return Err(TableFault::DuplicateRow { row });
        }
        let events = rows::events(alloc, rows)?;
        let grid = Grid::new(alloc, rows, events.items())?;
        Ok(Table {
            counts,
            start,
            rows: List::from_slice(alloc, rows)?,
            events,
            grid,
        })
    }

    /// How many states there are.
    pub fn states(&self) -> u8
        ensures { result ≡ self.now.states }
    {
        self.counts.states
    }

    /// How many invocations there are.
    pub fn invs(&self) -> u8
        ensures { result ≡ self.now.invs }
    {
        self.counts.invs
    }

    /// How many responses there are.
    pub fn resps(&self) -> u8
        ensures { result ≡ self.now.resps }
    {
        self.counts.resps
    }

    /// The state at the beginning.
    pub fn start(&self) -> u8
        ensures { result ≡ self.now.start }
    {
        self.start
    }

    /// The distinct events, in the order of their first rows. An event's
    /// number is its place here.
    pub fn events(&self) -> &[Event]
        ensures events { result.now ≡ events_of self.now.rows }
        ensures few { length result.now ≤ most_events }
    {
        self.events.items()
    }

    /// The state after an event, by its number, or `None` where no row of
    /// that state has it.
    pub fn step(&self, state: u8, event: u8) -> Option<u8>
        ensures { result ≡ step_of self.now.rows state event }
    {
        self.grid.next(state, event)
    }

    /// The legal responses of an invocation in a state, bit k for response k.
    pub fn responses(&self, state: u8, inv: u8) -> u32
        ensures { (k : ℕ) → IsBitSet result k ↔ IsSome (next_in self.now.rows state (event inv k)) }
    {
        let mut responses = 0;
        for (number, event) in self.events.items().iter().enumerate() {
            if self.allows(state, inv, number as u8, event) {
                responses = with_response(responses, event.resp);
            }
        }
        responses
    }

    /// Whether an event, given with its number, is one of the invocation that
    /// a state allows.
    fn allows(&self, state: u8, inv: u8, number: u8, event: &Event) -> bool
        ensures { result ≡ ((event.now.inv == inv) && is_some (step_of self.now.rows state number)) }
    {
        event.inv == inv && self.step(state, number).is_some()
    }

    /// The number of the event with an invocation's lowest legal response in
    /// a state, or `None` where no response is legal.
    pub fn first(&self, state: u8, inv: u8) -> Option<u8>
        ensures first { result ≡ first_of self.now.rows state inv }
        ensures lowest { IfSome result (λ number. IsLowest self.now.rows state inv number) }
        ensures none { result ≡ None → (k : ℕ) → next_in self.now.rows state (event inv k) ≡ None }
    {
        let responses = self.responses(state, inv);
        if responses == 0 {
            return None;
        }
        let resp = responses.trailing_zeros() as u8;
        rows::number(self.events(), Event { inv, resp })
    }
}

/// The responses with one more.
fn with_response(responses: u32, resp: u8) -> u32
    requires { resp < most_responses }
    ensures { result ≡ with_member responses resp }
{
    responses | 1 << resp
}

/// Every table is sound.
pub fn tables_are_sound(table: &Table)
    ensures { IsSound table.now }
{
    let _start = table.start;
}
