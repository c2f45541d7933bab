//! What is read off a slice of rows.

ghost use Rattle.std.specs.Prelude.{◌≡◌, None, ◌<◌, ◌≤◌, nat_lt, length, All, OnOk, IfOk, IfErr, IfSome, position};
ghost use Rattle.qc_table.specs.Limits.{most_events, most_rows};
ghost use Rattle.qc_table.specs.Cases.{IsSmall};
ghost use Rattle.qc_table.specs.Faults.{is_unknown, first_repeat, ranked, IsTold};
ghost use Rattle.qc_table.specs.Rules.{events_of, with_event, event_number};

use crate::cases::Cases;
use crate::fault::TableFault;
use crate::limits::MOST_EVENTS;
use crate::row::{Event, Row};
use qc_list::{List, OutOfMemory};
use std::alloc::Global;

/// How many states, invocations and responses there are.
#[derive(Clone, Copy)]
pub(crate) struct Counts {
    pub(crate) states: u8,
    pub(crate) invs: u8,
    pub(crate) resps: u8,
}

impl Counts {
    /// Whether a row names a number past its count.
    fn lack(&self, row: &Row) -> bool
        ensures { result ≡ is_unknown self.now.states self.now.invs self.now.resps row.now }
    {
        self.states <= row.state
            || self.invs <= row.inv
            || self.resps <= row.resp
            || self.states <= row.next
    }
}

/// The number of the first row that names a number past its count.
pub(crate) fn first_unknown(counts: Counts, rows: &[Row]) -> Option<u32>
    requires { length rows.now ≤ most_rows }
    ensures { result ≡ position (is_unknown counts.states counts.invs counts.resps) rows.now }
{
    let place = unknown_place(counts, rows)?;
    Some(place as u32)
}

/// The place of the first row that names a number past its count.
fn unknown_place(counts: Counts, rows: &[Row]) -> Option<usize>
    ensures place { result ≡ position (is_unknown counts.states counts.invs counts.resps) rows.now }
    ensures within { IfSome result (λ place. place < length rows.now) }
{
    rows.iter().position(|row| counts.lack(row))
}

/// The number of the first row with the state, the invocation and the
/// response of an earlier one.
pub(crate) fn first_repeated(alloc: Global, rows: &[Row]) -> Result<Option<u32>, OutOfMemory>
    requires few { length rows.now ≤ most_rows }
    requires small { All IsSmall rows.now }
    ensures { IfOk result (λ found. found ≡ first_repeat rows.now) }
{
    let mut cases = Cases::new(alloc)?;
    for (place, row) in rows.iter().enumerate() {
        if !cases.insert(row) {
            return Ok(Some(place as u32));
        }
    }
    Ok(None)
}

/// The distinct events, in the order of their first rows, where they keep to
/// the limit.
pub(crate) fn events(alloc: Global, rows: &[Row]) -> Result<List<Event>, TableFault>
    ensures ok { IfOk result (λ events. (events ≡ events_of rows.now) × (length events ≤ most_events)) }
    ensures err { IfErr result (λ e. IsTold e (ranked None None (nat_lt most_events (length (events_of rows.now))))) }
{
    let mut events = List::new(alloc);
    for row in rows {
        add_event(&mut events, row.event())?;
        if events.items().len() > MOST_EVENTS {
            return Err(TableFault::TooMany);
        }
    }
    Ok(events)
}

/// Adds an event where it is missing.
fn add_event(events: &mut List<Event>, event: Event) -> Result<(), OutOfMemory>
    ensures { OnOk result (events.new ≡ with_event events.old event) }
{
    if !events.items().contains(&event) {
        events.push(event)?;
    }
    Ok(())
}

/// The number of an event.
pub(crate) fn number(events: &[Event], event: Event) -> Option<u8>
    requires { length events.now ≤ most_events }
    ensures { result ≡ event_number events.now event }
{
    let place = place_of(events, event)?;
    Some(place as u8)
}

/// The place of an event.
fn place_of(events: &[Event], event: Event) -> Option<usize>
    ensures place { result ≡ event_number events.now event }
    ensures within { IfSome result (λ place. place < length events.now) }
{
    events.iter().position(|e| *e == event)
}
