//! A replay of committed operations on one copy of each object: it tests
//! whether they are those of one copy, and says in which states they end.

ghost use Rattle.std.specs.Prelude.{◌≡◌, IfOk, IfSome, ◌<◌, length, Some, None, fold, option_map};
ghost use Rattle.std.specs.Bool.{MatchBool};
ghost use Rattle.std.specs.Option.{option_map_or};
ghost use Rattle.qc_table.specs.Rules.{events_of, event_number};
ghost use Rattle.theory_onecopy.specs.Replay.{state_after, states_after, replayed, starts, start_of, replay};

use qc_decl::Declaration;
use qc_entry::{Commit, Op};
use qc_list::OutOfMemory;
use qc_table::{Event, Table};
use std::alloc::Global;

/// Each object's state after all operations of the transactions, or `None`
/// exactly where an operation with a response has no row, or an absent one has
/// one. An object that isn't declared has no rows.
pub fn replay(
    alloc: Global,
    decl: &Declaration,
    commits: &[Commit],
) -> Result<Option<Vec<u8>>, OutOfMemory>
    ensures { IfOk result (λ states. option_map (λ v. v.items) states ≡ replay decl.now commits.now) }
{
    let mut states = starts(alloc, decl)?;
    'commits: for commit in commits {
        if !replay_ops(decl, &mut states, commit.ops.items()) {
            return Ok(None);
        }
    }
    Ok(Some(states))
}

/// Each object's start state.
fn starts(alloc: Global, decl: &Declaration) -> Result<Vec<u8>, OutOfMemory>
    ensures { IfOk result (λ v. v.items ≡ starts decl.now) }
{
    let mut states = Vec::new(alloc);
    'objects: for kind in decl.objects.items() {
        states.push(start_of(decl, *kind))?;
    }
    Ok(states)
}

/// A type's start state, and 0 where there is no such type.
fn start_of(decl: &Declaration, kind: u8) -> u8
    ensures { result ≡ start_of decl.now kind }
{
    match decl.kinds.items().get(kind as usize) {
        Some(kind) => kind.table.start(),
        None => 0,
    }
}

/// Takes the steps of operations, or answers `false` where one is missing.
fn replay_ops(decl: &Declaration, states: &mut [u8], ops: &[Op]) -> bool
    ensures { MatchBool result (fold (replayed decl.now) (Some states.old) ops.now ≡ Some states.new)
        (fold (replayed decl.now) (Some states.old) ops.now ≡ None) }
{
    'ops: for op in ops {
        if !replay_op(decl, states, op) {
            return false;
        }
    }
    true
}

/// Takes the step of an operation, or answers `false` where there is none.
fn replay_op(decl: &Declaration, states: &mut [u8], op: &Op) -> bool
    ensures { MatchBool result (states_after decl.now states.old op.now ≡ Some states.new)
        (states_after decl.now states.old op.now ≡ None) }
{
    let object = op.object as usize;
    let Some(table) = decl.table(op.object) else {
        return op.resp.is_none();
    };
    if object >= states.len() {
        return false;
    }
    match state_after(table, states[object], op) {
        Some(next) => {
            states[object] = next;
            true
        }
        None => false,
    }
}

/// The state after an operation. An absent one stands where no response is
/// legal.
fn state_after(table: &Table, state: u8, op: &Op) -> Option<u8>
    ensures { result ≡ state_after table.now state op.now.inv op.now.resp }
{
    match op.resp {
        Some(resp) => {
            let event = Event { inv: op.inv, resp };
            let number = event_number(table, event)?;
            table.step(state, number)
        }
        None => match table.first(state, op.inv) {
            Some(_) => None,
            None => Some(state),
        },
    }
}

/// The number of an event of a table.
fn event_number(table: &Table, event: Event) -> Option<u8>
    ensures { result ≡ event_number (events_of table.now.rows) event }
{
    let place = event_place(table.events(), event)?;
    Some(place as u8)
}

/// The place of an event.
fn event_place(events: &[Event], event: Event) -> Option<usize>
    ensures place { result ≡ event_number events.now event }
    ensures within { IfSome result (λ place. place < length events.now) }
{
    events.iter().position(|e| *e == event)
}
