//! A type with what each triple asks of it, told once for all triples.

ghost use Rattle.std.specs.Prelude.{◌≡◌, ◌+◌, ◌*◌, ◌<◌, IfOk, OnOk, length};
ghost use Rattle.qc_cert.specs.IndexedKind.{AreAllowed, AreEvents, AreLegal, AreOwn};
ghost use Rattle.qc_cert.specs.Views.{inv_of};
ghost use Rattle.qc_table.specs.Limits.{most_events, most_invocations};
ghost use Rattle.qc_table.specs.Sets.{with_member};

use qc_list::OutOfMemory;
use qc_table::{Kind, MOST_INVOCATIONS};
use std::alloc::Global;
use std::marker::Model;

/// A type with the events of each invocation, and the responses of each state,
/// so that a triple doesn't look for them among all events.
#[derive(Drop)]
pub(crate) struct IndexedKind<'a> {
    kind: &'a Kind,
    /// For each invocation its events, bit k for event k.
    own: Vec<u64>,
    /// For each state and each invocation the legal responses, bit k for
    /// response k.
    legal: Vec<u32>,
}

impl<'a> Model for IndexedKind<'a> {
    ghost use Rattle.qc_cert.specs.IndexedKind.{IsIndexedKind};
    ghost use Rattle.qc_table.specs.declared.kind.Kind.{Kind};

    ghost Value = { Kind };

    ghost view = { λ p. p.kind.now };

    ghost invariant = { λ p. IsIndexedKind p.kind.now p.own.items p.legal.items };
}

impl<'a> IndexedKind<'a> {
    /// This type.
    pub(crate) fn new(alloc: Global, kind: &'a Kind) -> Result<IndexedKind<'a>, OutOfMemory>
        ensures { IfOk result (λ p. p ≡ kind.now) }
    {
        let own = own_events(alloc, kind)?;
        let legal = legal_responses(alloc, kind)?;
        Ok(IndexedKind { kind, own, legal })
    }

    /// The type alone.
    pub(crate) fn plain(&self) -> &Kind
        ensures { result.now ≡ self.now }
    {
        self.kind
    }

    /// The events of an invocation, bit k for event k.
    pub(crate) fn events(&self, inv: u8) -> u64
        ensures { AreEvents self.now inv result }
    {
        let inv_place = inv as usize;
        if inv_place < self.own.len() {
            self.own[inv_place]
        } else {
            events(self.kind, inv)
        }
    }

    /// The legal responses of an invocation in a state, bit k for response k.
    pub(crate) fn responses(&self, state: u8, inv: u8) -> u32
        ensures { AreAllowed self.now state inv result }
    {
        let place = state as usize * MOST_INVOCATIONS + inv as usize;
        if (inv as usize) < MOST_INVOCATIONS && place < self.legal.len() {
            self.legal[place]
        } else {
            self.kind.table.responses(state, inv)
        }
    }
}

/// The events of each invocation.
fn own_events(alloc: Global, kind: &Kind) -> Result<Vec<u64>, OutOfMemory>
    ensures { IfOk result (λ v. AreOwn kind.now v.items) }
{
    let mut own = Vec::new(alloc);
    'invs: for inv in 0..kind.table.invs() {
        let set = events(kind, inv);
        own.push(set)?;
    }
    Ok(own)
}

/// The events of an invocation, bit k for event k.
fn events(kind: &Kind, inv: u8) -> u64
    ensures { AreEvents kind.now inv result }
{
    let events = kind.table.events().len();
    let mut set = 0;
    for event in 0..events {
        if inv_of(kind, event as u8) == inv {
            set = with_event(set, event as u8);
        }
    }
    set
}

/// The events with one more.
fn with_event(events: u64, event: u8) -> u64
    requires { event < most_events }
    ensures { result ≡ with_member events event }
{
    events | 1 << event
}

/// The invocation of an event, and 0 where the type has no such event.
pub(crate) fn inv_of(kind: &Kind, event: u8) -> u8
    ensures { result ≡ inv_of kind.now event }
{
    kind.table
        .events()
        .get(event as usize)
        .map_or(0, |event| event.inv)
}

/// The legal responses of each state and each invocation.
fn legal_responses(alloc: Global, kind: &Kind) -> Result<Vec<u32>, OutOfMemory>
    ensures { IfOk result (λ v. AreLegal kind.now v.items) }
{
    let mut legal = Vec::new(alloc);
    'states: for state in 0..kind.table.states() {
        add_state(&mut legal, kind, state)?;
    }
    Ok(legal)
}

/// Adds the legal responses of each invocation in a state.
fn add_state(legal: &mut Vec<u32>, kind: &Kind, state: u8) -> Result<(), OutOfMemory>
    requires all { length legal.old.items ≡ state * most_invocations }
    requires legal { AreLegal kind.now legal.old.items }
    ensures all { OnOk result (length legal.new.items ≡ (state + 1) * most_invocations) }
    ensures legal { OnOk result (AreLegal kind.now legal.new.items) }
{
    'invs: for inv in 0..MOST_INVOCATIONS {
        let responses = kind.table.responses(state, inv as u8);
        legal.push(responses)?;
    }
    Ok(())
}
