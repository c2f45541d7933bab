//! The rules that make a list of triples a certificate.

ghost use Rattle.std.specs.Prelude.{◌≡◌, ◌≤◌, ◌<◌, ◌↔◌, All, None, true, IfErr, OnOk, IsBitSet, IsTrue, length};
ghost use Rattle.qc_cert.specs.Faults.{IsTold, fault_of, inv_fault, is_covered, left_out_fault, taken_fault};
ghost use Rattle.qc_cert.specs.Faults.{triple_fault, triples_fault, unequal_fault, unless_covered};
ghost use Rattle.qc_cert.specs.Inductive.{IsInductive};
ghost use Rattle.qc_cert.specs.Views.{inv_of, IsExact};
ghost use Rattle.qc_cert.specs.declared.triple.Triple.{Triple};
ghost use Rattle.qc_list.specs.Search.{first_below};
ghost use Rattle.qc_table.specs.Rules.{events_of};
ghost use Rattle.qc_table.specs.Limits.{most_events, most_responses};
ghost use Rattle.qc_cert.specs.Limits.{most_triples};

use crate::fault::CertFault;
use crate::faultless_walk::is_faultless;
use crate::groups::Grouped;
use crate::indexed_kind::{IndexedKind, inv_of};
use crate::triple::Triple;
use qc_table::{Kind, MOST_EVENTS, tables_are_sound};
use std::alloc::Global;

/// Whether a list of triples is inductive for a type. Some triple has to cover
/// the start; each event that a triple's log takes and its view leaves out has
/// to lead to a triple that is covered; an invocation that depends on nothing
/// left out has to have the same legal responses in both states; and each of
/// its events that both take has to lead to one that is covered.
///
/// The first fault is told: triples in the list's order, in each the events
/// left out by number, then the invocations by number, first the lowest
/// unequal response and then the events taken by number. A list that is
/// accepted shows that the type's relation is exact. The walk takes some 4.3 MB
/// beside the list, and up to 14 MB where the triples stand in many groups.
pub fn check(alloc: Global, kind: &Kind, list: &[Triple]) -> Result<(), CertFault>
    requires few { length list.now ≤ most_triples }
    requires states { All (λ (t : Triple).
        (t.view < kind.now.table.states) × (t.log < kind.now.table.states)) list.now }
    ensures ok { OnOk result (fault_of kind.now list.now ≡ None) }
    ensures err { IfErr result (λ e. IsTold e (fault_of kind.now list.now)) }
    ensures inductive { OnOk result (IsInductive kind.now list.now) }
    ensures exact { OnOk result (IsExact kind.now) }
{
    tables_are_sound(&kind.table);
    let kind = IndexedKind::new(alloc, kind)?;
    let triples = Grouped::new(alloc, list)?;
    match first_fault(&kind, &triples) {
        Some(fault) => Err(fault),
        None => Ok(()),
    }
}

/// The first fault of a list.
fn first_fault(kind: &IndexedKind, triples: &Grouped) -> Option<CertFault>
    requires { length triples.now ≤ most_triples }
    ensures { result ≡ fault_of kind.now triples.now }
{
    let start = kind.plain().table.start();
    let begun = Triple {
        view: start,
        log: start,
        out: 0,
    };
    match unless_covered(triples, CertFault::NoStart, &begun, 0) {
        Some(fault) => Some(fault),
        None => of_triples(kind, triples),
    }
}

/// The fault, where no triple of the list covers this one. One that leaves out
/// just the events `near` is looked at first.
fn unless_covered(
    triples: &Grouped,
    fault: CertFault,
    triple: &Triple,
    near: u64,
) -> Option<CertFault>
    ensures { result ≡ unless_covered triples.now fault triple.now }
{
    if triples.covers(triple, near) {
        None
    } else {
        Some(fault)
    }
}

/// The first fault of the triples. One that is equal to another before it has
/// a fault just where that one has, so it isn't looked at.
fn of_triples(kind: &IndexedKind, triples: &Grouped) -> Option<CertFault>
    requires { length triples.now ≤ most_triples }
    ensures { result ≡ triples_fault kind.now triples.now 0 triples.now }
{
    let firsts = triples.firsts();
    for (place, triple) in triples.list().iter().enumerate() {
        if firsts[place] {
            let fault = of_triple(kind, triples, place as u32, triple);
            if fault.is_some() {
                return fault;
            }
        }
    }
    None
}

/// The first fault of a triple, which has this place in the list. Most have
/// none, which a faster walk tells.
fn of_triple(
    kind: &IndexedKind,
    triples: &Grouped,
    place: u32,
    triple: &Triple,
) -> Option<CertFault>
    requires { is_covered triples.now triple.now ≡ true }
    ensures { result ≡ triple_fault kind.now triples.now place triple.now }
{
    if is_faultless(kind, triples, triple) {
        return None;
    }
    let search = Search {
        kind,
        triples,
        place,
        triple,
        near: triples.near(triple),
    };
    match search.of_left_out() {
        Some(fault) => Some(fault),
        None => search.of_invs(),
    }
}

/// A search for the first fault of a triple.
#[derive(Drop)]
struct Search<'a> {
    kind: &'a IndexedKind<'a>,
    triples: &'a Grouped<'a>,
    /// The triple's place in the list.
    place: u32,
    triple: &'a Triple,
    /// What a triple that covers what this one becomes is likely to leave out.
    near: u64,
}

impl<'a> Search<'a> {
    /// The first fault of the events left out.
    fn of_left_out(&self) -> Option<CertFault>
        ensures { result ≡ first_below (length (events_of self.now.kind.now.table.rows))
            (left_out_fault self.now.kind.now self.now.triples.now self.now.place self.now.triple.now) }
    {
        let events = self.kind.plain().table.events().len();
        for event in 0..events {
            let fault = self.left_out(event as u8);
            if fault.is_some() {
                return fault;
            }
        }
        None
    }

    /// The fault of an event that the log takes and the view leaves out.
    fn left_out(&self, event: u8) -> Option<CertFault>
        requires { event < most_events }
        ensures { result ≡ left_out_fault self.now.kind.now self.now.triples.now self.now.place
            self.now.triple.now event }
    {
        let log = self.kind.plain().table.step(self.triple.log, event)?;
        let fault = CertFault::Uncovered {
            triple: self.place,
            event,
            taken: false,
        };
        let next = Triple {
            view: self.triple.view,
            log,
            out: self.triple.out | 1 << event,
        };
        unless_covered(self.triples, fault, &next, self.near)
    }

    /// The first fault of the invocations.
    fn of_invs(&self) -> Option<CertFault>
        ensures { result ≡ first_below self.now.kind.now.table.invs
            (inv_fault self.now.kind.now self.now.triples.now self.now.place self.now.triple.now) }
    {
        for inv in 0..self.kind.plain().table.invs() {
            let fault = self.of_inv(inv);
            if fault.is_some() {
                return fault;
            }
        }
        None
    }

    /// The first fault of an invocation: none where it depends on something
    /// left out.
    fn of_inv(&self, inv: u8) -> Option<CertFault>
        ensures { result ≡ inv_fault self.now.kind.now self.now.triples.now self.now.place
            self.now.triple.now inv }
    {
        if self.kind.plain().relation.depended(inv) & self.triple.out != 0 {
            return None;
        }
        match of_responses(self.kind, self.place, self.triple, inv) {
            Some(fault) => Some(fault),
            None => self.of_taken(inv),
        }
    }

    /// The first fault of the events of an invocation that both states take.
    fn of_taken(&self, inv: u8) -> Option<CertFault>
        ensures { result ≡ first_below (length (events_of self.now.kind.now.table.rows))
            (taken_fault self.now.kind.now self.now.triples.now self.now.place self.now.triple.now inv) }
    {
        let mut rest = self.kind.events(inv);
        'turns: for _turn in 0..MOST_EVENTS {
            if rest == 0 {
                return None;
            }
            let event = rest.trailing_zeros();
            let fault = self.taken(inv, event as u8);
            if fault.is_some() {
                return fault;
            }
            rest &= !(1 << event);
        }
        None
    }

    /// The fault of an event of an invocation that both states take.
    fn taken(&self, inv: u8, event: u8) -> Option<CertFault>
        ensures { result ≡ taken_fault self.now.kind.now self.now.triples.now self.now.place
            self.now.triple.now inv event }
    {
        if inv_of(self.kind.plain(), event) != inv {
            return None;
        }
        let fault = CertFault::Uncovered {
            triple: self.place,
            event,
            taken: true,
        };
        let next = Triple {
            view: self.kind.plain().table.step(self.triple.view, event)?,
            log: self.kind.plain().table.step(self.triple.log, event)?,
            out: self.triple.out,
        };
        unless_covered(self.triples, fault, &next, self.near)
    }
}

/// The fault of the lowest response that only one of a triple's states
/// allows an invocation.
fn of_responses(kind: &IndexedKind, place: u32, triple: &Triple, inv: u8) -> Option<CertFault>
    ensures { result ≡ first_below kind.now.table.resps (unequal_fault kind.now place triple.now inv) }
{
    tables_are_sound(&kind.plain().table);
    let view = kind.responses(triple.view, inv);
    let log = kind.responses(triple.log, inv);
    if view == log {
        return None;
    }
    for resp in 0..kind.plain().table.resps() {
        if has(view, resp) != has(log, resp) {
            return Some(CertFault::Unequal {
                triple: place,
                inv,
                resp,
            });
        }
    }
    None
}

/// Whether a response is among these.
fn has(responses: u32, resp: u8) -> bool
    requires { resp < most_responses }
    ensures { IsTrue result ↔ IsBitSet responses resp }
{
    responses & 1 << resp != 0
}
