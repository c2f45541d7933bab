//! A walk that tells of a triple that it has no fault, in the order in which
//! most is known. Of one that has a fault `rules` tells the first.

ghost use Rattle.std.specs.Prelude.{◌≡◌, ℕ, ◌<◌, true, None, length};
ghost use Rattle.qc_cert.specs.Faults.{inv_fault, is_covered, left_out_fault, taken_fault, triple_fault, unequal_fault};
ghost use Rattle.qc_list.specs.Search.{first_below};
ghost use Rattle.qc_table.specs.Limits.{most_events};
ghost use Rattle.qc_table.specs.Rules.{events_of};

use crate::covered::Covered;
use crate::groups::Grouped;
use crate::indexed_kind::IndexedKind;
use crate::triple::Triple;
use qc_table::MOST_EVENTS;

/// Whether a triple of the list has no fault: at place 0, and so at each. What
/// is found of events that both states take often tells of those left out too.
pub(crate) fn is_faultless(kind: &IndexedKind, triples: &Grouped, triple: &Triple) -> bool
    requires { is_covered triples.now triple.now ≡ true }
    ensures { result ≡ true → triple_fault kind.now triples.now 0 triple.now ≡ None }
{
    let mut covered = Covered::new(triples, triple);
    are_invs_even(kind, &mut covered, triple) && are_left_out_covered(kind, &mut covered, triple)
}

/// Whether no invocation has a fault.
fn are_invs_even(kind: &IndexedKind, covered: &mut Covered, triple: &Triple) -> bool
    requires { covered.old.out ≡ triple.now.out }
    ensures same { covered.new ≡ covered.old }
    ensures none { result ≡ true
        → first_below kind.now.table.invs (inv_fault kind.now covered.old.list 0 triple.now) ≡ None }
{
    for inv in 0..kind.plain().table.invs() {
        if !is_inv_even(kind, covered, triple, inv) {
            return false;
        }
    }
    true
}

/// Whether an invocation has no fault: it depends on something left out, or its
/// responses are equal, and what its events lead to is covered.
fn is_inv_even(kind: &IndexedKind, covered: &mut Covered, triple: &Triple, inv: u8) -> bool
    requires { covered.old.out ≡ triple.now.out }
    ensures same { covered.new ≡ covered.old }
    ensures none { result ≡ true → inv_fault kind.now covered.old.list 0 triple.now inv ≡ None }
{
    if kind.plain().relation.depended(inv) & triple.out != 0 {
        return true;
    }
    are_responses_equal(kind, triple, inv) && are_taken_covered(kind, covered, triple, inv)
}

/// Whether the states of a triple allow an invocation the same responses.
fn are_responses_equal(kind: &IndexedKind, triple: &Triple, inv: u8) -> bool
    ensures { result ≡ true
        → first_below kind.now.table.resps (unequal_fault kind.now 0 triple.now inv) ≡ None }
{
    kind.responses(triple.view, inv) == kind.responses(triple.log, inv)
}

/// Whether what both states come to is covered, for each event of an invocation.
fn are_taken_covered(kind: &IndexedKind, covered: &mut Covered, triple: &Triple, inv: u8) -> bool
    requires { covered.old.out ≡ triple.now.out }
    ensures same { covered.new ≡ covered.old }
    ensures none { result ≡ true → first_below (length (events_of kind.now.table.rows))
        (taken_fault kind.now covered.old.list 0 triple.now inv) ≡ None }
{
    let mut rest = kind.events(inv);
    'turns: for _turn in 0..MOST_EVENTS {
        if rest == 0 {
            return true;
        }
        let event = rest.trailing_zeros();
        if !is_taken_covered(kind, covered, triple, event as u8) {
            return false;
        }
        rest &= !(1 << event);
    }
    true
}

/// Whether what both states come to by an event is covered.
fn is_taken_covered(kind: &IndexedKind, covered: &mut Covered, triple: &Triple, event: u8) -> bool
    requires { covered.old.out ≡ triple.now.out }
    ensures same { covered.new ≡ covered.old }
    ensures none { result ≡ true
        → (inv : ℕ) → taken_fault kind.now covered.old.list 0 triple.now inv event ≡ None }
{
    let table = &kind.plain().table;
    match (
        table.step(triple.view, event),
        table.step(triple.log, event),
    ) {
        (Some(view), Some(log)) => covered.tells(view, log),
        _ => true,
    }
}

/// Whether each event left out leads to what is covered.
fn are_left_out_covered(kind: &IndexedKind, covered: &mut Covered, triple: &Triple) -> bool
    requires { covered.old.out ≡ triple.now.out }
    ensures { result ≡ true → first_below (length (events_of kind.now.table.rows))
        (left_out_fault kind.now covered.old.list 0 triple.now) ≡ None }
{
    let events = kind.plain().table.events().len();
    for event in 0..events {
        if !is_left_out_covered(kind, covered, triple, event as u8) {
            return false;
        }
    }
    true
}

/// Whether an event left out leads to what is covered.
fn is_left_out_covered(
    kind: &IndexedKind,
    covered: &mut Covered,
    triple: &Triple,
    event: u8,
) -> bool
    requires event { event < most_events }
    requires out { covered.old.out ≡ triple.now.out }
    ensures same { covered.new ≡ covered.old }
    ensures none { result ≡ true → left_out_fault kind.now covered.old.list 0 triple.now event ≡ None }
{
    match kind.plain().table.step(triple.log, event) {
        Some(log) => covered.tells_with(triple.view, log, event),
        None => true,
    }
}
