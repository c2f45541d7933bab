//! Which plans are admitted.

ghost use Rattle.std.specs.Prelude.{◌≡◌, ◌≤◌, [], length, nat_lt, get_or, slice_get, option_and_then, OnOk};
ghost use Rattle.std.specs.List.{list_any};
ghost use Rattle.qc_plan.specs.Admitted.{IsAdmitted};
ghost use Rattle.qc_plan.specs.Faults.{answer_of, fault_of, heavy_fault, is_heavy, object_fault, kind_fault};
ghost use Rattle.qc_plan.specs.Faults.{pair_fault, can_miss};
ghost use Rattle.qc_plan.specs.Weights.{total};
ghost use Rattle.qc_list.specs.Search.{first_below};
ghost use Rattle.qc_table.specs.Rules.{events_of};
ghost use Rattle.qc_plan.specs.Limits.{most_numbers, most_sites};

use crate::fault::PlanFault;
use crate::plan::{Needs, Plan};
use crate::quorum::total;
use qc_table::Kind;

/// Whether a plan is admitted for these types and the objects' types, given
/// by their numbers. Sites and objects keep to their limits, and the plan lists
/// thresholds for no more objects than there are; a threshold that it doesn't
/// list is 0. The first fault is told: no weight; then the first
/// object with a threshold above the weight of all sites; then the first
/// object, invocation and event whose quorums can miss each other.
pub fn admit(plan: &Plan, kinds: &[Kind], objects: &[u8]) -> Result<(), PlanFault>
    requires sites { length plan.now.weights ≤ most_sites }
    requires objects { length objects.now ≤ most_numbers }
    requires initial { length plan.now.initial ≤ length objects.now }
    requires last { length plan.now.last ≤ length objects.now }
    ensures told { result ≡ answer_of (fault_of plan.now kinds.now objects.now) }
    ensures admitted { OnOk result (IsAdmitted plan.now kinds.now objects.now) }
{
    match first_fault(plan, kinds, objects) {
        Some(fault) => Err(fault),
        None => Ok(()),
    }
}

/// What is wrong with the plan.
fn first_fault(plan: &Plan, kinds: &[Kind], objects: &[u8]) -> Option<PlanFault>
    requires sites { length plan.now.weights ≤ most_sites }
    requires objects { length objects.now ≤ most_numbers }
    ensures { result ≡ fault_of plan.now kinds.now objects.now }
{
    let all = total(plan.weights.items());
    if all == 0 {
        return Some(PlanFault::NoWeight);
    }
    first_heavy(plan, all, objects.len()).or_else(|| first_miss(plan, all, kinds, objects))
}

/// The first object with a threshold above the weight of all sites.
fn first_heavy(plan: &Plan, all: u16, objects: usize) -> Option<PlanFault>
    requires all { all ≡ total plan.now.weights }
    requires objects { objects ≤ most_numbers }
    ensures { result ≡ first_below objects (heavy_fault plan.now) }
{
    for object in 0..objects {
        if is_heavy(plan, all, object) {
            return Some(PlanFault::TooHeavy {
                object: object as u8,
            });
        }
    }
    None
}

/// Whether an object has a threshold above the weight of all sites.
fn is_heavy(plan: &Plan, all: u16, object: usize) -> bool
    requires { all ≡ total plan.now.weights }
    ensures { result ≡ is_heavy plan.now object }
{
    any_above(&plan.initial, all, object) || any_above(&plan.last, all, object)
}

/// Whether one of an object's thresholds is above this weight.
fn any_above(needs: &Needs, all: u16, object: usize) -> bool
    ensures { result ≡ list_any (nat_lt all) (get_or needs.now object []) }
{
    match needs.items().get(object) {
        Some(list) => list.items().iter().any(|need| all < *need),
        None => false,
    }
}

/// The first object, invocation and event that can miss each other.
fn first_miss(plan: &Plan, all: u16, kinds: &[Kind], objects: &[u8]) -> Option<PlanFault>
    requires all { all ≡ total plan.now.weights }
    requires objects { length objects.now ≤ most_numbers }
    ensures { result ≡ first_below (length objects.now) (object_fault plan.now kinds.now objects.now) }
{
    for (object, number) in objects.iter().enumerate() {
        if let Some(fault) = object_miss(plan, all, kinds, object as u8, *number) {
            return Some(fault);
        }
    }
    None
}

/// The first invocation and event of an object of the type of this number
/// that can miss each other.
fn object_miss(plan: &Plan, all: u16, kinds: &[Kind], object: u8, number: u8) -> Option<PlanFault>
    requires { all ≡ total plan.now.weights }
    ensures { result ≡ option_and_then (kind_fault plan.now object) (slice_get kinds.now number) }
{
    let kind = kinds.get(number as usize)?;
    kind_miss(plan, all, object, kind)
}

/// The first invocation and event of a type that can miss each other.
fn kind_miss(plan: &Plan, all: u16, object: u8, kind: &Kind) -> Option<PlanFault>
    requires { all ≡ total plan.now.weights }
    ensures { result ≡ kind_fault plan.now object kind.now }
{
    for inv in 0..kind.table.invs() {
        if let Some(fault) = inv_miss(plan, all, object, kind, inv) {
            return Some(fault);
        }
    }
    None
}

/// The first event of an object that this invocation can miss.
fn inv_miss(plan: &Plan, all: u16, object: u8, kind: &Kind, inv: u8) -> Option<PlanFault>
    requires { all ≡ total plan.now.weights }
    ensures { result ≡ first_below (length (events_of kind.now.table.rows)) (pair_fault plan.now kind.now object inv) }
{
    for event in 0..kind.table.events().len() as u8 {
        if kind.relation.depends(inv, event) && can_miss(plan, all, object, inv, event) {
            return Some(PlanFault::CanMiss { object, inv, event });
        }
    }
    None
}

/// Whether an initial quorum of the invocation and a final quorum of the event
/// can miss each other.
fn can_miss(plan: &Plan, all: u16, object: u8, inv: u8, event: u8) -> bool
    requires { all ≡ total plan.now.weights }
    ensures { result ≡ can_miss plan.now object inv event }
{
    let initial = plan.read_need(object, inv) as u32;
    let last = plan.append_need(object, event) as u32;
    initial + last <= all as u32
}
