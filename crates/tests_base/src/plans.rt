//! Plans of registers and flags.

ghost use Rattle.std.specs.Prelude.{◌≡◌, ◌≤◌, length, IfOk};

use crate::tables::{flag, register};
use qc_list::{List, OutOfMemory};
use qc_plan::{Needs, Plan, PlanFault, admit, close_weight, final_met, initial_met};
use qc_table::{Kind, Pair, Relation, TableFault};
use std::alloc::Global;
use std::process::Abort;

/// The register, whose invocations are R, W0 and W1 and whose events are R:0,
/// R:1, W0:ok and W1:ok. R depends on what is written.
fn written(alloc: Global) -> Result<Kind, TableFault> {
    let table = register(alloc)?;
    let relation = Relation::new(&[Pair { inv: 0, event: 2 }, Pair { inv: 0, event: 3 }]);
    Ok(Kind { table, relation })
}

/// The flag, whose invocations are TAS and Reset and whose events are TAS:0,
/// TAS:1 and Reset:ok.
fn set(alloc: Global) -> Result<Kind, TableFault> {
    let table = flag(alloc)?;
    let relation = Relation::new(&[Pair { inv: 0, event: 0 }, Pair { inv: 0, event: 2 }]);
    Ok(Kind { table, relation })
}

/// A register of which W0 depends on W1:ok and W1 on R:0.
fn crossed(alloc: Global) -> Result<Kind, TableFault> {
    let table = register(alloc)?;
    let relation = Relation::new(&[Pair { inv: 2, event: 0 }, Pair { inv: 1, event: 3 }]);
    Ok(Kind { table, relation })
}

/// The thresholds of two objects.
type Two<'a> = (&'a [u16], &'a [u16]);

fn needs(alloc: Global, two: Two) -> Result<Needs, OutOfMemory> {
    let mut needs = List::new(alloc);
    needs.push(List::from_slice(alloc, two.0)?)?;
    needs.push(List::from_slice(alloc, two.1)?)?;
    Ok(needs)
}

/// A plan of two objects.
fn plan(alloc: Global, weights: &[u8], initial: Two, last: Two) -> Result<Plan, OutOfMemory>
    ensures { IfOk result (λ p. p.weights ≡ weights.now) }
{
    Ok(Plan {
        weights: List::from_slice(alloc, weights)?,
        initial: needs(alloc, initial)?,
        last: needs(alloc, last)?,
    })
}

/// What `admit` answers of a plan of two objects, or `None` where it may not be
/// called.
fn answer(plan: &Plan, kinds: &[Kind], objects: [u8; 2]) -> Option<Result<(), PlanFault>> {
    if plan.weights.items().len() > 16
        || plan.initial.items().len() > 2
        || plan.last.items().len() > 2
    {
        return None;
    }
    Some(admit(plan, kinds, &objects))
}

/// Weights, thresholds of invocations and of events, and what `admit` answers.
type Row<'a> = (&'a [u8], Two<'a>, Two<'a>, Result<(), PlanFault>);

/// Whether `admit` answers as the row says, with memory.
fn is_answered(alloc: Global, kinds: &[Kind], objects: [u8; 2], row: Row) -> bool {
    let Ok(plan) = plan(alloc, row.0, row.1, row.2) else {
        return false;
    };
    answer(&plan, kinds, objects) == Some(row.3)
}

fn can_miss(object: u8, inv: u8, event: u8) -> Result<(), PlanFault> {
    Err(PlanFault::CanMiss { object, inv, event })
}

fn heavy(object: u8) -> Result<(), PlanFault> {
    Err(PlanFault::TooHeavy { object })
}

/// Thresholds of R, of W0:ok and of W1:ok over these weights, and the answer,
/// for a register and an object of no type.
type Rule<'a> = (&'a [u8], u16, u16, u16, Result<(), PlanFault>);

fn check_rules(rt: &impl Abort, alloc: Global, rules: &[Rule]) {
    let Ok(kind) = written(alloc) else {
        panic!(rt; "no type");
    };
    let kinds = [kind];
    for (weights, read, write_0, write_1, want) in rules {
        let initial: Two = (&[*read, 0, 0], &[]);
        let last: Two = (&[0, 0, *write_0, *write_1], &[]);
        let row = (*weights, initial, last, *want);
        assert!(rt;
            is_answered(alloc, &kinds, [0, 9], row),
            "{read}, {write_0} and {write_1}"
        );
    }
}

#[test]
fn a_majority_reads_what_a_majority_wrote(rt: HostRuntime) {
    let equal: &[u8] = &[1, 1, 1];
    check_rules(
        &rt,
        rt.alloc(),
        &[
            (equal, 2, 2, 2, Ok(())),
            (equal, 1, 2, 2, can_miss(0, 0, 2)),
            (equal, 1, 3, 3, Ok(())),
            (equal, 3, 1, 1, Ok(())),
            (equal, 2, 1, 2, can_miss(0, 0, 2)),
            (equal, 2, 2, 1, can_miss(0, 0, 3)),
            (equal, 2, 1, 1, can_miss(0, 0, 2)),
            (equal, 0, 3, 3, can_miss(0, 0, 2)),
        ],
    );
}

#[test]
fn weights_and_thresholds_are_compared_at_the_edge(rt: HostRuntime) {
    let no_weight = Err(PlanFault::NoWeight);
    let misses = can_miss(0, 0, 2);
    let equal: &[u8] = &[1, 1, 1];
    let mixed: &[u8] = &[0, 255, 0, 1];
    let most: &[u8] = &[255; 16];
    check_rules(
        &rt,
        rt.alloc(),
        &[
            (&[], 0, 0, 0, no_weight),
            (&[0, 0, 0], 9, 9, 9, no_weight),
            (equal, 4, 3, 3, heavy(0)),
            (equal, 3, 4, 4, heavy(0)),
            (equal, 3, 3, 3, Ok(())),
            (mixed, 256, 1, 1, Ok(())),
            (mixed, 255, 1, 1, misses),
            (mixed, 255, 2, 2, Ok(())),
            (mixed, 257, 1, 1, heavy(0)),
            (mixed, 1, 65_535, 65_535, heavy(0)),
            (most, 4_080, 4_080, 4_080, Ok(())),
            (most, 4_081, 4_080, 4_080, heavy(0)),
            (most, 2_040, 2_040, 2_040, misses),
            (most, 2_041, 2_040, 2_040, Ok(())),
            (most, 65_535, 65_535, 65_535, heavy(0)),
        ],
    );
}

/// Thresholds of an object's invocations and of its events.
type Object = ([u16; 3], [u16; 4]);

/// What is answered of objects of the two registers, over three sites of
/// weight 1.
fn check_objects(rt: &impl Abort, alloc: Global, rows: &[(Object, Object, Result<(), PlanFault>)]) {
    let (Ok(first), Ok(second)) = (written(alloc), crossed(alloc)) else {
        panic!(rt; "no types");
    };
    let kinds = [first, second];
    for (place, (first, second, want)) in rows.iter().enumerate() {
        let initial: Two = (&first.0, &second.0);
        let last: Two = (&first.1, &second.1);
        let row: Row = (&[1, 1, 1], initial, last, *want);
        assert!(rt; is_answered(alloc, &kinds, [0, 1], row), "at {place}");
    }
}

#[test]
fn the_first_fault_is_told(rt: HostRuntime) {
    let met = ([2, 2, 2], [2, 2, 2, 2]);
    let light = ([1, 1, 1], [1, 1, 1, 1]);
    let half = ([2, 2, 1], [2, 2, 2, 2]);
    let heavy_last = ([2, 2, 2], [2, 2, 4, 2]);
    let heavy_unread = ([2, 2, 2], [2, 4, 2, 2]);
    let heavy_initial = ([2, 2, 4], [2, 2, 2, 2]);
    check_objects(
        &rt,
        rt.alloc(),
        &[
            (met, met, Ok(())),
            (light, light, can_miss(0, 0, 2)),
            (met, light, can_miss(1, 1, 3)),
            (met, half, can_miss(1, 2, 0)),
            (half, light, can_miss(1, 1, 3)),
            (light, heavy_last, heavy(1)),
            (light, heavy_unread, heavy(1)),
            (light, heavy_initial, heavy(1)),
            (heavy_last, heavy_initial, heavy(0)),
        ],
    );
}

/// Thresholds that aren't listed are 0: of a register and an object of no type,
/// and of such an object and a flag.
#[test]
fn missing_thresholds_can_miss(rt: HostRuntime) {
    let (initial, last): (Two, Two) = ((&[3], &[]), (&[0, 0, 3], &[]));
    let row: Row = (&[1, 1, 1], initial, last, can_miss(0, 0, 3));
    assert!(rt; is_answered_of(rt.alloc(), written(rt.alloc()), [0, 9], row));
    let row: Row = (&[1, 1, 1], initial, last, can_miss(1, 0, 0));
    assert!(rt; is_answered_of(rt.alloc(), set(rt.alloc()), [9, 0], row));
}

/// The same of one type, if it was made.
fn is_answered_of(
    alloc: Global,
    kind: Result<Kind, TableFault>,
    objects: [u8; 2],
    row: Row,
) -> bool {
    match kind {
        Ok(kind) => is_answered(alloc, &[kind], objects, row),
        Err(_) => false,
    }
}

/// A set of sites meets thresholds of 4, none and 259, and of none, 255 and 3,
/// over the weights 3, 0, 255 and 1.
fn check_quorums(rt: &impl Abort, plan: &Plan)
    requires { length plan.now.weights ≤ 16 }
{
    for (inv, sites, met) in [
        (0, 0b1001, true),
        (0, 0b0001, false),
        (0, 0b0011, false),
        (0, 0b0100, true),
        (0, 0xfff0, false),
        (1, 0, true),
        (2, 0b1101, true),
        (2, 0b1100, false),
        (2, 0b0101, false),
        (2, 0xffff, true),
        (3, 0, true),
    ] {
        assert!(rt; initial_met(plan, 0, inv, sites) == met, "{inv} by {sites}");
    }
    for (event, sites, met) in [
        (0, 0, true),
        (1, 0b0100, true),
        (1, 0b1011, false),
        (2, 0b0001, true),
        (2, 0b1010, false),
        (3, 0, true),
    ] {
        assert!(rt;
            final_met(plan, 0, event, sites) == met,
            "{event} by {sites}"
        );
    }
    assert!(rt; initial_met(plan, 1, 0, 0) && final_met(plan, 2, 1, 0));
}

#[test]
fn quorums_are_met_at_the_edge(rt: HostRuntime) {
    let (initial, last): (Two, Two) = ((&[4, 0, 259], &[]), (&[0, 255, 3], &[]));
    let Ok(plan) = plan(rt.alloc(), &[3, 0, 255, 1], initial, last) else {
        panic!(&rt; "no plan");
    };
    check_quorums(&rt, &plan);
}

/// The close weight of a plan, or `None` where it may not be asked or memory is
/// wanted.
fn closing(alloc: Global, weights: &[u8], initial: Two, last: Two) -> Option<u16> {
    let plan = plan(alloc, weights, initial, last).ok()?;
    if plan.weights.items().len() > 16 {
        return None;
    }
    Some(close_weight(&plan))
}

#[test]
fn the_lightest_quorum_gives_the_close_weight(rt: HostRuntime) {
    let equal: &[u8] = &[1, 1, 1];
    let most: &[u8] = &[255; 16];
    for (weights, initial, last, want) in [
        (equal, [2, 0, 0], [0, 0, 2, 2], 2),
        (equal, [0, 0, 0], [0, 0, 0, 0], 0),
        (equal, [3, 0, 0], [0, 0, 1, 2], 3),
        (equal, [3, 3, 1], [0, 0, 3, 2], 3),
        (equal, [3, 3, 3], [0, 0, 3, 3], 1),
        (equal, [9, 0, 0], [0, 0, 0, 0], 0),
        (&[0, 255, 0, 1], [255, 0, 0], [0, 2, 0, 0], 255),
        (most, [4_080, 0, 0], [0, 0, 0, 1], 4_080),
        (most, [4_080, 0, 0], [0, 0, 0, 0], 1),
        (&[], [0, 0, 0], [1, 0, 0, 0], 0),
    ] {
        let (initial, last): (Two, Two) = ((&initial, &[]), (&last, &[]));
        let weight = closing(rt.alloc(), weights, initial, last);
        assert!(rt; weight == Some(want), "want {want}");
    }
    let (initial, last): (Two, Two) = ((&[5], &[0, 4]), (&[5], &[5, 3]));
    assert_eq!(rt; closing(rt.alloc(), &[2, 3], initial, last), Some(3));
}
