//! Rules, and messages that they are for or not.

use qc_link::{Cuts, Fate, LinkPlan, Rule, fate};
use qc_list::OutOfMemory;
use std::alloc::Global;
use std::process::Abort;
use std::test::Fail;

/// Sender, receiver, ordinal, and what becomes of such messages.
type Named = (Option<u8>, Option<u8>, Option<u32>, Rule);

const RULES: [Named; 5] = [
    (Some(0), Some(2), Some(3), Rule::Twice),
    (Some(0), None, Some(3), Rule::Late),
    (Some(0), Some(2), Some(3), Rule::Drop),
    (None, Some(1), None, Rule::Again),
    (Some(4), None, None, Rule::Drop),
];

/// The plan of these rules, in their order.
fn plan(alloc: Global, rules: &[Named]) -> Result<LinkPlan, OutOfMemory> {
    let mut plan = LinkPlan::new(alloc);
    for (from, to, ordinal, rule) in rules {
        plan.add(*from, *to, *ordinal, *rule)?;
    }
    Ok(plan)
}

/// Sender, receiver, ordinal, and what becomes of the message.
type Sent = (u8, u8, u32, Fate);

fn is_fate(plan: &LinkPlan, cuts: &Cuts, sent: Sent) -> bool {
    let (from, to, ordinal, want) = sent;
    from < 34 && to < 34 && fate(plan, cuts, from, to, ordinal) == want
}

fn check_fates(rt: &impl Abort, plan: &LinkPlan, cuts: &Cuts, rows: &[Sent]) {
    for (place, sent) in rows.iter().enumerate() {
        assert!(rt; is_fate(plan, cuts, *sent), "at {place}");
    }
}

#[test]
fn the_first_rule_decides(rt: HostRuntime) -> Result<(), Fail> {
    let plan = plan(rt.alloc(), &RULES)?;
    check_fates(
        &rt,
        &plan,
        &Cuts::new(),
        &[
            (0, 2, 3, Fate::Twice),
            (0, 3, 3, Fate::Late),
            (0, 2, 4, Fate::Pass),
            (0, 1, 3, Fate::Late),
            (0, 1, 2, Fate::Again),
            (4, 1, 1, Fate::Again),
            (4, 2, 9, Fate::Drop),
            (5, 2, 3, Fate::Pass),
        ],
    );
    Ok(())
}

/// Cuts of the actors 3 and 33, twice, and of the actor 3 from itself.
fn cuts() -> Cuts {
    let mut cuts = Cuts::new();
    cuts.cut(3, 33);
    cuts.cut(33, 3);
    cuts.cut(3, 3);
    cuts
}

#[test]
fn cuts_drop_and_one_heal_joins(rt: HostRuntime) -> Result<(), Fail> {
    let plan = plan(rt.alloc(), &[(None, None, None, Rule::Twice)])?;
    let mut cuts = cuts();
    check_fates(
        &rt,
        &plan,
        &cuts,
        &[
            (3, 33, 1, Fate::Drop),
            (33, 3, 1, Fate::Drop),
            (3, 3, 1, Fate::Drop),
            (3, 32, 1, Fate::Twice),
        ],
    );
    cuts.heal(33, 3);
    check_fates(
        &rt,
        &plan,
        &cuts,
        &[(3, 33, 1, Fate::Twice), (3, 3, 1, Fate::Drop)],
    );
    Ok(())
}
