//! Laws of admitted plans, for every plan and every set of sites.

ghost use Rattle.std.specs.Prelude.{◌≡◌, ℕ, ◌<◌, ◌≤◌, ◌↔◌, Bool, false, None, Some, List, length, slice_get, IsTrue};
ghost use Rattle.qc_plan.specs.Admitted.{Closes, IsAdmitted};
ghost use Rattle.qc_plan.specs.Faults.{fault_of};
ghost use Rattle.qc_plan.specs.Need.{need_of};
ghost use Rattle.qc_plan.specs.Weights.{IsShared, weight};
ghost use Rattle.qc_plan.specs.declared.plan.Plan.{Plan};
ghost use Rattle.qc_table.specs.Depends.{depends};
ghost use Rattle.qc_table.specs.Rules.{events_of};
ghost use Rattle.qc_table.specs.declared.kind.Kind.{Kind};

/// A plan that lists thresholds for no more objects than there are has no
/// fault exactly where it is admitted.
pub fn faultless_plans_are_admitted()
    ensures { (plan : Plan) (kinds : List Kind) (objects : List ℕ)
        → length plan.initial ≤ length objects → length plan.last ≤ length objects
        → (fault_of plan kinds objects ≡ None) ↔ IsAdmitted plan kinds objects }
{}

/// Where an invocation depends on an event, each initial quorum of the one
/// shares a site with each final quorum of the other (Herlihy 1986).
pub fn dependent_quorums_meet()
    ensures { (plan : Plan) (kinds : List Kind) (objects : List ℕ) (object number : ℕ) (kind : Kind) (inv event : ℕ)
        (a b : ℕ → Bool)
        → IsAdmitted plan kinds objects → slice_get objects object ≡ Some number → slice_get kinds number ≡ Some kind
        → inv < kind.table.invs → event < length (events_of kind.table.rows) → IsTrue (depends kind.relation inv event)
        → need_of plan.initial object inv ≤ weight a plan.weights
        → need_of plan.last object event ≤ weight b plan.weights
        → IsShared plan.weights a b }
{}

/// Sites of the close weight share a site with every quorum of the plan whose
/// threshold is above 0.
pub fn closing_sites_meet_every_quorum()
    ensures initial { (plan : Plan) (closing : ℕ) (a b : ℕ → Bool) (object inv : ℕ)
        → Closes plan closing → closing ≤ weight a plan.weights
        → 0 < need_of plan.initial object inv → need_of plan.initial object inv ≤ weight b plan.weights
        → IsShared plan.weights a b }
    ensures last { (plan : Plan) (closing : ℕ) (a b : ℕ → Bool) (object event : ℕ)
        → Closes plan closing → closing ≤ weight a plan.weights
        → 0 < need_of plan.last object event → need_of plan.last object event ≤ weight b plan.weights
        → IsShared plan.weights a b }
{}

/// An invocation whose initial threshold is 0 depends on no event.
pub fn unread_invocations_are_independent()
    ensures { (plan : Plan) (kinds : List Kind) (objects : List ℕ) (object number : ℕ) (kind : Kind) (inv event : ℕ)
        → IsAdmitted plan kinds objects → slice_get objects object ≡ Some number → slice_get kinds number ≡ Some kind
        → inv < kind.table.invs → event < length (events_of kind.table.rows)
        → need_of plan.initial object inv ≡ 0 → depends kind.relation inv event ≡ false }
{}

/// On an event whose final threshold is 0 no invocation depends.
pub fn unwritten_events_are_ignored()
    ensures { (plan : Plan) (kinds : List Kind) (objects : List ℕ) (object number : ℕ) (kind : Kind) (inv event : ℕ)
        → IsAdmitted plan kinds objects → slice_get objects object ≡ Some number → slice_get kinds number ≡ Some kind
        → inv < kind.table.invs → event < length (events_of kind.table.rows)
        → need_of plan.last object event ≡ 0 → depends kind.relation inv event ≡ false }
{}
