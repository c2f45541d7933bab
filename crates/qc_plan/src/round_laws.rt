//! Laws of rounds, each the contract of a function with nothing to do.

ghost use Rattle.std.specs.Prelude.{◌≡◌, ℕ, ◌<◌, ◌≤◌, IsTrue, Some, List, length, slice_get};
ghost use Rattle.qc_plan.specs.Admitted.{IsAdmitted};
ghost use Rattle.qc_plan.specs.Need.{need_of};
ghost use Rattle.qc_plan.specs.Round.{RoundState, has_granted, verdict, wanted, asking_in_turn, asking_all};
ghost use Rattle.qc_plan.specs.Weights.{IsShared};
ghost use Rattle.qc_plan.specs.declared.plan.Plan.{Plan};
ghost use Rattle.qc_plan.specs.declared.standing.Verdict.TheVariants.{Met};
ghost use Rattle.qc_table.specs.Depends.{depends};
ghost use Rattle.qc_table.specs.Rules.{events_of};
ghost use Rattle.qc_table.specs.declared.kind.Kind.{Kind};

/// Where an invocation depends on an event, a met read round for the one and a
/// met append round for the other have a site in common that granted both
/// (Herlihy 1986).
pub fn met_rounds_share_a_site()
    ensures { (plan : Plan) (kinds : List Kind) (objects : List ℕ) (object number : ℕ) (kind : Kind)
        (inv event : ℕ) (reads appends : RoundState)
        → IsAdmitted plan kinds objects → slice_get objects object ≡ Some number → slice_get kinds number ≡ Some kind
        → inv < kind.table.invs → event < length (events_of kind.table.rows) → IsTrue (depends kind.relation inv event)
        → reads.weights ≡ plan.weights → reads.need ≡ need_of plan.initial object inv → verdict reads ≡ Met
        → appends.weights ≡ plan.weights → appends.need ≡ need_of plan.last object event → verdict appends ≡ Met
        → IsShared plan.weights (has_granted reads.asked) (has_granted appends.asked) }
{}

/// To ask until no site is to be asked gives just the sites that are wanted,
/// and the round in which they are asked.
pub fn sites_are_asked_one_by_one()
    ensures { (turns : ℕ) (r : RoundState) → length r.rest ≤ turns
        → asking_in_turn turns r ≡ (wanted r, asking_all r (wanted r)) }
{}
