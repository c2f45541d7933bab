//! Every guard is needed.

ghost use Rattle.std.specs.Prelude.{◌≡◌, ◌↔◌, List, false};
ghost use Rattle.qc_decl.specs.declared.declaration.Declaration.{Declaration};
ghost use Rattle.qc_decl.specs.Accepted.{IsAccepted};
ghost use Rattle.theory_machine.specs.Acts.{Act};
ghost use Rattle.theory_machine.specs.Asked.{Guard};
ghost use Rattle.theory_machine.specs.Guards.{IsRun};
ghost use Rattle.theory_witnesses.specs.Guarantees.{Guarantee, Holds};
ghost use Rattle.theory_witnesses.specs.Needed.{IsNeeded, every_guard_but};

/// A machine without a guard asks all others.
#[tactic(auto, using(crate::proofs::EveryGuard::one_guard_is_left_out))]
pub fn one_guard_is_left_out()
    ensures { (one guard : Guard) → (every_guard_but one guard ≡ false) ↔ (guard ≡ one) }
{}

/// Every run of the protocol keeps each guarantee.
#[tactic(auto, using(crate::proofs::Kept::runs_keep_the_guarantees))]
pub fn runs_keep_the_guarantees()
    ensures { (guarantee : Guarantee) (decl : Declaration) (acts : List Act) → IsAccepted decl → IsRun decl acts
        → Holds guarantee decl acts }
{}

/// Without a guard, any of them, some run breaks a guarantee.
#[tactic(auto, using(crate::proofs::EveryGuard::every_guard_is_needed))]
pub fn every_guard_is_needed()
    ensures { (guard : Guard) → (guarantee : Guarantee) × IsNeeded guard guarantee }
{}
