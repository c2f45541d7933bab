//! Messages and records of epochs, and what the definitions take and refuse of
//! them: the contracts of functions with nothing to do.

ghost use Rattle.std.specs.Prelude.{[], ◌∷◌};
ghost use Rattle.laws_guarantees.specs.WrongOrder.{name};
ghost use Rattle.laws_refinement.specs.Rules.{AreInTurn};
ghost use Rattle.laws_votes.specs.Epochs.{AsksIn};
ghost use Rattle.laws_votes.specs.WrongEpochs.{asked, decides};

/// A transaction asks in the epoch that its request names, and in no other; one
/// that only tells sites its end asks in none.
pub fn other_epochs_are_refused()
    ensures named { AsksIn asked (name 0) 2 }
    ensures earlier { AsksIn asked (name 0) 1 → ⊥ }
    ensures none { AsksIn asked (name 1) 2 → ⊥ }
{}

/// No epoch is decided before the one before it, and none twice.
pub fn decisions_out_of_turn_are_refused()
    ensures taken { AreInTurn 1 (decides 2 ∷ decides 3 ∷ []) }
    ensures skipped { AreInTurn 1 (decides 3 ∷ []) → ⊥ }
    ensures twice { AreInTurn 1 (decides 2 ∷ decides 2 ∷ []) → ⊥ }
{}
