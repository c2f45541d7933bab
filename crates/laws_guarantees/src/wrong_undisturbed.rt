//! Wrong histories, each refused, and one that is taken: the contracts of
//! functions with nothing to do.

ghost use Rattle.laws_guarantees.specs.Succeeds.{CommitsSucceed, DosSucceed};
ghost use Rattle.laws_guarantees.specs.WrongUndisturbed.{aborted, short, two_clients};
ghost use Rattle.laws_guarantees.specs.WrongUndisturbed.{refused, refused_for_ended, refused_for_new, refused_for_own};

/// A `do` isn't refused for a transaction that has ended, for one that was
/// begun in the same phase, for its own, nor for want of weight. It may be for
/// one that another client began in an earlier phase and that hasn't ended.
pub fn wrong_refusals_are_refused()
    ensures ended { DosSucceed two_clients refused_for_ended → ⊥ }
    ensures new { DosSucceed two_clients refused_for_new → ⊥ }
    ensures own { DosSucceed two_clients refused_for_own → ⊥ }
    ensures short { DosSucceed two_clients short → ⊥ }
    ensures taken { DosSucceed two_clients refused }
{}

/// A commit of a transaction that isn't doomed isn't told that it aborted.
#[tactic(auto, using(crate::proofs::WrongOnes::wrong_endings_are_refused))]
pub fn wrong_endings_are_refused()
    ensures { CommitsSucceed two_clients aborted → ⊥ }
{}
