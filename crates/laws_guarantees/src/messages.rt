//! Laws of what is sent, each the contract of a function with nothing to do.

ghost use Rattle.std.specs.Prelude.{ℕ, Bool, List};
ghost use Rattle.qc_core.specs.Conduct.{IsLawful};
ghost use Rattle.qc_decl.specs.declared.declaration.Declaration.{Declaration};
ghost use Rattle.qc_msg.specs.Deeds.{mail};
ghost use Rattle.qc_msg.specs.Steps.{Entry};
ghost use Rattle.qc_script.specs.Runs.{Runs};
ghost use Rattle.qc_script.specs.declared.script.Script.{Script};
ghost use Rattle.laws_guarantees.specs.Answers.{AnswersFit};
ghost use Rattle.laws_guarantees.specs.Arrives.{Arrives};
ghost use Rattle.laws_guarantees.specs.First.{AreFirst};
ghost use Rattle.laws_guarantees.specs.Undisturbed.{IsLossless, IsUndisturbed};

/// Each message that was sent to an actor was taken or is ready for it, once
/// and in order; no request is lost.
pub fn no_request_is_lost()
    ensures { (decl : Declaration) (script : Script) (h : List Entry) (open_inputs : List Bool)
        → IsLossless script → Runs (IsLawful decl) decl script h open_inputs → (a : ℕ) → Arrives script a h }
{}

/// In every run, disturbed or not, no message names another life or epoch than
/// the first, and no request is refused for them.
#[tactic(auto, using(crate::proofs::FirstRuns::lives_and_epochs_are_the_first))]
pub fn lives_and_epochs_are_the_first()
    ensures { (decl : Declaration) (script : Script) (h : List Entry) (open_inputs : List Bool)
        → Runs (IsLawful decl) decl script h open_inputs → AreFirst (mail h) }
{}

/// Each answer was sent for a request that the site took, and fits it, by what
/// the site was sent before it: a Read or an Append is granted, or a transaction
/// is in the way that is open there; a Prepare is promised, or Stale.
#[tactic(auto, using(crate::proofs::AnswerRuns::answers_fit_their_requests))]
pub fn answers_fit_their_requests()
    ensures { (decl : Declaration) (script : Script) → IsUndisturbed script → (h : List Entry)
        (open_inputs : List Bool) → Runs (IsLawful decl) decl script h open_inputs → AnswersFit (mail h) }
{}
