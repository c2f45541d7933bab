//! The law of whole runs, the contract of a function with nothing to do.

ghost use Rattle.std.specs.Prelude.{◌≡◌, ◌≤◌, ℕ, true, false, List, [], length};
ghost use Rattle.qc_core.specs.Acts.{is_running};
ghost use Rattle.qc_decl.specs.Accepted.{IsAccepted};
ghost use Rattle.qc_decl.specs.Actors.{is_client};
ghost use Rattle.qc_decl.specs.declared.declaration.Declaration.{Declaration};
ghost use Rattle.qc_msg.specs.Deeds.{deeds};
ghost use Rattle.qc_msg.specs.Steps.{Entry};
ghost use Rattle.qc_script.specs.Ready.{controls_left, phase_of};
ghost use Rattle.qc_script.specs.declared.script.Script.{Script};
ghost use Rattle.laws_turns.specs.Asked.{AsksDeclared};
ghost use Rattle.laws_turns.specs.Whole.{IsClosed, IsQuiet, IsWhole};

/// A run is whole where no input is open, nothing is ready for any actor, each
/// phase began and each of its control lines acted, and no command runs.
#[tactic(auto, using(crate::proofs::WholeLaw::runs_without_commands_are_whole))]
pub fn runs_without_commands_are_whole()
    ensures { (decl : Declaration) (script : Script) → IsAccepted decl → AsksDeclared decl script
        → (h : List Entry) → IsClosed decl script h → IsQuiet decl script h → controls_left script h ≡ []
        → ((a : ℕ) → is_client decl a ≡ true → is_running (deeds a [] h) ≡ false)
        → length script.phases ≤ phase_of h → IsWhole decl script h }
{}
