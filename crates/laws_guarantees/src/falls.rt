//! Runs with falls in which nobody falls: a law, the contract of a function with
//! nothing to do.

ghost use Rattle.std.specs.Prelude.{◌≡◌, ℕ, Bool, List, []};
ghost use Rattle.qc_core.specs.Conduct.{IsLawful, IsLawfulWithFalls};
ghost use Rattle.qc_decl.specs.Actors.{administrator};
ghost use Rattle.qc_decl.specs.declared.declaration.Declaration.{Declaration};
ghost use Rattle.laws_turns.specs.Calm.{AreCalm};
ghost use Rattle.qc_msg.specs.Deeds.{deeds};
ghost use Rattle.qc_msg.specs.Steps.{Entry};
ghost use Rattle.qc_script.specs.Runs.{Runs};
ghost use Rattle.qc_script.specs.RunsWithFalls.{RunsWithFalls};
ghost use Rattle.qc_script.specs.declared.script.Script.{Script};

use qc_script::ConductWithFalls;

/// A run with falls in which nobody falls or rises, no fault is armed, and the
/// administrator does nothing, is a run. So all that is said here of runs of
/// undisturbed scripts is said of it.
pub fn runs_in_which_nobody_falls_are_runs<C: ConductWithFalls>()
    ensures { (decl : Declaration) (script : Script) (h : List Entry) (open_inputs : List Bool)
        → RunsWithFalls (IsLawfulWithFalls decl) C.fits decl script h open_inputs → AreCalm h
        → deeds (administrator decl) [] h ≡ [] → Runs (IsLawful decl) decl script h open_inputs }
{}
