//! Where a script is plain nobody falls but by a disk that fails of itself. Each
//! law is the contract of a function with nothing to do.

ghost use Rattle.std.specs.Prelude.{◌≡◌, ℕ, Bool, List, []};
ghost use Rattle.qc_core.specs.Conduct.{IsLawful, IsLawfulWithFalls};
ghost use Rattle.qc_decl.specs.Accepted.{IsAccepted};
ghost use Rattle.qc_decl.specs.Actors.{administrator};
ghost use Rattle.qc_decl.specs.declared.declaration.Declaration.{Declaration};
ghost use Rattle.qc_msg.specs.Deeds.{deeds};
ghost use Rattle.qc_msg.specs.Steps.{Entry};
ghost use Rattle.qc_promise.specs.Spent.{Spent};
ghost use Rattle.qc_script.specs.Runs.{Runs};
ghost use Rattle.qc_script.specs.RunsWithFalls.{RunsWithFalls};
ghost use Rattle.qc_script.specs.Sound.{IsScriptFor};
ghost use Rattle.qc_script.specs.declared.script.Script.{Script};
ghost use Rattle.laws_room.specs.Plain.{IsPlain};

use qc_script::ConductWithFalls;

/// The administrator does nothing: nobody asks him, and nobody sends him
/// anything.
#[tactic(auto, using(crate::proofs::Administrators::administrators_of_plain_runs_are_idle))]
pub fn administrators_of_plain_runs_are_idle()
    ensures { (decl : Declaration) (script : Script) → IsAccepted decl → IsScriptFor decl script → IsPlain script
        → (h : List Entry) (open_inputs : List Bool) → Runs (IsLawful decl) decl script h open_inputs
        → deeds (administrator decl) [] h ≡ [] }
{}

/// A run with falls, of whose disks none failed of itself, is a run without
/// falls: nothing is armed, and nobody is crashed.
#[tactic(auto, using(crate::proofs::Unfallen::plain_runs_are_runs_without_falls))]
pub fn plain_runs_are_runs_without_falls<C: ConductWithFalls>()
    ensures { (decl : Declaration) (script : Script) → IsAccepted decl → IsScriptFor decl script → IsPlain script
        → (h : List Entry) (open_inputs : List Bool)
        → RunsWithFalls (IsLawfulWithFalls decl) C.fits decl script h open_inputs → Spent h 0
        → Runs (IsLawful decl) decl script h open_inputs }
{}
