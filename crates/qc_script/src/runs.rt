//! Laws of runs, each the contract of a function with nothing to do.

ghost use Rattle.std.specs.Prelude.{◌≡◌, ℕ, Bool, List, true};
ghost use Rattle.qc_decl.specs.declared.declaration.Declaration.{Declaration};
ghost use Rattle.qc_msg.specs.Deeds.{Deed};
ghost use Rattle.qc_msg.specs.Steps.{Entry};
ghost use Rattle.qc_msg.specs.declared.turn.Appended.TheVariants.{Done};
ghost use Rattle.qc_msg.specs.declared.turn.Turn.{Turn};
ghost use Rattle.qc_script.specs.Inbox.{inbox, is_up};
ghost use Rattle.qc_script.specs.Runs.{Runs};
ghost use Rattle.qc_script.specs.RunsWithFalls.{RunsWithFalls};
ghost use Rattle.qc_script.specs.declared.script.Script.{Script};

use crate::conduct::ConductWithFalls;

/// A run without falls is a run with falls, where each lawful turn's record is
/// written, whatever an actor may rise with.
#[tactic(auto, using(crate::proofs::Fallless::runs_without_falls_are_runs))]
pub fn runs_without_falls_are_runs<C: ConductWithFalls>()
    ensures { (decl : Declaration) (script : Script) (h : List Entry) (open_inputs : List Bool)
        → ((a : ℕ) (ds : List Deed) (turn : Turn) → C.lawful a ds turn → turn.append ≡ Done)
        → Runs C.lawful decl script h open_inputs → RunsWithFalls C.lawful C.fits decl script h open_inputs }
{}

/// In it everybody is up, whichever inbox is asked.
#[tactic(auto, using(crate::proofs::AllUp::nobody_is_down_without_falls))]
pub fn nobody_is_down_without_falls<C: ConductWithFalls>()
    ensures { (decl : Declaration) (script : Script) (h : List Entry) (open_inputs : List Bool) (a b : ℕ)
        → Runs C.lawful decl script h open_inputs → is_up (inbox script a h).up b ≡ true }
{}
