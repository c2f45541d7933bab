//! Who is armed, falls and rises: laws, each the contract of a function with
//! nothing to do.

ghost use Rattle.std.specs.Prelude.{◌≡◌, ◌≤◌, ◌∷◌, ℕ, Bool, true, List, Some, slice_get};
ghost use Rattle.std.specs.List.{AllByRecursion as Every};
ghost use Rattle.qc_decl.specs.Actors.{actors, controller};
ghost use Rattle.qc_decl.specs.declared.declaration.Declaration.{Declaration};
ghost use Rattle.qc_msg.specs.Deeds.{own};
ghost use Rattle.qc_msg.specs.Steps.{Entry};
ghost use Rattle.qc_msg.specs.declared.step.Control.{Control};
ghost use Rattle.qc_promise.specs.DiskAccount.{AreFallsBelow, IsEverInTime};
ghost use Rattle.qc_promise.specs.Stores.{AreKept};
ghost use Rattle.qc_script.specs.Ready.{controls_left};
ghost use Rattle.qc_script.specs.RunsWithFalls.{RunsWithFalls};
ghost use Rattle.qc_script.specs.Sound.{IsControlFor, IsScriptFor};
ghost use Rattle.qc_script.specs.declared.script.PhaseLines.{PhaseLines};
ghost use Rattle.qc_script.specs.declared.script.Script.{Script};
ghost use Rattle.laws_bounds.specs.Faults.{AreControlsBelow, AreFaultsBelow, IsControlBelow};

use qc_script::ConductWithFalls;

/// In a run of a script whose control lines arm, crash and restart actors below a
/// number alone, and not fewer than take inputs, such actors alone are armed, fall
/// and rise. Lines of a script for a declaration name nobody but its actors, who
/// are below the controller.
#[tactic(auto, using(crate::proofs::RunFaults::run_faults, crate::proofs::RunFaults::script_sound, crate::proofs::RunFaults::falls_below))]
pub fn faults_are_of_the_scripts_actors<C: ConductWithFalls>()
    ensures run { (decl : Declaration) (script : Script) (n : ℕ) (h : List Entry) (open_inputs : List Bool)
        → actors decl ≤ n → AreControlsBelow n script
        → RunsWithFalls C.lawful C.fits decl script h open_inputs → AreFaultsBelow n h }
    ensures sound { (decl : Declaration) (script : Script) → IsScriptFor decl script
        → AreControlsBelow (controller decl) script }
    ensures falls { (n : ℕ) (h : List Entry) → AreFaultsBelow n h → AreFallsBelow n h }
{}

/// The next control line is one of the script's, after any history: it is for the
/// declaration where the script is, it names an actor below a number where all
/// lines do, and it passes each test that all of them pass.
pub fn next_lines_are_of_the_script()
    ensures sound { (decl : Declaration) (script : Script) (h : List Entry) (line : Control)
        → IsScriptFor decl script → slice_get (controls_left script h) 0 ≡ Some line → IsControlFor decl line }
    ensures below { (n : ℕ) (script : Script) (h : List Entry) (line : Control)
        → AreControlsBelow n script → slice_get (controls_left script h) 0 ≡ Some line → IsControlBelow n line }
    ensures tests { (test : Control → Bool) (script : Script) (h : List Entry) (line : Control)
        → Every (λ (phase : PhaseLines). Every (λ (c : Control). test c ≡ true) phase.controls) script.phases
        → slice_get (controls_left script h) 0 ≡ Some line → test line ≡ true }
{}

/// Of an actor that isn't below the number nothing that is armed ever waits past
/// its call, and its records are kept.
pub fn others_have_no_faults()
    ensures in_time { (n a : ℕ) (h : List Entry) → AreFaultsBelow n h → n ≤ a → IsEverInTime a h }
    ensures kept { (n a : ℕ) (h : List Entry) → AreFaultsBelow n h → n ≤ a → AreKept (own a h) }
{}
