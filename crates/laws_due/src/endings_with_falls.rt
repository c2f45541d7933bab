//! That commands end through falls, and runs with them: laws as contracts of
//! functions with nothing to do.

ghost use Rattle.std.specs.Prelude.{◌≡◌, ◌≤◌, ◌⊎◌, ℕ, true, false, List, [], Some, None, length, slice_get};
ghost use Rattle.laws_due.specs.Declares.{Declares};
ghost use Rattle.laws_due.specs.Ties.{NoneRuns};
ghost use Rattle.laws_due.specs.Waits.{IsWaiting};
ghost use Rattle.qc_core.specs.Acts.{is_running};
ghost use Rattle.qc_decl.specs.Accepted.{IsAccepted};
ghost use Rattle.qc_decl.specs.Actors.{administrator, is_client};
ghost use Rattle.qc_decl.specs.declared.declaration.Declaration.{Declaration};
ghost use Rattle.laws_due.specs.Known.{AsksEpochs, AsksKnown};
ghost use Rattle.laws_due.specs.Whole.{IsClosedWithFalls, IsWholeWithFalls};
ghost use Rattle.laws_turns.specs.Asked.{AsksDeclared};
ghost use Rattle.laws_turns.specs.Whole.{IsQuiet, calls_of, replies_of};
ghost use Rattle.qc_msg.specs.Deeds.{deeds};
ghost use Rattle.qc_msg.specs.Steps.{Entry};
ghost use Rattle.qc_promise.specs.Accounting.{account};
ghost use Rattle.qc_promise.specs.Rows.{due};
ghost use Rattle.qc_script.specs.Ready.{controls_left, phase_of};
ghost use Rattle.qc_script.specs.declared.script.Script.{Script};
ghost use Rattle.laws_turns.specs.EachRun.{OfEachRun};

use qc_script::ConductWithFalls;

/// In every run with falls the running command of a client without an open input
/// waits for an open request, by its account, and all that is due has been told
/// where what comes to it is declared. Only the command to move an epoch, which
/// nobody asks a client, never ends.
#[tactic(auto, using(crate::proofs::Waiting::commands_wait, crate::proofs::Waiting::nothing_due))]
pub fn commands_of_runs_with_falls_wait<C: ConductWithFalls>()
    ensures waits { OfEachRun C.fits (λ decl script h open_inputs. (a : ℕ) → is_client decl a ≡ true
        → slice_get open_inputs a ≡ Some false → NoneRuns (account decl a h).command ⊎ IsWaiting (account decl a h)) }
    ensures told { OfEachRun C.fits (λ decl script h open_inputs. (a : ℕ) → is_client decl a ≡ true
        → slice_get open_inputs a ≡ Some false → Declares decl (deeds a [] h)
        → due decl (account decl a h) false ≡ None) }
{}

/// Every command ends: no client runs one where no input is open, nothing is
/// ready for any actor, and each control line of the phases so far has acted,
/// whoever is down then, and whatever records were lost.
#[tactic(auto, using(crate::proofs::WholeLaw::commands_end_with_falls))]
pub fn commands_end_with_falls<C: ConductWithFalls>()
    ensures { (decl : Declaration) (script : Script) → IsAccepted decl → AsksDeclared decl script
        → (h : List Entry) → IsClosedWithFalls C.fits decl script h
        → IsQuiet decl script h → controls_left script h ≡ []
        → (a : ℕ) → is_client decl a ≡ true → is_running (deeds a [] h) ≡ false }
{}

/// So each command that a client called has its reply there.
#[tactic(auto, using(crate::proofs::WholeLaw::each_call_has_its_reply_with_falls))]
pub fn each_call_has_its_reply_with_falls<C: ConductWithFalls>()
    ensures { (decl : Declaration) (script : Script) → IsAccepted decl → AsksDeclared decl script
        → (h : List Entry) → IsClosedWithFalls C.fits decl script h
        → IsQuiet decl script h → controls_left script h ≡ []
        → (a : ℕ) → is_client decl a ≡ true → length (calls_of a h) ≡ length (replies_of a h) }
{}

/// So does every command of the administrator, where a script asks him for epochs
/// alone, and each Ask of his is about a transaction of a declared client.
#[tactic(auto, using(crate::proofs::WholeLaw::commands_of_the_administrator_end))]
pub fn commands_of_the_administrator_end<C: ConductWithFalls>()
    ensures { (decl : Declaration) (script : Script) → IsAccepted decl → AsksDeclared decl script
        → (h : List Entry) → IsClosedWithFalls C.fits decl script h
        → IsQuiet decl script h → controls_left script h ≡ []
        → AsksKnown C.fits decl script → AsksEpochs decl script
        → is_running (deeds (administrator decl) [] h) ≡ false }
{}

/// And such a run of which no phase is left is whole: each client, and the
/// administrator, called just the script's commands in their order, and told a reply
/// to each before the next one and before any fall, and nothing beside.
#[tactic(auto, using(crate::proofs::WholeLaw::runs_with_falls_are_whole))]
pub fn runs_with_falls_are_whole<C: ConductWithFalls>()
    ensures { (decl : Declaration) (script : Script) → IsAccepted decl → AsksDeclared decl script
        → (h : List Entry) → IsClosedWithFalls C.fits decl script h
        → IsQuiet decl script h → controls_left script h ≡ []
        → AsksKnown C.fits decl script → AsksEpochs decl script
        → length script.phases ≤ phase_of h → IsWholeWithFalls C.fits decl script h }
{}
