//! That commands end, and runs with them: laws as contracts of functions with
//! nothing to do.

ghost use Rattle.std.specs.Prelude.{◌≡◌, ◌-◌, ◌≤◌, ℕ, true, false, List, [], length};
ghost use Rattle.qc_client.specs.Conduct.{client_after};
ghost use Rattle.qc_core.specs.Acts.{Acts, is_running};
ghost use Rattle.qc_decl.specs.Accepted.{IsAccepted};
ghost use Rattle.qc_decl.specs.Actors.{is_client};
ghost use Rattle.qc_decl.specs.declared.declaration.Declaration.{Declaration};
ghost use Rattle.laws_turns.specs.Asked.{AsksDeclared};
ghost use Rattle.laws_turns.specs.Calls.{is_waiting, open_calls};
ghost use Rattle.laws_turns.specs.Whole.{IsClosed, IsQuiet, IsWhole, calls_of, replies_of};
ghost use Rattle.qc_msg.specs.Deeds.{Deed, deeds};
ghost use Rattle.qc_msg.specs.Steps.{Entry};
ghost use Rattle.qc_script.specs.Ready.{controls_left, phase_of};
ghost use Rattle.qc_script.specs.declared.script.Script.{Script};

/// A client without an open input that has no open request waits for nothing:
/// neither for the votes of a commit nor for what a `do` asked.
#[tactic(auto, using(crate::proofs::Ended::clients_wait_only_for_requests))]
pub fn clients_wait_only_for_requests()
    ensures { (decl : Declaration) (a : ℕ) → is_client decl a ≡ true → (ds : List Deed) (n : ℕ)
        → Acts decl a ds false n → open_calls (client_after decl (a - decl.sites) ds).client ≡ []
        → is_waiting (client_after decl (a - decl.sites) ds).client ≡ false }
{}

/// Every command ends: no client runs one where no input is open, nothing is
/// ready for any actor, and each control line of the phases so far has acted.
#[tactic(auto, using(crate::proofs::Ended::commands_end))]
pub fn commands_end()
    ensures { (decl : Declaration) (script : Script) → IsAccepted decl → AsksDeclared decl script
        → (h : List Entry) → IsClosed decl script h → IsQuiet decl script h → controls_left script h ≡ []
        → (a : ℕ) → is_client decl a ≡ true → is_running (deeds a [] h) ≡ false }
{}

/// So each command that a client called has its reply there.
#[tactic(auto, using(crate::proofs::Ended::each_call_has_its_reply))]
pub fn each_call_has_its_reply()
    ensures { (decl : Declaration) (script : Script) → IsAccepted decl → AsksDeclared decl script
        → (h : List Entry) → IsClosed decl script h → IsQuiet decl script h → controls_left script h ≡ []
        → (a : ℕ) → is_client decl a ≡ true → length (calls_of a h) ≡ length (replies_of a h) }
{}

/// And such a run of which no phase is left is whole, whatever order its events
/// came in.
#[tactic(auto, using(crate::proofs::Ended::runs_are_whole))]
pub fn runs_are_whole()
    ensures { (decl : Declaration) (script : Script) → IsAccepted decl → AsksDeclared decl script
        → (h : List Entry) → IsClosed decl script h → IsQuiet decl script h → controls_left script h ≡ []
        → length script.phases ≤ phase_of h → IsWhole decl script h }
{}
