//! Laws of commands and replies, each the contract of a function with nothing
//! to do.

ghost use Rattle.std.specs.Prelude.{◌≡◌, ◌+◌, ◌-◌, ◌≤◌, ◌++◌, ℕ, Bool, true, false, List, [], Some, cond, length};
ghost use Rattle.std.specs.Prelude.{slice_get};
ghost use Rattle.qc_client.specs.Conduct.{client_after};
ghost use Rattle.qc_core.specs.Acts.{is_running};
ghost use Rattle.qc_core.specs.Conduct.{IsLawful};
ghost use Rattle.qc_decl.specs.Actors.{is_client};
ghost use Rattle.qc_decl.specs.declared.declaration.Declaration.{Declaration};
ghost use Rattle.qc_msg.specs.Deeds.{deeds};
ghost use Rattle.qc_msg.specs.Steps.{Entry};
ghost use Rattle.qc_script.specs.Inbox.{inbox};
ghost use Rattle.qc_script.specs.Ready.{phase_of};
ghost use Rattle.qc_script.specs.Runs.{Runs};
ghost use Rattle.qc_script.specs.declared.script.Script.{Script};
ghost use Rattle.laws_turns.specs.Asked.{AsksDeclared};
ghost use Rattle.laws_turns.specs.Calls.{is_waiting};
ghost use Rattle.laws_turns.specs.Order.{AreInOrder};
ghost use Rattle.laws_turns.specs.Whole.{asked_until, calls_of, replies_of};

/// The commands that an actor called, and then those that are left to it, are
/// those that the phases so far ask it, in their order.
#[tactic(auto, using(crate::proofs::Calling::calls_are_asked))]
pub fn calls_are_asked()
    ensures { (decl : Declaration) (script : Script) (h : List Entry) (open_inputs : List Bool) (a : ℕ)
        → Runs (IsLawful decl) decl script h open_inputs
        → calls_of a h ++ (inbox script a h).commands ≡ asked_until a script (phase_of h) }
{}

/// No more phases begin than the script has.
#[tactic(auto, using(crate::proofs::Calling::phases_are_the_scripts))]
pub fn phases_are_the_scripts()
    ensures { (decl : Declaration) (script : Script) (h : List Entry) (open_inputs : List Bool)
        → Runs (IsLawful decl) decl script h open_inputs → phase_of h ≤ length script.phases }
{}

/// An actor calls a command only where none runs, and each reply that it tells
/// answers a command that was called and not yet answered.
#[tactic(auto, using(crate::proofs::Ordered::replies_answer_commands))]
pub fn replies_answer_commands()
    ensures { (decl : Declaration) (script : Script) (h : List Entry) (open_inputs : List Bool) (a : ℕ)
        → Runs (IsLawful decl) decl script h open_inputs → AreInOrder [] (deeds a [] h) }
{}

/// An actor told one reply to each command that it called, but for the one that
/// runs.
#[tactic(auto, using(crate::proofs::Ordered::calls_are_replied))]
pub fn calls_are_replied()
    ensures { (decl : Declaration) (script : Script) (h : List Entry) (open_inputs : List Bool) (a : ℕ)
        → Runs (IsLawful decl) decl script h open_inputs
        → length (calls_of a h) ≡ length (replies_of a h) + cond (is_running (deeds a [] h)) 1 0 }
{}

/// Where the script asks clients to move no epoch, a client without an open
/// input waits for something just while a command of it runs.
#[tactic(auto, using(crate::proofs::Busy::clients_wait_while_commands_run))]
pub fn clients_wait_while_commands_run()
    ensures { (decl : Declaration) (script : Script) → AsksDeclared decl script → (h : List Entry)
        (open_inputs : List Bool) → Runs (IsLawful decl) decl script h open_inputs
        → (a : ℕ) → is_client decl a ≡ true → slice_get open_inputs a ≡ Some false
        → is_waiting (client_after decl (a - decl.sites) (deeds a [] h)).client ≡ is_running (deeds a [] h) }
{}
