//! Laws of commands and replies in runs with falls, each the contract of a
//! function with nothing to do.

ghost use Rattle.std.specs.Prelude.{◌≡◌, ◌+◌, ◌<◌, ◌≤◌, ◌++◌, ℕ, Bool, true, false, List, [], ◌∷◌, Some, cond, length};
ghost use Rattle.std.specs.Prelude.{slice_get};
ghost use Rattle.qc_client.specs.declared.client.Client.{Client};
ghost use Rattle.qc_core.specs.declared.actor.Actor.TheVariants as actor;
ghost use Rattle.qc_core.specs.Actors.{actor_after};
ghost use Rattle.qc_core.specs.Acts.{is_running};
ghost use Rattle.qc_core.specs.Conduct.{IsLawfulWithFalls};
ghost use Rattle.qc_core.specs.Lives.{is_up};
ghost use Rattle.qc_decl.specs.Accepted.{IsAccepted};
ghost use Rattle.qc_decl.specs.Actors.{actors, administrator, is_client};
ghost use Rattle.qc_decl.specs.declared.declaration.Declaration.{Declaration};
ghost use Rattle.laws_due.specs.Order.{AreInOrder};
ghost use Rattle.laws_turns.specs.Asked.{AsksDeclared};
ghost use Rattle.laws_turns.specs.Calls.{is_waiting};
ghost use Rattle.laws_turns.specs.Whole.{asked_until, calls_of, replies_of};
ghost use Rattle.qc_link.specs.Limits.{most_actors};
ghost use Rattle.qc_msg.specs.Deeds.{deeds};
ghost use Rattle.qc_msg.specs.Steps.{Entry};
ghost use Rattle.qc_msg.specs.declared.step.Control.{Control};
ghost use Rattle.qc_script.specs.Inbox.{inbox};
ghost use Rattle.qc_script.specs.Ready.{controls_left, phase_of};
ghost use Rattle.qc_script.specs.RunsWithFalls.{RunsWithFalls};
ghost use Rattle.qc_script.specs.declared.script.Script.{Script};
ghost use Rattle.laws_turns.specs.EachRun.{OfEachRun};

use qc_script::ConductWithFalls;

/// The commands that an actor called, and then those that are left to it, are
/// those that the phases so far ask it, in their order: a fall takes none away,
/// and an actor that is down is called too. So it is by any conduct.
#[tactic(auto, using(crate::proofs::Calling::calls_are_asked_with_falls))]
pub fn calls_are_asked_with_falls<C: ConductWithFalls>()
    ensures { (decl : Declaration) (script : Script) (h : List Entry) (open_inputs : List Bool) (a : ℕ)
        → RunsWithFalls C.lawful C.fits decl script h open_inputs
        → calls_of a h ++ (inbox script a h).commands ≡ asked_until a script (phase_of h) }
{}

/// No more phases begin than the script has, by any conduct.
#[tactic(auto, using(crate::proofs::Calling::phases_are_the_scripts_with_falls))]
pub fn phases_are_the_scripts_with_falls<C: ConductWithFalls>()
    ensures { (decl : Declaration) (script : Script) (h : List Entry) (open_inputs : List Bool)
        → RunsWithFalls C.lawful C.fits decl script h open_inputs → phase_of h ≤ length script.phases }
{}

/// Of clients without an open input: one that is up waits for something just
/// while a command of it runs, where the script asks clients to move no epoch;
/// and of one that is down no command runs.
#[tactic(auto, using(crate::proofs::Resting::run_waits, crate::proofs::Waiting::none_runs_while_down))]
pub fn clients_wait_while_commands_run_with_falls<C: ConductWithFalls>()
    ensures up { (decl : Declaration) (script : Script) → AsksDeclared decl script
        → actors decl ≤ most_actors → (h : List Entry) (open_inputs : List Bool)
        → RunsWithFalls (IsLawfulWithFalls decl) C.fits decl script h open_inputs
        → (a : ℕ) → is_client decl a ≡ true → slice_get open_inputs a ≡ Some false
        → (c : Client) → (actor_after decl a (deeds a [] h)).actor ≡ actor.Client c
        → is_waiting c ≡ is_running (deeds a [] h) }
    ensures down { OfEachRun C.fits (λ decl script h open_inputs. (a : ℕ) → is_client decl a ≡ true
        → slice_get open_inputs a ≡ Some false → is_up (deeds a [] h) ≡ false → is_running (deeds a [] h) ≡ false) }
{}

/// While a control line is left, no client runs a command: each has ended before
/// the phase began. So no line makes a client fall that owes a reply.
#[tactic(auto, using(crate::proofs::EndsWithFalls::no_command_runs_while_a_line_is_left))]
pub fn no_command_runs_while_a_line_is_left<C: ConductWithFalls>()
    ensures { (decl : Declaration) (script : Script) → IsAccepted decl → AsksDeclared decl script
        → (h : List Entry) (open_inputs : List Bool)
        → RunsWithFalls (IsLawfulWithFalls decl) C.fits decl script h open_inputs
        → (line : Control) (lines : List Control) → controls_left script h ≡ line ∷ lines
        → (a : ℕ) → is_client decl a ≡ true → is_running (deeds a [] h) ≡ false }
{}

/// A site or a client calls a command only where none runs, and each reply that it tells
/// answers a command that was called and not yet answered: also where it is down,
/// and where its record isn't written. It falls and rises only where no command
/// runs, so a fall leaves none without its reply.
#[tactic(auto, using(crate::proofs::MuteWithFalls::replies_answer_commands_with_falls))]
pub fn replies_answer_commands_with_falls<C: ConductWithFalls>()
    ensures { (decl : Declaration) (script : Script) → IsAccepted decl → AsksDeclared decl script
        → (h : List Entry) (open_inputs : List Bool)
        → RunsWithFalls (IsLawfulWithFalls decl) C.fits decl script h open_inputs
        → (a : ℕ) → a < administrator decl → AreInOrder false (deeds a [] h) }
{}

/// So it told one reply to each command that it called, but for the one
/// that runs.
#[tactic(auto, using(crate::proofs::MuteWithFalls::calls_are_replied_with_falls))]
pub fn calls_are_replied_with_falls<C: ConductWithFalls>()
    ensures { (decl : Declaration) (script : Script) → IsAccepted decl → AsksDeclared decl script
        → (h : List Entry) (open_inputs : List Bool)
        → RunsWithFalls (IsLawfulWithFalls decl) C.fits decl script h open_inputs
        → (a : ℕ) → a < administrator decl
        → length (calls_of a h) ≡ length (replies_of a h) + cond (is_running (deeds a [] h)) 1 0 }
{}
