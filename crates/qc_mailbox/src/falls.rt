//! Laws of inboxes in runs with falls, each the contract of a function with
//! nothing to do. Those of who is down ask of the conduct that only a record can
//! fail to be written, and that an actor that is down only tells replies.

ghost use Rattle.std.specs.Prelude.{◌≡◌, ℕ, ◌<◌, ◌≤◌, Bool, true, false, not, List, [], ◌∷◌, Some, None, slice_get};
ghost use Rattle.std.specs.List.{AllByRecursion as Every};
ghost use Rattle.qc_decl.specs.Actors.{actors};
ghost use Rattle.qc_decl.specs.declared.declaration.Declaration.{Declaration};
ghost use Rattle.qc_mailbox.specs.Downs.{IsCommand, IsEmptied, TellsWhereDown, is_down};
ghost use Rattle.qc_mailbox.specs.Owned.{IsOwnRequest};
ghost use Rattle.qc_link.specs.Limits.{most_actors};
ghost use Rattle.qc_msg.specs.Deeds.{WasSentTo, deeds, mail};
ghost use Rattle.qc_msg.specs.Steps.{Entry};
ghost use Rattle.qc_msg.specs.declared.step.Control.{Control};
ghost use Rattle.qc_msg.specs.declared.step.Control.TheVariants.{Crash, Restart};
ghost use Rattle.qc_msg.specs.declared.step.Input.{Input};
ghost use Rattle.qc_msg.specs.declared.step.Input.TheVariants.{Lost};
ghost use Rattle.qc_script.specs.Inbox.{inbox, is_up};
ghost use Rattle.qc_script.specs.Ready.{controls_left, ready};
ghost use Rattle.qc_script.specs.Requests.{SentRequest};
ghost use Rattle.qc_script.specs.RunsWithFalls.{RunsWithFalls};
ghost use Rattle.qc_script.specs.declared.script.Script.{Script};

use qc_script::ConductWithFalls;

/// While a control line is left, no input is open.
#[tactic(auto, using(crate::proofs::FallLaws::no_input_is_open_while_a_line_is_left))]
pub fn no_input_is_open_while_a_line_is_left<C: ConductWithFalls>()
    ensures { (decl : Declaration) (script : Script) (h : List Entry) (open_inputs : List Bool)
        → actors decl ≤ most_actors
        → RunsWithFalls C.lawful C.fits decl script h open_inputs
        → (line : Control) (lines : List Control) → controls_left script h ≡ line ∷ lines
        → (a : ℕ) → slice_get open_inputs a ≡ Some true → ⊥ }
{}

/// And nothing is ready for anybody, in any history.
pub fn nothing_is_ready_while_a_line_is_left()
    ensures { (decl : Declaration) (script : Script) (h : List Entry) (line : Control) (lines : List Control)
        → controls_left script h ≡ line ∷ lines
        → (a : ℕ) → a < most_actors → ready decl script a h ≡ None }
{}

/// A line that is next crashes an actor that is up, and restarts one that is
/// down.
#[tactic(auto, using(crate::proofs::FallLaws::crashes_up, crate::proofs::FallLaws::restarts_down))]
pub fn next_lines_have_something_to_do<C: ConductWithFalls>()
    ensures crash { (decl : Declaration) (script : Script) (h : List Entry) (open_inputs : List Bool)
        → actors decl ≤ most_actors
        → RunsWithFalls C.lawful C.fits decl script h open_inputs
        → (a : ℕ) (lines : List Control) → controls_left script h ≡ Crash a ∷ lines
        → is_up (inbox script 0 h).up a ≡ true }
    ensures restart { (decl : Declaration) (script : Script) (h : List Entry) (open_inputs : List Bool)
        → actors decl ≤ most_actors
        → RunsWithFalls C.lawful C.fits decl script h open_inputs
        → (a : ℕ) (lines : List Control) → controls_left script h ≡ Restart a ∷ lines
        → is_up (inbox script 0 h).up a ≡ false }
{}

/// Each inbox knows who is up: who by its deeds hasn't fallen since it rose.
#[tactic(auto, using(crate::proofs::FallLaws::inboxes_know_who_is_up))]
pub fn inboxes_know_who_is_up<C: ConductWithFalls>()
    ensures { (decl : Declaration) (script : Script) (h : List Entry) (open_inputs : List Bool)
        → actors decl ≤ most_actors → TellsWhereDown C.lawful
        → RunsWithFalls C.lawful C.fits decl script h open_inputs
        → (a b : ℕ) → a < most_actors → b < most_actors
        → is_up (inbox script b h).up a ≡ not (is_down (deeds a [] h)) }
{}

/// Who has a copy, a lost request or one without an answer is up. An actor that
/// is down takes commands alone.
#[tactic(auto, using(crate::proofs::FallLaws::down_emptied, crate::proofs::FallLaws::down_commanded))]
pub fn nothing_waits_for_who_is_down<C: ConductWithFalls>()
    ensures waits { (decl : Declaration) (script : Script) (h : List Entry) (open_inputs : List Bool)
        → actors decl ≤ most_actors → TellsWhereDown C.lawful
        → RunsWithFalls C.lawful C.fits decl script h open_inputs
        → (a : ℕ) → a < most_actors → is_down (deeds a [] h) ≡ true → IsEmptied (inbox script a h) }
    ensures ready { (decl : Declaration) (script : Script) (h : List Entry) (open_inputs : List Bool)
        → actors decl ≤ most_actors → TellsWhereDown C.lawful
        → RunsWithFalls C.lawful C.fits decl script h open_inputs
        → (a : ℕ) → a < most_actors → is_down (deeds a [] h) ≡ true
        → (given : Input) → ready decl script a h ≡ Some given → IsCommand given }
{}

/// What is ready for an actor and is a message was sent to it, and is found
/// under its number.
#[tactic(auto, using(crate::proofs::FallMail::ready_messages_were_sent_through_falls))]
pub fn ready_messages_were_sent_through_falls<C: ConductWithFalls>()
    ensures { (decl : Declaration) (script : Script) (h : List Entry) (open_inputs : List Bool)
        → RunsWithFalls C.lawful C.fits decl script h open_inputs
        → (a : ℕ) (given : Input) → ready decl script a h ≡ Some given → WasSentTo a (mail h) given }
{}

/// What an actor may take as lost, and what it waits for, are requests that it
/// sent, in any history.
#[tactic(auto, using(crate::proofs::Owned::lost_is_own, crate::proofs::Owned::unanswered_are_own))]
pub fn lost_requests_are_own()
    ensures lost { (decl : Declaration) (script : Script) (h : List Entry) (a n : ℕ)
        → ready decl script a h ≡ Some (Lost n) → IsOwnRequest (mail h) a n }
    ensures unanswered { (script : Script) (h : List Entry) (a : ℕ)
        → Every (λ (r : SentRequest). IsOwnRequest (mail h) a r.number) (inbox script a h).unanswered }
{}
