//! Laws of messages and turns, each the contract of a function with nothing to
//! do.

ghost use Rattle.std.specs.Prelude.{◌≡◌, ◌<◌, ◌≤◌, ℕ, Bool, List, [], Some, slice_get};
ghost use Rattle.qc_core.specs.Conduct.{IsLawful};
ghost use Rattle.qc_decl.specs.Actors.{actors, is_site};
ghost use Rattle.qc_decl.specs.declared.declaration.Declaration.{Declaration};
ghost use Rattle.qc_msg.specs.Deeds.{WasSentTo, deeds, mail};
ghost use Rattle.qc_msg.specs.Steps.{Entry};
ghost use Rattle.qc_msg.specs.declared.message.Envelope.{Envelope};
ghost use Rattle.qc_msg.specs.declared.step.Input.{Input};
ghost use Rattle.qc_promise.specs.Mail.{IsMailed};
ghost use Rattle.qc_promise.specs.Turns.{AreByTurns};
ghost use Rattle.qc_script.specs.Ready.{ready};
ghost use Rattle.qc_script.specs.Runs.{Runs};
ghost use Rattle.qc_script.specs.declared.script.Script.{Script};
ghost use Rattle.laws_turns.specs.Turns.{ActsIn};

/// Messages are numbered from 0 in the order in which they were sent: a
/// message's number is its place.
#[tactic(auto, using(crate::proofs::Numbered::messages_are_numbered_in_order))]
pub fn messages_are_numbered_in_order()
    ensures { (decl : Declaration) (script : Script) (h : List Entry) (open_inputs : List Bool)
        → Runs (IsLawful decl) decl script h open_inputs
        → (n : ℕ) (e : Envelope) → slice_get (mail h) n ≡ Some e → e.number ≡ n }
{}

/// A message that is ready for an actor was sent to it before, under its number.
#[tactic(auto, using(crate::proofs::Arrivals::what_is_ready_was_sent))]
pub fn what_is_ready_was_sent()
    ensures { (decl : Declaration) (script : Script) (h : List Entry) (open_inputs : List Bool)
        → Runs (IsLawful decl) decl script h open_inputs
        → (a : ℕ) (given : Input) → ready decl script a h ≡ Some given → WasSentTo a (mail h) given }
{}

/// Each actor takes an input, then posts the turn that its deeds call for, and
/// so on; a command comes only where none runs, and the numbers of an actor's
/// messages rise.
#[tactic(auto, using(crate::proofs::Acted::actors_take_and_post_by_turns))]
pub fn actors_take_and_post_by_turns()
    ensures { (decl : Declaration) (script : Script) (h : List Entry) (open_inputs : List Bool)
        → Runs (IsLawful decl) decl script h open_inputs
        → (a : ℕ) (is_open : Bool) → slice_get open_inputs a ≡ Some is_open → ActsIn decl a h is_open }
{}

/// Who is neither a site nor a client, as the administrator and the controller,
/// takes nothing and posts nothing.
#[tactic(auto, using(crate::proofs::Acted::others_do_nothing))]
pub fn others_do_nothing()
    ensures { (decl : Declaration) (script : Script) (h : List Entry) (open_inputs : List Bool)
        → Runs (IsLawful decl) decl script h open_inputs
        → (a : ℕ) → actors decl ≤ a → deeds a [] h ≡ [] }
{}

/// Each actor goes by turns: it posts for each input, its record first; no
/// command comes to a site.
#[tactic(auto, using(crate::proofs::ByMail::actors_go_by_turns))]
pub fn actors_go_by_turns()
    ensures { (decl : Declaration) (script : Script) (h : List Entry) (open_inputs : List Bool)
        → Runs (IsLawful decl) decl script h open_inputs
        → (a : ℕ) → a < actors decl → AreByTurns (is_site decl a) (deeds a [] h) }
{}

/// Messages reach those whom they were sent to: each has its number and is
/// taken by its receiver, an answer comes from who was asked to who asked, and
/// an actor loses requests of its own.
#[tactic(auto, using(crate::proofs::ByMail::messages_reach_their_receivers))]
pub fn messages_reach_their_receivers()
    ensures { (decl : Declaration) (script : Script) (h : List Entry) (open_inputs : List Bool)
        → Runs (IsLawful decl) decl script h open_inputs → IsMailed [] h }
{}
