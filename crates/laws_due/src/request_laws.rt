//! Laws of requests in runs with falls, each the contract of a function with
//! nothing to do.

ghost use Rattle.std.specs.Prelude.{◌≡◌, ◌≤◌, ℕ, Bool, true, List, []};
ghost use Rattle.qc_list.specs.Members.{In};
ghost use Rattle.qc_client.specs.declared.client.Client.{Client};
ghost use Rattle.qc_core.specs.declared.actor.Actor.TheVariants as actor;
ghost use Rattle.qc_core.specs.Actors.{actor_after};
ghost use Rattle.qc_core.specs.Conduct.{IsLawfulWithFalls};
ghost use Rattle.qc_decl.specs.Accepted.{IsAccepted};
ghost use Rattle.qc_decl.specs.Actors.{actors, is_client};
ghost use Rattle.qc_decl.specs.declared.declaration.Declaration.{Declaration};
ghost use Rattle.laws_due.specs.Whole.{IsClosedWithFalls};
ghost use Rattle.laws_turns.specs.Asked.{AsksDeclared};
ghost use Rattle.laws_turns.specs.Calls.{IsAwaited, open_calls};
ghost use Rattle.laws_turns.specs.Waits.{IsAtReceiver};
ghost use Rattle.laws_turns.specs.Whole.{IsQuiet};
ghost use Rattle.qc_link.specs.Limits.{most_actors};
ghost use Rattle.qc_msg.specs.Deeds.{deeds};
ghost use Rattle.qc_msg.specs.Steps.{Entry};
ghost use Rattle.qc_msg.specs.declared.call.Call.{Call};
ghost use Rattle.qc_script.specs.Inbox.{inbox};
ghost use Rattle.qc_script.specs.Ready.{controls_left};
ghost use Rattle.qc_script.specs.Requests.{request_numbers};
ghost use Rattle.qc_script.specs.RunsWithFalls.{RunsWithFalls};
ghost use Rattle.qc_script.specs.declared.script.Script.{Script};

use qc_script::ConductWithFalls;

/// Each open request of a client that is up is awaited in its inbox: that it is
/// lost isn't taken yet, also where the site that was asked fell since, or it is
/// unanswered, or a copy of its answer is ready.
#[tactic(auto, using(crate::proofs::ClientsAwait::open_requests_are_awaited_with_falls))]
pub fn open_requests_are_awaited_with_falls<C: ConductWithFalls>()
    ensures { (decl : Declaration) (script : Script) → actors decl ≤ most_actors
        → (a : ℕ) → is_client decl a ≡ true → (h : List Entry) (open_inputs : List Bool)
        → RunsWithFalls (IsLawfulWithFalls decl) C.fits decl script h open_inputs
        → (c : Client) → (actor_after decl a (deeds a [] h)).actor ≡ actor.Client c
        → (q : Call) → In q (open_calls c) → IsAwaited q.number (inbox script a h) }
{}

/// With an accepted declaration, and a script that names declared objects, an
/// unanswered request of a client is at the site that it was sent to: a copy of
/// it is ready there, or it is the site's open input. A site that falls leaves no
/// request to it unanswered.
#[tactic(auto, using(crate::proofs::ClientReached::unanswered_requests_are_at_their_sites_with_falls))]
pub fn unanswered_requests_are_at_their_sites_with_falls<C: ConductWithFalls>()
    ensures { (decl : Declaration) (script : Script) → IsAccepted decl → AsksDeclared decl script
        → (a : ℕ) → is_client decl a ≡ true
        → (h : List Entry) (open_inputs : List Bool)
        → RunsWithFalls (IsLawfulWithFalls decl) C.fits decl script h open_inputs
        → (n : ℕ) → In n (request_numbers (inbox script a h).unanswered) → IsAtReceiver script h open_inputs a n }
{}

/// Then no client that is up waits for a request where no input is open, nothing
/// is ready for any actor, and each control line of the phases so far has acted.
#[tactic(auto, using(crate::proofs::WholeLaw::no_request_is_open_at_the_end_with_falls))]
pub fn no_request_is_open_at_the_end_with_falls<C: ConductWithFalls>()
    ensures { (decl : Declaration) (script : Script) → IsAccepted decl → AsksDeclared decl script
        → (h : List Entry) → IsClosedWithFalls C.fits decl script h
        → IsQuiet decl script h → controls_left script h ≡ []
        → (a : ℕ) → is_client decl a ≡ true
        → (c : Client) → (actor_after decl a (deeds a [] h)).actor ≡ actor.Client c → open_calls c ≡ [] }
{}
