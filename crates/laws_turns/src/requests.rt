//! Laws of requests, each the contract of a function with nothing to do.

ghost use Rattle.std.specs.Prelude.{◌≡◌, ◌-◌, ◌<◌, ℕ, Bool, true, List, []};
ghost use Rattle.qc_list.specs.Members.{In};
ghost use Rattle.qc_client.specs.Conduct.{client_after};
ghost use Rattle.qc_core.specs.Conduct.{IsLawful};
ghost use Rattle.qc_decl.specs.Accepted.{IsAccepted};
ghost use Rattle.qc_decl.specs.Actors.{is_client};
ghost use Rattle.qc_decl.specs.declared.declaration.Declaration.{Declaration};
ghost use Rattle.qc_msg.specs.Deeds.{deeds};
ghost use Rattle.qc_msg.specs.Steps.{Entry};
ghost use Rattle.qc_msg.specs.declared.call.Call.{Call};
ghost use Rattle.qc_script.specs.Inbox.{inbox};
ghost use Rattle.qc_script.specs.Requests.{request_numbers};
ghost use Rattle.qc_script.specs.Ready.{controls_left};
ghost use Rattle.qc_script.specs.Runs.{Runs};
ghost use Rattle.qc_script.specs.declared.script.Script.{Script};
ghost use Rattle.laws_turns.specs.Asked.{AsksDeclared};
ghost use Rattle.laws_turns.specs.Calls.{IsAwaited, open_calls};
ghost use Rattle.laws_turns.specs.Waits.{IsAtReceiver};
ghost use Rattle.laws_turns.specs.Whole.{IsClosed, IsQuiet};
ghost use Rattle.qc_link.specs.Limits.{most_actors};

/// Each open request of a client is awaited in its inbox: that it is lost isn't
/// taken yet, or it is unanswered, or a copy of its answer is ready.
#[tactic(auto, using(crate::proofs::Covered::open_requests_are_awaited))]
pub fn open_requests_are_awaited()
    ensures { (decl : Declaration) (script : Script) (a : ℕ) (h : List Entry) (open_inputs : List Bool)
        → Runs (IsLawful decl) decl script h open_inputs
        → (q : Call) → In q (open_calls (client_after decl (a - decl.sites) (deeds a [] h)).client)
        → IsAwaited q.number (inbox script a h) }
{}

/// With an accepted declaration, and a script that names declared objects, an
/// unanswered request is at the site that it was sent to: a copy of it is ready
/// there, or it is the site's open input.
#[tactic(auto, using(crate::proofs::Reached::unanswered_requests_are_at_their_sites))]
pub fn unanswered_requests_are_at_their_sites()
    ensures { (decl : Declaration) (script : Script) → IsAccepted decl → AsksDeclared decl script
        → (a : ℕ) → a < most_actors → (h : List Entry) (open_inputs : List Bool)
        → Runs (IsLawful decl) decl script h open_inputs
        → (n : ℕ) → In n (request_numbers (inbox script a h).unanswered) → IsAtReceiver script h open_inputs a n }
{}

/// Then no client waits for a request where no input is open, nothing is ready
/// for any actor, and each control line of the phases so far has acted.
#[tactic(auto, using(crate::proofs::Ends::no_request_is_open_at_the_end))]
pub fn no_request_is_open_at_the_end()
    ensures { (decl : Declaration) (script : Script) → IsAccepted decl → AsksDeclared decl script
        → (h : List Entry) → IsClosed decl script h → IsQuiet decl script h → controls_left script h ≡ []
        → (a : ℕ) → is_client decl a ≡ true
        → open_calls (client_after decl (a - decl.sites) (deeds a [] h)).client ≡ [] }
{}
