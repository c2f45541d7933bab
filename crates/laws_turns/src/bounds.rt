//! Bounds on clocks, counts and turns in every run, each law the contract of a
//! function with nothing to do.

ghost use Rattle.std.specs.Prelude.{◌≡◌, ◌<◌, ◌≤◌, ◌+◌, ◌-◌, ◌^◌, ℕ, Bool, true, false, List, [], Some};
ghost use Rattle.std.specs.Prelude.{length, slice_get};
ghost use Rattle.qc_client.specs.Conduct.{client_after};
ghost use Rattle.qc_client.specs.Fits.{ClientFits, promise_in};
ghost use Rattle.qc_core.specs.Conduct.{IsLawful};
ghost use Rattle.qc_decl.specs.Accepted.{IsAccepted};
ghost use Rattle.qc_decl.specs.Actors.{is_client};
ghost use Rattle.qc_decl.specs.Limits.{most_steps};
ghost use Rattle.qc_decl.specs.declared.declaration.Declaration.{Declaration};
ghost use Rattle.qc_list.specs.Members.{In};
ghost use Rattle.qc_msg.specs.Deeds.{deeds, mail};
ghost use Rattle.qc_msg.specs.Steps.{Entry};
ghost use Rattle.qc_msg.specs.declared.message.Envelope.{Envelope};
ghost use Rattle.qc_msg.specs.declared.turn.Turn.{Turn};
ghost use Rattle.laws_turns.specs.Bounds.{ClockBounds, IsBounded};
ghost use Rattle.qc_script.specs.Runs.{Runs};
ghost use Rattle.qc_script.specs.declared.script.Script.{Script};

/// Every clock and count, of each message, site and client, is at most the
/// number of steps. So are those that a client's calls rely on, and the clock
/// of the promise that a message brings.
#[tactic(auto, using(crate::proofs::Needs::bounded, crate::proofs::Needs::clocks, crate::proofs::Needs::promises))]
pub fn clocks_and_counts_are_bounded()
    ensures all { (decl : Declaration) (script : Script) (h : List Entry) (open_inputs : List Bool)
        → Runs (IsLawful decl) decl script h open_inputs → IsBounded decl (length h) h }
    ensures clients { (decl : Declaration) (script : Script) (h : List Entry) (open_inputs : List Bool)
        → Runs (IsLawful decl) decl script h open_inputs
        → (a : ℕ) → ClockBounds (length h) (client_after decl (a - decl.sites) (deeds a [] h)).client }
    ensures promises { (decl : Declaration) (script : Script) (h : List Entry) (open_inputs : List Bool)
        → Runs (IsLawful decl) decl script h open_inputs
        → (e : Envelope) → In e (mail h) → promise_in e.message ≤ length h }
{}

/// Where there are fewer steps than there may be, a client without an open
/// input, and what it takes, have all that its calls require; and so have the
/// numbers of messages.
#[tactic(auto, using(crate::proofs::Needs::fitting, crate::proofs::Needs::promise_fits, crate::proofs::Needs::numbers))]
pub fn clients_calls_may_be_made()
    ensures clients { (decl : Declaration) (script : Script) (h : List Entry) (open_inputs : List Bool)
        → IsAccepted decl → Runs (IsLawful decl) decl script h open_inputs → length h < most_steps
        → (a : ℕ) → is_client decl a ≡ true → slice_get open_inputs a ≡ Some false
        → ClientFits (client_after decl (a - decl.sites) (deeds a [] h)).client }
    ensures promises { (decl : Declaration) (script : Script) (h : List Entry) (open_inputs : List Bool)
        → Runs (IsLawful decl) decl script h open_inputs → length h < most_steps
        → (e : Envelope) → In e (mail h) → promise_in e.message < 2 ^ 63 }
    ensures numbers { (decl : Declaration) (script : Script) (h : List Entry) (open_inputs : List Bool)
        → Runs (IsLawful decl) decl script h open_inputs → length h < most_steps
        → length (mail h) + 16 < 2 ^ 32 }
{}

/// A turn that is posted has at most 16 messages: a site answers and asks at
/// most one client, a client asks each site once, or tells it a verdict.
#[tactic(auto, using(crate::proofs::Needs::turns_are_short))]
pub fn turns_are_short()
    ensures { (decl : Declaration) (script : Script) (h : List Entry) (open_inputs : List Bool)
        → IsAccepted decl → Runs (IsLawful decl) decl script h open_inputs
        → (a : ℕ) (turn : Turn) → slice_get open_inputs a ≡ Some true → IsLawful decl a (deeds a [] h) turn
        → length turn.sends ≤ 16 }
{}
