//! What the calls of actors ask, in every run with falls whose rises fit: laws,
//! each the contract of a function with nothing to do.

ghost use Rattle.std.specs.Prelude.{◌≡◌, ◌<◌, ◌+◌, ◌-◌, ◌^◌, ℕ, Bool, true, false, List, [], ◌∷◌, ◌++◌, Some};
ghost use Rattle.std.specs.Prelude.{length, slice_get};
ghost use Rattle.qc_admin.specs.Fits.{MessageFits};
ghost use Rattle.laws_bounds.specs.Bounds.{RiseWithFew};
ghost use Rattle.laws_bounds.specs.Calls.{IsFailedShort, IsRisingShort, IsTurnShort};
ghost use Rattle.laws_bounds.specs.Fitting.{AllFit, AllRiseFit};
ghost use Rattle.laws_bounds.specs.Within.{RiseWithin};
ghost use Rattle.qc_client.specs.Fits.{promise_in};
ghost use Rattle.qc_core.specs.Actors.{ActorFits, AsksFew, actor_after, actor_sent};
ghost use Rattle.qc_epoch.specs.Deciding.{most_asks};
ghost use Rattle.qc_core.specs.Conduct.{IsLawfulWithFalls};
ghost use Rattle.qc_decl.specs.Accepted.{IsAccepted};
ghost use Rattle.qc_decl.specs.Limits.{most_clients, most_steps};
ghost use Rattle.qc_decl.specs.declared.declaration.Declaration.{Declaration};
ghost use Rattle.qc_entry.specs.declared.record.Prepared.{Prepared};
ghost use Rattle.qc_fit.specs.Numbers.{greatest_clock, most_records};
ghost use Rattle.qc_list.specs.Members.{In};
ghost use Rattle.qc_msg.specs.Deeds.{Deed, Rises, deeds, mail, turn_deeds};
ghost use Rattle.qc_msg.specs.Steps.{Entry};
ghost use Rattle.qc_msg.specs.declared.message.Envelope.{Envelope};
ghost use Rattle.qc_msg.specs.declared.record.Record.{Record};
ghost use Rattle.qc_msg.specs.declared.record.Record.TheVariants.{Prepare};
ghost use Rattle.qc_msg.specs.declared.turn.Turn.{Turn};
ghost use Rattle.qc_script.specs.RunsWithFalls.{RunsWithFalls};
ghost use Rattle.qc_script.specs.declared.script.Script.{Script};

use qc_script::ConductWithFalls;

/// Where a conduct lets only records rise that fit their actor, what rises in
/// its runs fits; and what fits has clocks up to the greatest, and is few.
#[tactic(auto, using(crate::proofs::Rising::run_rises_fit, crate::proofs::FitBounds::rise_within, crate::proofs::FitBounds::rise_few))]
pub fn what_rises_fits<C: ConductWithFalls>()
    ensures rises { (decl : Declaration) (script : Script)
        → ((a : ℕ) (records : List Record) → C.fits a records → AllFit decl a 0 records)
        → (h : List Entry) (open_inputs : List Bool)
        → RunsWithFalls (IsLawfulWithFalls decl) C.fits decl script h open_inputs → AllRiseFit decl h }
    ensures clocks { (decl : Declaration) (h : List Entry) → AllRiseFit decl h → RiseWithin greatest_clock h }
    ensures few { (decl : Declaration) (h : List Entry) → AllRiseFit decl h → RiseWithFew most_records h }
{}

/// Below the limit of steps, where what rises fits: an actor without an open
/// input has all that its calls require; with one, after its call, it has asked
/// few sites; each message brings a promise that a call may hear, and tells of
/// promises of clients alone; and there are numbers for the messages of a turn.
#[tactic(auto, using(crate::proofs::Calling::actor_fits, crate::proofs::Calling::actor_asks_few, crate::proofs::Calling::promises, crate::proofs::RunsFit::messages_fit, crate::proofs::Calling::numbers))]
pub fn calls_may_be_made_with_falls<C: ConductWithFalls>()
    ensures fits { (decl : Declaration) (script : Script) (h : List Entry) (open_inputs : List Bool)
        → RunsWithFalls (IsLawfulWithFalls decl) C.fits decl script h open_inputs → IsAccepted decl
        → AllRiseFit decl h → (a : ℕ) → length h < most_steps → slice_get open_inputs a ≡ Some false
        → ActorFits (actor_after decl a (deeds a [] h)).actor }
    ensures few { (decl : Declaration) (script : Script) (h : List Entry) (open_inputs : List Bool)
        → RunsWithFalls (IsLawfulWithFalls decl) C.fits decl script h open_inputs → IsAccepted decl
        → AllRiseFit decl h → (a : ℕ) → slice_get open_inputs a ≡ Some true
        → AsksFew (actor_after decl a (deeds a [] h)).actor }
    ensures promises { (decl : Declaration) (script : Script) (h : List Entry) (open_inputs : List Bool)
        → RunsWithFalls (IsLawfulWithFalls decl) C.fits decl script h open_inputs
        → (e : Envelope) → AllRiseFit decl h → length h < most_steps → In e (mail h)
        → promise_in e.message < 2 ^ 63 }
    ensures messages { (decl : Declaration) (script : Script) (h : List Entry) (open_inputs : List Bool)
        → RunsWithFalls (IsLawfulWithFalls decl) C.fits decl script h open_inputs → IsAccepted decl
        → AllRiseFit decl h → (e : Envelope) → In e (mail h) → MessageFits e.message }
    ensures numbers { (h : List Entry) → length h < most_steps → length (mail h) + most_asks < 2 ^ 32 }
{}

/// A turn that is posted for an input has few messages, and where its record
/// isn't written at most one; all go to actors.
#[tactic(auto, using(crate::proofs::Calling::turn_short, crate::proofs::Calling::turn_failed))]
pub fn turns_are_short_with_falls<C: ConductWithFalls>()
    ensures written { (decl : Declaration) (script : Script) (h : List Entry) (open_inputs : List Bool)
        → RunsWithFalls (IsLawfulWithFalls decl) C.fits decl script h open_inputs → IsAccepted decl
        → AllRiseFit decl h → (a : ℕ) (turn : Turn) → slice_get open_inputs a ≡ Some true
        → IsLawfulWithFalls decl a (deeds a [] h) turn → IsTurnShort turn }
    ensures unwritten { (decl : Declaration) (script : Script) (h : List Entry) (open_inputs : List Bool)
        → RunsWithFalls (IsLawfulWithFalls decl) C.fits decl script h open_inputs → IsAccepted decl
        → AllRiseFit decl h → (a : ℕ) (turn : Turn) → slice_get open_inputs a ≡ Some true
        → IsLawfulWithFalls decl a (deeds a [] h) turn → IsFailedShort turn }
{}

/// What the calls of a rise ask holds of records that fit: they are few, and
/// what they promise is of clients below the most.
#[tactic(auto, using(crate::proofs::Rising::few_records, crate::proofs::Rising::promised_clients))]
pub fn records_that_fit_may_rise()
    ensures few { (decl : Declaration) (a : ℕ) (records : List Record) → AllFit decl a 0 records
        → length records < 2 ^ 32 - 2 }
    ensures clients { (decl : Declaration) (a : ℕ) (records : List Record) (p : Prepared) → IsAccepted decl
        → AllFit decl a 0 records → In (Prepare p) records → p.tx.client < most_clients }
{}

/// A rising turn asks about the first promises that its records give: it has at
/// most as many messages as there are records, and at most `most_inquiries`, all
/// to actors, and none where its record isn't written. Below the limit of steps there are numbers for them;
/// and of a command it has asked no site.
#[tactic(auto, using(crate::proofs::Rising::risen_turn_short, crate::proofs::Rising::risen_asks_few, crate::proofs::Rising::risen_numbers))]
pub fn rising_turns_are_short()
    ensures short { (decl : Declaration) (a : ℕ) (ds : List Deed) (records : List Record) (turn : Turn)
        → AllFit decl a 0 records → IsLawfulWithFalls decl a (ds ++ Rises records ∷ []) turn
        → IsRisingShort decl records turn }
    ensures few { (decl : Declaration) (a : ℕ) (ds : List Deed) (records : List Record)
        → AsksFew (actor_after decl a (ds ++ Rises records ∷ [])).actor }
    ensures numbers { (decl : Declaration) (a : ℕ) (h : List Entry) (records : List Record)
        → length h < most_steps → AllFit decl a 0 records → length (mail h) + length records < 2 ^ 32 }
{}

/// After a turn whose record is written, for an input or a rise, one call with
/// the number of its first message gives what its messages give one after
/// another.
#[tactic(auto, using(crate::proofs::AtOnce::run_sent, crate::proofs::AtOnce::risen_sent))]
pub fn requests_are_numbered_at_once_with_falls<C: ConductWithFalls>()
    ensures input { (decl : Declaration) (script : Script) (h : List Entry) (open_inputs : List Bool)
        → RunsWithFalls (IsLawfulWithFalls decl) C.fits decl script h open_inputs → IsAccepted decl
        → AllRiseFit decl h → (a : ℕ) (turn : Turn) (first : ℕ) → slice_get open_inputs a ≡ Some true
        → IsLawfulWithFalls decl a (deeds a [] h) turn
        → (actor_after decl a (deeds a [] h ++ turn_deeds first turn)).actor
        ≡ actor_sent (actor_after decl a (deeds a [] h)).actor first }
    ensures rise { (decl : Declaration) (a : ℕ) (ds : List Deed) (records : List Record) (turn : Turn) (first : ℕ)
        → IsLawfulWithFalls decl a (ds ++ Rises records ∷ []) turn
        → (actor_after decl a ((ds ++ Rises records ∷ []) ++ turn_deeds first turn)).actor
        ≡ actor_sent (actor_after decl a (ds ++ Rises records ∷ [])).actor first }
{}
