//! Laws, each the contract of a function with nothing to do.

ghost use Rattle.std.specs.Prelude.{◌≡◌, ◌<◌, ◌≤◌, ◌^◌, ℕ, Bool, true, List, [], ◌∷◌, ◌++◌, Some, length};
ghost use Rattle.std.specs.List.{AllByRecursion as Every};
ghost use Rattle.laws_bounds.specs.Fitting.{AllFit};
ghost use Rattle.qc_core.specs.Actors.{actor_rises};
ghost use Rattle.qc_core.specs.Conduct.{IsLawfulWithFalls};
ghost use Rattle.qc_decl.specs.Accepted.{IsAccepted};
ghost use Rattle.qc_decl.specs.Actors.{is_site};
ghost use Rattle.qc_decl.specs.Limits.{most_record_bytes};
ghost use Rattle.qc_decl.specs.declared.declaration.Declaration.{Declaration};
ghost use Rattle.qc_entry.specs.declared.record.Prepared.{Prepared};
ghost use Rattle.qc_msg.specs.Deeds.{Deed, Rises, Takes, deeds, turn_deeds};
ghost use Rattle.qc_msg.specs.Steps.{Entry};
ghost use Rattle.qc_msg.specs.declared.message.Envelope.{Envelope};
ghost use Rattle.qc_msg.specs.declared.message.Message.TheVariants.{Decision};
ghost use Rattle.qc_msg.specs.declared.message.Outcome.TheVariants.{Committed};
ghost use Rattle.qc_msg.specs.declared.record.Record.{Record};
ghost use Rattle.qc_msg.specs.declared.record.Record.TheVariants.{Done, Prepare};
ghost use Rattle.qc_msg.specs.declared.step.Input.TheVariants.{Got};
ghost use Rattle.qc_msg.specs.declared.turn.Turn.{Turn};
ghost use Rattle.qc_record.specs.Legal.{IsTx};
ghost use Rattle.qc_record.specs.Records.{is_legal, spelled};
ghost use Rattle.qc_script.specs.RunsWithFalls.{RunsWithFalls};
ghost use Rattle.qc_script.specs.Sound.{IsScriptFor};
ghost use Rattle.qc_script.specs.declared.script.Script.{Script};
ghost use Rattle.qc_stamp.specs.declared.stamp.Stamp.{Stamp};

use qc_script::ConductWithFalls;

/// Where a conduct lets only records rise that fit their actor and are legal, the
/// record of each lawful turn is legal, so that it has a spelling, and that is no
/// longer than a journal's record may be: of a turn for an input, below 2^31
/// steps, and of a rising one. Nobody's records need to be kept.
pub fn records_of_lawful_turns_have_spellings<C: ConductWithFalls>()
    ensures input { (decl : Declaration) (script : Script) → IsAccepted decl → IsScriptFor decl script
        → ((a : ℕ) (records : List Record) → C.fits a records
        → AllFit decl a 0 records × Every (λ (r : Record). is_legal r ≡ true) records)
        → (h : List Entry) (open_inputs : List Bool)
        → RunsWithFalls (IsLawfulWithFalls decl) C.fits decl script h open_inputs → length h < 2 ^ 31
        → (a : ℕ) (turn : Turn) (r : Record) → IsLawfulWithFalls decl a (deeds a [] h) turn → turn.write ≡ Some r
        → (is_legal r ≡ true) × (length (spelled r) ≤ most_record_bytes) }
    ensures rise { (decl : Declaration) (a : ℕ) (ds : List Deed) (records : List Record) (turn : Turn) (r : Record)
        → IsLawfulWithFalls decl a (ds ++ Rises records ∷ []) turn → turn.write ≡ Some r
        → (is_legal r ≡ true) × (length (spelled r) ≤ most_record_bytes) }
{}

/// That what rises is legal is needed: a site that rises with a promise, and then
/// learns that its transaction committed, writes this; which is legal only where
/// the transaction in the promise is.
pub fn what_rises_has_to_be_legal()
    ensures { (decl : Declaration) (a : ℕ) (ds : List Deed) (p : Prepared) (first : ℕ) (e : Envelope) (stamp : Stamp)
        (turn : Turn)
        → is_site decl a ≡ true → e.message ≡ Decision p.tx (Committed stamp)
        → IsLawfulWithFalls decl a
        (((ds ++ Rises (Prepare p ∷ []) ∷ []) ++ turn_deeds first (actor_rises decl a (Prepare p ∷ [])).turn)
        ++ Takes (Got e) ∷ []) turn
        → (turn.write ≡ Some (Done p.tx stamp.clock)) × (is_legal (Done p.tx stamp.clock) ≡ true → IsTx p.tx) }
{}
