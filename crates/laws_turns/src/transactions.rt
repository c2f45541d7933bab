//! Laws of what becomes of transactions, over every run, each the contract of a
//! function with nothing to do.

ghost use Rattle.std.specs.Prelude.{◌≡◌, ◌<◌, ℕ, Bool, true, List, [], AllPairs};
ghost use Rattle.qc_core.specs.Conduct.{IsLawful};
ghost use Rattle.qc_decl.specs.Accepted.{IsAccepted};
ghost use Rattle.qc_decl.specs.Actors.{is_client};
ghost use Rattle.qc_decl.specs.declared.declaration.Declaration.{Declaration};
ghost use Rattle.qc_entry.specs.declared.record.Commit.{Commit};
ghost use Rattle.qc_list.specs.Members.{In};
ghost use Rattle.qc_msg.specs.Deeds.{deeds, mail};
ghost use Rattle.qc_msg.specs.Steps.{Entry};
ghost use Rattle.qc_msg.specs.declared.message.Envelope.{Envelope};
ghost use Rattle.qc_promise.specs.Committed.{committed};
ghost use Rattle.qc_promise.specs.Status.{AreRight};
ghost use Rattle.qc_promise.specs.Told.{DecisionAgrees};
ghost use Rattle.laws_turns.specs.Written.{written_in};
ghost use Rattle.qc_script.specs.Runs.{Runs};
ghost use Rattle.qc_script.specs.declared.script.Script.{Script};
ghost use Rattle.qc_stamp.specs.declared.stamp.TxId.{TxId};

/// A transaction begins once, under a name that no other had. Requests are
/// sent for it, and its record is written, only while it is begun. Sites are
/// told that it committed, with its stamp, only once it has; that it aborted
/// only while it is begun, or once it is given up; that it is active only while
/// it is begun.
#[tactic(auto, using(crate::proofs::DecisionLaws::transactions_move_on))]
pub fn transactions_move_on()
    ensures { (decl : Declaration) (script : Script) (h : List Entry) (open_inputs : List Bool)
        → IsAccepted decl → Runs (IsLawful decl) decl script h open_inputs
        → (a : ℕ) → is_client decl a ≡ true → (tx : TxId) → AreRight tx (deeds a [] h) }
{}

/// Each Decision that anybody is sent agrees with the records: Committed is
/// said with the stamp of a record, Aborted only of a transaction that has none
/// and never gets one.
#[tactic(auto, using(crate::proofs::DecisionLaws::decisions_agree_with_records))]
pub fn decisions_agree_with_records()
    ensures { (decl : Declaration) (script : Script) (h : List Entry) (open_inputs : List Bool)
        → IsAccepted decl → Runs (IsLawful decl) decl script h open_inputs
        → (e : Envelope) → In e (mail h) → DecisionAgrees (committed decl h) e.message }
{}

/// The stamps of a client's records rise.
pub fn stamps_rise()
    ensures { (decl : Declaration) (script : Script) (h : List Entry) (open_inputs : List Bool)
        → IsAccepted decl → Runs (IsLawful decl) decl script h open_inputs
        → (a : ℕ) → is_client decl a ≡ true
        → AllPairs (λ (c d : Commit). c.stamp.clock < d.stamp.clock) (written_in (deeds a [] h)) }
{}
