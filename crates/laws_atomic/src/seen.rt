//! Laws of every run of a script, each the contract of a function with nothing
//! to do.

ghost use Rattle.std.specs.Prelude.{◌≡◌, Bool, List};
ghost use Rattle.qc_core.specs.Conduct.{IsLawful};
ghost use Rattle.qc_decl.specs.Accepted.{IsAccepted};
ghost use Rattle.qc_decl.specs.declared.declaration.Declaration.{Declaration};
ghost use Rattle.qc_msg.specs.Counts.{written};
ghost use Rattle.qc_msg.specs.Steps.{Entry};
ghost use Rattle.qc_promise.specs.Atomic.{Atomic, IsAfterSeen};
ghost use Rattle.qc_promise.specs.Committed.{committed, records};
ghost use Rattle.qc_promise.specs.Kept.{Kept};
ghost use Rattle.qc_script.specs.Runs.{Runs};
ghost use Rattle.qc_script.specs.Sound.{IsScriptFor};
ghost use Rattle.qc_script.specs.declared.script.Script.{Script};

/// Only clients write commit records: those of a run are its clients'.
#[tactic(auto, using(crate::proofs::Records::clients_alone_write_records))]
pub fn clients_alone_write_records()
    ensures { (decl : Declaration) (script : Script) (h : List Entry) (open_inputs : List Bool)
        → Runs (IsLawful decl) decl script h open_inputs → records decl h ≡ written h }
{}

/// Each committed transaction comes after all that its client had seen: each
/// transaction with a line in a grant that counted, or that the client was told
/// committed, before it began or until it ended, has a record with a smaller
/// stamp.
#[tactic(auto, using(crate::proofs::SeenLaw::records_follow_what_was_seen))]
pub fn records_follow_what_was_seen()
    ensures { (decl : Declaration) (script : Script) (h : List Entry) (open_inputs : List Bool)
        → IsAccepted decl → IsScriptFor decl script → Runs (IsLawful decl) decl script h open_inputs
        → IsAfterSeen decl (committed decl h) h }
{}

/// Every run of a script is atomic; so it is where each actor's records are
/// kept.
#[tactic(auto, using(crate::proofs::SeenLaw::runs_are_atomic))]
pub fn runs_are_atomic()
    ensures all { (decl : Declaration) (script : Script) (h : List Entry) (open_inputs : List Bool) → IsAccepted decl
        → IsScriptFor decl script → Runs (IsLawful decl) decl script h open_inputs → Atomic decl h }
    ensures kept { (decl : Declaration) (script : Script) (h : List Entry) (open_inputs : List Bool) → IsAccepted decl
        → IsScriptFor decl script → Runs (IsLawful decl) decl script h open_inputs → Kept h → Atomic decl h }
{}
