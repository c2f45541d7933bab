//! Laws of commit records, over every run, each the contract of a function with
//! nothing to do.

ghost use Rattle.std.specs.Prelude.{Bool, List};
ghost use Rattle.qc_core.specs.Conduct.{IsLawful};
ghost use Rattle.qc_decl.specs.Accepted.{IsAccepted};
ghost use Rattle.qc_decl.specs.declared.declaration.Declaration.{Declaration};
ghost use Rattle.qc_msg.specs.Steps.{Entry};
ghost use Rattle.theory_onecopy.specs.Committed.{AreApart, IsStampedBefore};
ghost use Rattle.theory_onecopy.specs.Lists.{IsOrdered};
ghost use Rattle.qc_promise.specs.Committed.{committed};
ghost use Rattle.qc_promise.specs.Told.{AreDealt, AreTold};
ghost use Rattle.qc_script.specs.Runs.{Runs};
ghost use Rattle.qc_script.specs.declared.script.Script.{Script};

/// No two records have one stamp, or one transaction: a transaction has one
/// commit record at most. So they have an order, that of their stamps.
#[tactic(auto, using(crate::proofs::RecordLaws::apart, crate::proofs::RecordLaws::ordered))]
pub fn records_are_apart()
    ensures apart { (decl : Declaration) (script : Script) (h : List Entry) (open_inputs : List Bool)
        → IsAccepted decl → Runs (IsLawful decl) decl script h open_inputs → AreApart (committed decl h) }
    ensures ordered { (decl : Declaration) (script : Script) (h : List Entry) (open_inputs : List Bool)
        → IsAccepted decl → Runs (IsLawful decl) decl script h open_inputs
        → IsOrdered IsStampedBefore (committed decl h) }
{}

/// Records are just the operations that their clients were told, from the
/// begin of the transaction to its end.
#[tactic(auto, using(crate::proofs::RecordLaws::records_are_what_was_told))]
pub fn records_are_what_was_told()
    ensures { (decl : Declaration) (script : Script) (h : List Entry) (open_inputs : List Bool)
        → IsAccepted decl → Runs (IsLawful decl) decl script h open_inputs → AreDealt decl (committed decl h) h }
{}

/// A client is told Committed with a record's stamp, and for each record;
/// Aborted or Dropped it is told only of a transaction without one.
#[tactic(auto, using(crate::proofs::RecordLaws::clients_are_told))]
pub fn clients_are_told()
    ensures { (decl : Declaration) (script : Script) (h : List Entry) (open_inputs : List Bool)
        → IsAccepted decl → Runs (IsLawful decl) decl script h open_inputs → AreTold decl (committed decl h) h }
{}
