//! Laws of deeds through falls, each the contract of a function with nothing to
//! do.

ghost use Rattle.std.specs.Prelude.{ℕ, List, []};
ghost use Rattle.qc_core.specs.GivenBack.{AreGivenBack};
ghost use Rattle.qc_msg.specs.Deeds.{Deed, deeds};
ghost use Rattle.qc_msg.specs.Steps.{Entry};
ghost use Rattle.qc_promise.specs.Kept.{Kept, no_journal};
ghost use Rattle.qc_promise.specs.Status.{AreRight, Unborn};
ghost use Rattle.qc_stamp.specs.declared.stamp.TxId.{TxId};
ghost use Rattle.laws_reach.specs.Pending.{AreRightButWritten};

/// Where each rise gives back what its actor's journal holds, the deeds of the
/// actor are right for a transaction, if they are but for its written records
/// that rise: of a rise only the record that was being written is left to show.
#[tactic(auto, using(crate::proofs::Rises::what_was_written_rises_rightly))]
pub fn what_was_written_rises_rightly()
    ensures { (tx : TxId) (ds : List Deed) → AreGivenBack no_journal ds
        → AreRightButWritten tx Unborn no_journal ds → AreRight tx ds }
{}

/// So in a history whose records are kept an actor's deeds are right for a
/// transaction, if they are but for its written records that rise.
#[tactic(auto, using(crate::proofs::KeptBack::what_was_written_rises_rightly_where_records_are_kept))]
pub fn what_was_written_rises_rightly_where_records_are_kept()
    ensures { (h : List Entry) → Kept h → (a : ℕ) (tx : TxId)
        → AreRightButWritten tx Unborn no_journal (deeds a [] h) → AreRight tx (deeds a [] h) }
{}
