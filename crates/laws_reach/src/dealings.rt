//! Laws of a client's deeds, each the contract of a function with nothing to do.

ghost use Rattle.qc_core.specs.Journals.{journal_after};
ghost use Rattle.qc_core.specs.GivenBack.{AreGivenBack};
ghost use Rattle.laws_reach.specs.Ends.{AreCommitsTold, HasRecord, IsToldOf};
ghost use Rattle.qc_decl.specs.declared.declaration.Declaration.{Declaration};
ghost use Rattle.qc_entry.specs.declared.record.Commit.{Commit as CommitRecord};
ghost use Rattle.qc_list.specs.Members.{In};
ghost use Rattle.qc_msg.specs.Deeds.{Deed};
ghost use Rattle.qc_msg.specs.declared.record.Record.TheVariants.{Commit};
ghost use Rattle.qc_msg.specs.declared.reply.Reply.{Reply};
ghost use Rattle.qc_msg.specs.declared.reply.Reply.TheVariants as replies;
ghost use Rattle.qc_msg.specs.declared.reply.AbortCause.{AbortCause};
ghost use Rattle.qc_promise.specs.Deals.{dealing_in};
ghost use Rattle.qc_promise.specs.Kept.{no_journal};
ghost use Rattle.qc_promise.specs.Replies.{AreRepliesDue};
ghost use Rattle.qc_promise.specs.Turns.{AreByTurns};
ghost use Rattle.qc_stamp.specs.declared.stamp.Stamp.{Stamp};
ghost use Rattle.qc_stamp.specs.declared.stamp.TxId.{TxId};
ghost use Rattle.std.specs.Prelude.{◌≡◌, ◌≢◌, ℕ, false, List};

/// Where a client's deeds are by turns and due, and each rise gives back what its
/// journal has, each commit record of the journal has just the operations that
/// the client was told for its transaction, through all falls and rises.
#[tactic(auto, using(crate::proofs::Deeds::records_have_what_deeds_told))]
pub fn records_have_what_deeds_told()
    ensures { (decl : Declaration) (c : CommitRecord) (client : ℕ) (ds : List Deed)
        → AreByTurns false ds → AreRepliesDue decl client ds → AreGivenBack no_journal ds
        → In (Commit c) (journal_after ds).records → c.ops ≡ (dealing_in ds c.tx).ops }
{}

/// Where also each commit record that is written is told in its post, the client
/// was told Committed only of a transaction that has a record with that stamp in
/// the journal; and of each record there it was told Committed with the stamp, or
/// Unknown, through all falls and rises.
#[tactic(auto, using(crate::proofs::EndLaws::ends_committed, crate::proofs::EndLaws::records_told))]
pub fn committed_ends_agree_with_records()
    ensures committed { (decl : Declaration) (client : ℕ) (ds : List Deed)
        → AreByTurns false ds → AreRepliesDue decl client ds → AreGivenBack no_journal ds → AreCommitsTold ds
        → (tx : TxId) (stamp : Stamp) → In (replies.Committed stamp) (dealing_in ds tx).ends
        → HasRecord (journal_after ds).records tx stamp }
    ensures each { (decl : Declaration) (client : ℕ) (ds : List Deed)
        → AreByTurns false ds → AreRepliesDue decl client ds → AreGivenBack no_journal ds → AreCommitsTold ds
        → (c : CommitRecord) → In (Commit c) (journal_after ds).records
        → IsToldOf c (dealing_in ds c.tx).ends }
{}

/// There it was told Aborted or Dropped only of a transaction without a record.
#[tactic(auto, using(crate::proofs::EndLaws::ends_aborted, crate::proofs::EndLaws::ends_dropped))]
pub fn given_up_transactions_have_no_records()
    ensures aborted { (decl : Declaration) (client : ℕ) (ds : List Deed)
        → AreByTurns false ds → AreRepliesDue decl client ds → AreGivenBack no_journal ds → AreCommitsTold ds
        → (tx : TxId) (why : AbortCause) (c : CommitRecord) → In (replies.Aborted why) (dealing_in ds tx).ends
        → In (Commit c) (journal_after ds).records → c.tx ≢ tx }
    ensures dropped { (decl : Declaration) (client : ℕ) (ds : List Deed)
        → AreByTurns false ds → AreRepliesDue decl client ds → AreGivenBack no_journal ds → AreCommitsTold ds
        → (tx : TxId) (c : CommitRecord) → In replies.Dropped (dealing_in ds tx).ends
        → In (Commit c) (journal_after ds).records → c.tx ≢ tx }
{}

/// There a client has records of its own transactions alone, and is told of the
/// ends of its own alone.
#[tactic(auto, using(crate::proofs::EndLaws::records_own, crate::proofs::EndLaws::ends_own))]
pub fn records_and_ends_are_their_clients()
    ensures records { (decl : Declaration) (client : ℕ) (ds : List Deed)
        → AreByTurns false ds → AreRepliesDue decl client ds → AreGivenBack no_journal ds → AreCommitsTold ds
        → (c : CommitRecord) → In (Commit c) (journal_after ds).records → c.tx.client ≡ client }
    ensures ends { (decl : Declaration) (client : ℕ) (ds : List Deed)
        → AreByTurns false ds → AreRepliesDue decl client ds → AreGivenBack no_journal ds → AreCommitsTold ds
        → (tx : TxId) (r : Reply) → In r (dealing_in ds tx).ends → tx.client ≡ client }
{}
