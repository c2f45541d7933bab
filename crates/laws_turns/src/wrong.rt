//! Wrong histories, each refused: the contracts of functions with nothing to do.

ghost use Rattle.std.specs.Prelude.{◌≡◌, List, [], ◌∷◌, ◌++◌};
ghost use Rattle.qc_list.specs.Members.{In};
ghost use Rattle.qc_msg.specs.Deeds.{Tells};
ghost use Rattle.qc_msg.specs.declared.message.Outcome.TheVariants.{Aborted, Active, Committed};
ghost use Rattle.qc_msg.specs.declared.reply.Reply.TheVariants as replies;
ghost use Rattle.qc_promise.specs.Deals.{dealing_in};
ghost use Rattle.qc_promise.specs.Status.{AreRight};
ghost use Rattle.qc_promise.specs.Told.{VerdictAgrees};
ghost use Rattle.laws_turns.specs.Wrong.{asks, begun, commit, committed, first, none_read, read_it, reading, says};
ghost use Rattle.laws_turns.specs.Wrong.{second, tx};

/// A transaction doesn't begin twice, has no record before it begins, no
/// second one, and none once it is given up; and no request is sent for it
/// then.
pub fn wrong_courses_are_refused()
    ensures begins_twice { AreRight tx (begun ∷ begun ∷ []) → ⊥ }
    ensures never_begun { AreRight tx (committed first ∷ []) → ⊥ }
    ensures second_record { AreRight tx (begun ∷ committed first ∷ committed second ∷ []) → ⊥ }
    ensures given_up { AreRight tx (begun ∷ Tells replies.Dropped ∷ committed first ∷ []) → ⊥ }
    ensures told_aborted { AreRight tx (begun ∷ says Aborted ∷ committed first ∷ []) → ⊥ }
    ensures asked_after { AreRight tx (begun ∷ Tells replies.Dropped ∷ asks ∷ []) → ⊥ }
{}

/// Committed isn't said without a record, nor with another stamp than the
/// record's; Aborted not of a committed one, nor of one that never began;
/// Active not of one that has ended.
pub fn wrong_verdicts_are_refused()
    ensures no_record { AreRight tx (begun ∷ says (Committed first) ∷ []) → ⊥ }
    ensures other_stamp { AreRight tx (begun ∷ committed first ∷ says (Committed second) ∷ []) → ⊥ }
    ensures committed { AreRight tx (begun ∷ committed first ∷ says Aborted ∷ []) → ⊥ }
    ensures unborn { AreRight tx (says Aborted ∷ []) → ⊥ }
    ensures ended { AreRight tx (begun ∷ committed first ∷ says Active ∷ []) → ⊥ }
    ensures unlisted { VerdictAgrees [] tx (Committed first) → ⊥ }
    ensures listed { VerdictAgrees (commit first [] ∷ []) tx Aborted → ⊥ }
{}

/// A record with another operation than its client was told, with one more, or
/// with one less isn't what was told; and an operation that was told after the
/// end is none of the transaction's.
pub fn wrong_records_are_refused()
    ensures other { none_read ∷ [] ≡ (dealing_in reading tx).ops → ⊥ }
    ensures more { read_it ∷ read_it ∷ [] ≡ (dealing_in reading tx).ops → ⊥ }
    ensures less { [] ≡ (dealing_in reading tx).ops → ⊥ }
    ensures later { read_it ∷ read_it ∷ []
        ≡ (dealing_in (reading ++ Tells replies.Dropped ∷ Tells (replies.Response 0) ∷ []) tx).ops → ⊥ }
    ensures no_end { In (replies.Committed first) (dealing_in reading tx).ends → ⊥ }
{}
