//! Wrong histories with falls, each refused, and right ones: the contracts of
//! functions with nothing to do.

ghost use Rattle.std.specs.Prelude.{◌≡◌, ℕ, true, [], ◌∷◌};
ghost use Rattle.qc_decl.specs.Actors.{client_actor, is_client};
ghost use Rattle.qc_entry.specs.declared.record.Commit.{Commit};
ghost use Rattle.qc_list.specs.Members.{In};
ghost use Rattle.qc_msg.specs.declared.record.Record.TheVariants as records;
ghost use Rattle.qc_promise.specs.Atomic.{IsAfterSeen};
ghost use Rattle.qc_promise.specs.Committed.{committed};
ghost use Rattle.qc_promise.specs.Seen.{seen};
ghost use Rattle.laws_reach.specs.Standing.{records_of};
ghost use Rattle.laws_atomic.specs.Wrong.{decl, first, theirs};
ghost use Rattle.laws_reach.specs.WrongSight.{anew, asked_before, record_pending, rises_with_others};
ghost use Rattle.laws_reach.specs.WrongSight.{shown_anew, shown_before, told_before};

/// A client that rose doesn't commit below what it was told in its former life,
/// nor below a line that a grant of its present life showed; nor does it rise
/// with a record that was being written below what it had seen then. And no
/// record stands with another client than its transaction's.
pub fn wrong_orders_through_falls_are_refused()
    ensures below_told { IsAfterSeen decl (committed decl (told_before 4)) (told_before 4) → ⊥ }
    ensures below_line { IsAfterSeen decl (committed decl (shown_anew 4)) (shown_anew 4) → ⊥ }
    ensures below_pending { IsAfterSeen decl (committed decl (record_pending 4)) (record_pending 4) → ⊥ }
    ensures of_another { ((a : ℕ) (c : Commit) → is_client decl a ≡ true
        → In (records.Commit c) (records_of rises_with_others a) → client_actor decl c.tx.client ≡ a) → ⊥ }
{}

/// Above that each is right. A line that was shown in a former life isn't seen,
/// nor is one that comes in a grant to a request of a former life, so a record
/// may be below it.
pub fn right_orders_through_falls_are_taken()
    ensures told_is_seen { seen decl (told_before 6) anew ≡ first ∷ [] }
    ensures above_told { IsAfterSeen decl (committed decl (told_before 6)) (told_before 6) }
    ensures shown_is_seen { seen decl (shown_anew 6) anew ≡ theirs ∷ [] }
    ensures above_line { IsAfterSeen decl (committed decl (shown_anew 6)) (shown_anew 6) }
    ensures shown_is_seen_by_pending { seen decl (record_pending 6) first ≡ theirs ∷ [] }
    ensures above_pending { IsAfterSeen decl (committed decl (record_pending 6)) (record_pending 6) }
    ensures shown_before_is_unseen { seen decl shown_before anew ≡ [] }
    ensures below_shown_before { IsAfterSeen decl (committed decl shown_before) shown_before }
    ensures asked_before_is_unseen { seen decl asked_before anew ≡ [] }
    ensures below_asked_before { IsAfterSeen decl (committed decl asked_before) asked_before }
{}
