//! Wrong courses through falls, each refused, and right ones: the contracts of
//! functions with nothing to do.

ghost use Rattle.std.specs.List.{AllPairs, filter_map};
ghost use Rattle.std.specs.Prelude.{◌≡◌, ◌≢◌, ◌<◌, ◌↔◌, List, [], ◌∷◌, ◌++◌, option_to_list};
ghost use Rattle.qc_core.specs.Journals.{journal_after};
ghost use Rattle.qc_decl.specs.Actors.{client_actor};
ghost use Rattle.qc_decl.specs.One.{three};
ghost use Rattle.qc_entry.specs.declared.record.Commit.{Commit};
ghost use Rattle.qc_msg.specs.Counts.{commit_of};
ghost use Rattle.qc_msg.specs.Deeds.{Deed, Takes, Tells};
ghost use Rattle.qc_msg.specs.declared.message.Envelope.{Envelope};
ghost use Rattle.qc_msg.specs.declared.message.Message.TheVariants.{Inquiry};
ghost use Rattle.qc_msg.specs.declared.message.Outcome.TheVariants.{Aborted, Active, Committed};
ghost use Rattle.qc_msg.specs.declared.reply.Reply.TheVariants.{Dropped};
ghost use Rattle.qc_msg.specs.declared.step.Input.TheVariants.{Got};
ghost use Rattle.qc_promise.specs.Status.{AreRight, HasEnded, status};
ghost use Rattle.qc_promise.specs.Status as so_far;
ghost use Rattle.laws_turns.specs.Wrong.{asks, begun, committed, first, says, second, tx};
ghost use Rattle.qc_stamp.specs.declared.stamp.TxId.{TxId};
ghost use Rattle.laws_reach.specs.Agreement.{AgreeOnVerdicts};
ghost use Rattle.laws_reach.specs.Recorded.{IsRecorded};
ghost use Rattle.laws_reach.specs.WrongVerdicts.{anew, begins_anew, crashes, falls_rising, falls_writing, is_asked};
ghost use Rattle.laws_reach.specs.WrongVerdicts.{lives};
ghost use Rattle.laws_reach.specs.WrongVerdicts.{recorded, rises, told};

/// A transaction that its client's fall ended doesn't begin again, asks nothing
/// more and gets no record in a later life; nor does one begin again that
/// committed. No record rises of one that never began, nor another than was
/// written; and one that an earlier rise didn't give doesn't rise later.
pub fn wrong_courses_through_falls_are_refused()
    ensures begins_again { AreRight tx (begun ∷ crashes ∷ rises [] ∷ lives ∷ begun ∷ []) → ⊥ }
    ensures begins_once_committed { AreRight tx
        (begun ∷ committed first ∷ crashes ∷ rises (recorded first ∷ []) ∷ lives ∷ begun ∷ []) → ⊥ }
    ensures asks_on { AreRight tx (begun ∷ crashes ∷ rises [] ∷ lives ∷ asks ∷ []) → ⊥ }
    ensures written_in_a_later_life { AreRight tx (begun ∷ crashes ∷ rises [] ∷ lives ∷ committed first ∷ []) → ⊥ }
    ensures never_begun { AreRight tx (crashes ∷ rises (recorded first ∷ []) ∷ []) → ⊥ }
    ensures another_rises { AreRight tx (begun ∷ committed first ∷ crashes ∷ rises (recorded second ∷ []) ∷ []) → ⊥ }
    ensures rises_too_late { AreRight tx
        (begun ∷ falls_writing first ∷ rises [] ∷ falls_rising ∷ rises (recorded first ∷ []) ∷ []) → ⊥ }
{}

/// After a rise Committed isn't said without the record, nor with another stamp
/// than the record's; Aborted not where the record rose, be it that it had been
/// written or was being written, nor of a transaction that never began; Active
/// of none that had begun before. And no two sites are told differently.
pub fn wrong_verdicts_through_falls_are_refused()
    ensures no_record { AreRight tx
        (begun ∷ falls_writing first ∷ rises [] ∷ lives ∷ says (Committed first) ∷ []) → ⊥ }
    ensures other_stamp { AreRight tx
        (begun ∷ falls_writing first ∷ rises (recorded first ∷ []) ∷ lives ∷ says (Committed second) ∷ []) → ⊥ }
    ensures pending_rose { AreRight tx
        (begun ∷ falls_writing first ∷ rises (recorded first ∷ []) ∷ lives ∷ says Aborted ∷ []) → ⊥ }
    ensures written_rose { AreRight tx
        (begun ∷ committed first ∷ crashes ∷ rises (recorded first ∷ []) ∷ lives ∷ says Aborted ∷ []) → ⊥ }
    ensures unborn { AreRight tx (crashes ∷ rises [] ∷ lives ∷ says Aborted ∷ []) → ⊥ }
    ensures differ { AgreeOnVerdicts (told 0 (Committed first) ∷ told 1 Aborted ∷ []) → ⊥ }
    ensures stamps_differ { AgreeOnVerdicts (told 0 (Committed first) ∷ told 1 (Committed second) ∷ []) → ⊥ }
    ensures active { AreRight tx (begun ∷ crashes ∷ rises [] ∷ lives ∷ says Active ∷ []) → ⊥ }
{}

/// A client's stamps don't fall, nor is the record that is being written below
/// those before; no committed transaction is without its record, as where one
/// was lost; none that ended turns; none begins at another client, and none is
/// asked about before it begins.
pub fn wrong_records_through_falls_are_refused()
    ensures stamps_fall { AllPairs (λ (c d : Commit). c.stamp.clock < d.stamp.clock)
        (filter_map commit_of (journal_after (committed second ∷ committed first ∷ [])).records) → ⊥ }
    ensures pending_below { AllPairs (λ (c d : Commit). c.stamp.clock < d.stamp.clock)
        (filter_map commit_of ((journal_after (committed second ∷ falls_writing first ∷ [])).records
        ++ option_to_list (journal_after (committed second ∷ falls_writing first ∷ [])).pending)) → ⊥ }
    ensures lost { ((status (begun ∷ committed first ∷ crashes ∷ rises [] ∷ []) tx ≡ so_far.Committed first)
        ↔ IsRecorded tx first (journal_after (begun ∷ committed first ∷ crashes ∷ rises [] ∷ [])).records) → ⊥ }
    ensures of_another { (status (begun ∷ []) tx ≢ so_far.Unborn
        → client_actor three tx.client ≡ client_actor three 1) → ⊥ }
    ensures turned { (HasEnded (status (begun ∷ Tells Dropped ∷ []) tx)
        → status (begun ∷ Tells Dropped ∷ committed first ∷ []) tx ≡ status (begun ∷ Tells Dropped ∷ []) tx) → ⊥ }
    ensures asked_too_early { ((before later : List Deed) (e : Envelope) (t : TxId)
        → before ++ Takes (Got e) ∷ later ≡ is_asked ∷ begun ∷ [] → e.message ≡ Inquiry t
        → status before t ≢ so_far.Unborn) → ⊥ }
{}

/// Near to these: what a fall ended is said to be aborted; where its record
/// rose it committed, be it that it had been written or was being written, and
/// however often its client fell again as it rose; where that was lost it is
/// aborted. And a name of the new life begins.
pub fn right_courses_through_falls_are_taken()
    ensures given_up { AreRight tx (begun ∷ crashes ∷ rises [] ∷ lives ∷ says Aborted ∷ []) }
    ensures written_rose { AreRight tx (begun ∷ committed first ∷ says (Committed first) ∷ crashes
        ∷ rises (recorded first ∷ []) ∷ lives ∷ says (Committed first) ∷ []) }
    ensures pending_rose { AreRight tx
        (begun ∷ falls_writing first ∷ rises (recorded first ∷ []) ∷ lives ∷ says (Committed first) ∷ []) }
    ensures pending_lost { AreRight tx (begun ∷ falls_writing first ∷ rises [] ∷ lives ∷ says Aborted ∷ []) }
    ensures rises_in_vain { AreRight tx (begun ∷ falls_writing first ∷ rises (recorded first ∷ []) ∷ falls_rising
        ∷ rises (recorded first ∷ []) ∷ lives ∷ says (Committed first) ∷ []) }
    ensures agreed { AgreeOnVerdicts (told 0 (Committed first) ∷ told 1 Active ∷ told 1 (Committed first) ∷ []) }
    ensures begins_anew { AreRight anew (begun ∷ crashes ∷ rises [] ∷ lives ∷ begins_anew ∷ []) }
    ensures recorded { (status (begun ∷ falls_writing first ∷ rises (recorded first ∷ []) ∷ []) tx
        ≡ so_far.Committed first)
        ↔ IsRecorded tx first (journal_after (begun ∷ falls_writing first ∷ rises (recorded first ∷ []) ∷ [])).records }
{}
