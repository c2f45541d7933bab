//! Wrong deeds of a client with falls, each refused.

ghost use Rattle.qc_decl.specs.One.{three};
ghost use Rattle.qc_promise.specs.Replies.{AreRepliesDue};
ghost use Rattle.qc_promise.specs.Status.{AreRight};
ghost use Rattle.tests_client_falls.specs.Words.{tx};
ghost use Rattle.tests_client_falls.specs.WrongLives as wrong_lives;
ghost use Rattle.tests_client_falls.specs.WrongRecords as wrong_records;
ghost use Rattle.tests_client_falls.specs.WrongVerdicts as wrong_verdicts;

/// None of these is due: what a client goes on with after a fall, under which
/// name it begins, and what it tells while it is down.
pub fn wrong_lives_are_refused()
    ensures goes_on_with_its_transaction_after_a_fall { AreRepliesDue three 0
        wrong_lives.goes_on_with_its_transaction_after_a_fall → ⊥ }
    ensures is_told_response_of_a_do_that_it_called_before_its_fall { AreRepliesDue three 0
        wrong_lives.is_told_response_of_a_do_that_it_called_before_its_fall → ⊥ }
    ensures begins_a_name_of_life_1_after_its_rise { AreRepliesDue three 0
        wrong_lives.begins_a_name_of_life_1_after_its_rise → ⊥ }
    ensures begins_the_same_name_again_after_its_rise { AreRepliesDue three 0
        wrong_lives.begins_the_same_name_again_after_its_rise → ⊥ }
    ensures counts_on_from_the_number_before_its_rise { AreRepliesDue three 0
        wrong_lives.counts_on_from_the_number_before_its_rise → ⊥ }
    ensures begins_life_3_after_one_rise { AreRepliesDue three 0 wrong_lives.begins_life_3_after_one_rise → ⊥ }
    ensures its_clock_begins_at_0_its_stamp_comes_twice { AreRepliesDue three 0
        wrong_lives.its_clock_begins_at_0_its_stamp_comes_twice → ⊥ }
    ensures its_clock_counts_on_what_grants_showed_before_its_fall { AreRepliesDue three 0
        wrong_lives.its_clock_counts_on_what_grants_showed_before_its_fall → ⊥ }
    ensures asks_in_epoch_2_after_its_rise_and_is_told_quorum { AreRepliesDue three 0
        wrong_lives.asks_in_epoch_2_after_its_rise_and_is_told_quorum → ⊥ }
    ensures counts_answers_to_what_it_asked_before_its_fall { AreRepliesDue three 0
        wrong_lives.counts_answers_to_what_it_asked_before_its_fall → ⊥ }
    ensures is_told_down_while_it_is_up { AreRepliesDue three 0 wrong_lives.is_told_down_while_it_is_up → ⊥ }
    ensures is_told_notransaction_while_it_is_down { AreRepliesDue three 0
        wrong_lives.is_told_notransaction_while_it_is_down → ⊥ }
    ensures is_told_dropped_while_it_is_down { AreRepliesDue three 0 wrong_lives.is_told_dropped_while_it_is_down → ⊥ }
    ensures begins_while_it_is_down { AreRepliesDue three 0 wrong_lives.begins_while_it_is_down → ⊥ }
    ensures a_begin_that_was_told_down_counts { AreRepliesDue three 0 wrong_lives.a_begin_that_was_told_down_counts
        → ⊥ }
    ensures is_told_already_of_its_former_life { AreRepliesDue three 0
        wrong_lives.is_told_already_of_its_former_life → ⊥ }
    ensures is_told_dropped_of_its_former_life { AreRepliesDue three 0
        wrong_lives.is_told_dropped_of_its_former_life → ⊥ }
    ensures is_called_while_a_command_runs { AreRepliesDue three 0 wrong_lives.is_called_while_a_command_runs → ⊥ }
{}

/// None of these is due: Unknown and what is pending, records of a former
/// life, and what a client does as it rises.
pub fn wrong_records_are_refused()
    ensures is_told_unknown_with_the_record_written { AreRepliesDue three 0
        wrong_records.is_told_unknown_with_the_record_written → ⊥ }
    ensures is_told_unknown_with_nothing_pending { AreRepliesDue three 0
        wrong_records.is_told_unknown_with_nothing_pending → ⊥ }
    ensures is_told_unknown_with_another_stamp_pending { AreRepliesDue three 0
        wrong_records.is_told_unknown_with_another_stamp_pending → ⊥ }
    ensures is_told_unknown_with_another_list_of_operations_pending { AreRepliesDue three 0
        wrong_records.is_told_unknown_with_another_list_of_operations_pending → ⊥ }
    ensures is_told_unknown_with_a_life_record_pending { AreRepliesDue three 0
        wrong_records.is_told_unknown_with_a_life_record_pending → ⊥ }
    ensures is_told_unknown_and_goes_on { AreRepliesDue three 0 wrong_records.is_told_unknown_and_goes_on → ⊥ }
    ensures is_told_unknown_and_falls_by_the_script { AreRepliesDue three 0
        wrong_records.is_told_unknown_and_falls_by_the_script → ⊥ }
    ensures is_told_committed_and_falls_as_it_writes { AreRepliesDue three 0
        wrong_records.is_told_committed_and_falls_as_it_writes → ⊥ }
    ensures is_told_aborted_and_falls_as_it_writes { AreRepliesDue three 0
        wrong_records.is_told_aborted_and_falls_as_it_writes → ⊥ }
    ensures writes_its_record_and_falls_as_it_writes_another_of_the_transaction { AreRepliesDue three 0
        wrong_records.writes_its_record_and_falls_as_it_writes_another_of_the_transaction → ⊥ }
    ensures writes_a_record_of_a_transaction_whose_pending_one_rose { AreRepliesDue three 0
        wrong_records.writes_a_record_of_a_transaction_whose_pending_one_rose → ⊥ }
    ensures writes_a_record_of_a_transaction_of_its_former_life { AreRepliesDue three 0
        wrong_records.writes_a_record_of_a_transaction_of_its_former_life → ⊥ }
    ensures sends_as_it_rises { AreRepliesDue three 0 wrong_records.sends_as_it_rises → ⊥ }
    ensures rises_and_writes_no_life { AreRepliesDue three 0 wrong_records.rises_and_writes_no_life → ⊥ }
    ensures writes_life_twice { AreRepliesDue three 0 wrong_records.writes_life_twice → ⊥ }
    ensures writes_a_promise { AreRepliesDue three 0 wrong_records.writes_a_promise → ⊥ }
{}

/// None of these is right: what a client answers of a transaction of its
/// former life.
pub fn wrong_verdicts_are_refused()
    ensures answers_aborted_of_a_record_that_rose { AreRight
        (tx 0 1 1) wrong_verdicts.answers_aborted_of_a_record_that_rose → ⊥ }
    ensures answers_committed_of_a_record_that_did_not_rise { AreRight
        (tx 0 1 1) wrong_verdicts.answers_committed_of_a_record_that_did_not_rise → ⊥ }
    ensures answers_aborted_of_the_pending_record_that_rose { AreRight
        (tx 0 1 1) wrong_verdicts.answers_aborted_of_the_pending_record_that_rose → ⊥ }
    ensures answers_active_of_what_it_had_begun_before_its_fall { AreRight
        (tx 0 1 1) wrong_verdicts.answers_active_of_what_it_had_begun_before_its_fall → ⊥ }
{}
