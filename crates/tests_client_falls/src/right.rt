//! Right deeds of a client with falls, near to the wrong ones.

ghost use Rattle.qc_decl.specs.One.{three};
ghost use Rattle.qc_promise.specs.Replies.{AreRepliesDue};
ghost use Rattle.qc_promise.specs.Status.{AreRight};
ghost use Rattle.tests_client_falls.specs.RightLives as right_lives;
ghost use Rattle.tests_client_falls.specs.Words.{tx};

/// All of these deeds are due.
pub fn right_lives_are_due()
    ensures begins_2_1_after_its_rise { AreRepliesDue three 0 right_lives.begins_2_1_after_its_rise }
    ensures its_next_stamp_is_above_those_of_its_records { AreRepliesDue three 0
        right_lives.its_next_stamp_is_above_those_of_its_records }
    ensures counts_answers_to_what_it_asked_since { AreRepliesDue three 0
        right_lives.counts_answers_to_what_it_asked_since }
    ensures answers_committed_of_a_record_that_rose { AreRepliesDue three 0
        right_lives.answers_committed_of_a_record_that_rose }
    ensures answers_aborted_of_a_record_that_did_not_rise { AreRepliesDue three 0
        right_lives.answers_aborted_of_a_record_that_did_not_rise }
    ensures answers_committed_of_the_pending_record_that_rose { AreRepliesDue three 0
        right_lives.answers_committed_of_the_pending_record_that_rose }
    ensures is_told_down_while_it_is_down { AreRepliesDue three 0 right_lives.is_told_down_while_it_is_down }
    ensures a_begin_that_was_told_down_does_not_count { AreRepliesDue three 0
        right_lives.a_begin_that_was_told_down_does_not_count }
    ensures is_told_unknown_and_falls_as_it_writes { AreRepliesDue three 0
        right_lives.is_told_unknown_and_falls_as_it_writes }
    ensures a_record_that_was_pending_rises_it_committed { AreRepliesDue three 0
        right_lives.a_record_that_was_pending_rises_it_committed }
    ensures it_rises_twice_it_committed_once { AreRepliesDue three 0 right_lives.it_rises_twice_it_committed_once }
    ensures it_does_not_rise_it_did_not_commit { AreRepliesDue three 0 right_lives.it_does_not_rise_it_did_not_commit }
    ensures the_pending_record_stays_pending_while_the_journal_is_not_opened { AreRepliesDue three 0
        right_lives.the_pending_record_stays_pending_while_the_journal_is_not_opened }
    ensures what_was_shown_in_a_former_life_is_not_seen { AreRepliesDue three 0
        right_lives.what_was_shown_in_a_former_life_is_not_seen }
    ensures a_reader_sees_what_rose { AreRepliesDue three 0 right_lives.a_reader_sees_what_rose }
{}

/// And they are right for the first transaction.
pub fn right_lives_are_right()
    ensures begins_2_1_after_its_rise { AreRight (tx 0 1 1) right_lives.begins_2_1_after_its_rise }
    ensures its_next_stamp_is_above_those_of_its_records { AreRight
        (tx 0 1 1) right_lives.its_next_stamp_is_above_those_of_its_records }
    ensures counts_answers_to_what_it_asked_since { AreRight
        (tx 0 1 1) right_lives.counts_answers_to_what_it_asked_since }
    ensures answers_committed_of_a_record_that_rose { AreRight
        (tx 0 1 1) right_lives.answers_committed_of_a_record_that_rose }
    ensures answers_aborted_of_a_record_that_did_not_rise { AreRight
        (tx 0 1 1) right_lives.answers_aborted_of_a_record_that_did_not_rise }
    ensures answers_committed_of_the_pending_record_that_rose { AreRight
        (tx 0 1 1) right_lives.answers_committed_of_the_pending_record_that_rose }
    ensures is_told_down_while_it_is_down { AreRight (tx 0 1 1) right_lives.is_told_down_while_it_is_down }
    ensures a_begin_that_was_told_down_does_not_count { AreRight
        (tx 0 1 1) right_lives.a_begin_that_was_told_down_does_not_count }
    ensures is_told_unknown_and_falls_as_it_writes { AreRight
        (tx 0 1 1) right_lives.is_told_unknown_and_falls_as_it_writes }
    ensures a_record_that_was_pending_rises_it_committed { AreRight
        (tx 0 1 1) right_lives.a_record_that_was_pending_rises_it_committed }
    ensures it_rises_twice_it_committed_once { AreRight (tx 0 1 1) right_lives.it_rises_twice_it_committed_once }
    ensures it_does_not_rise_it_did_not_commit { AreRight (tx 0 1 1) right_lives.it_does_not_rise_it_did_not_commit }
    ensures the_pending_record_stays_pending_while_the_journal_is_not_opened { AreRight
        (tx 0 1 1) right_lives.the_pending_record_stays_pending_while_the_journal_is_not_opened }
    ensures what_was_shown_in_a_former_life_is_not_seen { AreRight
        (tx 0 1 1) right_lives.what_was_shown_in_a_former_life_is_not_seen }
    ensures a_reader_sees_what_rose { AreRight (tx 0 1 1) right_lives.a_reader_sees_what_rose }
{}
