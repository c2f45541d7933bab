//! Wrong histories of clients, each refused.

ghost use Rattle.std.specs.Prelude.{[]};
ghost use Rattle.qc_decl.specs.One.{three};
ghost use Rattle.qc_msg.specs.Deeds.{deeds};
ghost use Rattle.qc_promise.specs.Replies.{AreRepliesDue};
ghost use Rattle.tests_due.specs.WrongReads as wrong_reads;
ghost use Rattle.tests_due.specs.WrongReplies as wrong_replies;
ghost use Rattle.tests_due.specs.WrongAppends as wrong_appends;
ghost use Rattle.tests_due.specs.WrongAsks as wrong_asks;
ghost use Rattle.tests_due.specs.WrongVotes as wrong_votes;
ghost use Rattle.tests_due.specs.WrongRecords as wrong_records;

/// These aren't due: rounds of Reads that no site, or too few, answered.
pub fn wrong_reads_are_refused()
    ensures unasked { AreRepliesDue three 0 (deeds 3 [] wrong_reads.unasked) → ⊥ }
    ensures each_conflicts { AreRepliesDue three 0 (deeds 3 [] wrong_reads.each_conflicts) → ⊥ }
    ensures each_short { AreRepliesDue three 0 (deeds 3 [] wrong_reads.each_short) → ⊥ }
    ensures one_grant { AreRepliesDue three 0 (deeds 3 [] wrong_reads.one_grant) → ⊥ }
    ensures one_site_twice { AreRepliesDue three 0 (deeds 3 [] wrong_reads.one_site_twice) → ⊥ }
    ensures another_invocation { AreRepliesDue three 0 (deeds 3 [] wrong_reads.another_invocation) → ⊥ }
    ensures another_epoch { AreRepliesDue three 0 (deeds 3 [] wrong_reads.another_epoch) → ⊥ }
    ensures earlier_answers { AreRepliesDue three 0 (deeds 3 [] wrong_reads.earlier_answers) → ⊥ }
    ensures late_answer { AreRepliesDue three 0 (deeds 3 [] wrong_reads.late_answer) → ⊥ }
    ensures short_too_early { AreRepliesDue three 1 (deeds 4 [] wrong_reads.short_too_early) → ⊥ }
    ensures short_of_open_requests { AreRepliesDue three 1 (deeds 4 [] wrong_reads.short_of_open_requests) → ⊥ }
    ensures short_of_less { AreRepliesDue three 1 (deeds 4 [] wrong_reads.short_of_less) → ⊥ }
    ensures conflict_with_another { AreRepliesDue three 1 (deeds 4 [] wrong_reads.conflict_with_another) → ⊥ }
    ensures granted_despite_a_clash { AreRepliesDue three 1 (deeds 4 [] wrong_reads.granted_despite_a_clash) → ⊥ }
{}

/// These aren't due: replies that aren't the first row's.
pub fn wrong_replies_are_refused()
    ensures absent { AreRepliesDue three 0 (deeds 3 [] wrong_replies.absent) → ⊥ }
    ensures other_response { AreRepliesDue three 0 (deeds 3 [] wrong_replies.other_response) → ⊥ }
    ensures doomed_for_nothing { AreRepliesDue three 0 (deeds 3 [] wrong_replies.doomed_for_nothing) → ⊥ }
    ensures doomed_without_an_append { AreRepliesDue three 1 (deeds 4 [] wrong_replies.doomed_without_an_append) → ⊥ }
    ensures goes_on_though_doomed { AreRepliesDue three 1 (deeds 4 [] wrong_replies.goes_on_though_doomed) → ⊥ }
    ensures too_long_at_one { AreRepliesDue three 0 (deeds 3 [] wrong_replies.too_long_at_one) → ⊥ }
    ensures told_twice { AreRepliesDue three 0 (deeds 3 [] wrong_replies.told_twice) → ⊥ }
    ensures begins_twice { AreRepliesDue three 0 (deeds 3 [] wrong_replies.begins_twice) → ⊥ }
    ensures begins_at_two { AreRepliesDue three 0 (deeds 3 [] wrong_replies.begins_at_two) → ⊥ }
    ensures drops_nothing { AreRepliesDue three 0 (deeds 3 [] wrong_replies.drops_nothing) → ⊥ }
    ensures forgets_its_transaction { AreRepliesDue three 0 (deeds 3 [] wrong_replies.forgets_its_transaction) → ⊥ }
{}

/// These aren't due: responses after Appends that lack what they are to carry.
pub fn wrong_appends_are_refused()
    ensures new_line_left_out { AreRepliesDue three 0 (deeds 3 [] wrong_appends.new_line_left_out) → ⊥ }
    ensures earlier_line_left_out { AreRepliesDue three 0 (deeds 3 [] wrong_appends.earlier_line_left_out) → ⊥ }
    ensures view_left_out { AreRepliesDue three 1 (deeds 4 [] wrong_appends.view_left_out) → ⊥ }
    ensures one_append_granted { AreRepliesDue three 0 (deeds 3 [] wrong_appends.one_append_granted) → ⊥ }
{}

/// These aren't due: requests that no round wants, replies of what isn't declared, and untold replies.
pub fn wrong_asks_are_refused()
    ensures conflict_of_a_site_too_many { AreRepliesDue three 0
        (deeds 3 [] wrong_asks.conflict_of_a_site_too_many) → ⊥ }
    ensures closed_by_a_site_too_many { AreRepliesDue three 0 (deeds 3 [] wrong_asks.closed_by_a_site_too_many) → ⊥ }
    ensures out_of_order { AreRepliesDue three 0 (deeds 3 [] wrong_asks.out_of_order) → ⊥ }
    ensures waits_for_a_site_too_many { AreRepliesDue three 0 (deeds 3 [] wrong_asks.waits_for_a_site_too_many) → ⊥ }
    ensures begin_untold { AreRepliesDue three 0 (deeds 3 [] wrong_asks.begin_untold) → ⊥ }
    ensures refusal_untold { AreRepliesDue three 1 (deeds 4 [] wrong_asks.refusal_untold) → ⊥ }
    ensures response_without_a_plan { AreRepliesDue three 0 (deeds 3 [] wrong_asks.response_without_a_plan) → ⊥ }
    ensures absent_without_a_table { AreRepliesDue three 0 (deeds 3 [] wrong_asks.absent_without_a_table) → ⊥ }
{}

/// These aren't due: commits without their votes.
pub fn wrong_votes_are_refused()
    ensures votes_for_another { AreRepliesDue three 0 (deeds 3 [] wrong_votes.votes_for_another) → ⊥ }
    ensures unvoted { AreRepliesDue three 0 (deeds 3 [] wrong_votes.unvoted) → ⊥ }
    ensures one_vote { AreRepliesDue three 0 (deeds 3 [] wrong_votes.one_vote) → ⊥ }
    ensures one_vote_open { AreRepliesDue three 0 (deeds 3 [] wrong_votes.one_vote_open) → ⊥ }
    ensures recorded_without_a_vote { AreRepliesDue three 0 (deeds 3 [] wrong_votes.recorded_without_a_vote) → ⊥ }
    ensures no_answer_though_answered { AreRepliesDue three 0 (deeds 3 [] wrong_votes.no_answer_though_answered) → ⊥ }
    ensures stranger_votes { AreRepliesDue three 0 (deeds 3 [] wrong_votes.stranger_votes) → ⊥ }
    ensures committed_though_doomed { AreRepliesDue three 1 (deeds 4 [] wrong_votes.committed_though_doomed) → ⊥ }
{}

/// These aren't due: commits without their record.
pub fn wrong_records_are_refused()
    ensures record_before_the_votes { AreRepliesDue three 0 (deeds 3 [] wrong_records.record_before_the_votes) → ⊥ }
    ensures record_missing { AreRepliesDue three 0 (deeds 3 [] wrong_records.record_missing) → ⊥ }
    ensures operation_left_out { AreRepliesDue three 0 (deeds 3 [] wrong_records.operation_left_out) → ⊥ }
    ensures recorded_twice { AreRepliesDue three 0 (deeds 3 [] wrong_records.recorded_twice) → ⊥ }
    ensures low_stamp { AreRepliesDue three 1 (deeds 4 [] wrong_records.low_stamp) → ⊥ }
    ensures aborted_though_recorded { AreRepliesDue three 0 (deeds 3 [] wrong_records.aborted_though_recorded) → ⊥ }
    ensures unknown_without_a_fall { AreRepliesDue three 0 (deeds 3 [] wrong_records.unknown_without_a_fall) → ⊥ }
    ensures committed_though_it_fell { AreRepliesDue three 0 (deeds 3 [] wrong_records.committed_though_it_fell) → ⊥ }
{}
