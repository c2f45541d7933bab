//! Sites through falls and rises: what they post is due in right ones, and each
//! wrong one is refused by what is due of that site alone.
#![tactic(auto)]

ghost use Rattle.std.specs.Prelude.{[]};
ghost use Rattle.qc_decl.specs.One.{three};
ghost use Rattle.qc_promise.specs.SiteDue.{AreDue};
ghost use Rattle.tests_lives.specs.WrongFalls as wrong_falls;
ghost use Rattle.tests_lives.specs.WrongRises as wrong_rises;
ghost use Rattle.tests_lives.specs.WrongLives as wrong_lives;
ghost use Rattle.tests_lives.specs.WrongMarks as wrong_marks;
ghost use Rattle.tests_lives.specs.RightMarks as right_marks;
ghost use Rattle.tests_lives.specs.RightRises as right_rises;
ghost use Rattle.tests_lives.specs.RightLives as right_lives;

/// These aren't due: what sites do wrong where a record isn't written, and about their falls.
pub fn wrong_falls_are_refused()
    ensures asks_and_falls { AreDue three [] wrong_falls.asks_and_falls → ⊥ }
    ensures says_fault_and_stays_up { AreDue three [] wrong_falls.says_fault_and_stays_up → ⊥ }
    ensures fails_without_fault { AreDue three [] wrong_falls.fails_without_fault → ⊥ }
    ensures stops_with_fault { AreDue three [] wrong_falls.stops_with_fault → ⊥ }
    ensures says_yes_and_falls { AreDue three [] wrong_falls.says_yes_and_falls → ⊥ }
    ensures falls_with_another_promise { AreDue three [] wrong_falls.falls_with_another_promise → ⊥ }
    ensures falls_with_nothing_pending { AreDue three [] wrong_falls.falls_with_nothing_pending → ⊥ }
    ensures writes_and_falls { AreDue three [] wrong_falls.writes_and_falls → ⊥ }
    ensures says_yes_before_its_record { AreDue three [] wrong_falls.says_yes_before_its_record → ⊥ }
    ensures posts_after_its_fall { AreDue three [] wrong_falls.posts_after_its_fall → ⊥ }
    ensures writes_after_its_fall { AreDue three [] wrong_falls.writes_after_its_fall → ⊥ }
    ensures falls_within_a_post { AreDue three [] wrong_falls.falls_within_a_post → ⊥ }
{}

/// These aren't due: what sites do wrong as they rise.
pub fn wrong_rises_are_refused()
    ensures writes_life_twice_as_it_rises { AreDue three [] wrong_rises.writes_life_twice_as_it_rises → ⊥ }
    ensures asks_nobody_about_its_promise { AreDue three [] wrong_rises.asks_nobody_about_its_promise → ⊥ }
    ensures asks_about_no_promise { AreDue three [] wrong_rises.asks_about_no_promise → ⊥ }
    ensures asks_twice { AreDue three [] wrong_rises.asks_twice → ⊥ }
    ensures asks_before_its_life_record { AreDue three [] wrong_rises.asks_before_its_life_record → ⊥ }
    ensures asks_another_client { AreDue three [] wrong_rises.asks_another_client → ⊥ }
    ensures writes_no_life { AreDue three [] wrong_rises.writes_no_life → ⊥ }
    ensures forgets_by_an_old_abort { AreDue three [] wrong_rises.forgets_by_an_old_abort → ⊥ }
    ensures pending_promise_not_seen { AreDue three [] wrong_rises.pending_promise_not_seen → ⊥ }
    ensures lost_promise_seen { AreDue three [] wrong_rises.lost_promise_seen → ⊥ }
    ensures pending_done_not_seen { AreDue three [] wrong_rises.pending_done_not_seen → ⊥ }
    ensures lost_done_seen { AreDue three [] wrong_rises.lost_done_seen → ⊥ }
    ensures asks_in_order_of_promises { AreDue three [] wrong_rises.asks_in_order_of_promises → ⊥ }
    ensures asks_about_one_of_two { AreDue three [] wrong_rises.asks_about_one_of_two → ⊥ }
{}

/// These aren't due: what sites do wrong in the life that they rose to.
pub fn wrong_lives_are_refused()
    ensures keeps_what_it_held { AreDue three [] wrong_lives.keeps_what_it_held → ⊥ }
    ensures grants_in_its_old_life { AreDue three [] wrong_lives.grants_in_its_old_life → ⊥ }
    ensures its_life_grows_twice { AreDue three [] wrong_lives.its_life_grows_twice → ⊥ }
    ensures loses_what_it_promised { AreDue three [] wrong_lives.loses_what_it_promised → ⊥ }
    ensures loses_the_lines_of_its_done { AreDue three [] wrong_lives.loses_the_lines_of_its_done → ⊥ }
    ensures its_clock_is_below_its_records { AreDue three [] wrong_lives.its_clock_is_below_its_records → ⊥ }
    ensures keeps_lines_that_came_with_views { AreDue three [] wrong_lives.keeps_lines_that_came_with_views → ⊥ }
    ensures keeps_its_clock_of_before { AreDue three [] wrong_lives.keeps_its_clock_of_before → ⊥ }
    ensures votes_for_its_old_life { AreDue three [] wrong_lives.votes_for_its_old_life → ⊥ }
    ensures says_stale_to_its_old_life { AreDue three [] wrong_lives.says_stale_to_its_old_life → ⊥ }
    ensures restarted_with_its_old_life { AreDue three [] wrong_lives.restarted_with_its_old_life → ⊥ }
    ensures holds_for_ever { AreDue three [] wrong_lives.holds_for_ever → ⊥ }
    ensures redeems_twice { AreDue three [] wrong_lives.redeems_twice → ⊥ }
{}

/// All that these sites post is due: each is the neighbour of a wrong one.
pub fn right_rises_are_due()
    ensures lets_go_of_what_it_held { AreDue three [] right_rises.lets_go_of_what_it_held }
    ensures keeps_what_it_promised { AreDue three [] right_rises.keeps_what_it_promised }
    ensures falls_as_it_writes_life { AreDue three [] right_rises.falls_as_it_writes_life }
    ensures fallen_life_rises { AreDue three [] right_rises.fallen_life_rises }
    ensures fallen_life_is_lost { AreDue three [] right_rises.fallen_life_is_lost }
    ensures promise_rises_after_an_abort { AreDue three [] right_rises.promise_rises_after_an_abort }
    ensures pending_promise_rises { AreDue three [] right_rises.pending_promise_rises }
    ensures pending_promise_is_lost { AreDue three [] right_rises.pending_promise_is_lost }
    ensures stops_without_a_word { AreDue three [] right_rises.stops_without_a_word }
{}

/// All that these sites post is due: each is the neighbour of a wrong one.
pub fn right_lives_are_due()
    ensures pending_done_rises { AreDue three [] right_lives.pending_done_rises }
    ensures keeps_the_lines_of_its_done { AreDue three [] right_lives.keeps_the_lines_of_its_done }
    ensures knows_lines_of_views { AreDue three [] right_lives.knows_lines_of_views }
    ensures loses_lines_of_views { AreDue three [] right_lives.loses_lines_of_views }
    ensures keeps_the_lines_of_its_prepare { AreDue three [] right_lives.keeps_the_lines_of_its_prepare }
    ensures asks_in_order { AreDue three [] right_lives.asks_in_order }
    ensures refuses_its_old_life { AreDue three [] right_lives.refuses_its_old_life }
    ensures falls_between_posts { AreDue three [] right_lives.falls_between_posts }
    ensures ends_what_rose { AreDue three [] right_lives.ends_what_rose }
    ensures redeems_once { AreDue three [] right_lives.redeems_once }
{}

/// These aren't due: what sites tell wrong to who has a mark.
pub fn wrong_marks_are_refused()
    ensures counts_in_line_order { AreDue three [] wrong_marks.counts_in_line_order → ⊥ }
    ensures tells_all_again { AreDue three [] wrong_marks.tells_all_again → ⊥ }
    ensures counts_what_it_tells { AreDue three [] wrong_marks.counts_what_it_tells → ⊥ }
    ensures tells_one_line_too_few { AreDue three [] wrong_marks.tells_one_line_too_few → ⊥ }
    ensures believes_a_mark_of_another_life { AreDue three [] wrong_marks.believes_a_mark_of_another_life → ⊥ }
    ensures believes_a_mark_of_another_epoch { AreDue three [] wrong_marks.believes_a_mark_of_another_epoch → ⊥ }
    ensures believes_a_mark_of_more_lines { AreDue three [] wrong_marks.believes_a_mark_of_more_lines → ⊥ }
    ensures counts_on_in_its_next_life { AreDue three [] wrong_marks.counts_on_in_its_next_life → ⊥ }
    ensures counts_for_a_granted_append { AreDue three [] wrong_marks.counts_for_a_granted_append → ⊥ }
    ensures counts_twice_what_came_twice { AreDue three [] wrong_marks.counts_twice_what_came_twice → ⊥ }
{}

/// All that these sites tell to who has a mark is due.
pub fn right_marks_are_due()
    ensures tells_from_the_mark_on { AreDue three [] right_marks.tells_from_the_mark_on }
    ensures tells_nothing_new { AreDue three [] right_marks.tells_nothing_new }
    ensures tells_all_to_a_mark_of_another_life { AreDue three [] right_marks.tells_all_to_a_mark_of_another_life }
    ensures tells_all_to_a_mark_of_another_epoch { AreDue three [] right_marks.tells_all_to_a_mark_of_another_epoch }
    ensures tells_all_to_a_mark_of_more_lines { AreDue three [] right_marks.tells_all_to_a_mark_of_more_lines }
    ensures counts_anew_in_its_next_life { AreDue three [] right_marks.counts_anew_in_its_next_life }
{}
