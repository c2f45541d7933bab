//! Wrong histories of the administrator, each refused.

ghost use Rattle.tests_epochs.specs.Whole.{AreAdminTurns, IsAdminDueIn};
ghost use Rattle.tests_epochs.specs.WrongMoves as wrong_moves;
ghost use Rattle.tests_epochs.specs.WrongDoubts as wrong_doubts;
ghost use Rattle.tests_epochs.specs.WrongRounds as wrong_rounds;
ghost use Rattle.tests_epochs.specs.WrongSends as wrong_sends;
ghost use Rattle.tests_epochs.specs.WrongInputs as wrong_inputs;
ghost use Rattle.tests_epochs.specs.WrongDecisions as wrong_decisions;
ghost use Rattle.tests_epochs.specs.WrongFalls as wrong_falls;
ghost use Rattle.tests_epochs.specs.WrongRises as wrong_rises;
ghost use Rattle.tests_epochs.specs.WrongAdminTurns as wrong_admin_turns;
ghost use Rattle.tests_epochs.specs.WrongCloses as wrong_closes;
ghost use Rattle.tests_epochs.specs.WrongAsks as wrong_asks;
ghost use Rattle.tests_epochs.specs.WrongInstalls as wrong_installs;
ghost use Rattle.tests_epochs.specs.Declarations.{three_epochs, two_objects};

/// These aren't due: the administrator tells what he moved, or refuses, otherwise than he did.
pub fn wrong_moves_are_refused()
    ensures another_site_closed { IsAdminDueIn three_epochs wrong_moves.another_site_closed → ⊥ }
    ensures a_closed_site_left_out { IsAdminDueIn three_epochs wrong_moves.a_closed_site_left_out → ⊥ }
    ensures an_install_unheard_of { IsAdminDueIn three_epochs wrong_moves.an_install_unheard_of → ⊥ }
    ensures moved_before_the_answers { IsAdminDueIn three_epochs wrong_moves.moved_before_the_answers → ⊥ }
    ensures moved_without_closing { IsAdminDueIn three_epochs wrong_moves.moved_without_closing → ⊥ }
    ensures the_next_epoch_refused { IsAdminDueIn three_epochs wrong_moves.the_next_epoch_refused → ⊥ }
{}

/// These aren't due: doubts of the administrator, and a decision in doubt.
pub fn wrong_doubts_are_refused()
    ensures doubt_of_what_is_answered { IsAdminDueIn three_epochs wrong_doubts.doubt_of_what_is_answered → ⊥ }
    ensures doubt_at_another_site { IsAdminDueIn three_epochs wrong_doubts.doubt_at_another_site → ⊥ }
    ensures doubt_of_another_promise { IsAdminDueIn three_epochs wrong_doubts.doubt_of_another_promise → ⊥ }
    ensures doubt_before_it_is_asked { IsAdminDueIn three_epochs wrong_doubts.doubt_before_it_is_asked → ⊥ }
    ensures decided_in_doubt { IsAdminDueIn three_epochs wrong_doubts.decided_in_doubt → ⊥ }
{}

/// These aren't due: what the administrator makes of the sites that closed.
pub fn wrong_rounds_are_refused()
    ensures decided_twice { IsAdminDueIn three_epochs wrong_rounds.decided_twice → ⊥ }
    ensures decided_by_too_few { IsAdminDueIn three_epochs wrong_rounds.decided_by_too_few → ⊥ }
    ensures decided_by_another_plan { IsAdminDueIn three_epochs wrong_rounds.decided_by_another_plan → ⊥ }
    ensures a_shut_of_an_earlier_command { IsAdminDueIn three_epochs wrong_rounds.a_shut_of_an_earlier_command → ⊥ }
    ensures short_before_all_are_asked { IsAdminDueIn three_epochs wrong_rounds.short_before_all_are_asked → ⊥ }
    ensures short_of_another_weight { IsAdminDueIn three_epochs wrong_rounds.short_of_another_weight → ⊥ }
    ensures fault_of_nothing { IsAdminDueIn three_epochs wrong_rounds.fault_of_nothing → ⊥ }
{}

/// These aren't due: the administrator sends what nothing calls for.
pub fn wrong_sends_are_refused()
    ensures another_log { IsAdminDueIn three_epochs wrong_sends.another_log → ⊥ }
    ensures not_decided { IsAdminDueIn three_epochs wrong_sends.not_decided → ⊥ }
{}

/// These aren't due: what the administrator takes while something else is due.
pub fn wrong_inputs_are_refused()
    ensures a_reply_untold { IsAdminDueIn three_epochs wrong_inputs.a_reply_untold → ⊥ }
    ensures a_decision_unwritten { IsAdminDueIn three_epochs wrong_inputs.a_decision_unwritten → ⊥ }
    ensures called_before_its_reply { IsAdminDueIn three_epochs wrong_inputs.called_before_its_reply → ⊥ }
{}

/// These aren't due: decisions of the administrator with another clock or other lines.
pub fn wrong_decisions_are_refused()
    ensures a_clock_that_leaves_out_stamps { IsAdminDueIn three_epochs wrong_decisions.a_clock_that_leaves_out_stamps
        → ⊥ }
    ensures committed_lines_left_out { IsAdminDueIn three_epochs wrong_decisions.committed_lines_left_out → ⊥ }
    ensures aborted_lines_merged { IsAdminDueIn three_epochs wrong_decisions.aborted_lines_merged → ⊥ }
    ensures a_line_that_nobody_told { IsAdminDueIn three_epochs wrong_decisions.a_line_that_nobody_told → ⊥ }
    ensures one_entry_of_a_transaction { IsAdminDueIn two_objects wrong_decisions.one_entry_of_a_transaction → ⊥ }
    ensures another_log_installed { IsAdminDueIn three_epochs wrong_decisions.another_log_installed → ⊥ }
{}

/// These aren't due: decisions of the administrator as his disk fails, and of one who rose.
pub fn wrong_falls_are_refused()
    ensures fault_though_decided { IsAdminDueIn three_epochs wrong_falls.fault_though_decided → ⊥ }
    ensures fault_before_a_fall { IsAdminDueIn three_epochs wrong_falls.fault_before_a_fall → ⊥ }
    ensures fault_and_no_fall { IsAdminDueIn three_epochs wrong_falls.fault_and_no_fall → ⊥ }
    ensures another_record_pending { IsAdminDueIn three_epochs wrong_falls.another_record_pending → ⊥ }
    ensures decided_again_though_it_rose { IsAdminDueIn three_epochs wrong_falls.decided_again_though_it_rose → ⊥ }
    ensures decided_again_after_a_rise { IsAdminDueIn three_epochs wrong_falls.decided_again_after_a_rise → ⊥ }
{}

/// These aren't due: the administrator's other deeds as he rises, and while he is down.
pub fn wrong_rises_are_refused()
    ensures a_lost_decision_installed { IsAdminDueIn three_epochs wrong_rises.a_lost_decision_installed → ⊥ }
    ensures a_shut_of_before_his_fall { IsAdminDueIn three_epochs wrong_rises.a_shut_of_before_his_fall → ⊥ }
    ensures closed_before_his_fall { IsAdminDueIn three_epochs wrong_rises.closed_before_his_fall → ⊥ }
    ensures installs_as_he_rises { IsAdminDueIn three_epochs wrong_rises.installs_as_he_rises → ⊥ }
    ensures no_life_written { IsAdminDueIn three_epochs wrong_rises.no_life_written → ⊥ }
    ensures the_first_epoch_again { IsAdminDueIn three_epochs wrong_rises.the_first_epoch_again → ⊥ }
    ensures refused_while_down { IsAdminDueIn three_epochs wrong_rises.refused_while_down → ⊥ }
{}

/// These aren't due: the administrator doesn't act by turns.
pub fn wrong_admin_turns_are_refused()
    ensures fallen_untold { AreAdminTurns three_epochs wrong_admin_turns.fallen_untold → ⊥ }
    ensures life_between { AreAdminTurns three_epochs wrong_admin_turns.life_between → ⊥ }
    ensures installed_first { AreAdminTurns three_epochs wrong_admin_turns.installed_first → ⊥ }
    ensures down_while_up { AreAdminTurns three_epochs wrong_admin_turns.down_while_up → ⊥ }
{}

/// These aren't due: the administrator closes otherwise than the next epoch's round asks.
pub fn wrong_closes_are_refused()
    ensures a_close_of_another_epoch { IsAdminDueIn three_epochs wrong_closes.a_close_of_another_epoch → ⊥ }
    ensures a_site_asked_twice { IsAdminDueIn three_epochs wrong_closes.a_site_asked_twice → ⊥ }
    ensures another_site_asked { IsAdminDueIn three_epochs wrong_closes.another_site_asked → ⊥ }
{}

/// These aren't due: the administrator asks other clients, or at another time.
pub fn wrong_asks_are_refused()
    ensures asked_too_early { IsAdminDueIn three_epochs wrong_asks.asked_too_early → ⊥ }
    ensures another_client_asked { IsAdminDueIn three_epochs wrong_asks.another_client_asked → ⊥ }
    ensures asked_out_of_order { IsAdminDueIn three_epochs wrong_asks.asked_out_of_order → ⊥ }
{}

/// These aren't due: the administrator installs elsewhere than everywhere, or counts what doesn't.
pub fn wrong_installs_are_refused()
    ensures a_site_left_out { IsAdminDueIn three_epochs wrong_installs.a_site_left_out → ⊥ }
    ensures earlier_installs_count { IsAdminDueIn three_epochs wrong_installs.earlier_installs_count → ⊥ }
    ensures an_answer_of_what_was_lost { IsAdminDueIn three_epochs wrong_installs.an_answer_of_what_was_lost → ⊥ }
{}
