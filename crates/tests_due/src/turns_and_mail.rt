//! Histories in which actors go by turns and messages reach their receivers,
//! and wrong ones, each refused by turns or by mail.

ghost use Rattle.std.specs.Prelude.{◌<◌, ℕ, []};
ghost use Rattle.qc_decl.specs.Actors.{actors, is_site};
ghost use Rattle.qc_decl.specs.One.{three};
ghost use Rattle.qc_msg.specs.Deeds.{deeds};
ghost use Rattle.qc_promise.specs.Mail.{IsMailed};
ghost use Rattle.qc_promise.specs.Replies.{AreRepliesDue};
ghost use Rattle.qc_promise.specs.Turns.{AreByTurns};
ghost use Rattle.tests_due.specs.Orders as orders;
ghost use Rattle.tests_due.specs.WrongTurnsThroughFalls as falls;
ghost use Rattle.tests_due.specs.WrongMail as mail;
ghost use Rattle.tests_due.specs.WrongTurns as turns;

/// A site and a client fall and rise by turns, and messages reach their receivers.
pub fn right_orders_are_met()
    ensures site_rises_turns { (a : ℕ) → a < actors three
        → AreByTurns (is_site three a) (deeds a [] orders.site_rises) }
    ensures site_rises_mail { IsMailed [] orders.site_rises }
    ensures client_rises_turns { (a : ℕ) → a < actors three
        → AreByTurns (is_site three a) (deeds a [] orders.client_rises) }
    ensures client_rises_mail { IsMailed [] orders.client_rises }
{}

/// These aren't by turns, and nobody falls in them; and a fault that a client is
/// told isn't due.
pub fn wrong_turns_are_refused()
    ensures posts_before_an_input { AreByTurns (is_site three 0) (deeds 0 [] turns.posts_before_an_input) → ⊥ }
    ensures record_after_its_message { AreByTurns (is_site three 0) (deeds 0 [] turns.record_after_its_message) → ⊥ }
    ensures record_after_its_decision { AreByTurns (is_site three 3) (deeds 3 [] turns.record_after_its_decision) → ⊥ }
    ensures two_records { AreByTurns (is_site three 0) (deeds 0 [] turns.two_records) → ⊥ }
    ensures life_unrisen { AreByTurns (is_site three 0) (deeds 0 [] turns.life_unrisen) → ⊥ }
    ensures reply_twice { AreByTurns (is_site three 3) (deeds 3 [] turns.reply_twice) → ⊥ }
    ensures posts_after_its_reply { AreByTurns (is_site three 3) (deeds 3 [] turns.posts_after_its_reply) → ⊥ }
    ensures unknown_without_a_fall { AreByTurns (is_site three 3) (deeds 3 [] turns.unknown_without_a_fall) → ⊥ }
    ensures fault_without_a_fall { AreRepliesDue three 0 (deeds 3 [] turns.fault_without_a_fall) → ⊥ }
    ensures posts_after_a_fault { AreByTurns (is_site three 6) (deeds 6 [] turns.posts_after_a_fault) → ⊥ }
    ensures down_while_up { AreByTurns (is_site three 3) (deeds 3 [] turns.down_while_up) → ⊥ }
    ensures site_is_commanded { AreByTurns (is_site three 0) (deeds 0 [] turns.site_is_commanded) → ⊥ }
    ensures site_tells_a_reply { AreByTurns (is_site three 0) (deeds 0 [] turns.site_tells_a_reply) → ⊥ }
{}

/// These aren't by turns: who is down, who falls, who rises.
pub fn wrong_turns_through_falls_are_refused()
    ensures takes_while_down { AreByTurns (is_site three 0) (deeds 0 [] falls.takes_while_down) → ⊥ }
    ensures loses_while_down { AreByTurns (is_site three 3) (deeds 3 [] falls.loses_while_down) → ⊥ }
    ensures writes_while_down { AreByTurns (is_site three 0) (deeds 0 [] falls.writes_while_down) → ⊥ }
    ensures sends_while_down { AreByTurns (is_site three 0) (deeds 0 [] falls.sends_while_down) → ⊥ }
    ensures tells_while_down { AreByTurns (is_site three 3) (deeds 3 [] falls.tells_while_down) → ⊥ }
    ensures begins_while_down { AreByTurns (is_site three 3) (deeds 3 [] falls.begins_while_down) → ⊥ }
    ensures falls_within_its_post { AreByTurns (is_site three 0) (deeds 0 [] falls.falls_within_its_post) → ⊥ }
    ensures stops_once_it_sent { AreByTurns (is_site three 0) (deeds 0 [] falls.stops_once_it_sent) → ⊥ }
    ensures falls_untold { AreByTurns (is_site three 3) (deeds 3 [] falls.falls_untold) → ⊥ }
    ensures falls_though_committed { AreByTurns (is_site three 3) (deeds 3 [] falls.falls_though_committed) → ⊥ }
    ensures falls_with_nothing_to_write { AreByTurns (is_site three 0)
        (deeds 0 [] falls.falls_with_nothing_to_write) → ⊥ }
    ensures falls_with_a_rise { AreByTurns (is_site three 0) (deeds 0 [] falls.falls_with_a_rise) → ⊥ }
    ensures crashes_with_a_record { AreByTurns (is_site three 0) (deeds 0 [] falls.crashes_with_a_record) → ⊥ }
    ensures crashes_while_down { AreByTurns (is_site three 0) (deeds 0 [] falls.crashes_while_down) → ⊥ }
    ensures rises_while_up { AreByTurns (is_site three 0) (deeds 0 [] falls.rises_while_up) → ⊥ }
    ensures rises_once_called { AreByTurns (is_site three 3) (deeds 3 [] falls.rises_once_called) → ⊥ }
    ensures life_twice { AreByTurns (is_site three 0) (deeds 0 [] falls.life_twice) → ⊥ }
    ensures life_never { AreByTurns (is_site three 0) (deeds 0 [] falls.life_never) → ⊥ }
    ensures rises_with_another_record { AreByTurns (is_site three 0) (deeds 0 [] falls.rises_with_another_record) → ⊥ }
    ensures unknown_after_a_message { AreByTurns (is_site three 3) (deeds 3 [] falls.unknown_after_a_message) → ⊥ }
    ensures unknown_after_a_record { AreByTurns (is_site three 3) (deeds 3 [] falls.unknown_after_a_record) → ⊥ }
{}

/// These aren't mailed.
pub fn wrong_mail_is_refused()
    ensures another_number { IsMailed [] mail.another_number → ⊥ }
    ensures a_number_again { IsMailed [] mail.a_number_again → ⊥ }
    ensures another_copy { IsMailed [] mail.another_copy → ⊥ }
    ensures nothing_sent { IsMailed [] mail.nothing_sent → ⊥ }
    ensures strangers_answer { IsMailed [] mail.strangers_answer → ⊥ }
    ensures answer_to_another { IsMailed [] mail.answer_to_another → ⊥ }
    ensures answer_to_no_request { IsMailed [] mail.answer_to_no_request → ⊥ }
    ensures answer_to_nothing { IsMailed [] mail.answer_to_nothing → ⊥ }
    ensures another_loss { IsMailed [] mail.another_loss → ⊥ }
    ensures loss_of_no_request { IsMailed [] mail.loss_of_no_request → ⊥ }
    ensures loss_of_nothing { IsMailed [] mail.loss_of_nothing → ⊥ }
{}
