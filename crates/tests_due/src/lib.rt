//! What is due, and which falls are told of, tried on right and wrong histories.
//!
//! A definition over histories says something where it refuses what is wrong.
//! Here all is due in each right history, and each wrong history is refused: a
//! client's last reply, or commit record, isn't due there, or what a site posts
//! for its last input isn't. `tools/whole_histories/dues.py` wrote these
//! histories. Those of `turns_and_mail` are short and written by hand: in each
//! wrong one an actor doesn't go by turns, or a message doesn't reach its
//! receiver. So are those of `journals` and `disks`, of one site, which `Kept`
//! and `Spent` refuse or take:
//!
//! 1. A site that rises has its records: none is forgotten, none is invented,
//!    and what was being written as it fell is there from its next rise on, or
//!    never (`forgotten_records_are_refused`, `invented_records_are_refused`,
//!    `wrong_pending_records_are_refused`, `kept_records_are_taken`).
//! 2. A fall by a disk is one that was armed and whose number one of its calls
//!    can have had, or one of those that the disk counted
//!    (`falls_that_nothing_armed_are_refused`,
//!    `falls_that_come_early_are_refused`, `accounted_falls_are_taken`).
//! 3. What is armed acts in its call (`faults_that_never_come_are_refused`).
//!
//! There is no code here, and nothing stands on this crate.
#![tactic(auto)]

mod disks;
mod journals;
mod right;
mod turns_and_mail;
mod wrong;
mod wrong_sites;

pub use disks::{
    accounted_falls_are_taken, falls_that_come_early_are_refused,
    falls_that_nothing_armed_are_refused, faults_that_never_come_are_refused,
};
pub use journals::{
    forgotten_records_are_refused, invented_records_are_refused, kept_records_are_taken,
    wrong_pending_records_are_refused,
};
pub use right::{
    all_is_due_in_1_to_10, all_is_due_in_11_to_20, all_is_due_in_21_to_30, all_is_due_in_31_to_40,
    all_is_due_in_worked_histories, replies_of_other_rows_are_due,
};
pub use turns_and_mail::{
    right_orders_are_met, wrong_mail_is_refused, wrong_turns_are_refused,
    wrong_turns_through_falls_are_refused,
};
pub use wrong::{
    wrong_appends_are_refused, wrong_asks_are_refused, wrong_reads_are_refused,
    wrong_records_are_refused, wrong_replies_are_refused, wrong_votes_are_refused,
};
pub use wrong_sites::{wrong_posts_are_refused, wrong_refusals_are_refused};
