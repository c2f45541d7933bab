//! Whole runs of scripts, computed.
//!
//! The histories are those of `tests_histories`; `tools/whole_histories/runs.py`
//! wrote their scripts. Laws say that each history is a whole run of its
//! script: links drop, repeat and delay its messages as the script's rules and
//! cuts say, each input that an actor takes is the one that is ready for it,
//! each turn is that of the conduct, each phase begins where nothing is left to
//! do, and nothing is left at the end; and that after each move something is
//! ready just for those for whom the model has it.
//!
//! Short histories with falls are computed too, as far as inboxes see them.
//!
//! There is no code here, and nothing stands on this crate.
#![tactic(auto)]

mod falls;
mod laws;
mod random;
mod worked;

pub use falls::{
    late_copies_come_to_who_is_up, lines_without_effect_have_no_step, requests_are_lost_by_falls,
};
pub use laws::{
    cuts_and_controls_are_everybodys, messages_have_one_fate, schedules_make_whole_runs,
};
pub use random::{
    histories_1_to_10_are_runs, histories_11_to_20_are_runs, histories_21_to_30_are_runs,
    histories_31_to_35_are_runs, histories_36_to_40_are_runs,
    takers_of_histories_1_to_10_are_right, takers_of_histories_11_to_20_are_right,
    takers_of_histories_21_to_30_are_right, takers_of_histories_31_to_35_are_right,
    takers_of_histories_36_to_40_are_right,
};
pub use worked::{takers_of_worked_histories_are_right, worked_histories_are_runs};
