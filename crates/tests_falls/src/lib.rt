//! The definitions of the conduct and of runs, computed on whole histories in
//! which disks fail and actors fall and rise.
//!
//! The histories come from a model of the protocol that was written apart from
//! this repository, as its executable description: `specs/` has each with its
//! script and the schedule that made it, and `tools/whole_histories` wrote them.
//!
//! 1. Each history is a whole run of its script: what is taken is what is ready,
//!    each actor posts just the turn that its deeds call for, with the steps of
//!    how its record ended, each rise gives back the actor's journal, and the
//!    rising turn is that of its records.
//! 2. Histories that are wrong in one thing are refused: a post that no lawful
//!    turn has, whatever becomes of its record; records that no journal gives
//!    back.
//!
//! There is no code here, and nothing stands on this crate.
#![tactic(auto)]

mod laws;
mod random;
mod worked;
mod wrong;

pub use laws::schedules_with_falls_make_whole_runs;
pub use random::{
    falls_1_to_10_are_runs, falls_11_to_20_are_runs, falls_21_to_30_are_runs,
    falls_31_to_40_are_runs,
};
pub use worked::worked_falls_are_runs;
pub use wrong::{wrong_posts_through_falls_are_refused, wrong_rises_are_refused};
