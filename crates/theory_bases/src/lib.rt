//! The epochs that lines of logs belong to, and states in place of what an epoch
//! began with: laws over the theory's machine, which stays as it is.
//!
//! A run is *disciplined* where it keeps a little more than the machine's guards
//! (`specs/Discipline`): sites grant to transactions of their own epoch, only
//! lines for which there is a quorum; what they share stays in its epoch; and an
//! epoch is decided once. Of each such run:
//!
//! 1. A site's log has all that its epoch began with, and else lines that were
//!    written in the epoch (`specs/Belongs`). What it began with was written in
//!    earlier ones.
//! 2. What was written in an epoch has a greater clock than all that the epoch
//!    began with: at sites, and in the log that the next epoch begins with.
//! 3. No operation sees a line of a later epoch. In any run, who depends on a
//!    line of an earlier epoch sees it, and the later one has the greater stamp.
//!
//! So a state may stand for what an epoch began with:
//!
//! 4. The state after a log is reached from the state after what the epoch began
//!    with, by the lines since (`specs/Bases`).
//! 5. A site that keeps just the lines since, and is sent just what it lacks, has
//!    with that beginning what the machine's site has (`specs/Short`).
//!
//! `specs/Witnesses` has disciplined runs, `specs/Wrong` what is refused. There
//! is no code here.
#![tactic(auto)]

mod bases;
mod epochs;
mod order;
mod short;
mod witnesses;
mod wrong;

pub use bases::{folds_split, logs_stand_behind, next_bases_are_reached, views_of_an_epoch_join};
pub use epochs::{
    decided_logs_are_of_earlier_epochs, epochs_are_decided_once, later_lines_are_above,
    logs_are_split_by_epochs, next_logs_keep_what_was, next_logs_stand_behind,
    sites_have_what_their_epoch_began_with,
};
pub use order::{later_epochs_follow_earlier_ones, views_have_no_later_lines};
pub use short::{
    bases_are_what_epochs_began_with, short_logs_are_above_their_bases,
    short_sites_stand_for_whole_ones,
};
pub use witnesses::{
    epochs_depend_on_each_other, one_epoch_is_disciplined, shares_are_disciplined,
    snapshots_may_be_below_lines, two_epochs_are_disciplined, two_moves_are_disciplined,
};
pub use wrong::{
    epochs_decided_twice_are_refused, epochs_with_two_logs_are_refused,
    grants_of_another_epoch_are_refused, lines_without_threshold_are_refused,
    lower_lines_are_refused, other_unions_are_refused, shares_of_another_epoch_are_refused,
    shorter_sites_are_refused, views_of_later_epochs_are_refused,
};
