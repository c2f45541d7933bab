//! Runs of the protocol's machine: three that show what it can do, and for each
//! guard one that goes wrong without it.
//!
//! A run is told as a list of moves (`specs/Moves`, `specs/Stories`) over a
//! small declaration (`specs/Settings`). That its acts are allowed, and which
//! guarantee they break, is found by evaluation: `proofs/Allowed` looks for the
//! fact of each guard, and answers with its proof or with none.
//!
//! 1. The machine isn't vacuous: transactions commit in it.
//! 2. Each guard is needed: without it, some run breaks a guarantee.
//! 3. Every run keeps each guarantee.
//!
//! There is no code here. Nothing stands on this crate but `theory_bases`, for runs
//! that show its laws.
#![tactic(auto)]

mod appends;
mod commits;
mod decisions;
mod grants;
mod guards;
mod operations;
mod snapshots;
mod witnesses;

pub use appends::{
    appends_of_nothing_chosen, appends_of_other_lines, earlier_lines_not_sent_along,
    quorums_that_do_not_meet, views_not_sent_along,
};
pub use commits::{
    aborts_after_the_record, clients_that_forget_their_stamps, commits_twice,
    commits_without_votes, prepare_after_an_abort, prepare_during_an_append,
    prepare_records_before_prepare, records_of_other_operations, stamps_of_another_client,
    stamps_that_ignore_the_clocks, transactions_that_outlive_a_fall, verdicts_made_up,
    votes_before_prepare, votes_of_another_life,
};
pub use decisions::{
    closes_by_another_plan, closes_of_silent_sites, closes_too_few_sites,
    decide_clocks_below_a_committed_stamp, decide_clocks_below_a_snapshot,
    decides_without_the_prepared, installs_made_up, installs_of_the_same_epoch, logs_not_merged,
    merges_of_lines_made_up, merges_of_one_entry_for_several, snapshots_made_up,
    snapshots_of_an_older_epoch,
};
pub use grants::{
    grant_clocks_below_a_done_record, grant_clocks_below_a_line, grant_clocks_below_an_install,
    grants_counted_before_the_begin, grants_made_up, grants_of_another_epoch,
    grants_of_closed_sites, grants_that_name_a_later_epoch, grants_that_name_a_later_life,
    grants_that_nobody_asked_for, grants_that_show_an_older_log, reads_past_a_write,
    shares_of_lines_made_up, writes_past_a_read_lock,
};
pub use guards::{every_guard_is_needed, one_guard_is_left_out, runs_keep_the_guarantees};
pub use operations::{
    absent_operations_appended, epochs_without_a_plan, invocations_that_a_type_lacks,
    lines_left_out_of_views, operations_after_prepare, operations_with_other_numbers,
    own_writes_forgotten, reads_at_too_few_sites, reads_without_locks, replies_that_no_view_allows,
    transactions_that_begin_twice, two_operations_at_once, views_made_up, writes_without_an_append,
};
pub use snapshots::{
    snapshot_clocks_below_a_done_record, snapshot_clocks_below_an_install,
    snapshots_of_an_older_log, snapshots_of_open_sites,
};
pub use witnesses::{
    conflict_is_refused, one_epoch_commits, shares_bring_what_was_missed, two_epochs_commit,
};
