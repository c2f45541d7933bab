//! Every run with falls whose records are kept is a run of the protocol's machine, and
//! atomic; what clients are told agrees with their records, and verdicts are right.
//!
//! There is no code here: each law is the contract of a function with nothing to
//! do. All are of histories alone.
//!
//! # Replies and records of a client's deeds
//!
//! 1. Where a client's deeds are by turns and due, and each rise gives back what
//!    its journal has, each commit record of the journal has just the operations
//!    that the client was told for its transaction
//!    (`records_have_what_deeds_told`).
//! 2. Where each commit record that is written is told in its post, too, the
//!    replies that ended transactions agree with the records: Committed, with the
//!    stamp, was told only of a record, and of each record Committed or Unknown
//!    (`committed_ends_agree_with_records`); Aborted and Dropped only of a
//!    transaction without one (`given_up_transactions_have_no_records`). All are of
//!    the client's own transactions (`records_and_ends_are_their_clients`).
//!
//! # Runs with falls are runs of the machine
//!
//! 1. Every such run is a net's that may come about: an input and its turn are
//!    one step of the net, at the post; a turn whose record isn't written is a
//!    fall there, and so is a line that crashes an actor; a rise with its turn is
//!    one step, in vain where its record isn't written
//!    (`runs_with_falls_reach_nets`).
//! 2. So what every net keeps, every such run keeps: the commit records in the
//!    clients' journals are one copy's and apart
//!    (`records_that_stand_are_one_copy`), each vote stands on the record of its
//!    promise (`votes_of_runs_stand_on_records`), Decisions agree with the records
//!    (`decisions_tell_records_that_stand`), lines are operations of them
//!    (`lines_are_operations_of_records_that_stand`), logs and views are closed
//!    (`logs_and_views_are_closed_through_falls`).
//! 3. The commit records that clients wrote or rose with are just those that
//!    stand (`committed_records_stand`), so those of the promise are one copy's
//!    and apart (`committed_records_are_one_copy_through_falls`), and Decisions
//!    agree with them (`decisions_agree_with_committed_through_falls`).
//!
//! # What clients are told in runs with falls
//!
//! 1. A client tells of each commit record that it writes in the post that writes
//!    it (`commits_are_told_in_their_posts`).
//! 2. A committed record has just the operations that its client was told, from
//!    the begin of the transaction to its end
//!    (`records_are_what_was_told_through_falls`).
//! 3. The ends that clients were told agree with the records
//!    (`clients_are_told_through_falls`).
//! 4. Wrong ends and wrong records are refused
//!    (`wrong_ends_through_falls_are_refused`,
//!    `wrong_operations_through_falls_are_refused`), right ones taken
//!    (`right_ends_through_falls_are_taken`).
//!
//! # What was seen comes before
//!
//! 1. Each commit record in a client's journal is of a transaction of its own
//!    (`records_stand_with_their_own_clients`).
//! 2. What a client has seen has a record whose stamp the client's clock has
//!    passed, in each of its lives: a line that a counted grant of this life
//!    showed, since the grant's clock had passed it; what it was told committed
//!    in any life, since the records that it rises with have it. A record that
//!    is written, or was being written as the client fell, is above the clock of
//!    then (`records_follow_what_was_seen_through_falls`).
//! 3. With what clients are told and one copy, such a run
//!    is atomic (`runs_with_falls_are_atomic_where_records_are_kept`).
//! 4. Histories with falls whose records don't follow what was seen are refused,
//!    and one whose record stands with another client; a line that was shown in
//!    a former life, or asked for there, wasn't seen
//!    (`wrong_orders_through_falls_are_refused`,
//!    `right_orders_through_falls_are_taken`).
//!
//! # Right deeds and right verdicts
//!
//! 1. Where records are kept, what rises of a transaction is right, if the record
//!    that was being written is: what had been written shows that its transaction
//!    committed
//!    (`what_was_written_rises_rightly`,
//!    `what_was_written_rises_rightly_where_records_are_kept`).
//! 2. In every run with falls whose records are kept each deed of a client is
//!    right for each transaction: through all its lives that begins once, is
//!    asked for, written and called active only while it is begun, called
//!    committed only by its record, and aborted only without one
//!    (`transactions_move_on_through_falls`); and what has ended stays so
//!    (`ended_transactions_stay_so_through_falls`). No two final verdicts on it
//!    that sites are told differ (`sites_are_told_one_verdict_through_falls`).
//! 3. There a transaction is committed just where its client's journal has its
//!    record (`transactions_are_committed_by_their_records_through_falls`), clients
//!    begin no transactions of others (`clients_begin_their_own_through_falls`),
//!    and are asked about begun ones alone: an Inquiry comes only after a request
//!    (`clients_are_asked_about_begun_ones_through_falls`).
//! 4. There the stamps of a client's records rise, over all its lives
//!    (`stamps_rise_through_falls`).
//! 5. Wrong courses, verdicts and records through falls are refused, right ones
//!    near them taken (`wrong_courses_through_falls_are_refused`,
//!    `wrong_verdicts_through_falls_are_refused`,
//!    `wrong_records_through_falls_are_refused`,
//!    `right_courses_through_falls_are_taken`).
#![tactic(auto)]

mod dealings;
mod nets;
mod runs;
mod sight;
mod told;
mod verdicts;
mod wrong_sight;
mod wrong_told;
mod wrong_verdicts;

pub use dealings::{
    committed_ends_agree_with_records, given_up_transactions_have_no_records,
    records_and_ends_are_their_clients, records_have_what_deeds_told,
};
pub use nets::{
    committed_records_are_one_copy_through_falls, committed_records_stand,
    decisions_agree_with_committed_through_falls, decisions_tell_records_that_stand,
    lines_are_operations_of_records_that_stand, logs_and_views_are_closed_through_falls,
    records_that_stand_are_one_copy, runs_with_falls_reach_nets, votes_of_runs_stand_on_records,
};
pub use runs::{
    clients_are_asked_about_begun_ones_through_falls, clients_begin_their_own_through_falls,
    ended_transactions_stay_so_through_falls, sites_are_told_one_verdict_through_falls,
    stamps_rise_through_falls, transactions_are_committed_by_their_records_through_falls,
    transactions_move_on_through_falls,
};
pub use sight::{
    records_follow_what_was_seen_through_falls, records_stand_with_their_own_clients,
    runs_with_falls_are_atomic_where_records_are_kept,
};
pub use told::{
    clients_are_told_through_falls, commits_are_told_in_their_posts,
    records_are_what_was_told_through_falls,
};
pub use verdicts::{
    what_was_written_rises_rightly, what_was_written_rises_rightly_where_records_are_kept,
};
pub use wrong_sight::{
    right_orders_through_falls_are_taken, wrong_orders_through_falls_are_refused,
};
pub use wrong_told::{
    right_ends_through_falls_are_taken, wrong_ends_through_falls_are_refused,
    wrong_operations_through_falls_are_refused,
};
pub use wrong_verdicts::{
    right_courses_through_falls_are_taken, wrong_courses_through_falls_are_refused,
    wrong_records_through_falls_are_refused, wrong_verdicts_through_falls_are_refused,
};
