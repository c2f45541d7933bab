//! What every run of a script without falls guarantees of locks, clocks and votes, that
//! dependent operations are ordered, and that runs succeed that nothing disturbs.
//!
//! There is no code here: each law is the contract of a function with nothing to
//! do. All are of histories alone.
//!
//! # Locks, clocks and votes
//!
//! 1. A site that a client waits for, as it commits, holds something of its
//!    transaction, and what it would promise fits a record
//!    (`asked_sites_remember`). So no vote that counts is Stale or Behind, and
//!    nobody is told that a site has forgotten (`votes_are_never_stale`).
//! 2. What a site granted to a transaction that committed it holds, from that
//!    turn on, until it takes the Decision (`granted_items_are_held`).
//! 3. A record's stamp has passed the clock of each grant and each promise that
//!    its client counted before (`stamps_pass_what_was_counted`); and a site's
//!    clock has passed the lines that it knows and the Dones that it wrote
//!    (`sites_clocks_pass_what_they_have`).
//! 4. With a line, the log that a Read is granted has each committed line of its
//!    object before it on which its invocation depends
//!    (`granted_logs_are_closed`).
//! 5. The definitions refuse sites that forget (`forgetful_sites_are_refused`,
//!    `lost_locks_are_refused`) and clocks that don't count
//!    (`uncounted_clocks_are_refused`).
//!
//! # Runs that nothing disturbs
//!
//! A script disturbs nothing where no rule drops, doubles or delays a message,
//! the controller does nothing between the phases, and each phase asks one
//! client alone (`IsUndisturbed`). Of every run of it, whatever the order of its
//! events:
//!
//! 1. Each message that was sent is taken or ready, once and in order; no
//!    request is lost (`no_request_is_lost`).
//! 2. No message names another life or epoch than the first, in any run
//!    (`lives_and_epochs_are_the_first`).
//! 3. Each answer fits its request: who is in the way there had asked the site
//!    for something, and hadn't told it of an end
//!    (`answers_fit_their_requests`).
//! 4. Where a site has taken all that was sent to it, it holds something of
//!    transactions alone that are begun (`what_is_held_at_rest_is_begun`).
//! 5. At most one client acts at a time (`one_client_acts_at_a_time`).
//! 6. So each `do` of a transaction that may go on is answered, or refused for a
//!    transaction that another client began in an earlier phase and that hasn't
//!    ended (`undisturbed_dos_succeed`).
//! 7. And each commit of a transaction that may commit does
//!    (`undisturbed_commits_succeed`).
//! 8. Some scripts are undisturbed, and others aren't
//!    (`undisturbed_scripts_are_told_apart`).
//! 9. Wrong histories are refused (`wrong_refusals_are_refused`,
//!    `wrong_endings_are_refused`).
//! 10. All this is said of runs without falls; a run with falls in which nobody
//!    falls and the administrator does nothing is one
//!    (`runs_in_which_nobody_falls_are_runs`).
//!
//! # The ordering lemma
//!
//! It is said as a sentence over the history (Herlihy 1986): what a committed operation
//! depends on was seen as it was told, or is stamped later.
//!
//! 1. Let an operation of a commit record depend on the event of a line of
//!    another transaction's record, on the same object. At each moment between
//!    two turns from the operation's reply to its record, the client's view of
//!    the object has the line, whose stamp is smaller; or the operation's record
//!    has the smaller stamp (`dependent_operations_are_ordered`).
//! 2. There are such moments: each reply ends its turn, so the entries up to it
//!    are a run (`replies_end_their_turns`), behind which the operation is
//!    recorded and the views are those that it was answered from
//!    (`replies_record_operations`); and each operation of a record had been told
//!    as the record was written (`operations_of_records_were_told`).
//! 3. The definitions refuse a reader that missed a line
//!    (`missed_lines_are_refused`) and one that isn't stamped later than what it
//!    saw (`late_stamps_are_refused`).
#![tactic(auto)]

mod clocks;
mod falls;
mod holdings;
mod messages;
mod order;
mod rest;
mod scripts;
mod success;
mod votes;
mod wrong_guarantees;
mod wrong_order;
mod wrong_undisturbed;

pub use clocks::{sites_clocks_pass_what_they_have, stamps_pass_what_was_counted};
pub use falls::runs_in_which_nobody_falls_are_runs;
pub use holdings::{granted_items_are_held, granted_logs_are_closed};
pub use messages::{
    answers_fit_their_requests, lives_and_epochs_are_the_first, no_request_is_lost,
};
pub use order::{
    dependent_operations_are_ordered, operations_of_records_were_told, replies_end_their_turns,
    replies_record_operations,
};
pub use rest::{one_client_acts_at_a_time, what_is_held_at_rest_is_begun};
pub use scripts::undisturbed_scripts_are_told_apart;
pub use success::{undisturbed_commits_succeed, undisturbed_dos_succeed};
pub use votes::{asked_sites_remember, votes_are_never_stale};
pub use wrong_guarantees::{
    forgetful_sites_are_refused, lost_locks_are_refused, uncounted_clocks_are_refused,
};
pub use wrong_order::{late_stamps_are_refused, missed_lines_are_refused};
pub use wrong_undisturbed::{wrong_endings_are_refused, wrong_refusals_are_refused};
