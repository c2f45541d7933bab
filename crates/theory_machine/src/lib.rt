//! The protocol of replication by quorum consensus, with two-phase commit and
//! presumed abort, as an abstract machine, and what every run of it keeps.
//!
//! A run is a list of acts of the declared sites and clients, at most 16 of
//! each, over every schedule; messages may be lost, repeated and late, sites and
//! clients fall and rise, and quorums change from epoch to epoch. The machine is
//! in four files: `specs/State`, `specs/Acts`, `specs/Asked` (the guards by name)
//! and `specs/Guards`. Each law is the contract of a function with nothing to do.
//! Its invariants:
//!
//! 1. What a site granted and the client counted is held until the site's first
//!    Done or its next Install (the held law).
//! 2. A stamp has passed the clock of each grant that was counted (the clock
//!    law), so stamps follow what was seen.
//! 3. Of two dependent operations the later one's view has the earlier one's
//!    line (the ordering lemma).
//! 4. Logs have just operations of records, and are closed.
//! 5. An operation is answered from a view of the committed lines before it.
//! 6. So the commit records are one copy's of each object, in the order of
//!    their stamps, each transaction once; and verdicts agree with them.
//!
//! The system's own theorem needs only that each of its events is such a step.
//! There is no code here.
#![tactic(auto)]

mod held;
mod logs;
mod records;

pub use held::{
    counted_grants_are_held, granted_items_are_held, held_lines_are_one_an_operation,
    plain_runs_have_one_life_and_epoch, stamps_pass_what_was_counted, votes_are_never_stale,
};
pub use logs::{
    dependent_operations_are_ordered, logs_are_closed, logs_hold_operations, runs_answer_from_views,
};
pub use records::{
    records_are_apart, records_follow_what_was_seen, records_in_order_are_one_copy,
    runs_are_one_copy, verdicts_agree,
};
