//! Every run of a script without falls is a run of the protocol's machine, and atomic.
//!
//! There is no code here: each law is the contract of a function with nothing to
//! do. All are of histories alone.
//!
//! # Runs are runs of the machine
//!
//! 1. Every run of a script that was read is a net's that may come about: the
//!    net stands still as an input is taken, and takes and posts in one step at
//!    the post (`runs_are_nets`).
//! 2. So what every net keeps, every run keeps: its commit records are one
//!    copy's and apart (`runs_are_one_copy`), lines are operations of them
//!    (`lines_are_operations_of_records`), logs and views are closed
//!    (`logs_and_views_are_closed`), Decisions agree with them
//!    (`decisions_tell_the_records`).
//!
//! # What was seen comes before
//!
//! 1. Only clients write commit records (`clients_alone_write_records`).
//! 2. What a client has seen has a record whose stamp the client's clock has
//!    passed: a line that a counted grant showed, since the grant's clock had
//!    passed it; what the client was told committed, since the stamp was the
//!    clock then. A record's stamp is above the clock
//!    (`records_follow_what_was_seen`).
//! 3. So every run of a script is atomic (`runs_are_atomic`).
//! 4. Histories whose records don't follow what was seen are refused, and a line
//!    that came late wasn't seen (`wrong_orders_are_refused`,
//!    `right_orders_are_taken`).
#![tactic(auto)]

mod atomic;
mod seen;
mod wrong;

pub use atomic::{
    decisions_tell_the_records, lines_are_operations_of_records, logs_and_views_are_closed,
    runs_are_nets, runs_are_one_copy,
};
pub use seen::{clients_alone_write_records, records_follow_what_was_seen, runs_are_atomic};
pub use wrong::{right_orders_are_taken, wrong_orders_are_refused};
