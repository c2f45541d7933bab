//! Laws of every run of a script: the order of what happens, what sites show, bounds, and
//! what becomes of transactions.
//!
//! There is no code here: each law is the contract of a function with nothing to
//! do. All are of histories alone.
//!
//! # Order, calls and replies of runs without falls
//!
//! 1. Messages are numbered from 0 in the order in which they were sent
//!    (`messages_are_numbered_in_order`), and what is ready for an actor was sent
//!    to it before (`what_is_ready_was_sent`). So all mail reaches those whom it
//!    was sent to (`messages_reach_their_receivers`).
//! 2. Each actor takes and posts by turns, and a command comes only where none
//!    runs (`actors_take_and_post_by_turns`); so its deeds are by turns
//!    (`actors_go_by_turns`). Nobody else does anything (`others_do_nothing`).
//! 3. A Decision Committed names a stamp of its transaction's own client
//!    (`decisions_name_stamps_of_their_clients`). So sites serve (`sites_serve`),
//!    all that one is its own steps show (`sites_are_what_their_steps_show`), and
//!    all that one posts is due (`what_sites_post_is_due`).
//! 4. Commands are called as the script asks them (`calls_are_asked`,
//!    `phases_are_the_scripts`); each reply answers the one that runs
//!    (`replies_answer_commands`), and each command that was called has its
//!    reply but the one that runs (`calls_are_replied`). A client waits just
//!    while one runs (`clients_wait_while_commands_run`).
//! 5. A request that a client waits for is lost, or unanswered, or its answer is
//!    ready (`open_requests_are_awaited`); an unanswered one is at its site
//!    (`unanswered_requests_are_at_their_sites`). So none is open where nothing
//!    is left to happen (`no_request_is_open_at_the_end`).
//! 6. Where no command runs then, and every phase began, the run is whole
//!    (`runs_without_commands_are_whole`).
//!
//! # Lives: runs with falls
//!
//! 1. By the conduct of the system an actor that is down writes nothing and
//!    sends nothing (`who_is_down_only_tells`).
//! 2. Each actor of a run with falls takes inputs and posts the turns that they
//!    call for, falls, and rises and posts its rising turn
//!    (`actors_live_in_runs_with_falls`).
//! 3. So its deeds are by turns (`actors_go_by_turns_with_falls`), and messages
//!    reach those whom they were sent to
//!    (`messages_reach_their_receivers_with_falls`), under numbers that are their
//!    places (`messages_are_numbered_in_order_with_falls`). Nobody else does
//!    anything but fall (`others_do_nothing_with_falls`).
//! 4. Where clients rise with commit records that name stamps of their own, each
//!    Decision Committed does
//!    (`decisions_name_stamps_of_their_clients_with_falls`); so sites take what
//!    sites take (`sites_take_site_inputs_with_falls`), they serve
//!    (`sites_serve_with_falls`), they are what their steps show
//!    (`sites_are_what_their_steps_show_with_falls`), and what they post is due
//!    (`what_sites_post_is_due_with_falls`). So clients do where records are kept
//!    (`clients_rise_with_own_stamps_where_records_are_kept`).
//!
//! # Clocks, counts and records of runs without falls
//!
//! 1. Every clock and count is at most the number of steps
//!    (`clocks_and_counts_are_bounded`), so a client's calls may be made
//!    (`clients_calls_may_be_made`), and turns are short (`turns_are_short`).
//! 2. No two commit records have one stamp or one transaction
//!    (`records_are_apart`).
//! 3. A record's operations are those that its client was told
//!    (`records_are_what_was_told`), and the ends that clients were told agree
//!    with the records (`clients_are_told`).
//! 4. A transaction begins once, and moves on as it may (`transactions_move_on`);
//!    each Decision that is sent agrees with the records for ever
//!    (`decisions_agree_with_records`); stamps of one client rise (`stamps_rise`).
//! 5. Wrong histories are refused (`wrong_courses_are_refused`,
//!    `wrong_verdicts_are_refused`, `wrong_records_are_refused`).
#![tactic(auto)]

mod bounds;
mod command_laws;
mod lives;
mod order;
mod records;
mod requests;
mod sites;
mod sites_with_falls;
mod transactions;
mod whole;
mod wrong;

pub use bounds::{clients_calls_may_be_made, clocks_and_counts_are_bounded, turns_are_short};
pub use command_laws::{
    calls_are_asked, calls_are_replied, clients_wait_while_commands_run, phases_are_the_scripts,
    replies_answer_commands,
};
pub use lives::{
    actors_go_by_turns_with_falls, actors_live_in_runs_with_falls,
    messages_are_numbered_in_order_with_falls, messages_reach_their_receivers_with_falls,
    others_do_nothing_with_falls, who_is_down_only_tells,
};
pub use order::{
    actors_go_by_turns, actors_take_and_post_by_turns, messages_are_numbered_in_order,
    messages_reach_their_receivers, others_do_nothing, what_is_ready_was_sent,
};
pub use records::{clients_are_told, records_are_apart, records_are_what_was_told};
pub use requests::{
    no_request_is_open_at_the_end, open_requests_are_awaited,
    unanswered_requests_are_at_their_sites,
};
pub use sites::{
    decisions_name_stamps_of_their_clients, sites_are_what_their_steps_show, sites_serve,
    what_sites_post_is_due,
};
pub use sites_with_falls::{
    clients_rise_with_own_stamps_where_records_are_kept,
    decisions_name_stamps_of_their_clients_with_falls, sites_are_what_their_steps_show_with_falls,
    sites_serve_with_falls, sites_take_site_inputs_with_falls, what_sites_post_is_due_with_falls,
};
pub use transactions::{decisions_agree_with_records, stamps_rise, transactions_move_on};
pub use whole::runs_without_commands_are_whole;
pub use wrong::{wrong_courses_are_refused, wrong_records_are_refused, wrong_verdicts_are_refused};
