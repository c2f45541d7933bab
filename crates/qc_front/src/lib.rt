//! The front end of a client: it begins transactions, executes invocations by
//! rounds of requests over quorums, and gives transactions up.
#![tactic(auto)]

mod answering;
mod appending;
mod asking;
mod counting;
mod doing;
mod draft;
mod ending;
mod front;
mod laws;
mod next;
mod reading;
mod sent;
mod taking;
mod transaction;

pub use doing::Doing;
pub use front::Front;
pub use laws::{
    answers_ask_at_once, answers_keep_hold, clocks_pass_grants, commands_ask_at_once,
    commands_keep_hold, counts_rise_by_one, dos_go_on, first_grants_give_lives, front_ends_fit,
    new_front_ends_hold, numbers_keep_hold, replies_are_as_rounds_come, requests_count_once,
    second_requests_for_a_site_are_refused, sites_have_one_open_request,
    turns_send_requests_and_verdicts,
};
pub use sent::calls_of;
pub use transaction::{Transaction, Views};
