//! A client: its front end and its desk.
#![tactic(auto)]

mod client;
mod conduct;
mod laws;

pub use client::Client;
pub use laws::{
    decisions_tell_outcomes, other_inputs_do_nothing, outcomes_are_told, transactions_commit_once,
};
