//! What is due through falls and epochs, tried on right and wrong whole
//! histories: the administrator closes an epoch and installs the next one, sites
//! close and install it, and any of them may fall and rise.
//!
//! 1. In each right history all is due: what the administrator tells and writes,
//!    what sites post, what clients tell; each actor acts by turns, and messages
//!    reach their receivers.
//! 2. Each wrong history is a right one with one change, and is refused: a deed
//!    of the administrator isn't due, or he doesn't act by turns, or what a site
//!    posts for its last input, or as it rises, isn't due.
//!
//! The histories come from a model of the protocol that was written apart from
//! this repository; `tools/whole_histories/epochs.py` wrote them. There is no
//! code here, and nothing stands on this crate.
#![tactic(auto)]

mod right;
mod wrong;
mod wrong_sites;

pub use right::{
    all_is_due_in_1_to_10, all_is_due_in_11_to_20, all_is_due_in_21_to_30, all_is_due_in_31_to_40,
    all_is_due_in_worked_histories,
};
pub use wrong::{
    wrong_admin_turns_are_refused, wrong_asks_are_refused, wrong_closes_are_refused,
    wrong_decisions_are_refused, wrong_doubts_are_refused, wrong_falls_are_refused,
    wrong_inputs_are_refused, wrong_installs_are_refused, wrong_moves_are_refused,
    wrong_rises_are_refused, wrong_rounds_are_refused, wrong_sends_are_refused,
};
pub use wrong_sites::{
    wrong_grants_are_refused, wrong_risen_sites_are_refused, wrong_shuts_are_refused,
};
