//! The definitions of the conduct, computed on whole histories.
//!
//! The histories come from a model of the protocol that was written apart from
//! this repository, as its executable description: `specs/` has each with the
//! schedule that made it, and `tools/whole_histories` wrote them. Each
//! law says that the conduct performs a history: whoever posts a turn posts
//! just the steps that the history has there.
//!
//! There is no code here, and nothing stands on this crate.
#![tactic(auto)]

mod random;
mod worked;

pub use random::{
    histories_1_to_10_are_performed, histories_11_to_20_are_performed,
    histories_21_to_30_are_performed, histories_31_to_40_are_performed,
};
pub use worked::worked_histories_are_performed;
