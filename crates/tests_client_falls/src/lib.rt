//! What is due of a client through its falls, tried on right and wrong deeds of
//! one client: each wrong list of deeds is refused, by what is due or by which
//! verdicts are right, and stands near a right one.
//!
//! There is no code here, and nothing stands on this crate.
#![tactic(auto)]

mod right;
mod wrong;

pub use right::{right_lives_are_due, right_lives_are_right};
pub use wrong::{wrong_lives_are_refused, wrong_records_are_refused, wrong_verdicts_are_refused};
