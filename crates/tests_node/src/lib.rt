//! Sites and clients on threads run scripts as the rules say.
#![tactic(auto)]

mod meeting;
mod runs;
mod steps;

pub use meeting::Meeting;
pub use runs::{Ran, run, script_of};
pub use steps::Short;

#[cfg(test)]
mod declarations;
#[cfg(test)]
mod rows;
#[cfg(test)]
mod tests;
