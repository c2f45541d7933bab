//! Tests of one history of many threads, through what `qc_fabric` and
//! `qc_mailbox` offer to others. Actors may do anything here: what they do
//! stands in tables.
#![tactic(auto)]

mod conduct;
mod scripts;

pub use conduct::AnyTurn;
pub use scripts::script_of;

#[cfg(test)]
mod calls;
#[cfg(test)]
mod fall_tests;
#[cfg(test)]
mod falls;
#[cfg(test)]
mod lock;
#[cfg(test)]
mod meeting;
#[cfg(test)]
mod rows;
#[cfg(test)]
mod seat;
#[cfg(test)]
mod steps;
#[cfg(test)]
mod tests;
#[cfg(test)]
mod thread_tests;
#[cfg(test)]
mod threads;
#[cfg(test)]
mod top;
#[cfg(test)]
mod turn;
