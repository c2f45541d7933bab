//! Stamps, transactions' names and Lamport clocks, with their orders.
//!
//! A stamp is chosen as a transaction commits and orders the committed
//! transactions. A clock passes each stamp that its owner learns of, so that
//! the next stamp is greater than all of them (Lamport 1978).
//!
//! 1. Both orders are total, and tell different values apart.
//! 2. A clock's value never falls, and the next stamp's clock is above it.
//!
//! Lines and records (`qc_entry`), messages, sites and front ends name
//! transactions and choose stamps by this crate.
#![tactic(auto)]

mod clock;
mod laws;
mod stamp;

pub use clock::Clock;
pub use laws::{stamps_are_ordered, transactions_are_ordered};
pub use stamp::{FIRST_LIFE, Stamp, TxId};
