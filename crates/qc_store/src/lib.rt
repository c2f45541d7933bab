//! Stores: an actor's journal on its disk, through the actor's falls and rises.
//!
//! 1. Where the disk tells, an open journal holds the records that were written.
//!    One that was given up holds these, with the record that was being written
//!    or without it, and so does what the next opening gives; it is never torn.
//! 2. The account of the disk goes on with each call: what is armed on the disk is
//!    what waits in the account, as far as a history shows it, and the falls that
//!    nothing armed can have made are no more than the faults that the disk
//!    counted.
//! 3. The calls of a disk that a store counts are those that `Spent` counts. So
//!    the faults of all disks, back on their rack, spend the history.
//!
//! All of it holds over any disk, and knows no history. Cells keep their actors'
//! records in stores.
#![tactic(auto)]

mod laws;
mod store;

pub use laws::{
    accounts_are_in_time, armed_faults_are_accounted, calls_are_those_of_histories,
    counted_disks_make_spent,
};
pub use store::{RiseFault, crash, rise, start, write};
