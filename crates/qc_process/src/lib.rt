//! Processes: an actor with its store, its journal on stable storage, through
//! falls and rises.
//!
//! What is known of a process after a history is `IsProcess` (`specs/Stored.antt`):
//! its actor is what its deeds make of it, and its store holds what its own steps
//! put there (`IsStored`). What holds, where `tells` is said of a disk that tells:
//!
//! 1. A process begins on an empty disk alone (`Process::new`), and a disk that
//!    tells and is empty is never refused as one that isn't.
//! 2. An actor acts as its conduct says (`take`). Its turn's record is spelled, and
//!    the memory for it taken, beforehand (`prepare`); then it is written, or the
//!    disk failed or stopped, and the actor is down (`append`). With each, its store
//!    goes on with what is posted for it.
//! 3. So it does as a fault is armed (`arm`), and as the script lets the actor fall
//!    (`crash`).
//! 4. A restart (`open`) gives exactly the records that were written, with the one
//!    that was being written or without it, and the actor and the rising turn that
//!    they make; or it tells where the first is that is none or isn't the actor's;
//!    or that the disk failed or stopped. Where the disk tells, damage is told only
//!    where a record doesn't fit its actor.
//! 5. At any end the disk holds the actor's records, and counted the falls that
//!    nothing armed can have made (`into_disk`).
//! 6. Of a history in which each actor's store is so, and in which journals fit as
//!    long as records were kept, all records are kept
//!    (`records_are_kept_where_they_fit`).
//!
//! Of histories the code knows nothing: its clauses hold for each, as for each way
//! in which it goes on meanwhile (`Goes`). No lock and no pass is in it. Cells give
//! it inputs and post its turns.
#![tactic(auto)]

mod act;
mod beginning;
mod laws;
mod opened;
mod opening;
mod process;
mod reading;
mod restart;
mod rising;
mod store;

pub use laws::{
    posts_may_be_seen_in_parts, processes_go_on, records_are_kept_where_they_fit,
    stores_stay_over_looks_and_inputs, stores_take_one_record_more,
};
pub use opened::Opened;
pub use process::Process;
pub use store::Store;
