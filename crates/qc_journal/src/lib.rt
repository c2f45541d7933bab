//! Journals: records on a disk, which a stop at any moment leaves whole.
//!
//! 1. `open` gives exactly the bodies that the disk holds, or says where its
//!    bytes cease to be a journal. Its first call syncs, so that what it read
//!    cannot be lost afterwards.
//! 2. While `append` runs, each image that a stop may leave holds the bodies from
//!    before, or these with the new one. Once it has answered `Ok`, each holds
//!    the new one.
//! 3. `append` takes no memory: `reserve` took it.
//! 4. A call answers `Failed` or `Stopped` only where the disk's count of faults
//!    rose.
//! 5. Of the disk's calls that count for what is armed, `append` makes four, and
//!    `open` one, or two where it begins the journal anew. One that is refused
//!    says in how many of them, and whether by the arm.
//!
//! All of it holds over any disk. `docs/JOURNAL.md` shows the calls with what a
//! stop leaves after each. Each actor that keeps records has a journal.
#![tactic(auto)]

mod fault;
mod journal;
mod laws;
mod reading;
mod restart;
mod writing;

pub use fault::JournalFault;
pub use journal::Journal;
pub use laws::{
    first_sync_is_needed, last_sync_is_needed, one_reading, records_last, two_writes_are_needed,
};
pub use restart::add_and_fall;
