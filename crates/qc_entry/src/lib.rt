//! What a log holds: lines, operations, commit records and prepared
//! transactions.
//!
//! The line of an operation has the stamp and name of its transaction, the
//! operation's number there, its object and its event (Herlihy 1986).
//!
//! 1. A log is a sorted list of distinct lines, by its type.
//! 2. Logs are merged into their sorted union, so the order in which a site
//!    learns of lines doesn't matter.
//! 3. After want of memory a log is as it was.
//!
//! Sites keep and send logs, front ends read their views off them, and histories
//! hold records.
#![tactic(auto)]

mod arrivals;
mod laws;
mod line;
mod log;
mod mark;
mod record;
mod slices;

pub use arrivals::{Arrivals, Told};
pub use laws::{lines_are_ordered, union_is_a_union};
pub use line::{Line, Op, Ops, OwnLine, Owns, ReadLock, Reads};
pub use log::Log;
pub use mark::Mark;
pub use record::{Commit, Prepared};
