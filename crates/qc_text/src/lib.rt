//! The printed text of a run, and the summary of a load's.
//!
//! The text has four sections, each read off the history alone: the replies, in
//! the script's order; the log of what committed, in the order of the stamps;
//! the states after a replay of it; and the sites. No premise is asked of the
//! history, and nothing is taken from the code that made it. What holds:
//!
//! 1. Each function that adds to a page adds exactly what its definition in
//!    `specs/` says, where each kind of command and of reply has its line.
//! 2. A command takes the oldest reply of its actor that no earlier command
//!    took.
//! 3. A site's line is what the promise says that its own steps show; a site
//!    that fell and hasn't risen is down.
//! 4. The summary of a load counts what committed, what was told aborted, and the
//!    operations by the names that the declaration gives them (`summary`).
//! 5. The work is linear in the history, but for three things: the commits, the
//!    last Prepares and the transactions that hold something are kept in order,
//!    and a log is merged as often as the site merged it, lines that its epoch
//!    began with being left out each time.
//!
//! The top call prints the text.
#![tactic(auto)]

mod asked;
mod committed;
mod deeds;
mod grants;
mod holders;
mod holdings;
mod known;
mod laws;
mod lifetimes;
mod lines;
mod loads;
mod log;
mod names;
mod parts;
mod piece;
mod prepares;
mod promises;
mod queues;
mod records;
mod replies;
mod report;
mod results;
mod sites;
mod states;

pub use laws::{replies_read_so, sites_read_so, summaries_read_so};
pub use loads::summary;
pub use report::text;
