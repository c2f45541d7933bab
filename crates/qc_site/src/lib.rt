//! A site: what it knows and holds, and what it does as a message comes.
//!
//! `Site::handle` is the whole conduct: one message, one turn. What holds:
//!
//! 1. The clock passes the stamp of each line and decision that comes, whatever
//!    becomes of the message, and never falls (Lamport 1978).
//! 2. What is granted conflicts with nothing that another transaction holds,
//!    and is held until a decision on its transaction comes (Herlihy 1986).
//! 3. The log has all lines that the site knows, ascending, and gains exactly
//!    what an Append's view or a committed promise brings.
//! 4. A promise is told only after its record of all that the transaction
//!    holds is written; it stands until a decision (presumed abort).
//! 5. Requests of another epoch, or that name another life, change nothing but
//!    the clock.
//! 6. After want of memory a site is as it was.
//!
//! The actors of a run stand on it.
#![tactic(auto)]

mod asker;
mod clock;
mod decision;
mod epochs;
mod grants;
mod known;
mod laws;
mod line_laws;
mod promise;
mod readers;
mod requests;
mod site;

pub use clock::latest;
pub use decision::lines_of;
pub use epochs::held_by;
pub use laws::{
    clashes_are_the_smallest, clocks_never_fall, clocks_pass_what_comes,
    closes_are_answered_by_rows, decisions_free, grants_are_held, grants_conflict_with_nothing,
    installs_are_answered_by_rows, lives_and_epochs_rise, other_inputs_do_nothing, promises_stand,
    refusals_change_nothing, requests_are_answered_by_rows, sites_stay_sorted, votes_are_backed,
    what_is_held_stays,
};
pub use line_laws::{logs_gain_what_is_brought, what_arrived_is_known};
pub use site::{Promises, RisenState, Site};
