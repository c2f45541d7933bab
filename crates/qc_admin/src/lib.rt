//! The administrator: he moves the sites from one epoch to the next.
//!
//! For `epoch k`, where k is the next one, he closes the decided epoch by a
//! round of Closes, from site 0, for the weight that meets each quorum of its
//! plan; he asks the client of each transaction that a closed site has promised
//! how it ended; he decides with what clock and which lines the next epoch
//! begins; and he installs it at all sites. `epoch k` for the decided epoch
//! installs it again. What holds:
//!
//! 1. Each call gives exactly the administrator and the turn of the definitions
//!    in `qc_epoch/specs/Conduct.antt`. Want of memory is its only refusal, and
//!    leaves him as he was.
//! 2. `admin_of` gives exactly the administrator that rises from his records,
//!    and his rising turn, of `qc_recover/specs/Admins.antt`.
//! 3. Deciding takes some n log n steps for n lines and promises: lines are
//!    sorted once, and promises are found by their transactions. Of his Asks,
//!    which have consecutive numbers, the first number alone is kept, so that an
//!    answer finds its question at once.
//!
//! No run gives him inputs yet.
#![tactic(auto)]

mod admin;
mod answers;
mod asking;
mod closing;
mod conduct;
mod decided;
mod deciding;
mod doing;
mod draft;
mod installing;
mod laws;
mod next;
mod questions;
mod rising;
mod shut;
mod stamps;

pub use admin::Admin;
pub use laws::{administrators_fit, turns_are_numbered_at_once, turns_go_to_actors};
pub use rising::{RisenAdmin, admin_of};
