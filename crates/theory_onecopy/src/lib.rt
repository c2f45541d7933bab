//! One copy of each object: what it is that committed transactions are its
//! operations, how that is tested, and what is enough for it.
//!
//! 1. Commit records stand in the order of their stamps, each once.
//! 2. A replay of them has states exactly where they are one copy's.
//! 3. Operations that were answered from views, in the sense of certificates,
//!    are one copy's. What is asked of them is what a reader can check of
//!    operations and lines; it knows no sites, locks, epochs, lives or messages.
//!
//! The theory of the protocol stands on the third, the laws of the system on
//! the definitions, and the report on the replay. No unsorted list, and no
//! state of a site, is seen here.
#![tactic(auto)]

mod laws;
mod states;

pub use laws::{
    answers_are_from_views, records_are_sorted, replays_are_one_copy, views_are_one_copy,
};
pub use states::replay;
