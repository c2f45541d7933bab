//! Passes: what each of many actors knows of one history, and the one right to
//! add to it.
//!
//! Nobody holds the history here: it stands in proofs alone. An actor's *pass*
//! knows the part of it that the actor has seen, and which entries are its own;
//! the *right* knows all of it. They are seats of one word of memory, and to add
//! an entry a pass takes the right over, counts the word up by one, and gives
//! the right off again. So what two actors know are parts of one history,
//! whichever threads they run on. What holds (`specs/Rule.antt`):
//!
//! 1. There is one right, and what it knows is the history.
//! 2. What a pass has seen is where the history begins, and what a pass knows as
//!    its own are just the entries that the history has of its actor.
//! 3. Two passes have different numbers. An actor without a pass has no entry.
//! 4. For each pass the right knows its room and how much it has seen.
//! 5. `mark` and `look` take no memory and wait for nobody.
//!
//! The state that the actors' threads share keeps the right, and each actor its
//! pass.
#![tactic(auto)]

mod laws;
mod make;
mod meet;
mod rule;
mod steps;
mod token;
mod view;
mod wrong;

pub use laws::{numbers_differ, passes_agree, passes_are_of_the_history, there_is_one_right};
pub use token::{Made, Pass, Passes, Right};
pub use wrong::{
    two_entries_stand, wrong_counts, wrong_numbers, wrong_own_entries, wrong_rights,
    wrong_rooms_and_ends, wrong_views,
};
