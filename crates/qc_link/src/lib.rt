//! Links: what becomes of a message as it is sent.
//!
//! A plan of links is a list of rules. A rule names a sender, a receiver and an
//! ordinal, or leaves them open, and gives a fate to the messages that it is
//! for; the first rule that is for a message decides. Actors that are cut from
//! each other lose all messages between them, until they are healed.
//!
//! 1. The first rule added that is for a message decides, however many rules
//!    there are: each pattern's first place is looked up, and no list of rules
//!    is walked. A message costs eight look-ups in a tree, of some
//!    log2 of the rules comparisons each, whatever the rules are.
//! 2. Two actors that were cut any number of times are joined by one heal.
//! 3. To ask for a fate takes no memory.
#![tactic(auto)]

mod cuts;
mod laws;
mod limits;
mod plan;
mod rule;

pub use cuts::Cuts;
pub use laws::{cuts_part_two_actors, heals_join_two_actors};
pub use limits::{ACTOR_PAIRS, MOST_ACTORS, limit_of_actors_is_as_defined};
pub use plan::{Link, LinkPlan, fate};
pub use rule::{Fate, Rule};
