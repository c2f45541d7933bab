//! Declarations: the types, objects and quorums of a store, and its actors'
//! numbers.
//!
//! Sites are numbered first, then clients, then the administrator, then the
//! controller. Objects, types, states, invocations, responses and events are
//! numbered from 0 in the declaration's order. The declarations `@one` and
//! `@three` are built in. Every crate that asks what a designer declared asks
//! it here.
#![tactic(auto)]

mod declaration;
mod laws;
mod limits;
mod named;
mod names;
mod one;

pub use declaration::{Declaration, KindNames, KindNamesList, Kinds, Names, Objects, Plans};
pub use laws::{accepted_declarations_have_few_names, names_stand_for_their_places};
pub use limits::{
    GREATEST_THRESHOLD, GREATEST_WEIGHT, LONGEST_NAME, MOST_ALIKE_TRIPLES, MOST_CARRIED_LINES,
    MOST_CLIENTS, MOST_COMMITTED_OPERATIONS, MOST_DECLARATION_BYTES, MOST_EPOCHS, MOST_EVENTS,
    MOST_INVOCATIONS, MOST_OBJECTS, MOST_RECORD_BYTES, MOST_RESPONSES, MOST_ROWS,
    MOST_SCRIPT_BYTES, MOST_SITES, MOST_STATES, MOST_STEPS, MOST_TRANSACTION_OPERATIONS,
    MOST_TRIPLES, MOST_TYPES, limits_are_as_defined,
};
pub use names::name_at;
pub use one::built_in;
