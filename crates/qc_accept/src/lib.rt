//! Which declarations are accepted.
//!
//! A declaration is a TOML document: types with their relations and
//! certificates, objects, and the quorums of each epoch. `specs/` says field by
//! field which declaration the bytes spell, or what is the first fault. `accept`
//! answers exactly by it. What is accepted keeps all that theorems on runs ask
//! of a declaration.
#![tactic(auto)]

mod acceptance;
mod certificates;
mod checks;
mod epochs;
mod fault;
mod fields;
mod kinds;
mod laws;
mod names;
mod objects;
mod rows;
mod sorting;
mod words;

pub use acceptance::accept;
pub use fault::DeclFault;
pub use laws::{
    accepted_declarations_are_named, accepted_declarations_are_their_documents,
    accepted_declarations_keep_the_rules, sufficient_declarations_are_accepted,
    thresholds_are_their_texts, types_are_their_texts,
};
