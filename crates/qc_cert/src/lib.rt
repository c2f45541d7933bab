//! Certificates of dependency relations.
//!
//! A relation is exact where a reply that is computed from a view, a part of
//! the history that has what its invocation depends on, is as legal as one
//! computed from the whole. A certificate is a list of triples that shows a
//! relation exact by rules that are checked state by state.
//!
//! 1. A list that is accepted is inductive, and its type's relation is exact.
//! 2. A list that isn't inductive is refused with its first fault, and only
//!    want of memory refuses another.
//!
//! `qc_accept` checks each declared type's certificate; the laws on replies
//! rest on exactness.
#![tactic(auto)]

mod blocks;
mod covered;
mod fault;
mod faultless_walk;
mod firsts;
mod groups;
mod hints;
mod indexed_kind;
mod laws;
mod limits;
mod pairs;
mod parts;
mod places;
mod rules;
mod triple;

pub use fault::CertFault;
pub use laws::{
    a_place_makes_no_fault, closed_sets_are_covered, covers_is_cover, distinct_triples_cover_alike,
    inductive_lists_have_no_fault, inductive_lists_make_relations_exact, no_fault_is_inductive,
    the_first_fault_is_of_a_first,
};
pub use limits::{MOST_TRIPLES, limit_of_triples_is_as_defined};
pub use rules::check;
pub use triple::Triple;
