//! The ground floor: lists and texts that contracts see as plain lists, the
//! entry of a history, and the words that several crates cite of lists.
//!
//! 1. No type whose value a definition gives holds a bare `Vec` or `String`; it
//!    holds one of these, so that definitions and code speak of the same value.
//! 2. What is said of members of lists, of lists in an order and of searches by
//!    number stands here once, in `specs/`, with its lemmas in `proofs/`.
//!
//! Every other crate stands on this one.
#![tactic(auto)]

mod list;
mod marked;
mod page;
mod text;

pub use list::List;
pub use marked::Marked;
pub use page::Page;
use std::alloc::AllocError;
pub use text::{Name, Path};

/// Want of memory, the one answer that no contract ties to a cause.
pub type OutOfMemory = AllocError;
