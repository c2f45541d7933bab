//! What a seat of the word knows. It is a pass, or the right, or both while they
//! are joined, or nothing any more.

use qc_list::Marked;
use std::collections::LinkedList;

/// What a seat knows. No value of it is made: it stands in proofs alone.
pub(crate) struct View<E> {
    /// Whether it is a pass.
    pub(crate) is_pass: bool,
    /// The pass's number, which is its actor's.
    pub(crate) number: u8,
    /// The part of the history that the pass has seen.
    pub(crate) seen: LinkedList<Marked<E>>,
    /// The actor's own entries, oldest first.
    pub(crate) mine: LinkedList<E>,
    /// The room that is kept for the pass.
    pub(crate) room: u64,
    /// Whether it has the right.
    pub(crate) has_right: bool,
    /// The history.
    pub(crate) all: LinkedList<Marked<E>>,
    /// The room of each pass, by its number.
    pub(crate) rooms: LinkedList<u64>,
    /// How many entries each pass has seen, by its number.
    pub(crate) ends: LinkedList<u64>,
}
