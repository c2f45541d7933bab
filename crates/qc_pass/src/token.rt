//! The word, the passes and the right, as callers hold them.

ghost use Rattle.std.specs.Prelude.{◌≡◌, []};
ghost use Rattle.qc_pass.specs.Views.{own, pass_view, right_view};

use crate::rule::PassRule;
use crate::view::View;
use atomic_table::{Seat, Table};
use std::alloc::Global;

/// The word, which counts the history's entries. Nobody reads the count: the
/// word is there for its seats.
#[derive(Drop)]
pub struct Passes<E> {
    pub(crate) table: Table<(), View<E>, (), PassRule, Global>,
    ghost words: { table.shared.table_id.words ≡ 1 },
    ghost slots: { table.shared.table_id.slots ≡ 0 },
}

/// What one actor knows of the history: what it has seen, and its own entries,
/// which are just those of its number in what it has seen. Its number and its
/// room it holds at run time too.
#[derive(Drop)]
pub struct Pass<E> {
    pub(crate) number: u8,
    pub(crate) room: u64,
    pub(crate) seat: Seat<(), View<E>>,
    ghost is_pass: { seat.me ≡ (pass_view seat.me.0.number seat.me.0.seen seat.me.0.mine seat.me.0.room, []) },
    ghost numbered: { number ≡ seat.me.0.number },
    ghost roomed: { room ≡ seat.me.0.room },
    ghost part: { own seat.me.0.number seat.me.0.seen ≡ seat.me.0.mine },
}

/// The right to add to the history, which knows all of it. There is one for a
/// word. It has no bytes.
#[derive(Drop)]
pub struct Right<E> {
    pub(crate) seat: Seat<(), View<E>>,
    ghost is_right: { seat.me ≡ (right_view seat.me.0.all seat.me.0.rooms seat.me.0.ends, []) },
}

/// What `make` makes.
#[derive(Drop)]
pub struct Made<E> {
    /// The word.
    pub passes: Passes<E>,
    /// The right to its history.
    pub right: Right<E>,
    /// The passes, the one with the number 0 first.
    pub each: Vec<Pass<E>>,
}

impl<E> Pass<E> {
    /// Its number, which is its actor's.
    pub fn number(&self) -> u8
        ensures { result ≡ self.now.seat.me.0.number }
    {
        self.number
    }

    /// The room that is kept for it.
    pub fn room(&self) -> u64
        ensures { result ≡ self.now.seat.me.0.room }
    {
        self.room
    }
}
