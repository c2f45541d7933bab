//! The kinds of step that the seats take after the word is made, each as what it
//! does to what a seat knows. None of these types has a value.

use crate::view::View;
use atomic_table::{Join, Play, Split};
use std::marker::{Brand, PhantomData};

/// The right makes one pass more, with the next number.
pub(crate) struct SplitPass;

impl<E> Split<View<E>> for SplitPass {
    ghost use Rattle.qc_pass.specs.Views.{with_pass, next_pass};

    ghost left = { with_pass };

    ghost right = { next_pass };
}

/// A pass takes the right over.
pub(crate) struct JoinRight;

impl<E> Join<View<E>> for JoinRight {
    ghost use Rattle.qc_pass.specs.Views.{joined, spent};

    ghost both = { joined };

    ghost spent = { spent };
}

/// A pass that has the right reads the word: it learns that it is a pass of the
/// right's history.
pub(crate) struct Load;

impl<E> Play<(), View<E>> for Load {
    ghost use Rattle.qc_pass.specs.Views.{Loads};

    ghost then = { Loads };
}

/// The entry that one call adds. The call picks it.
pub(crate) trait Entering<E> {
    ghost use Rattle.std.specs.Prelude.{Option};

    ghost entry: { Option E };
}

impl<E> Entering<E> for Brand {
    ghost use Rattle.std.specs.Prelude.{None};

    ghost entry = { None };
}

/// A pass that has the right adds the entry, and learns what a load tells.
pub(crate) struct Add<N> {
    of: PhantomData<N>,
}

impl<E, N: Entering<E>> Play<(), View<E>> for Add<N> {
    ghost use Rattle.qc_pass.specs.Views.{Adds};

    ghost then = { Adds N.entry };
}

/// The room that one call leaves the pass. The call picks it.
pub(crate) trait Keeping {
    ghost use Rattle.std.specs.Prelude.{ℕ};

    ghost room: { ℕ };
}

impl Keeping for Brand {
    ghost room = { 0 };
}

/// A pass that has the right has seen the history, and gives the right off.
pub(crate) struct SplitRight<N> {
    of: PhantomData<N>,
}

impl<E, N: Keeping> Split<View<E>> for SplitRight<N> {
    ghost use Rattle.qc_pass.specs.Views.{pass_apart, right_apart};

    ghost left = { pass_apart N.room };

    ghost right = { right_apart N.room };
}
