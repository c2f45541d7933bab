//! What a writer took, for proofs alone: it takes no memory, and nothing reads it
//! when the program runs.

ghost use Rattle.std.specs.Prelude.{◌≡◌, ℕ, List, [], ◌++◌};
ghost use Rattle.std.specs.Borrow.{ftrue};

use std::marker::Model;

/// Bytes that a writer took.
#[derive(Clone, Copy, Drop)]
pub(crate) struct Piece<'a> {
    /// The bytes, in their order.
    pub(crate) bytes: &'a [u8],
}

/// All bytes that a writer took so far.
#[derive(Drop)]
pub(crate) struct Taken {
    pub(crate) ghost bytes: { List ℕ },
}

impl Model for Taken {
    ghost also_owns = { λ _. ftrue };
}

impl Taken {
    /// No bytes yet.
    pub(crate) fn new() -> Taken
        ensures { result.bytes ≡ [] }
    {
        Taken {}
    }

    /// One piece more.
    #[inline(always)]
    pub(crate) fn and(&self, _piece: &Piece<'_>) -> Taken
        ensures { result.bytes ≡ self.now.bytes ++ _piece.now.bytes.now }
    {
        Taken {}
    }
}
