//! What a shelf handed over, for proofs alone: it takes no memory, and nothing
//! reads it when the program runs.

ghost use Rattle.std.specs.Prelude.{◌≡◌, List, [], ◌∷◌, ◌++◌};
ghost use Rattle.std.specs.Borrow.{ftrue};
ghost use Rattle.qc_files.specs.Handed.{HandedOver};

use qc_outside::ShelfFault;
use std::marker::Model;

/// A call of a shelf that was answered.
#[derive(Clone, Copy, Drop)]
pub(crate) struct Answered<'a> {
    /// The file's name.
    pub(crate) name: &'a str,
    /// The most bytes that it was to have.
    pub(crate) limit: u32,
    /// What was handed over.
    pub(crate) answer: &'a Result<Vec<u8>, ShelfFault>,
}

/// The calls of a shelf so far, oldest first.
#[derive(Drop)]
pub(crate) struct Handed {
    pub(crate) ghost calls: { List HandedOver },
}

impl Model for Handed {
    ghost also_owns = { λ _. ftrue };
}

impl Handed {
    ghost use Rattle.qc_files.specs.Answered.{handed_by};

    /// No call yet.
    pub(crate) fn new() -> Handed
        ensures { result.calls ≡ [] }
    {
        Handed {}
    }

    /// One call more.
    #[inline(always)]
    pub(crate) fn and(&self, _call: &Answered<'_>) -> Handed
        ensures { result.calls ≡ self.now.calls ++ handed_by _call.now ∷ [] }
    {
        Handed {}
    }
}
