//! A shelf of files, from which the declaration and the script are taken.

ghost use Rattle.std.specs.Prelude.{◌≡◌, MatchResult};
ghost use Rattle.qc_outside.specs.Shelf.{IsTaken, IsRefused, ShelfRose, answer_of};

use qc_list::OutOfMemory;

/// Why a shelf gave no file.
#[derive(Clone, Copy, Debug, PartialEq, Eq)]
pub enum ShelfFault {
    /// No file has the name.
    Missing,
    /// The file is longer than the limit.
    TooLong,
    /// The shelf failed, and its count of faults rose.
    Failed,
    /// Memory was wanting.
    OutOfMemory,
}

impl From<OutOfMemory> for ShelfFault {
    ghost use Rattle.qc_outside.specs.declared.shelf.ShelfFault.TheVariants.{OutOfMemory};

    ghost from_gives = { λ _ e. e ≡ OutOfMemory };

    fn from(_error: OutOfMemory) -> ShelfFault {
        ShelfFault::OutOfMemory
    }
}

/// Files by name, with a count of the shelf's faults.
pub trait Shelf {
    ghost use Rattle.std.specs.Prelude.{ℕ, List, Option, ⊤};
    ghost use Rattle.qc_outside.specs.Shelf.{Answer, Files};

    // The files, where the shelf tells them.
    ghost files: { Self → Option Files };

    // How many calls failed so far, or more.
    ghost faults: { Self → ℕ };

    // What a call may do: asked for a file of this name within this limit, the
    // shelf gives this answer, and then is that shelf.
    ghost gives: { Self → List ℕ → ℕ → Answer → Self → Type 0 } = { λ _ _ _ _ _. ⊤ };

    /// The bytes of the named file, which has at most `limit` of them.
    ///
    /// `Missing` comes exactly where no file has the name, `TooLong` exactly
    /// where the file is longer than `limit`, and `Failed` only where the count
    /// rose. The files stay the same, and so does the count where memory was
    /// wanting.
    fn take(&mut self, name: &str, limit: u32) -> Result<Vec<u8>, ShelfFault>
        ensures same { files self.new ≡ files self.old }
        ensures given { gives self.old name.now limit (answer_of result) self.new }
        ensures content { MatchResult result
            (λ v. IsTaken (files self.old) name.now limit v.items)
            (λ e. IsRefused (files self.old) name.now limit e) }
        ensures cause { ShelfRose (faults self.old) (faults self.new) result };
}
