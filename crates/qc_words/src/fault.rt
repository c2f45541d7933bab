//! Why words ask nothing.

ghost use Rattle.std.specs.Prelude.{◌≡◌};
ghost use Rattle.qc_words.specs.declared.fault.WordsFault.TheVariants as words_fault;

use qc_list::OutOfMemory;

/// Why words aren't read.
#[derive(Clone, Copy, PartialEq, Eq)]
pub enum WordsFault {
    /// The words have the form of no command.
    Usage,
    /// Memory was wanting.
    OutOfMemory,
}

impl From<OutOfMemory> for WordsFault {
    ghost from_gives = { λ _ e. e ≡ words_fault.OutOfMemory };

    fn from(_: OutOfMemory) -> WordsFault {
        WordsFault::OutOfMemory
    }
}
