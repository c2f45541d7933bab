//! Why bytes are no record.

ghost use Rattle.std.specs.Prelude.{◌≡◌};
ghost use Rattle.qc_record.specs.declared.fault.Halt.TheVariants.{OutOfMemory};

use std::alloc::{AllocError, AllocFailed};

/// Why bytes are not read as a record.
#[derive(Clone, Copy, Debug, PartialEq, Eq)]
pub enum RecordFault {
    /// The bytes are no record's spelling, though their first byte is a kind.
    Torn {
        /// The place of the first field that is out of its range or out of
        /// order; the end of the bytes where they end within a field; the place
        /// behind the last field where bytes stand there.
        offset: u32,
    },
    /// No record has this kind.
    Unknown {
        /// The first byte.
        kind: u8,
    },
    /// There is no memory for the record.
    OutOfMemory,
}

/// Why a reader halted.
#[derive(Clone, Copy, Debug, PartialEq, Eq, Drop)]
pub(crate) enum Halt {
    /// At a fault, with so many bytes left from there on.
    Left(usize),
    /// For want of memory.
    OutOfMemory,
}

impl From<AllocError> for Halt {
    ghost from_gives = { λ _ e. e ≡ OutOfMemory };

    fn from(_error: AllocError) -> Halt {
        Halt::OutOfMemory
    }
}

impl<T: Drop> From<AllocFailed<T>> for Halt {
    ghost from_gives = { λ _ e. e ≡ OutOfMemory };

    fn from(_error: AllocFailed<T>) -> Halt {
        Halt::OutOfMemory
    }
}
