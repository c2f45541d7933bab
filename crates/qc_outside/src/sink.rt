//! A sink, which takes the program's text.

ghost use Rattle.std.specs.Prelude.{◌≡◌};
ghost use Rattle.qc_outside.specs.Sink.{IsWritten, SinkRose};

use qc_list::OutOfMemory;

/// Why a sink took less than the whole piece.
#[derive(Clone, Copy, Debug, PartialEq, Eq)]
pub enum SinkFault {
    /// The sink failed, and its count of faults rose.
    Failed,
    /// Memory was wanting.
    OutOfMemory,
}

impl From<OutOfMemory> for SinkFault {
    ghost use Rattle.qc_outside.specs.declared.sink.SinkFault.TheVariants.{OutOfMemory};

    ghost from_gives = { λ _ e. e ≡ OutOfMemory };

    fn from(_error: OutOfMemory) -> SinkFault {
        SinkFault::OutOfMemory
    }
}

/// Takes bytes in order, with a count of the sink's faults.
pub trait Sink {
    ghost use Rattle.std.specs.Prelude.{ℕ, List, Option};

    // The bytes taken so far, where the sink tells them.
    ghost taken: { Self → Option (List ℕ) };

    // How many calls failed so far, or more.
    ghost faults: { Self → ℕ };

    /// Takes the whole piece, or answers a fault.
    ///
    /// After `Failed`, which comes only where the count rose, a prefix of the
    /// piece was taken. Where memory was wanting, nothing was, and the count
    /// stands.
    fn write(&mut self, piece: &[u8]) -> Result<(), SinkFault>
        ensures content { IsWritten (taken self.old) piece.now result (taken self.new) }
        ensures cause { SinkRose (faults self.old) (faults self.new) result };
}
