//! Why a call of a journal did less than it was asked.

ghost use Rattle.std.specs.Prelude.{◌≡◌};
ghost use Rattle.qc_journal.specs.Causes.{of_disk};
ghost use Rattle.qc_journal.specs.declared.fault.JournalFault.TheVariants.{OutOfMemory as JournalWants};

use qc_list::OutOfMemory;
use qc_outside::DiskFault;
use std::alloc::AllocFailed;

/// Why a journal was not opened, or a record not written.
#[derive(Clone, Copy, Debug, PartialEq, Eq)]
pub enum JournalFault {
    /// The disk failed, and its count of faults rose.
    Failed,
    /// The disk fell, and its count of faults rose.
    Stopped,
    /// The bytes are no journal.
    Torn {
        /// Where the gate stands behind which no record does.
        offset: u64,
    },
    /// Memory was wanting.
    OutOfMemory,
}

impl From<DiskFault> for JournalFault {
    ghost from_gives = { λ d e. e ≡ of_disk d };

    fn from(fault: DiskFault) -> JournalFault {
        match fault {
            DiskFault::Failed => JournalFault::Failed,
            DiskFault::Stopped => JournalFault::Stopped,
            DiskFault::OutOfMemory => JournalFault::OutOfMemory,
        }
    }
}

impl From<OutOfMemory> for JournalFault {
    ghost from_gives = { λ _ e. e ≡ JournalWants };

    fn from(_error: OutOfMemory) -> JournalFault {
        JournalFault::OutOfMemory
    }
}

impl<T: Drop> From<AllocFailed<T>> for JournalFault {
    ghost from_gives = { λ _ e. e ≡ JournalWants };

    fn from(_error: AllocFailed<T>) -> JournalFault {
        JournalFault::OutOfMemory
    }
}
