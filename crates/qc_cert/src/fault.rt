//! What is wrong with a certificate.

ghost use Rattle.std.specs.Prelude.{◌≡◌};
ghost use Rattle.qc_cert.specs.declared.fault.CertFault.TheVariants.{OutOfMemory};

use qc_list::OutOfMemory;

/// Why a list of triples isn't inductive.
#[derive(Clone, Copy, PartialEq, Eq, Debug)]
pub enum CertFault {
    /// No triple covers the start state with nothing left out.
    NoStart,
    /// What the triple of this number, from 0, becomes by this event isn't
    /// covered: an event that the view takes too, or leaves out.
    Uncovered { triple: u32, event: u8, taken: bool },
    /// This invocation depends on nothing that the triple of this number,
    /// from 0, leaves out, and `resp` is the lowest response that only one of
    /// its two states allows.
    Unequal { triple: u32, inv: u8, resp: u8 },
    /// Memory ran out.
    OutOfMemory,
}

impl From<OutOfMemory> for CertFault {
    ghost from_gives = { λ _ e. e ≡ OutOfMemory };

    fn from(_: OutOfMemory) -> CertFault {
        CertFault::OutOfMemory
    }
}
