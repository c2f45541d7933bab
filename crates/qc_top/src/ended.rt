//! How a call ended.

ghost use Rattle.std.specs.Prelude.{◌≡◌, []};
ghost use Rattle.qc_report.specs.Causes.{status_of};

use qc_msg::History;
use qc_report::Cause;
use std::alloc::Global;

/// How a call ended, and all that happened in it.
#[derive(Drop)]
pub struct Ended {
    /// The program's exit status.
    pub status: u8,
    /// Why it ended.
    pub cause: Cause,
    /// What happened, oldest first; empty where the call ended before the
    /// first phase.
    pub history: History,
}

/// A call that ended before the first phase.
pub(crate) fn without_run(alloc: Global, cause: Cause) -> Ended
    ensures cause { result.cause ≡ cause }
    ensures status { result.status ≡ status_of cause }
    ensures history { result.history ≡ [] }
{
    Ended {
        status: cause.status(),
        cause,
        history: History::new(alloc),
    }
}
