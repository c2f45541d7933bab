//! What becomes of him for an input: all that takes memory is built before
//! anything is replaced.

ghost use Rattle.std.specs.Prelude.{◌≡◌};
ghost use Rattle.qc_admin.specs.Next.{begun, stays, told};

use crate::doing::Doing;
use qc_msg::{EpochStart, Reply, Turn};
use std::alloc::Global;

/// What becomes of him, and his turn.
#[derive(Drop)]
pub(crate) enum Next {
    /// What runs goes on, as far as it has come.
    GoesOn {
        turn: Turn,
    },
    /// Something else runs.
    Runs {
        doing: Doing,
        turn: Turn,
    },
    /// An epoch is decided, and something else runs.
    Decides {
        decided: EpochStart,
        doing: Doing,
        turn: Turn,
    },
}

impl Next {
    /// Nothing is done.
    pub(crate) fn quiet(alloc: Global) -> Next
        ensures { result ≡ stays }
    {
        Next::GoesOn {
            turn: Turn::quiet(alloc),
        }
    }

    /// The command ends with this reply.
    pub(crate) fn telling(alloc: Global, reply: Reply) -> Next
        ensures { result ≡ told reply }
    {
        Next::Runs {
            doing: Doing::Resting,
            turn: Turn::telling(alloc, reply),
        }
    }

    /// The same, where this has begun to run: it runs, where nothing else does.
    pub(crate) fn begun(self, doing: Doing) -> Next
        ensures { result ≡ begun doing self }
    {
        match self {
            Next::GoesOn { turn } => Next::Runs { doing, turn },
            next => next,
        }
    }
}
