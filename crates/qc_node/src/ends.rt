//! How a turn ended, and how a worker did.

use qc_fabric::Full;

/// What became of an actor's turn.
#[derive(Clone, Copy, Debug, PartialEq, Eq)]
pub enum TurnEnd {
    /// Nothing was ready for it, or its input was open.
    NothingReady,
    /// It took an input, and posted all that this calls for.
    Done,
}

/// Why a worker, or a phase, ended.
#[derive(Clone, Copy, Debug, PartialEq, Eq)]
pub enum DriveEnd {
    /// Nothing is left to do.
    Quiet,
    /// A counted quantity has reached its limit.
    Full(Full),
    /// Memory was wanting.
    OutOfMemory,
}
