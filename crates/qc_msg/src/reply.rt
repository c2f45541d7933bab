//! What the caller of a command is told.

use qc_stamp::{Stamp, TxId};

/// A half of an operation, or the closing of an epoch.
#[derive(Clone, Copy, Debug, PartialEq, Eq)]
pub enum Half {
    /// Reading.
    Read,
    /// Appending.
    Append,
    /// Closing.
    Close,
}

/// Why a transaction was aborted at its commit.
#[derive(Clone, Copy, Debug, PartialEq, Eq)]
pub enum AbortCause {
    /// A `do` of it was refused while appending.
    Doomed,
    /// A participant isn't in the life of its first grant any more.
    Restarted { site: u8, old: u32, new: u32 },
    /// A participant's epoch is closed.
    Closed { epoch: u8, site: u8 },
    /// A participant couldn't write its promise.
    Fault { site: u8 },
    /// The request for a participant's promise, or its answer, was lost.
    NoAnswer { site: u8 },
    /// A participant holds nothing of it any more.
    Forgot { site: u8 },
}

/// The reply to a command.
#[derive(Clone, Copy, Debug, PartialEq, Eq)]
pub enum Reply {
    /// Every command: the actor is down.
    Down,
    /// `begin`: this transaction is begun and hasn't ended.
    Already { tx: TxId },
    /// `begin`: this transaction began.
    Began { tx: TxId },
    /// `do`, `commit`, `abort`: no transaction is begun.
    NoTransaction,
    /// `do`: a `do` of the transaction was refused while appending.
    Doomed,
    /// `do`: the transaction has all the operations that one may have.
    TooLong,
    /// `do`: a site's epoch is closed, and it told this one.
    Closed { epoch: u8, site: u8 },
    /// `do`: what this transaction holds at a site conflicts.
    Conflict { tx: TxId, site: u8 },
    /// `do`, `epoch`: the sites that granted weigh too little.
    Quorum { half: Half, got: u16, need: u16 },
    /// `do`: no response is legal after the view.
    Absent,
    /// `do`: the response.
    Response { resp: u8 },
    /// `commit`: the transaction didn't commit.
    Aborted { why: AbortCause },
    /// `commit`: its record wasn't seen to be written.
    Unknown,
    /// `commit`: the transaction committed, with this stamp.
    Committed { stamp: Stamp },
    /// `abort`: the transaction is given up.
    Dropped,
    /// `epoch`: this epoch is decided, and the one asked for isn't the next.
    Order { current: u8 },
    /// `epoch`: a site promised to keep a transaction whose end isn't known.
    InDoubt { tx: TxId, site: u8 },
    /// `epoch`: the decision couldn't be written.
    Fault,
    /// `epoch`: the sites that closed, and those that installed, as sets: site
    /// k is bit k.
    Moved { closed: u16, installed: u16 },
}
