//! Lines, own lines, operations and read locks: plain values.

ghost use Rattle.std.specs.Prelude.{◌≡◌};
ghost use Rattle.qc_entry.specs.Line.{line_cmp};

use qc_list::List;
use qc_stamp::{Stamp, TxId};
use std::cmp::Ordering;

/// A committed operation with a response, as logs hold it. Lines are ordered
/// by stamp, transaction, operation, object and event.
#[derive(Clone, Copy, Debug, PartialEq, Eq, PartialOrd, Ord)]
pub struct Line {
    /// The stamp of the transaction.
    pub stamp: Stamp,
    /// The transaction's name.
    pub tx: TxId,
    /// The operation's number in it, from 1.
    pub op: u8,
    /// The object's number.
    pub object: u8,
    /// The number of the event in the object's type.
    pub event: u8,
}

impl Line {
    /// The order of two lines: by stamp, transaction, operation, object, event.
    pub fn compare(&self, other: &Line) -> Ordering
        ensures { result ≡ line_cmp self.now other.now }
    {
        self.cmp(other)
    }
}

/// An operation of a transaction that hasn't committed, as a site holds it.
#[derive(Clone, Copy, Debug, PartialEq, Eq)]
pub struct OwnLine {
    /// The operation's number in its transaction, from 1.
    pub op: u8,
    /// The object's number.
    pub object: u8,
    /// The number of the event in the object's type.
    pub event: u8,
}

/// A list of own lines.
pub type Owns = List<OwnLine>;

/// An operation of a transaction, with the reply that its client got.
/// Operations are ordered by object, invocation and response, none first.
#[derive(Clone, Copy, Debug, PartialEq, Eq, PartialOrd, Ord)]
pub struct Op {
    /// The object's number.
    pub object: u8,
    /// The number of the invocation in the object's type.
    pub inv: u8,
    /// The number of the response, or none where no response was legal.
    pub resp: Option<u8>,
}

/// A list of operations.
pub type Ops = List<Op>;

/// A lock on what an invocation of an object read.
#[derive(Clone, Copy, Debug, PartialEq, Eq)]
pub struct ReadLock {
    /// The object's number.
    pub object: u8,
    /// The number of the invocation in the object's type.
    pub inv: u8,
}

/// A list of read locks.
pub type Reads = List<ReadLock>;
