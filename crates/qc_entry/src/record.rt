//! Commit records and prepared transactions.

ghost use Rattle.std.specs.Prelude.{◌≡◌, IfOk};

use crate::{Log, Ops, Owns, Reads};
use qc_list::OutOfMemory;
use qc_stamp::{Stamp, TxId};

/// A commit record: the one mark that a transaction committed (presumed
/// abort: no record means that it didn't).
#[derive(Drop)]
pub struct Commit {
    /// The stamp that was chosen as it committed.
    pub stamp: Stamp,
    /// The transaction's name.
    pub tx: TxId,
    /// Its operations in order, absent ones too.
    pub ops: Ops,
}

impl Commit {
    /// The same record, in memory of its own.
    pub fn copy(&self) -> Result<Commit, OutOfMemory>
        ensures { IfOk result (λ c. c ≡ self.now) }
    {
        Ok(Commit {
            stamp: self.stamp,
            tx: self.tx,
            ops: self.ops.copy()?,
        })
    }
}

/// A transaction that a site has promised to keep until it hears the verdict.
#[derive(Drop)]
pub struct Prepared {
    /// The transaction's name.
    pub tx: TxId,
    /// The epoch of its requests, from 1.
    pub epoch: u8,
    /// Its read locks, ascending by object and invocation.
    pub locks: Reads,
    /// Its own lines, ascending by operation.
    pub own: Owns,
    /// The lines of the site's log that no record of the site gives yet.
    pub lines: Log,
}

impl Prepared {
    /// The same record, in memory of its own.
    pub fn copy(&self) -> Result<Prepared, OutOfMemory>
        ensures { IfOk result (λ p. p ≡ self.now) }
    {
        Ok(Prepared {
            tx: self.tx,
            epoch: self.epoch,
            locks: self.locks.copy()?,
            own: self.own.copy()?,
            lines: self.lines.copy()?,
        })
    }
}
