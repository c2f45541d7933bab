//! Records of an actor's journal (presumed abort: each is forced before the
//! message that it stands for).

use crate::payload::EpochStart;
use qc_entry::{Commit, Prepared};
use qc_list::List;
use qc_stamp::TxId;

/// A record of an actor's journal.
#[derive(Drop)]
pub enum Record {
    /// The actor rises, and begins a new life.
    Life,
    /// A site's promise to keep a transaction.
    Prepare(Prepared),
    /// A site learned that a transaction that it had promised to keep committed
    /// with this clock; the stamp's client is the transaction's.
    Done { tx: TxId, clock: u64 },
    /// A site closed its epoch for this one, and begins a new life.
    Close { epoch: u8 },
    /// A site began an epoch.
    Install(EpochStart),
    /// A client's transaction committed.
    Commit(Commit),
    /// The administrator decided what an epoch begins with.
    Decide(EpochStart),
}

/// Records in the order of a journal.
pub type Records = List<Record>;
