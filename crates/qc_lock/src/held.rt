//! What one transaction holds.

ghost use Rattle.std.specs.Prelude.{◌≡◌};
ghost use Rattle.qc_entry.specs.declared.line.OwnLine.{OwnLine};
ghost use Rattle.qc_lock.specs.Held.{held_of};
ghost use Rattle.qc_lock.specs.HolderSets.{has_line, has_read};

use crate::transaction_map::{OfTransaction, TransactionMap};
use qc_entry::{OwnLine, Owns, ReadLock, Reads};
use qc_stamp::TxId;

/// What one unfinished transaction holds.
#[derive(Drop)]
pub struct Held {
    /// The transaction's name.
    pub tx: TxId,
    /// Its read locks, ascending by object and invocation, each once.
    pub locks: Reads,
    /// Its own lines, ascending by operation, one for each.
    pub own: Owns,
}

impl OfTransaction for Held {
    ghost tx_of = { λ h. h.tx };

    fn tx(&self) -> TxId {
        self.tx
    }
}

/// The entries of those that hold something, seen as the list of them in their
/// order.
pub(crate) type Entries = TransactionMap<Held>;

impl TransactionMap<Held> {
    /// A transaction's read locks.
    pub(crate) fn locks_of(&self, tx: TxId) -> &[ReadLock]
        ensures { result.now ≡ (held_of self.now tx).locks }
    {
        match self.of(tx) {
            Some(entry) => entry.locks.items(),
            None => &[],
        }
    }

    /// A transaction's own lines.
    pub(crate) fn own_of(&self, tx: TxId) -> &[OwnLine]
        ensures { result.now ≡ (held_of self.now tx).own }
    {
        match self.of(tx) {
            Some(entry) => entry.own.items(),
            None => &[],
        }
    }
}

/// Whether one of the locks is of this lock's object and invocation.
pub(crate) fn has_read(locks: &[ReadLock], lock: &ReadLock) -> bool
    ensures { result ≡ has_read locks.now lock.now.object lock.now.inv }
{
    'locks: for other in locks {
        if other.object == lock.object && other.inv == lock.inv {
            return true;
        }
    }
    false
}

/// Whether one of the own lines is of this line's object and event.
pub(crate) fn has_line(own: &[OwnLine], line: &OwnLine) -> bool
    ensures { result ≡ has_line own.now line.now.object line.now.event }
{
    'own: for other in own {
        if other.object == line.object && other.event == line.event {
            return true;
        }
    }
    false
}
