//! Locks: the calls.

ghost use Rattle.std.specs.Prelude.{◌≡◌, ◌<◌, ◌+◌, ◌||◌, ℕ, true, false, None, Some, [], ◌∷◌, length};
ghost use Rattle.std.specs.Prelude.{IfErr, OnOk, OnErr};
ghost use Rattle.qc_lock.specs.declared.clash.LockFault.TheVariants.{OutOfMemory};
ghost use Rattle.qc_lock.specs.Clash.{read_clash, append_clash, IsTold};
ghost use Rattle.qc_lock.specs.Held.{lock_cmp, own_cmp, held_of, has_lock, is_held};
ghost use Rattle.qc_lock.specs.Held.{with_entry, with_held, without_held};
ghost use Rattle.qc_list.specs.Order.{Ascends};
ghost use Rattle.qc_lock.specs.HolderSets.{has_line, has_read, lines_held, reads_held};
ghost use Rattle.qc_lock.specs.Sound.{IsSound};

use crate::clash::{self, Clash, LockFault};
use crate::held::{Entries, Held};
use crate::holder_set::Index;
use crate::sorted::with_all;
use qc_entry::{OwnLine, Prepared, ReadLock};
use qc_list::OutOfMemory;
use qc_stamp::TxId;
use qc_table::{Kind, Relation};
use std::alloc::Global;
use std::marker::Model;

/// What the unfinished transactions hold at a site. Contracts see a list of
/// entries, one for each transaction that holds something.
#[derive(Drop)]
pub struct Locks {
    alloc: Global,
    entries: Entries,
    index: Index,
}

impl Model for Locks {
    ghost use Rattle.std.specs.Prelude.{List};
    ghost use Rattle.qc_lock.specs.declared.held.Held.{Held};
    ghost use Rattle.qc_lock.specs.HolderSets.{AreIndexed};

    ghost Value = { List Held };

    ghost view = { λ l. l.entries };

    ghost invariant = { λ l. AreIndexed l.entries l.index.readers l.index.writers };
}

impl Locks {
    /// Nothing is held. It takes no memory.
    pub fn new(alloc: Global) -> Locks
        ensures { result ≡ [] }
    {
        Locks {
            alloc,
            entries: Entries::new(alloc),
            index: Index::new(alloc),
        }
    }

    /// The number of transactions that hold something.
    pub fn holders(&self) -> usize
        ensures { result ≡ length self.now }
    {
        self.entries.len()
    }

    /// A transaction's read locks, ascending by object and invocation.
    pub fn locks_of(&self, tx: TxId) -> &[ReadLock]
        ensures { result.now ≡ (held_of self.now tx).locks }
    {
        self.entries.locks_of(tx)
    }

    /// A transaction's own lines, ascending by operation.
    pub fn own_of(&self, tx: TxId) -> &[OwnLine]
        ensures { result.now ≡ (held_of self.now tx).own }
    {
        self.entries.own_of(tx)
    }

    /// Whether a transaction has a read lock or an own line.
    pub fn holds(&self, tx: TxId) -> bool
        ensures { result ≡ is_held self.now tx }
    {
        self.entries.of(tx).is_some()
    }

    /// Grants a read of an object of this type, and holds its lock, unless
    /// another transaction holds an own line of the object on whose event the
    /// invocation depends. A refusal changes nothing. A lock that is held
    /// already takes no memory.
    pub fn try_read(&mut self, kind: &Kind, tx: TxId, object: u8, inv: u8) -> Result<(), LockFault>
        ensures free { OnOk result (read_clash kind.now.relation self.old tx object inv ≡ None) }
        ensures ok { OnOk result (self.new ≡ with_held self.old tx (record { object = object; inv = inv } ∷ []) []) }
        ensures told { IfErr result (λ e. IsTold e (read_clash kind.now.relation self.old tx object inv)) }
        ensures err { OnErr result (self.new ≡ self.old) }
        ensures memory { result ≡ Err OutOfMemory
            → has_lock self.old tx (record { object = object; inv = inv }) ≡ false }
    {
        if let Some(clash) = self.read_clash(&kind.relation, tx, object, inv) {
            return Err(LockFault::Conflict(clash));
        }
        let lock = ReadLock { object, inv };
        if self.entries.locks_of(tx).contains(&lock) {
            return Ok(());
        }
        self.add(tx, &[lock], &[])?;
        Ok(())
    }

    /// Grants an append of own lines of one object of this type, and holds
    /// them, unless another transaction holds a read lock of the object whose
    /// invocation depends on the event of one of them. A refusal changes
    /// nothing. A line takes the place of a held one of the same operation.
    pub fn try_append(&mut self, kind: &Kind, tx: TxId, own: &[OwnLine]) -> Result<(), LockFault>
        ensures free { OnOk result (append_clash kind.now.relation self.old tx own.now ≡ None) }
        ensures ok { OnOk result (self.new ≡ with_held self.old tx [] own.now) }
        ensures told { IfErr result (λ e. IsTold e (append_clash kind.now.relation self.old tx own.now)) }
        ensures err { OnErr result (self.new ≡ self.old) }
    {
        if let Some(clash) = self.append_clash(&kind.relation, tx, own) {
            return Err(LockFault::Conflict(clash));
        }
        self.add(tx, &[], own)?;
        Ok(())
    }

    /// Holds what a prepared transaction holds, without a test. After want of
    /// memory all is as it was.
    pub fn hold(&mut self, prepared: &Prepared) -> Result<(), OutOfMemory>
        ensures ok { OnOk result (self.new ≡ with_held self.old prepared.now.tx prepared.now.locks prepared.now.own) }
        ensures err { OnErr result (self.new ≡ self.old) }
    {
        self.add(prepared.tx, prepared.locks.items(), prepared.own.items())
    }

    /// Drops all that a transaction holds. It takes no memory.
    pub fn drop_tx(&mut self, tx: TxId)
        ensures { self.new ≡ without_held self.old tx }
    {
        if let Some(entry) = self.entries.remove(tx) {
            let (locks, own) = (entry.locks.items(), entry.own.items());
            self.index.keep(&self.entries, tx, locks, own);
        }
    }

    /// A transaction holds these locks and own lines too. What is new is made
    /// first, so that want of memory changes nothing.
    fn add(&mut self, tx: TxId, locks: &[ReadLock], own: &[OwnLine]) -> Result<(), OutOfMemory>
        ensures ok { OnOk result (self.new ≡ with_held self.old tx locks.now own.now) }
        ensures err { OnErr result (self.new ≡ self.old) }
    {
        if locks.is_empty() && own.is_empty() {
            return Ok(());
        }
        let all = with_all(self.alloc, self.locks_of(tx), locks)?;
        let lines = with_all(self.alloc, self.own_of(tx), own)?;
        let entry = Held {
            tx,
            locks: all,
            own: lines,
        };
        self.put(entry, locks, own)
    }

    /// Puts an entry in the place of its transaction's, or last where there is
    /// none. It holds only what the transaction held before, and what is given.
    /// Keys that nothing needs in the end, as after want of memory, go.
    fn put(&mut self, entry: Held, locks: &[ReadLock], own: &[OwnLine]) -> Result<(), OutOfMemory>
        requires full { 0 < length entry.locks + length entry.own }
        requires locks { Ascends lock_cmp entry.locks }
        requires own { Ascends own_cmp entry.own }
        requires reads { (object inv : ℕ) → has_read entry.locks object inv ≡ true
            → (reads_held self.old entry.tx object inv || has_read locks.now object inv) ≡ true }
        requires lines { (object event : ℕ) → has_line entry.own object event ≡ true
            → (lines_held self.old entry.tx object event || has_line own.now object event) ≡ true }
        ensures ok { OnOk result (self.new ≡ with_entry self.old entry) }
        ensures err { OnErr result (self.new ≡ self.old) }
    {
        let tx = entry.tx;
        let put = self.index.enter(&mut self.entries, entry, locks, own);
        self.index.keep(&self.entries, tx, locks, own);
        if let Some(before) = put? {
            let (locks, own) = (before.locks.items(), before.own.items());
            self.index.keep(&self.entries, tx, locks, own);
        }
        Ok(())
    }

    /// The smallest clash of a read.
    fn read_clash(&self, relation: &Relation, tx: TxId, object: u8, inv: u8) -> Option<Clash>
        ensures { result ≡ read_clash relation.now self.now tx object inv }
    {
        clash::read_clash(&self.index.writers, relation, tx, object, inv)
    }

    /// The smallest clash of own lines.
    fn append_clash(&self, relation: &Relation, tx: TxId, own: &[OwnLine]) -> Option<Clash>
        ensures { result ≡ append_clash relation.now self.now tx own.now }
    {
        clash::append_clash(&self.index.readers, relation, tx, own)
    }
}

/// All that is held is sound: one entry for each transaction, which holds
/// something, each thing once.
pub fn locks_are_sound(locks: &Locks)
    ensures { IsSound locks.now }
{
    let _holders = locks.entries.len();
}
