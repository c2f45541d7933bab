//! The index of what is held: who holds a read lock of an object's invocation,
//! or an own line of an object's event. It is kept in order: no choice of names
//! makes it slow. To look at who holds one of them takes two steps down a tree,
//! however many transactions do.

ghost use Rattle.std.specs.Prelude.{◌≡◌, ◌<◌, true, false, is_ok, not, IfOk, OnErr, OnOk};
ghost use Rattle.qc_lock.specs.Held.{entry_of, with_entry};
ghost use Rattle.std.specs.Ordering.{is_lt};
ghost use Rattle.qc_stamp.specs.Order.{tx_cmp, same_tx};
ghost use Rattle.qc_lock.specs.HolderSets.{has_line, has_read, holder_at, lines_held, reads_held};
ghost use Rattle.qc_lock.specs.HolderSets.{IsFirst, IsIndex, Narrows, Sets, Widens};

use crate::held::{Entries, Held, has_line, has_read};
use qc_entry::{OwnLine, ReadLock};
use qc_list::OutOfMemory;
use qc_stamp::TxId;
use std::alloc::Global;
use std::collections::BTreeSet;
use std::ops::Bound;

/// The key under which a transaction holds something of an object: the number of an
/// invocation or an event, too. Keys are ordered by object, number, transaction.
#[derive(Clone, Copy, PartialEq, Eq, PartialOrd, Ord)]
pub(crate) struct HolderKey {
    pub(crate) object: u8,
    pub(crate) number: u8,
    pub(crate) tx: TxId,
}

/// The keys of one kind, each once.
pub(crate) type HolderSet = BTreeSet<HolderKey>;

/// The name before all others.
const FIRST: TxId = TxId {
    client: 0,
    life: 0,
    number: 0,
};

/// Adds a place, unless it is there.
fn add_place(places: &mut HolderSet, object: u8, number: u8, tx: TxId) -> Result<(), OutOfMemory>
    ensures ok { OnOk result (Sets places.old places.new object number tx true) }
    ensures err { OnErr result (places.new.keys ≡ places.old.keys) }
    ensures small { number < 256 }
{
    let _is_new = places.insert(HolderKey { object, number, tx })?;
    Ok(())
}

/// Drops a place, if it is there.
fn drop_place(places: &mut HolderSet, object: u8, number: u8, tx: TxId)
    ensures { Sets places.old places.new object number tx false }
{
    let _was_there = places.remove(&HolderKey { object, number, tx });
}

/// Adds the places of a transaction's read locks. After want of memory some of
/// them may be there.
pub(crate) fn add_reads(
    places: &mut HolderSet,
    tx: TxId,
    locks: &[ReadLock],
) -> Result<(), OutOfMemory>
    ensures { Widens places.old places.new tx (has_read locks.now) (is_ok result) }
{
    'locks: for lock in locks {
        add_place(places, lock.object, lock.inv, tx)?;
    }
    Ok(())
}

/// Adds the places of a transaction's own lines. After want of memory some of
/// them may be there.
pub(crate) fn add_lines(
    places: &mut HolderSet,
    tx: TxId,
    own: &[OwnLine],
) -> Result<(), OutOfMemory>
    ensures { Widens places.old places.new tx (has_line own.now) (is_ok result) }
{
    'own: for line in own {
        add_place(places, line.object, line.event, tx)?;
    }
    Ok(())
}

/// Drops the places of a transaction's read locks that are not among those that
/// it keeps.
pub(crate) fn drop_reads(places: &mut HolderSet, tx: TxId, locks: &[ReadLock], kept: &[ReadLock])
    ensures { Narrows places.old places.new tx (has_read locks.now) (has_read kept.now) }
{
    'locks: for lock in locks {
        if !has_read(kept, lock) {
            drop_place(places, lock.object, lock.inv, tx);
        }
    }
}

/// Drops the places of a transaction's own lines that are not among those that
/// it keeps.
pub(crate) fn drop_lines(places: &mut HolderSet, tx: TxId, own: &[OwnLine], kept: &[OwnLine])
    ensures { Narrows places.old places.new tx (has_line own.now) (has_line kept.now) }
{
    'own: for line in own {
        if !has_line(kept, line) {
            drop_place(places, line.object, line.event, tx);
        }
    }
}

/// The first other transaction that has a place of this object and number.
pub(crate) fn holder_beside(places: &HolderSet, tx: TxId, object: u8, number: u8) -> Option<TxId>
    ensures { IsFirst places.now object number (λ other. not (same_tx other tx)) result }
{
    match first_holder(places, object, number) {
        Some(holder) if holder == tx => next_holder(places, tx, object, number),
        first => first,
    }
}

/// The first transaction that has a place of this object and number.
fn first_holder(places: &HolderSet, object: u8, number: u8) -> Option<TxId>
    ensures { IsFirst places.now object number (λ other. true) result }
{
    let start = HolderKey {
        object,
        number,
        tx: FIRST,
    };
    let place = places
        .range((Bound::Included(start), Bound::Unbounded))
        .next()?;
    holder_at(place, object, number)
}

/// The next transaction after this one that has a place of this object and
/// number.
fn next_holder(places: &HolderSet, tx: TxId, object: u8, number: u8) -> Option<TxId>
    ensures { IsFirst places.now object number (λ other. is_lt (tx_cmp tx other)) result }
{
    let start = HolderKey { object, number, tx };
    let place = places
        .range((Bound::Excluded(start), Bound::Unbounded))
        .next()?;
    holder_at(place, object, number)
}

/// The transaction of a place, if that is of this object and number.
fn holder_at(place: &HolderKey, object: u8, number: u8) -> Option<TxId>
    ensures { result ≡ holder_at place.now object number }
{
    if place.object == object && place.number == number {
        Some(place.tx)
    } else {
        None
    }
}

/// Who holds what: the places of read locks, and those of own lines.
#[derive(Drop)]
pub(crate) struct Index {
    pub(crate) readers: HolderSet,
    pub(crate) writers: HolderSet,
}

impl Index {
    /// Nobody holds anything. It takes no memory.
    pub(crate) fn new(alloc: Global) -> Index
        ensures readers { IsIndex result.readers (λ tx object inv. false) }
        ensures writers { IsIndex result.writers (λ tx object event. false) }
    {
        Index {
            readers: BTreeSet::new(alloc),
            writers: BTreeSet::new(alloc),
        }
    }

    /// Adds what a transaction comes to hold. After want of memory some of it
    /// may be there.
    pub(crate) fn add(
        &mut self,
        tx: TxId,
        locks: &[ReadLock],
        own: &[OwnLine],
    ) -> Result<(), OutOfMemory>
        ensures readers { Widens self.old.readers self.new.readers tx (has_read locks.now) (is_ok result) }
        ensures writers { Widens self.old.writers self.new.writers tx (has_line own.now) (is_ok result) }
    {
        add_reads(&mut self.readers, tx, locks)?;
        add_lines(&mut self.writers, tx, own)
    }

    /// Adds what a transaction comes to hold, and then puts its entry, which is
    /// to hold it, and gives back the one before.
    pub(crate) fn enter(
        &mut self,
        entries: &mut Entries,
        entry: Held,
        locks: &[ReadLock],
        own: &[OwnLine],
    ) -> Result<Option<Held>, OutOfMemory>
        ensures readers { Widens self.old.readers self.new.readers entry.tx (has_read locks.now) (is_ok result) }
        ensures writers { Widens self.old.writers self.new.writers entry.tx (has_line own.now) (is_ok result) }
        ensures ok { OnOk result (entries.new ≡ with_entry entries.old entry) }
        ensures before { IfOk result (λ before. before ≡ entry_of entries.old entry.tx) }
        ensures err { OnErr result (entries.new ≡ entries.old) }
    {
        self.add(entry.tx, locks, own)?;
        entries.put(entry)
    }

    /// Drops these locks and own lines of a transaction, but not what it holds
    /// by its entry. It takes no memory.
    pub(crate) fn keep(&mut self, entries: &Entries, tx: TxId, locks: &[ReadLock], own: &[OwnLine])
        ensures readers { Narrows self.old.readers self.new.readers tx
            (has_read locks.now) (reads_held entries.now tx) }
        ensures writers { Narrows self.old.writers self.new.writers tx
            (has_line own.now) (lines_held entries.now tx) }
    {
        drop_reads(&mut self.readers, tx, locks, entries.locks_of(tx));
        drop_lines(&mut self.writers, tx, own, entries.own_of(tx));
    }
}
