//! Clashes: who is in the way.

ghost use Rattle.std.specs.Prelude.{◌≡◌};
ghost use Rattle.qc_lock.specs.declared.clash.LockFault.TheVariants.{OutOfMemory};
ghost use Rattle.qc_lock.specs.Clash.{clash_cmp};
ghost use Rattle.qc_lock.specs.Conflict.{IsSmallest};
ghost use Rattle.qc_lock.specs.HolderSets.{AreSmall, IsAppendPlaced, IsLinePlaced, IsPlaced, IsReadPlaced, smaller_of};

use crate::holder_set::{HolderSet, holder_beside};
use qc_entry::OwnLine;
use qc_list::OutOfMemory;
use qc_stamp::TxId;
use qc_table::{MOST_EVENTS, Pair, Relation};
use std::cmp::Ordering;

/// Who is in the way. Clashes are ordered by holder, invocation, event.
#[derive(Clone, Copy, Debug, PartialEq, Eq, PartialOrd, Ord)]
pub struct Clash {
    /// The transaction that holds what conflicts.
    pub holder: TxId,
    /// The invocation of the read.
    pub inv: u8,
    /// The number of the appended event, on which the invocation depends.
    pub event: u8,
}

/// Why nothing was granted.
#[derive(Clone, Copy, Debug, PartialEq, Eq)]
pub enum LockFault {
    /// Another transaction holds what conflicts; this is the smallest clash.
    Conflict(Clash),
    /// Memory ran out, and there was no conflict.
    OutOfMemory,
}

impl From<OutOfMemory> for LockFault {
    ghost from_gives = { λ _ e. e ≡ OutOfMemory };

    fn from(_: OutOfMemory) -> LockFault {
        LockFault::OutOfMemory
    }
}

impl Clash {
    /// The order of two clashes: by holder, invocation, event.
    pub fn compare(&self, other: &Clash) -> Ordering
        ensures { result ≡ clash_cmp self.now other.now }
    {
        self.cmp(other)
    }
}

/// The smaller of two clashes, where there are two.
#[inline(always)]
fn smaller_of(a: Option<Clash>, b: Option<Clash>) -> Option<Clash>
    ensures { result ≡ smaller_of a b }
{
    match (a, b) {
        (Some(a), Some(b)) if b.compare(&a).is_lt() => Some(b),
        (None, b) => b,
        (a, _) => a,
    }
}

/// The smallest clash of an invocation with an event, by the places of one
/// number.
#[inline(always)]
fn clash_at(
    places: &HolderSet,
    relation: &Relation,
    tx: TxId,
    object: u8,
    number: u8,
    pair: Pair,
) -> Option<Clash>
    ensures { IsSmallest (IsPlaced relation.now places.now tx object number pair.inv pair.event) result }
{
    let Pair { inv, event } = pair;
    if !relation.depends(inv, event) {
        return None;
    }
    let holder = holder_beside(places, tx, object, number)?;
    Some(Clash { holder, inv, event })
}

/// The smallest clash of a read with own lines, by their places. Looked up are
/// only the events on which its invocation depends.
pub(crate) fn read_clash(
    lines: &HolderSet,
    relation: &Relation,
    tx: TxId,
    object: u8,
    inv: u8,
) -> Option<Clash>
    ensures { IsSmallest (IsReadPlaced relation.now lines.now tx object inv) result }
{
    let mut best = None;
    let mut rest = relation.depended(inv);
    'turns: for _turn in 0..MOST_EVENTS {
        if rest == 0 {
            return best;
        }
        let event = rest.trailing_zeros() as u8;
        let clash = clash_at(lines, relation, tx, object, event, Pair { inv, event });
        best = smaller_of(best, clash);
        rest &= !(1 << event);
    }
    best
}

/// The smallest clash of an own line with read locks, by their places.
fn line_clash(locks: &HolderSet, relation: &Relation, tx: TxId, line: &OwnLine) -> Option<Clash>
    requires { AreSmall locks.now }
    ensures { IsSmallest (IsLinePlaced relation.now locks.now tx line.now) result }
{
    let event = line.event;
    let mut best = None;
    'invs: for number in 0..256u16 {
        let inv = number as u8;
        let clash = clash_at(locks, relation, tx, line.object, inv, Pair { inv, event });
        best = smaller_of(best, clash);
    }
    best
}

/// The smallest clash of own lines with read locks, by their places.
pub(crate) fn append_clash(
    locks: &HolderSet,
    relation: &Relation,
    tx: TxId,
    own: &[OwnLine],
) -> Option<Clash>
    requires { AreSmall locks.now }
    ensures { IsSmallest (IsAppendPlaced relation.now locks.now tx own.now) result }
{
    let mut best = None;
    'own: for line in own {
        best = smaller_of(best, line_clash(locks, relation, tx, line));
    }
    best
}
