//! A disk in memory, which can fall.
//!
//! 1. It holds its bytes twice: as a read gives them, and as a fall now would
//!    leave them.
//! 2. The record of its changes tells what a stop at each moment may leave.
//! 3. Of the images that a stop may leave, a fall leaves the one that its tear
//!    names. The tear never changes.
//! 4. A sync and a fall take no memory: a write takes their room with its own.
//!    They copy from the first byte on that was written since the last one.

ghost use Rattle.std.specs.Prelude.{◌≡◌, ◌≢◌, ◌≤◌, ◌<◌, ◌+◌, ◌*◌, ◌^◌, ◌++◌, ◌∷◌, ℕ, suc, false, true, [], length};
ghost use Rattle.std.specs.Prelude.{Some, Err, IfOk, OnOk, OnErr, max, take, drop, vec_len, vec_capacity};
ghost use Rattle.qc_outside.specs.Disk.{DiskRose};
ghost use Rattle.qc_outside.specs.Images.{Told, Tells, Since, IsImage, as_read, wrote, settled};
ghost use Rattle.qc_outside.specs.Memory.{told_by, told_next, counts, left_by};
ghost use Rattle.qc_outside.specs.declared.disk.DiskFault.TheVariants.{Stopped as DiskStops, OutOfMemory as DiskWants};
ghost use Rattle.qc_outside.specs.declared.mem_disk.Change.TheVariants.{Synced, Fell};

use crate::tear::{Tear, copy_from, overwrite, tear_off};
use crate::{Disk, DiskFault};
use qc_list::OutOfMemory;
use std::alloc::{AllocError, Global};

/// A call that changed what the disk holds.
#[derive(Clone, Copy, Debug, PartialEq, Eq)]
enum Change {
    /// At an offset so many bytes were written.
    Wrote(usize, usize),
    Synced,
    Fell,
}

/// Bytes in memory, with a record of the changes.
#[derive(Drop)]
pub struct MemDisk {
    alloc: Global,
    tear: Tear,
    /// All that was ever written, one write behind another.
    written: Vec<u8>,
    changes: Vec<Change>,
    /// As a read gives them.
    bytes: Vec<u8>,
    /// As a fall now would leave them.
    left: Vec<u8>,
    is_pending: bool,
    /// How many bytes from the first on are the same in both.
    same: usize,
    ghost whole: { counts changes.items ≡ length written.items },
    ghost bytes_are: { bytes.items ≡ as_read (told_by tear changes.items written.items).now },
    ghost left_are: { left.items ≡ left_by tear (told_by tear changes.items written.items).now },
    ghost at_rest: { is_pending ≡ false → (told_by tear changes.items written.items).now.writes ≡ [] },
    ghost same_are: { take same left.items ≡ take same bytes.items },
    ghost same_is: { same ≤ vec_len left },
    ghost shorter: { vec_len left ≤ vec_len bytes },
    ghost copies: { vec_len bytes ≤ vec_capacity left },
    ghost room: { is_pending ≡ true → vec_len changes < vec_capacity changes },
}

impl MemDisk {
    /// An empty disk, whose falls tear so.
    pub fn new(alloc: Global, tear: Tear) -> Result<MemDisk, OutOfMemory>
        ensures told { IfOk result (λ d. ⟦<MemDisk as Disk>⟧.told d ≡ Some (told_by tear [] [])) }
        ensures tear { IfOk result (λ d. d.tear ≡ tear) }
        ensures faults { IfOk result (λ d. ⟦<MemDisk as Disk>⟧.faults d ≡ 0) }
    {
        Ok(MemDisk {
            alloc,
            tear,
            written: Vec::new(alloc),
            changes: Vec::new(alloc),
            bytes: Vec::new(alloc),
            left: Vec::new(alloc),
            is_pending: false,
            same: 0,
        })
    }

    /// The bytes that it holds, as a read gives them.
    pub(crate) fn into_bytes(self) -> Vec<u8>
        ensures { (t : Told) → ⟦<MemDisk as Disk>⟧.told self ≡ Some t → result.items ≡ as_read t.now }
    {
        self.bytes
    }

    /// Makes what a read gives last, and notes it.
    fn make_lasting(&mut self)
        requires { self.old.is_pending ≡ true }
        ensures noted { Tells (⟦<MemDisk as Disk>⟧.told self.old) (⟦<MemDisk as Disk>⟧.told self.new) (λ old new.
            new ≡ told_next self.old.tear old Synced []) }
        ensures moments { Tells (⟦<MemDisk as Disk>⟧.told self.old) (⟦<MemDisk as Disk>⟧.told self.new) (λ old new.
            Since (IsImage old.now) old new) }
        ensures rests { self.new.is_pending ≡ false }
        ensures tear { self.new.tear ≡ self.old.tear }
        ensures room { (n end : ℕ) → ⟦<MemDisk as Disk>⟧.has_room self.old n end
            → ⟦<MemDisk as Disk>⟧.has_room self.new n end }
    {
        note(&mut self.changes, Change::Synced);
        copy_from(&mut self.left, self.same, &self.bytes);
        self.same = self.bytes.len();
        self.is_pending = false;
    }

    /// Makes what the tear leaves last, and notes it.
    fn make_torn(&mut self)
        requires { self.old.is_pending ≡ true }
        ensures noted { Tells (⟦<MemDisk as Disk>⟧.told self.old) (⟦<MemDisk as Disk>⟧.told self.new) (λ old new.
            new ≡ told_next self.old.tear old Fell []) }
        ensures moments { Tells (⟦<MemDisk as Disk>⟧.told self.old) (⟦<MemDisk as Disk>⟧.told self.new) (λ old new.
            Since (IsImage old.now) old new) }
        ensures rests { self.new.is_pending ≡ false }
        ensures tear { self.new.tear ≡ self.old.tear }
    {
        note(&mut self.changes, Change::Fell);
        copy_from(&mut self.bytes, self.same, &self.left);
        self.same = self.bytes.len();
        self.is_pending = false;
    }
}

/// Where a write ends.
pub(crate) fn end_of(at: usize, bytes: &[u8]) -> Result<usize, OutOfMemory>
    ensures end { IfOk result (λ end. end ≡ at + length bytes.now) }
    ensures err { OnErr result (2 ^ 64 ≤ at + length bytes.now) }
{
    at.checked_add(bytes.len()).ok_or(AllocError)
}

/// Adds a change to the record.
fn note(changes: &mut Vec<Change>, change: Change)
    requires { vec_len changes.old < vec_capacity changes.old }
    ensures items { changes.new.items ≡ changes.old.items ++ change ∷ [] }
    ensures len { vec_len changes.new ≡ vec_len changes.old + 1 }
    ensures capacity { vec_capacity changes.old ≤ vec_capacity changes.new }
{
    let _done = changes.push(change);
}

impl Disk for MemDisk {
    ghost use Rattle.qc_outside.specs.Fuses.{no_fuse};

    ghost faults = { λ d. 0 };

    ghost fuse = { λ d. no_fuse 0 };

    ghost told = { λ d. Some (told_by d.tear d.changes.items d.written.items) };

    ghost has_room = { λ d n end. (vec_len d.written + n * end ≤ vec_capacity d.written)
        × (vec_len d.changes + 2 * n ≤ vec_capacity d.changes)
        × (d.is_pending ≡ true → vec_len d.changes + 2 * n + 1 ≤ vec_capacity d.changes)
        × (max (vec_len d.bytes) end ≤ vec_capacity d.bytes)
        × (max (vec_len d.bytes) end ≤ vec_capacity d.left) };

    fn len(&mut self) -> Result<u64, DiskFault>
        ensures len { IfOk result (λ n. (t : Told) → ⟦<MemDisk as Disk>⟧.told self.old ≡ Some t
            → n ≡ length (as_read t.now)) }
        ensures same { self.new ≡ self.old }
        ensures cause { DiskRose 0 0 result }
        ensures memory { result ≢ Err DiskWants }
    {
        Ok(self.bytes.len() as u64)
    }

    fn read(&mut self, at: u64, count: u32) -> Result<Vec<u8>, DiskFault>
        ensures bounded { IfOk result (λ v. length v.items ≤ count) }
        ensures bytes { IfOk result (λ v. (t : Told) → ⟦<MemDisk as Disk>⟧.told self.old ≡ Some t
            → v.items ≡ take count (drop at (as_read t.now))) }
        ensures same { self.new ≡ self.old }
        ensures cause { DiskRose 0 0 result }
    {
        let start = (at as usize).min(self.bytes.len());
        let count = (count as usize).min(self.bytes.len() - start);
        Ok(self.bytes[start..start + count].to_vec(self.alloc)?)
    }

    fn reserve(&mut self, end: u64) -> Result<(), OutOfMemory>
        ensures same { ⟦<MemDisk as Disk>⟧.told self.new ≡ ⟦<MemDisk as Disk>⟧.told self.old }
        ensures tear { self.new.tear ≡ self.old.tear }
        ensures room { OnOk result (⟦<MemDisk as Disk>⟧.has_room self.new 2 end) }
    {
        let end = end as usize;
        let twice = end.checked_mul(2).ok_or(AllocError)?;
        self.written.reserve(twice)?;
        self.changes.reserve(5)?;
        let more = end.saturating_sub(self.bytes.len());
        self.bytes.reserve(more)?;
        let more = end.max(self.bytes.len()).saturating_sub(self.left.len());
        self.left.reserve(more)?;
        Ok(())
    }

    fn write_at(&mut self, at: u64, bytes: &[u8]) -> Result<(), DiskFault>
        ensures written { OnOk result (Tells (⟦<MemDisk as Disk>⟧.told self.old) (⟦<MemDisk as Disk>⟧.told self.new)
            (λ old new. new.now ≡ wrote old.now (record { at = at; bytes = bytes.now }))) }
        ensures moments { Tells (⟦<MemDisk as Disk>⟧.told self.old) (⟦<MemDisk as Disk>⟧.told self.new) (λ old new.
            Since (IsImage (wrote old.now (record { at = at; bytes = bytes.now }))) old new) }
        ensures fell { result ≢ Err DiskStops }
        ensures memory { (n end : ℕ) → ⟦<MemDisk as Disk>⟧.has_room self.old (suc n) end
            → at + length bytes.now ≤ end → result ≢ Err DiskWants }
        ensures wanting { result ≡ Err DiskWants
            → ⟦<MemDisk as Disk>⟧.told self.new ≡ ⟦<MemDisk as Disk>⟧.told self.old }
        ensures room { OnOk result ((n end : ℕ) → ⟦<MemDisk as Disk>⟧.has_room self.old (suc n) end
            → at + length bytes.now ≤ end → ⟦<MemDisk as Disk>⟧.has_room self.new n end) }
        ensures tear { self.new.tear ≡ self.old.tear }
        ensures cause { DiskRose 0 0 result }
    {
        let at = at as usize;
        let end = end_of(at, bytes)?;
        self.written.reserve(bytes.len())?;
        self.changes.reserve(2)?;
        self.bytes.reserve(end.saturating_sub(self.bytes.len()))?;
        let most = end.max(self.bytes.len());
        self.left.reserve(most.saturating_sub(self.left.len()))?;
        self.written.extend_from_slice(bytes)?;
        note(&mut self.changes, Change::Wrote(at, bytes.len()));
        overwrite(&mut self.bytes, at, bytes)?;
        tear_off(&mut self.left, self.tear, at, bytes)?;
        self.same = self.same.min(at);
        self.is_pending = true;
        Ok(())
    }

    fn sync(&mut self) -> Result<(), DiskFault>
        ensures ok { result ≡ Ok tt }
        ensures lasting { Tells (⟦<MemDisk as Disk>⟧.told self.old) (⟦<MemDisk as Disk>⟧.told self.new) (λ old new.
            new.now ≡ settled (as_read old.now)) }
        ensures moments { Tells (⟦<MemDisk as Disk>⟧.told self.old) (⟦<MemDisk as Disk>⟧.told self.new) (λ old new.
            Since (IsImage old.now) old new) }
        ensures room { (n end : ℕ) → ⟦<MemDisk as Disk>⟧.has_room self.old n end
            → ⟦<MemDisk as Disk>⟧.has_room self.new n end }
        ensures tear { self.new.tear ≡ self.old.tear }
    {
        if self.is_pending {
            self.make_lasting();
        }
        Ok(())
    }

    fn fall(&mut self)
        ensures torn { Tells (⟦<MemDisk as Disk>⟧.told self.old) (⟦<MemDisk as Disk>⟧.told self.new) (λ old new.
            new.now ≡ settled (left_by self.old.tear old.now)) }
        ensures moments { Tells (⟦<MemDisk as Disk>⟧.told self.old) (⟦<MemDisk as Disk>⟧.told self.new) (λ old new.
            Since (IsImage old.now) old new) }
        ensures tear { self.new.tear ≡ self.old.tear }
    {
        if self.is_pending {
            self.make_torn();
        }
    }
}
