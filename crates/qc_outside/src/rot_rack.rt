//! A rack of disks in memory, of which one actor's lose what they held.

ghost use Rattle.std.specs.Prelude.{◌≡◌, ◌≢◌, ◌≤◌, ◌+◌, ℕ, suc, true, false, [], Ok, Err, IfOk, IfErr};
ghost use Rattle.std.specs.Prelude.{OnOk, OnErr, nat_eq, length, take, drop};
ghost use Rattle.qc_outside.specs.Disk.{DiskRose};
ghost use Rattle.qc_outside.specs.Images.{Tells, Since, IsImage, as_read, wrote, settled};
ghost use Rattle.qc_outside.specs.Rot.{IsKeeping, IsRotting, told_of, holding_of, after_write, after_sync};
ghost use Rattle.qc_outside.specs.Rot.{after_fall};
ghost use Rattle.qc_outside.specs.declared.disk.DiskFault.TheVariants.{Stopped as DiskStops, OutOfMemory as DiskWants};
ghost use Rattle.qc_outside.specs.declared.rack.RackFault.TheVariants.{OutOfMemory as RackWants};

use crate::{Disk, DiskFault, MemDisk, Rack, RackFault, RotDisk, Tear};
use qc_list::OutOfMemory;
use std::alloc::Global;

/// A disk of such a rack.
#[derive(Drop)]
pub enum RotRackDisk {
    /// It loses what it held, and tells nothing.
    Rot(RotDisk),
    /// It keeps what was synced, and tells what it holds.
    Mem(MemDisk),
}

impl Disk for RotRackDisk {
    ghost use Rattle.qc_outside.specs.Fuses.{no_fuse};
    ghost use Rattle.qc_outside.specs.declared.rot_rack.RotRackDisk.TheVariants.{Mem, Rot};

    ghost faults = { λ d. 0 };

    ghost fuse = { λ d. no_fuse 0 };

    ghost told = { told_of };

    ghost has_room = { λ d. elim d as (λ _. ℕ → ℕ → Type 0)
        [ Rot disk ↦ ⟦<RotDisk as Disk>⟧.has_room disk | Mem disk ↦ ⟦<MemDisk as Disk>⟧.has_room disk ] };

    fn len(&mut self) -> Result<u64, DiskFault>
        ensures count { IfOk result (λ n. n ≡ length (holding_of self.old).reads) }
        ensures same { self.new ≡ self.old }
        ensures cause { DiskRose 0 0 result }
        ensures memory { result ≢ Err DiskWants }
    {
        match self {
            RotRackDisk::Rot(disk) => disk.len(),
            RotRackDisk::Mem(disk) => disk.len(),
        }
    }

    fn read(&mut self, at: u64, count: u32) -> Result<Vec<u8>, DiskFault>
        ensures bounded { IfOk result (λ v. length v.items ≤ count) }
        ensures held { IfOk result (λ v. v.items ≡ take count (drop at (holding_of self.old).reads)) }
        ensures same { self.new ≡ self.old }
        ensures cause { DiskRose 0 0 result }
    {
        match self {
            RotRackDisk::Rot(disk) => disk.read(at, count),
            RotRackDisk::Mem(disk) => disk.read(at, count),
        }
    }

    fn reserve(&mut self, end: u64) -> Result<(), OutOfMemory>
        ensures held { holding_of self.new ≡ holding_of self.old }
        ensures same { told_of self.new ≡ told_of self.old }
        ensures room { OnOk result (⟦<RotRackDisk as Disk>⟧.has_room self.new 2 end) }
    {
        match self {
            RotRackDisk::Rot(disk) => disk.reserve(end),
            RotRackDisk::Mem(disk) => disk.reserve(end),
        }
    }

    fn write_at(&mut self, at: u64, bytes: &[u8]) -> Result<(), DiskFault>
        ensures held { OnOk result
            (holding_of self.new ≡ after_write (holding_of self.old) (record { at = at; bytes = bytes.now })) }
        ensures refused { OnErr result (holding_of self.new ≡ holding_of self.old) }
        ensures written { OnOk result (Tells (told_of self.old) (told_of self.new) (λ old new.
            new.now ≡ wrote old.now (record { at = at; bytes = bytes.now }))) }
        ensures moments { Tells (told_of self.old) (told_of self.new) (λ old new.
            Since (IsImage (wrote old.now (record { at = at; bytes = bytes.now }))) old new) }
        ensures fell { result ≢ Err DiskStops }
        ensures memory { (n end : ℕ) → ⟦<RotRackDisk as Disk>⟧.has_room self.old (suc n) end
            → at + length bytes.now ≤ end → result ≢ Err DiskWants }
        ensures wanting { result ≡ Err DiskWants → told_of self.new ≡ told_of self.old }
        ensures room { OnOk result ((n end : ℕ) → ⟦<RotRackDisk as Disk>⟧.has_room self.old (suc n) end
            → at + length bytes.now ≤ end → ⟦<RotRackDisk as Disk>⟧.has_room self.new n end) }
        ensures cause { DiskRose 0 0 result }
    {
        match self {
            RotRackDisk::Rot(disk) => disk.write_at(at, bytes),
            RotRackDisk::Mem(disk) => disk.write_at(at, bytes),
        }
    }

    fn sync(&mut self) -> Result<(), DiskFault>
        ensures held { holding_of self.new ≡ after_sync (holding_of self.old) }
        ensures ok { result ≡ Ok tt }
        ensures lasting { Tells (told_of self.old) (told_of self.new) (λ old new. new.now ≡ settled (as_read old.now)) }
        ensures moments { Tells (told_of self.old) (told_of self.new) (λ old new. Since (IsImage old.now) old new) }
        ensures room { (n end : ℕ) → ⟦<RotRackDisk as Disk>⟧.has_room self.old n end
            → ⟦<RotRackDisk as Disk>⟧.has_room self.new n end }
    {
        match self {
            RotRackDisk::Rot(disk) => disk.sync(),
            RotRackDisk::Mem(disk) => disk.sync(),
        }
    }

    fn fall(&mut self)
        ensures held { holding_of self.new ≡ after_fall (holding_of self.old) }
        ensures moments { Tells (told_of self.old) (told_of self.new) (λ old new. Since (IsImage old.now) old new) }
        ensures fell { Tells (told_of self.old) (told_of self.new) (λ old new. new.now.writes ≡ []) }
    {
        match self {
            RotRackDisk::Rot(disk) => disk.fall(),
            RotRackDisk::Mem(disk) => disk.fall(),
        }
    }
}

/// A rack that gives one actor disks whose falls leave the same bytes, whatever
/// was written, and the others disks in memory whose falls undo what wasn't
/// synced. It refuses no call, keeps nothing of the disks that come back, and
/// tells nothing.
#[derive(Drop)]
pub struct RotRack {
    alloc: Global,
    actor: u8,
    after: Vec<u8>,
}

impl RotRack {
    /// A rack whose disks for this actor hold these bytes after each fall.
    pub fn new(alloc: Global, actor: u8, after: Vec<u8>) -> Result<RotRack, OutOfMemory>
        ensures actor { IfOk result (λ r. r.actor ≡ actor) }
        ensures after { IfOk result (λ r. r.after.items ≡ after.items) }
    {
        Ok(RotRack {
            alloc,
            actor,
            after,
        })
    }
}

impl Rack for RotRack {
    type D = RotRackDisk;

    ghost use Rattle.std.specs.Prelude.{None};

    ghost faults = { λ r. 0 };

    ghost places = { λ r. None };

    fn disk(&mut self, _dir: Option<&str>, actor: u8) -> Result<RotRackDisk, RackFault>
        ensures rots { nat_eq actor self.old.actor ≡ true → IfOk result (IsRotting self.old.after.items) }
        ensures keeps { nat_eq actor self.old.actor ≡ false → IfOk result IsKeeping }
        ensures wanting { IfErr result (λ e. e ≡ RackWants) }
        ensures same { self.new ≡ self.old }
    {
        if actor == self.actor {
            let after = self.after.as_slice().to_vec(self.alloc)?;
            return Ok(RotRackDisk::Rot(RotDisk::new(self.alloc, after)?));
        }
        Ok(RotRackDisk::Mem(MemDisk::new(self.alloc, Tear::Nothing)?))
    }

    fn keep(&mut self, _dir: Option<&str>, _actor: u8, _disk: RotRackDisk)
        ensures same { self.new ≡ self.old }
    {}
}
