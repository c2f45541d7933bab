//! A disk that loses what it held when it falls: what disks that don't keep do to
//! a run is seen over it.
//!
//! 1. It reads as written until it falls. Each fall leaves the same bytes,
//!    whatever was written and synced.
//! 2. It tells nothing of what it holds, and its count of faults never rises.

ghost use Rattle.std.specs.Prelude.{◌≡◌, ◌≢◌, ◌≤◌, ◌+◌, ℕ, suc, [], Ok, Err, IfOk, OnOk, OnErr, length, take, drop};
ghost use Rattle.std.specs.Prelude.{max, vec_len, vec_capacity};
ghost use Rattle.qc_outside.specs.Disk.{DiskRose};
ghost use Rattle.qc_outside.specs.Images.{overwritten};
ghost use Rattle.qc_outside.specs.declared.disk.DiskFault.TheVariants.{OutOfMemory as DiskWants};

use crate::mem_disk::end_of;
use crate::tear::{copy_from, overwrite};
use crate::{Disk, DiskFault};
use qc_list::OutOfMemory;
use std::alloc::{AllocError, Global};

/// Bytes in memory that a fall takes others for.
#[derive(Drop)]
pub struct RotDisk {
    alloc: Global,
    /// What each fall leaves.
    after: Vec<u8>,
    /// As a read gives them.
    bytes: Vec<u8>,
    ghost room: { vec_len after ≤ vec_capacity bytes },
}

impl RotDisk {
    /// An empty disk, whose falls leave these bytes.
    pub fn new(alloc: Global, after: Vec<u8>) -> Result<RotDisk, OutOfMemory>
        ensures after { IfOk result (λ d. d.after.items ≡ after.items) }
        ensures empty { IfOk result (λ d. d.bytes.items ≡ []) }
    {
        let mut bytes = Vec::new(alloc);
        bytes.reserve(after.len())?;
        Ok(RotDisk {
            alloc,
            after,
            bytes,
        })
    }
}

impl Disk for RotDisk {
    ghost use Rattle.std.specs.Prelude.{None};
    ghost use Rattle.qc_outside.specs.Fuses.{no_fuse};

    ghost faults = { λ d. 0 };

    ghost fuse = { λ d. no_fuse 0 };

    ghost told = { λ d. None };

    ghost has_room = { λ d n end. max (vec_len d.bytes) end ≤ vec_capacity d.bytes };

    fn len(&mut self) -> Result<u64, DiskFault>
        ensures len { result ≡ Ok (length self.old.bytes.items) }
        ensures same { self.new ≡ self.old }
    {
        Ok(self.bytes.len() as u64)
    }

    fn read(&mut self, at: u64, count: u32) -> Result<Vec<u8>, DiskFault>
        ensures bounded { IfOk result (λ v. length v.items ≤ count) }
        ensures held { IfOk result (λ v. v.items ≡ take count (drop at self.old.bytes.items)) }
        ensures same { self.new ≡ self.old }
        ensures cause { DiskRose 0 0 result }
    {
        let start = (at as usize).min(self.bytes.len());
        let count = (count as usize).min(self.bytes.len() - start);
        Ok(self.bytes[start..start + count].to_vec(self.alloc)?)
    }

    fn reserve(&mut self, end: u64) -> Result<(), OutOfMemory>
        ensures held { self.new.bytes.items ≡ self.old.bytes.items }
        ensures after { self.new.after.items ≡ self.old.after.items }
        ensures enough { OnOk result (⟦<RotDisk as Disk>⟧.has_room self.new 2 end) }
    {
        let more = (end as usize).saturating_sub(self.bytes.len());
        self.bytes.reserve(more)
    }

    fn write_at(&mut self, at: u64, bytes: &[u8]) -> Result<(), DiskFault>
        ensures held { OnOk result
            (self.new.bytes.items ≡ overwritten self.old.bytes.items (record { at = at; bytes = bytes.now })) }
        ensures refused { OnErr result (self.new.bytes.items ≡ self.old.bytes.items) }
        ensures after { self.new.after.items ≡ self.old.after.items }
        ensures memory { (n end : ℕ) → ⟦<RotDisk as Disk>⟧.has_room self.old (suc n) end → at + length bytes.now ≤ end
            → result ≢ Err DiskWants }
        ensures room { OnOk result ((n end : ℕ) → ⟦<RotDisk as Disk>⟧.has_room self.old (suc n) end
            → at + length bytes.now ≤ end
            → ⟦<RotDisk as Disk>⟧.has_room self.new n end) }
        ensures cause { DiskRose 0 0 result }
    {
        let at = at as usize;
        let end = end_of(at, bytes)?;
        self.bytes.reserve(end.saturating_sub(self.bytes.len()))?;
        overwrite(&mut self.bytes, at, bytes)?;
        Ok(())
    }

    fn sync(&mut self) -> Result<(), DiskFault>
        ensures ok { result ≡ Ok tt }
        ensures same { self.new ≡ self.old }
    {
        Ok(())
    }

    fn fall(&mut self)
        ensures rots { self.new.bytes.items ≡ self.old.after.items }
        ensures after { self.new.after.items ≡ self.old.after.items }
    {
        copy_from(&mut self.bytes, 0, &self.after);
    }
}
