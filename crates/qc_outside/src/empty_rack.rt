//! A rack whose disks hold nothing, for runs that keep no records.

ghost use Rattle.std.specs.Prelude.{◌≡◌, [], IsOkAnd};
ghost use Rattle.qc_outside.specs.Causes.{one_more, sum_of_faults};
ghost use Rattle.qc_outside.specs.Disk.{DiskRose, IsKept};

use crate::{Disk, DiskFault, Rack, RackFault};
use qc_list::OutOfMemory;
use std::alloc::Global;
use std::marker::Model;

/// A disk that holds nothing and refuses every write. Contracts see it as its
/// count of faults.
#[derive(Drop)]
pub struct EmptyDisk {
    alloc: Global,
    faults: u64,
}

impl Model for EmptyDisk {
    ghost use Rattle.std.specs.Prelude.{ℕ};

    ghost Value = { ℕ };

    ghost view = { λ d. d.faults };
}

impl Disk for EmptyDisk {
    ghost use Rattle.std.specs.Prelude.{Some, ⊤};
    ghost use Rattle.qc_outside.specs.Fuses.{no_fuse};
    ghost use Rattle.qc_outside.specs.Images.{told_at_first};

    ghost faults = { λ d. d };

    ghost fuse = { λ d. no_fuse d };

    ghost told = { λ d. Some told_at_first };

    ghost has_room = { λ _ _ _. ⊤ };

    fn len(&mut self) -> Result<u64, DiskFault>
        ensures empty { result ≡ Ok 0 }
        ensures same { self.new ≡ self.old }
    {
        Ok(0)
    }

    fn read(&mut self, _at: u64, _count: u32) -> Result<Vec<u8>, DiskFault>
        ensures empty { IsOkAnd result (λ v. v.items ≡ []) }
        ensures same { self.new ≡ self.old }
    {
        Ok(Vec::new(self.alloc))
    }

    fn reserve(&mut self, _end: u64) -> Result<(), OutOfMemory>
        ensures ok { result ≡ Ok tt }
        ensures same { self.new ≡ self.old }
    {
        Ok(())
    }

    fn write_at(&mut self, _at: u64, _bytes: &[u8]) -> Result<(), DiskFault>
        ensures refused { result ≡ Err DiskFault.Failed }
        ensures counted { self.new ≡ one_more self.old }
        ensures cause { DiskRose self.old self.new result }
    {
        self.faults = self.faults.saturating_add(1);
        Err(DiskFault::Failed)
    }

    fn sync(&mut self) -> Result<(), DiskFault>
        ensures ok { result ≡ Ok tt }
        ensures same { self.new ≡ self.old }
    {
        Ok(())
    }

    fn fall(&mut self)
        ensures { self.new ≡ self.old }
    {}
}

/// A rack of empty disks, which refuses no call. Contracts see it as its count
/// of faults.
#[derive(Drop)]
pub struct EmptyRack {
    alloc: Global,
    faults: u64,
}

impl Model for EmptyRack {
    ghost use Rattle.std.specs.Prelude.{ℕ};

    ghost Value = { ℕ };

    ghost view = { λ r. r.faults };
}

impl EmptyRack {
    /// A rack with no fault yet. It takes no memory.
    pub fn new(alloc: Global) -> EmptyRack
        ensures { result ≡ 0 }
    {
        EmptyRack { alloc, faults: 0 }
    }
}

impl Rack for EmptyRack {
    type D = EmptyDisk;

    ghost use Rattle.std.specs.Prelude.{None};

    ghost faults = { λ r. r };

    ghost places = { λ r. None };

    fn disk(&mut self, _dir: Option<&str>, _actor: u8) -> Result<EmptyDisk, RackFault>
        ensures fresh { result ≡ Ok 0 }
        ensures same { self.new ≡ self.old }
    {
        Ok(EmptyDisk {
            alloc: self.alloc,
            faults: 0,
        })
    }

    fn keep(&mut self, _dir: Option<&str>, _actor: u8, disk: EmptyDisk)
        ensures counted { self.new ≡ sum_of_faults self.old disk }
        ensures kept { IsKept self.old disk self.new }
    {
        self.faults = self.faults.saturating_add(disk.faults);
    }
}
