//! The disk of an actor: a file of the system, or one in memory.

ghost use Rattle.std.specs.Prelude.{◌≡◌, ◌≤◌, None};
ghost use Rattle.qc_outside.specs.Causes.{Rose};
ghost use Rattle.qc_outside.specs.Fuses.{no_fuse};

use crate::whole_file::WholeFile;
use qc_list::OutOfMemory;
use qc_outside::{Disk, DiskFault, MemDisk};
use std::alloc::Global;
use std::fs::OpenFile;
use std::io::{ErrorKind, Read, Seek, Write};

/// A file, or a disk in memory where there is none. Nothing is told of what it
/// holds. It counts the calls of the file that failed, as those of one that became
/// shorter than what was written to it do.
///
/// At a fall a file keeps all that was written to it.
#[derive(Drop)]
pub struct FileDisk<F: Drop> {
    alloc: Global,
    file: Option<WholeFile<F>>,
    memory: MemDisk,
    faults: u64,
}

impl<F: Drop> FileDisk<F> {
    /// The disk that is this file, or the one in memory where there is none.
    pub(crate) fn new(alloc: Global, file: Option<WholeFile<F>>, memory: MemDisk) -> FileDisk<F>
        ensures { result.faults ≡ 0 }
    {
        FileDisk {
            alloc,
            file,
            memory,
            faults: 0,
        }
    }

    /// Gives the disk up, and tells how many calls failed.
    pub(crate) fn into_faults(self) -> u64
        ensures { result ≡ self.faults }
    {
        self.faults
    }

    /// Counts a call that failed.
    fn failed(&mut self) -> DiskFault
        ensures result { result ≡ DiskFault.Failed }
        ensures rose { Rose self.old.faults self.new.faults }
        ensures later { self.old.faults ≤ self.new.faults }
        ensures rest { (self.new.file ≡ self.old.file) × (self.new.memory ≡ self.old.memory) }
    {
        self.faults = self.faults.saturating_add(1);
        DiskFault::Failed
    }
}

impl<F: Read + Write + Seek + OpenFile + Send + Drop> Disk for FileDisk<F> {
    ghost faults = { λ d. d.faults };

    ghost fuse = { λ d. no_fuse d.faults };

    ghost told = { λ _. None };

    ghost has_room = { λ d n end. d.file ≡ None → ⟦<MemDisk as Disk>⟧.has_room d.memory n end };

    fn len(&mut self) -> Result<u64, DiskFault> {
        match &mut self.file {
            None => self.memory.len(),
            Some(file) => match file.len() {
                Ok(len) => Ok(len),
                Err(_) => Err(self.failed()),
            },
        }
    }

    fn read(&mut self, at: u64, count: u32) -> Result<Vec<u8>, DiskFault> {
        let Some(file) = &mut self.file else {
            return self.memory.read(at, count);
        };
        match file.read(self.alloc, at, count) {
            Ok(bytes) if bytes.len() <= count as usize => Ok(bytes),
            Err(error) if error.kind() == ErrorKind::OutOfMemory => Err(DiskFault::OutOfMemory),
            _ => Err(self.failed()),
        }
    }

    fn reserve(&mut self, end: u64) -> Result<(), OutOfMemory> {
        match self.file {
            None => self.memory.reserve(end),
            Some(_) => Ok(()),
        }
    }

    fn write_at(&mut self, at: u64, bytes: &[u8]) -> Result<(), DiskFault> {
        let Some(file) = &mut self.file else {
            return self.memory.write_at(at, bytes);
        };
        match file.write(at, bytes) {
            Ok(()) => Ok(()),
            Err(_) => Err(self.failed()),
        }
    }

    fn sync(&mut self) -> Result<(), DiskFault> {
        match &self.file {
            None => self.memory.sync(),
            Some(file) => match file.sync() {
                Ok(()) => Ok(()),
                Err(_) => Err(self.failed()),
            },
        }
    }

    fn fall(&mut self) {
        if self.file.is_none() {
            self.memory.fall();
        }
    }
}
