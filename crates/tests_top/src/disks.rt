//! Disks in memory, and a rack of them, which tests look at and have refuse a call. They tell nothing of what they
//! hold.

ghost use Rattle.std.specs.Prelude.{◌≡◌, false, true};

use qc_list::OutOfMemory;
use qc_outside::{Disk, DiskFault, MemDisk, Rack, RackFault, Tear};
use std::alloc::Global;
use std::sync::atomic::{AtomicU64, Ordering};
use std::thread::yield_now;

/// The numbers of the first two sites.
const S0: u8 = 0;

const S1: u8 = 1;

/// Where the disks of two sites meet, each about to write a record.
#[derive(Drop)]
pub(crate) struct Meeting {
    asked: AtomicU64,
    met: AtomicU64,
}

impl Meeting {
    /// Nobody was asked to write yet.
    pub(crate) fn new() -> Meeting {
        Meeting {
            asked: AtomicU64::new(0),
            met: AtomicU64::new(0),
        }
    }

    /// Whether the second site's disk was asked while the first one's was writing.
    pub(crate) fn met(&self) -> bool {
        self.met.load(Ordering::SeqCst) == 1
    }

    /// Waits until the second site's disk is asked. It looks no more than
    /// 10,000,000 times.
    fn wait(&self) {
        for _ in 0..10_000_000u32 {
            if self.asked.load(Ordering::SeqCst) == 1 {
                self.met.store(1, Ordering::SeqCst);
                return;
            }
            yield_now();
        }
    }

    /// A record of this actor's is to be written.
    fn ask(&self, actor: u8) {
        if actor == S1 {
            self.asked.store(1, Ordering::SeqCst);
        }
        if actor == S0 && !self.met() {
            self.wait();
        }
    }
}

/// A disk that refuses one call, counted from 1, if it is to, and tells a meeting of
/// records.
#[derive(Drop)]
pub(crate) struct TestDisk<'a> {
    inner: MemDisk,
    actor: u8,
    left: u32,
    own: u64,
    meeting: Option<&'a Meeting>,
}

impl<'a> TestDisk<'a> {
    /// Whether this call is refused: then it is the disk's own fault.
    fn refuses(&mut self) -> bool
        ensures inner { self.new.inner ≡ self.old.inner }
        ensures refused { result ≡ true → (self.old.own ≡ 0) × (self.new.own ≡ 1) }
        ensures goes_on { result ≡ false → self.new.own ≡ self.old.own }
    {
        self.left = self.left.saturating_sub(1);
        if self.left != 1 || self.own != 0 {
            return false;
        }
        self.own = 1;
        true
    }
}

impl<'a> Disk for TestDisk<'a> {
    ghost use Rattle.std.specs.Prelude.{None};
    ghost use Rattle.qc_outside.specs.Fuses.{no_fuse};

    ghost faults = { λ d. d.own };

    ghost told = { λ d. None };

    ghost fuse = { λ d. no_fuse d.own };

    ghost has_room = { λ d. ⟦<MemDisk as Disk>⟧.has_room d.inner };

    fn len(&mut self) -> Result<u64, DiskFault> {
        if self.refuses() {
            return Err(DiskFault::Failed);
        }
        self.inner.len()
    }

    fn read(&mut self, at: u64, count: u32) -> Result<Vec<u8>, DiskFault> {
        if self.refuses() {
            return Err(DiskFault::Failed);
        }
        self.inner.read(at, count)
    }

    fn reserve(&mut self, end: u64) -> Result<(), OutOfMemory> {
        self.inner.reserve(end)
    }

    fn write_at(&mut self, at: u64, bytes: &[u8]) -> Result<(), DiskFault> {
        if self.refuses() {
            return Err(DiskFault::Failed);
        }
        // An opening writes one byte, a record's first write more.
        if let (Some(meeting), true) = (self.meeting, bytes.len() > 8) {
            meeting.ask(self.actor);
        }
        self.inner.write_at(at, bytes)
    }

    fn sync(&mut self) -> Result<(), DiskFault> {
        if self.refuses() {
            return Err(DiskFault::Failed);
        }
        self.inner.sync()
    }

    fn fall(&mut self) {
        self.inner.fall();
    }
}

/// A rack of such disks. One actor's disk refuses its call of a number, if that isn't
/// 0; and the rack counts what its disks counted.
#[derive(Drop)]
pub(crate) struct TestRack<'a> {
    alloc: Global,
    actor: u8,
    at: u32,
    meeting: Option<&'a Meeting>,
    pub(crate) faults: u64,
}

impl<'a> TestRack<'a> {
    /// Its disks meet there, and none refuses a call.
    pub(crate) fn meeting(alloc: Global, meeting: &'a Meeting) -> TestRack<'a> {
        TestRack {
            alloc,
            actor: 0,
            at: 0,
            meeting: Some(meeting),
            faults: 0,
        }
    }

    /// The disk of this actor refuses its call of this number, counted from 1.
    pub(crate) fn refusing(alloc: Global, actor: u8, at: u32) -> TestRack<'a> {
        TestRack {
            alloc,
            actor,
            at,
            meeting: None,
            faults: 0,
        }
    }
}

impl<'a> Rack for TestRack<'a> {
    type D = TestDisk<'a>;

    ghost use Rattle.std.specs.Prelude.{None};

    ghost faults = { λ r. r.faults };

    ghost places = { λ r. None };

    fn disk(&mut self, _dir: Option<&str>, actor: u8) -> Result<TestDisk<'a>, RackFault> {
        let refuses = self.at != 0 && actor == self.actor;
        Ok(TestDisk {
            inner: MemDisk::new(self.alloc, Tear::Nothing)?,
            actor,
            left: if refuses {
                self.at.saturating_add(1)
            } else {
                0
            },
            own: 0,
            meeting: self.meeting,
        })
    }

    fn keep(&mut self, _dir: Option<&str>, _actor: u8, disk: TestDisk<'a>) {
        self.faults = self.faults.saturating_add(disk.own);
    }
}
