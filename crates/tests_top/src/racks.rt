//! Calls for which a rack gives no disk, and that each disk goes back to its place.

use crate::calls::{Ending, call_on, is_ending, new_rack};
use qc_outside::{Disk, DiskFault, MemDisk, MemRack, Rack, RackFault, Tear};
use std::alloc::Global;
use std::process::Abort;
use std::sync::Wait;
use std::test::Fail;
use std::thread::Threads;

const WORDS: [&str; 3] = ["run", "@one", "s"];

const FILES: [(&str, &str); 1] = [("s", "phase\nc0 begin\nc0 do x W1\nc0 do x R\nc0 commit\n")];

/// The call over this rack ends so, and prints nothing.
fn ends_on<T: Threads + Wait + Sync + Abort, R: Rack>(
    rt: &T,
    alloc: Global,
    rack: &mut R,
    want: Ending,
) {
    let Ok((ended, taken)) = call_on(rt, alloc, &WORDS, &FILES, rack) else {
        panic!(rt; "no memory where {} is wanted", want.1);
    };
    assert!(rt;
        is_ending(alloc, &ended, want) == Ok(true),
        "status {} for {}",
        ended.status,
        want.1
    );
    assert!(rt; taken.is_empty());
}

/// Whether the call of these words over this rack comes to its end.
fn is_done<T: Threads + Wait + Sync, R: Rack>(
    rt: &T,
    alloc: Global,
    words: &[&str],
    rack: &mut R,
) -> bool {
    match call_on(rt, alloc, words, &FILES, rack) {
        Ok((ended, _)) => ended.status == 0,
        Err(_) => false,
    }
}

/// Writes a byte to an actor's disk in a folder, and gives the disk back.
fn fill(
    rack: &mut MemRack,
    dir: Option<&str>,
    actor: u8,
) -> Result<Result<(), DiskFault>, RackFault> {
    let mut disk = rack.disk(dir, actor)?;
    let answer = disk.write_at(0, &[7]);
    rack.keep(dir, actor, disk);
    Ok(answer)
}

/// A place that holds a byte is told, also the administrator's.
#[test]
fn places_that_hold_bytes_are_told(rt: HostRuntime) -> Result<(), Fail> {
    let texts = [
        "quorum: disk of actor 0: not empty\n",
        "quorum: disk of actor 1: not empty\n",
        "quorum: disk of actor 2: not empty\n",
    ];
    for actor in 0..3u8 {
        let mut rack = new_rack(rt.alloc())?;
        assert_eq!(rt; fill(&mut rack, None, actor), Ok(Ok(())));
        ends_on(&rt, rt.alloc(), &mut rack, (6, texts[actor as usize], 0));
    }
    Ok(())
}

/// After a run each actor's place holds its journal, so the next one doesn't begin.
#[test]
fn a_rack_is_filled_by_a_run(rt: HostRuntime) -> Result<(), Fail> {
    let mut rack = new_rack(rt.alloc())?;
    assert!(rt; is_done(&rt, rt.alloc(), &WORDS, &mut rack));
    ends_on(
        &rt,
        rt.alloc(),
        &mut rack,
        (6, "quorum: disk of actor 0: not empty\n", 0),
    );
    for actor in 0..3u8 {
        assert!(rt; fill(&mut rack, None, actor) == Err(RackFault::NotEmpty { actor }));
    }
    Ok(())
}

/// A run fills the places of the folder that its words name, and no others.
#[test]
fn runs_fill_the_places_of_their_folder(rt: HostRuntime) -> Result<(), Fail> {
    let in_folder = ["run", "--dir", "d", "@one", "s"];
    for (words, full) in [(WORDS.as_slice(), None), (in_folder.as_slice(), Some("d"))] {
        let mut rack = new_rack(rt.alloc())?;
        assert!(rt; is_done(&rt, rt.alloc(), words, &mut rack));
        for actor in 0..3u8 {
            for dir in [None, Some("d"), Some("e")] {
                let is_full = fill(&mut rack, dir, actor) == Err(RackFault::NotEmpty { actor });
                assert_eq!(rt; is_full, dir == full);
            }
        }
    }
    Ok(())
}

/// A rack that fails for one actor, and counts the disks that it gave and got back.
#[derive(Drop)]
struct FailingRack {
    alloc: Global,
    failing: u8,
    faults: u64,
    given: u32,
    back: u32,
}

impl FailingRack {
    /// It fails for this actor.
    fn new(alloc: Global, failing: u8) -> FailingRack {
        FailingRack {
            alloc,
            failing,
            faults: 0,
            given: 0,
            back: 0,
        }
    }
}

impl Rack for FailingRack {
    type D = MemDisk;

    ghost use Rattle.std.specs.Prelude.{None};

    ghost faults = { λ r. r.faults };

    ghost places = { λ r. None };

    fn disk(&mut self, _dir: Option<&str>, actor: u8) -> Result<MemDisk, RackFault> {
        if actor == self.failing {
            self.faults = self.faults.saturating_add(1);
            return Err(RackFault::Failed { actor });
        }
        let disk = MemDisk::new(self.alloc, Tear::Nothing)?;
        self.given = self.given.saturating_add(1);
        Ok(disk)
    }

    fn keep(&mut self, _dir: Option<&str>, _actor: u8, _disk: MemDisk) {
        self.back = self.back.saturating_add(1);
    }
}

/// A disk that isn't given is told, and those that were given before it go back;
/// where each is given, all go back.
#[test]
fn disks_that_fail_are_told(rt: HostRuntime) {
    let texts = [
        "quorum: disk of actor 0: failed\n",
        "quorum: disk of actor 1: failed\n",
        "quorum: disk of actor 2: failed\n",
    ];
    for actor in 0..3u8 {
        let mut rack = FailingRack::new(rt.alloc(), actor);
        ends_on(&rt, rt.alloc(), &mut rack, (6, texts[actor as usize], 0));
        assert!(rt; rack.given == rack.back && rack.given == actor as u32);
    }
    let mut rack = FailingRack::new(rt.alloc(), 3);
    assert!(rt; is_done(&rt, rt.alloc(), &WORDS, &mut rack));
    assert!(rt; rack.given == 3 && rack.back == 3);
}
