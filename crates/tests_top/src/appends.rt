//! Two records are written at once by two workers, and a disk that refuses any one of its calls has its actor fall, or
//! no run begin.

use crate::calls::{call_on, is_ending};
use crate::disks::{Meeting, TestRack};
use qc_msg::{Fall, History, Step};
use std::alloc::Global;
use std::process::Abort;
use std::sync::Wait;
use std::test::Fail;
use std::thread::Threads;

const SCRIPT: &str = "phase\nc0 begin\nc0 do x W1\nc0 do x R\nc0 commit\n";

const FILES: [(&str, &str); 1] = [("s", SCRIPT)];

/// While the first site's record is being written the second's is too: the first
/// disk waits for that, and no lock is in the way.
#[test]
fn two_records_are_written_at_once(rt: HostRuntime) -> Result<(), Fail> {
    let meeting = Meeting::new();
    let mut rack = TestRack::meeting(rt.alloc(), &meeting);
    let words = ["run", "@three", "s", "--workers", "2"];
    let (ended, taken) = call_on(&rt, rt.alloc(), &words, &FILES, &mut rack)?;
    assert_eq!(rt; ended.status, 0);
    assert!(rt; meeting.met());
    let text =
        "replies\nc0 begin 0.1.1\nc0 x W1 ok\nc0 x R 1\nc0 commit 1.0\nlog\n1.0 0.1.1 x W1 ok, x R 1\nstates\n\
         x 1\nsites\ns0 life 1 epoch 1 lines 1 held 0\ns1 life 1 epoch 1 lines 1 held 0\n\
         s2 life 1 epoch 1 lines 0 held 0\n";
    assert_eq!(rt; taken.as_slice(), text.as_bytes());
    Ok(())
}

/// What came of a call of a disk that was refused.
#[derive(Clone, Copy, Debug, PartialEq, Eq)]
enum Came {
    /// No run began, and the actor's disk is told.
    NoRun,
    /// The actor fell by its disk, once.
    Fell,
    /// The disk has no call of this number.
    Passed,
    /// Something else.
    Other,
}

const FALLS: [(&str, &str); 1] = [(
    "s",
    "phase\nc0 begin\nc0 do x W1\nc0 commit\nphase\ncrash s0\nrestart s0\ncrash c0\nrestart c0\n\
     c0 begin\nc0 do x W1\nc0 do x R\nc0 commit\n",
)];

/// How often an actor fell by its disk, and whether nobody else did.
fn falls_of(history: &History, actor: u8) -> (usize, bool) {
    let is_by_disk = |step: &Step| matches!(
        step,
        Step::Fell {
            cause: Fall::Disk,
            ..
        }
    );
    let all = history
        .items()
        .iter()
        .filter(|entry| is_by_disk(&entry.step))
        .count();
    let own = history
        .items()
        .iter()
        .filter(|entry| entry.actor == actor && is_by_disk(&entry.step))
        .count();
    (own, all == own)
}

/// What comes of the call of this number of an actor's disk, which is refused.
fn refused_at<T: Threads + Wait + Sync + Abort>(rt: &T, alloc: Global, actor: u8, at: u32) -> Came {
    let mut rack = TestRack::refusing(alloc, actor, at);
    let Ok((ended, _)) = call_on(rt, alloc, &["run", "@three", "s"], &FALLS, &mut rack) else {
        panic!(rt; "no memory");
    };
    match (ended.status, rack.faults, falls_of(&ended.history, actor)) {
        (6, 1, (0, true)) if ended.history.items().is_empty() => Came::NoRun,
        (0, 1, (1, true)) => Came::Fell,
        (0, 0, (0, true)) => Came::Passed,
        _ => Came::Other,
    }
}

/// Each call of a disk, refused in turn, until it has none of that number. The first
/// ones are those of the beginning. So many were refused.
fn sweep<T: Threads + Wait + Sync + Abort>(rt: &T, alloc: Global, actor: u8) -> (u32, u32) {
    let mut refused = (0u32, 0u32);
    for at in 1..1000u32 {
        match refused_at(rt, alloc, actor, at) {
            Came::NoRun if refused.1 == 0 => refused.0 = refused.0.saturating_add(1),
            Came::Fell => refused.1 = refused.1.saturating_add(1),
            Came::Passed => break,
            came => panic!(rt; "{came:?} at call {at} of {actor}"),
        }
    }
    refused
}

/// A record takes four calls. The first site writes two promises, two ends and a new
/// life; the second no life; the third nothing; the client two commits and a life.
#[test]
fn refused_calls_are_falls(rt: HostRuntime) {
    for (actor, least) in [(0, 20), (1, 16), (2, 0), (3, 12)] {
        let (no_run, fell) = sweep(&rt, rt.alloc(), actor);
        assert!(rt; no_run >= 2, "{actor}: {no_run}");
        assert!(rt; fell >= least, "{actor}: {fell}");
        assert!(rt; least != 0 || fell == 0, "{actor}: {fell}");
    }
}
