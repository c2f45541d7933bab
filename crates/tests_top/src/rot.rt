//! Runs over a disk that loses what it held when it falls: what disks that don't keep do to a run. The text says that
//! the site is down, or that it forgot, and the history that a record was lost: `Kept` of `qc_promise` doesn't hold.

use crate::calls::{call_on, new_rack};
use crate::kept::has_loss;
use qc_list::OutOfMemory;
use qc_msg::{Entry, Step};
use qc_outside::{Rack, RotRack};
use std::alloc::Global;
use std::sync::Wait;
use std::thread::Threads;

/// The site whose disk doesn't keep.
const S1: u8 = 1;

const RESTART_SCRIPT: &str = "phase\ncrash s1\nrestart s1\n";

const DOWN_TEXT: &str = "\
replies
log
states
x 0
sites
s0 life 1 epoch 1 lines 0 held 0
s1 down
s2 life 1 epoch 1 lines 0 held 0
";

/// The site holds what it granted in its second life, and begins that life once more.
const FORGOTTEN_SCRIPT: &str = "\
phase
crash s1
restart s1
c0 begin
c0 do x W1
phase
crash s1
restart s1
c0 commit
";

const FORGOTTEN_TEXT: &str = "\
replies
c0 begin 0.1.1
c0 x W1 ok
c0 commit ! forgot s1
log
states
x 0
sites
s0 life 1 epoch 1 lines 0 held 0
s1 life 2 epoch 1 lines 0 held 0
s2 life 1 epoch 1 lines 0 held 0
";

/// Where the disk keeps what it held, the site begins a second life.
const RISEN_TEXT: &str = "\
replies
log
states
x 0
sites
s0 life 1 epoch 1 lines 0 held 0
s1 life 2 epoch 1 lines 0 held 0
s2 life 1 epoch 1 lines 0 held 0
";

/// Where the disk keeps what it held, the site begins a third life.
const RESTARTED_TEXT: &str = "\
replies
c0 begin 0.1.1
c0 x W1 ok
c0 commit ! restarted s1 2 3
log
states
x 0
sites
s0 life 1 epoch 1 lines 0 held 0
s1 life 3 epoch 1 lines 0 held 0
s2 life 1 epoch 1 lines 0 held 0
";

/// How often the site's journal was found damaged, and whether always at its first byte.
fn damages(entries: &[Entry]) -> (u32, bool) {
    let mut count: u32 = 0;
    let mut at_first = true;
    for entry in entries {
        if let Step::Damaged(offset) = &entry.step {
            count = count.saturating_add(1);
            at_first = at_first && *offset == 0 && entry.actor == S1;
        }
    }
    (count, at_first)
}

/// Whether a run of a script over this rack ends with status 0 and prints this text, how often the site's journal was
/// found damaged, and whether a record was lost.
fn run_over<T: Threads + Wait + Sync, R: Rack>(
    rt: &T,
    alloc: Global,
    rack: &mut R,
    script: &str,
    text: &str,
) -> Result<(bool, u32, bool), OutOfMemory> {
    let (ended, taken) = call_on(rt, alloc, &["run", "@three", "s"], &[("s", script)], rack)?;
    let entries = ended.history.items();
    let (count, at_first) = damages(entries);
    let is_same = ended.status == 0 && taken.as_slice() == text.as_bytes();
    Ok((is_same && at_first, count, has_loss(entries)))
}

/// The same over a rack after whose falls the site's disk holds these bytes.
fn rots<T: Threads + Wait + Sync>(
    rt: &T,
    alloc: Global,
    after: &[u8],
    script: &str,
    text: &str,
) -> Result<(bool, u32, bool), OutOfMemory> {
    let mut rack = RotRack::new(alloc, S1, after.to_vec(alloc)?)?;
    run_over(rt, alloc, &mut rack, script, text)
}

/// What the disk holds is no journal; a record of no known kind is none either; and an empty journal says nothing of
/// the life that was.
#[test]
fn a_disk_that_loses_what_it_held(rt: HostRuntime) {
    let rows: [(&[u8], &str, &str, u32); 3] = [
        (&[1, 0, 0, 0, 0], RESTART_SCRIPT, DOWN_TEXT, 1),
        (&[1, 0, 0, 0, 1, 0, 0], RESTART_SCRIPT, DOWN_TEXT, 1),
        (&[0], FORGOTTEN_SCRIPT, FORGOTTEN_TEXT, 0),
    ];
    for (after, script, text, count) in rows {
        let rotted = rots(&rt, rt.alloc(), after, script, text);
        assert!(rt; rotted == Ok((true, count, true)), "{text}");
    }
}

/// The same scripts over a disk that keeps: no record is lost.
#[test]
fn a_disk_that_keeps_what_it_held(rt: HostRuntime) {
    let rows = [
        (RESTART_SCRIPT, RISEN_TEXT),
        (FORGOTTEN_SCRIPT, RESTARTED_TEXT),
    ];
    for (script, text) in rows {
        let Ok(mut rack) = new_rack(rt.alloc()) else {
            panic!(rt; "no memory for a rack");
        };
        let ran = run_over(&rt, rt.alloc(), &mut rack, script, text);
        assert!(rt; ran == Ok((true, 0, false)), "{text}");
    }
}
