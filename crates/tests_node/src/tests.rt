//! Scripts by workers.

ghost use Rattle.qc_decl.specs.Accepted.{IsAccepted};
ghost use Rattle.qc_decl.specs.Named.{IsNamed};

use crate::declarations::{three, two_epochs};
use crate::meeting::Meeting;
use crate::rows::{ROWS, Row, changes};
use crate::runs::{Ran, run, script_of};
use crate::steps::Short;
use qc_decl::{Declaration, MOST_SCRIPT_BYTES};
use qc_node::{DriveEnd, Job};
use qc_outside::{Gate, OpenGate};
use std::alloc::Global;
use std::sync::Wait;
use std::test::Fail;
use std::thread::Threads;

/// The script: messages are dropped and late, clients clash, and a cut loses
/// requests.
const SCRIPT: &[u8] = b"\
link c0 s1 1 drop
link s2 c1 1 late
phase
c0 begin
c1 begin
c0 do x W1
c1 do x R
c0 commit
c1 commit
phase
cut c2 s0
c2 begin
c2 do x R
c2 commit
";

/// Runs a script over a declaration by so many workers.
fn ran<'a, G: Gate + Sync, R: Threads + Wait + Sync>(
    rt: &R,
    alloc: Global,
    decl: &'a Declaration,
    bytes: &[u8],
    gate: &'a G,
    workers: u8,
) -> Result<Ran, Fail>
    requires accepted { IsAccepted decl.now }
    requires named { IsNamed decl.now }
{
    if bytes.len() > MOST_SCRIPT_BYTES as usize {
        return Err(Fail::from("the script is too long"));
    }
    let script = script_of(alloc, bytes, decl)?;
    let job = Job {
        decl,
        gate,
        workers,
        dir: None,
    };
    match run(rt, alloc, &job, script) {
        Ok(ran) => Ok(ran),
        Err(_) => Err(Fail::from("the rack gave no disks")),
    }
}

/// Whether one worker takes just the steps of a row, and ends quiet.
fn goes<R: Threads + Wait + Sync>(
    rt: &R,
    alloc: Global,
    decl: &Declaration,
    row: &Row,
) -> Result<bool, Fail>
    requires accepted { IsAccepted decl.now }
    requires named { IsNamed decl.now }
{
    let ran = ran(rt, alloc, decl, row.script, &OpenGate, 1)?;
    Ok(ran.end == DriveEnd::Quiet && ran.steps.as_slice() == row.steps)
}

/// One worker takes the steps that the rules give, one after another.
#[test]
fn one_worker_takes_the_steps_of_the_rules(rt: HostRuntime) -> Result<(), Fail> {
    let decl = three(rt.alloc())?;
    for row in ROWS.iter().copied().flatten() {
        assert!(rt; goes(&rt, rt.alloc(), &decl, row)?, "{}", row.name);
    }
    Ok(())
}

/// So it does where quorums change.
#[test]
fn quorums_change_by_the_steps_of_the_rules(rt: HostRuntime) -> Result<(), Fail> {
    let decl = two_epochs(rt.alloc())?;
    for row in changes::ROWS.iter() {
        assert!(rt; goes(&rt, rt.alloc(), &decl, row)?, "{}", row.name);
    }
    Ok(())
}

/// How many steps of this kind there are.
fn count(steps: &[Short], kind: u8) -> usize {
    steps.iter().filter(|step| step.1 == kind).count()
}

/// Two workers, of which each holds an input while the other takes one: both
/// phases end quiet, and each of the nine commands is called and has its reply.
#[test]
fn two_inputs_are_open_at_once(rt: HostRuntime) -> Result<(), Fail> {
    let gate = Meeting::new(3, 4);
    let decl = three(rt.alloc())?;
    let ran = ran(&rt, rt.alloc(), &decl, SCRIPT, &gate, 2)?;
    assert!(rt; gate.met());
    assert_eq!(rt; ran.end, DriveEnd::Quiet);
    assert_eq!(rt; count(ran.steps.as_slice(), b'P'), 2);
    assert_eq!(rt; count(ran.steps.as_slice(), b'C'), 9);
    assert_eq!(rt; count(ran.steps.as_slice(), b'T'), 9);
    Ok(())
}
