//! Runs whose disks stop or fail at each of their first calls, one at a time, and whose falls leave nothing of what
//! wasn't synced, all of it, or its range filled. Whatever happens, the run ends by itself, all that committed is a
//! run of one register, and clients were told of commits alone that stand in a journal.

use crate::calls::call_on;
use crate::epochs::DECLARATION;
use crate::falls::CLIENT_IN_DOUBT_TEXT;
use crate::histories::{is_replayed, is_told_rightly};
use qc_list::OutOfMemory;
use qc_outside::{MemRack, Tear};
use std::alloc::Global;
use std::process::Abort;
use std::sync::Wait;
use std::thread::Threads;

/// What falls leave.
const TEARS: [Tear; 3] = [Tear::Nothing, Tear::All, Tear::Fill(1)];

/// Who is armed: a client, two sites and the administrator, each with a number.
const ACTORS: [(&str, u8); 4] = [("c0", 3), ("s0", 0), ("s1", 1), ("admin", 6)];

const KINDS: [&str; 2] = ["stop ", "fail "];

const CALLS: [&str; 12] = [
    "1", "2", "3", "4", "5", "6", "7", "8", "9", "10", "11", "12",
];

/// The declaration of a story, its lines before the one that arms a fault, and those behind it.
type Story = (&'static str, &'static str, &'static str);

/// Decisions are lost; their client falls, and answers as it rises.
const LOST_DECISIONS: Story = (
    "@three",
    "link c0 s0 3 drop\nlink c0 s1 3 drop\nphase\n",
    "c0 begin\nc0 do x W1\nc0 commit\nphase\ncrash c0\nrestart c0\nc1 begin\nc1 do x R\nphase\nc1 do x R\nc1 commit\n",
);

/// Quorums change between a write and a read.
const CHANGE: Story = (
    "d",
    "phase\n",
    "c0 begin\nc0 do x W1\nc0 commit\nphase\nadmin epoch 2\nphase\nc1 begin\nc1 do x R\nc1 abort\nc1 begin\n\
    c1 do x R\nc1 commit\n",
);

/// A fault of an actor's disk at one of its calls.
type Fault<'a> = (&'a str, &'a str, &'a str);

/// Adds the line that arms a fault.
fn arm(script: &mut String, fault: Fault<'_>) -> Result<(), OutOfMemory> {
    let (kind, actor, call) = fault;
    for words in [kind, actor, " at ", call, "\n"] {
        script.push_str(words)?;
    }
    Ok(())
}

/// A story in whose first phase this fault is armed, and whose last phase restarts its actor.
fn story(alloc: Global, of: Story, fault: Fault<'_>) -> Result<String, OutOfMemory> {
    let mut script = String::from_str(alloc, of.1)?;
    arm(&mut script, fault)?;
    script.push_str(of.2)?;
    script.push_str("phase\n")?;
    restart(&mut script, fault.1)?;
    Ok(script)
}

/// Adds the line that restarts an actor.
fn restart(script: &mut String, actor: &str) -> Result<(), OutOfMemory> {
    for words in ["restart ", actor, "\n"] {
        script.push_str(words)?;
    }
    Ok(())
}

/// Whether a run over this declaration ends by itself, and what it left and told holds, where the actor's falls leave
/// so.
fn stands<T: Threads + Wait + Sync>(
    rt: &T,
    alloc: Global,
    words: (&str, &str),
    tear: (u8, Tear),
) -> Result<bool, OutOfMemory> {
    let (declaration, script) = words;
    let files = [("d", DECLARATION), ("s", script)];
    let mut rack = MemRack::torn(alloc, [tear].to_vec(alloc)?)?;
    let (ended, _) = call_on(rt, alloc, &["run", declaration, "s"], &files, &mut rack)?;
    let entries = ended.history.items();
    Ok(ended.status == 0 && is_replayed(entries) && is_told_rightly(entries))
}

/// The run of a story with this fault stands, whatever the falls of that actor leave.
fn all_stand<T: Threads + Wait + Sync + Abort>(
    rt: &T,
    alloc: Global,
    of: Story,
    fault: Fault<'_>,
    actor: u8,
) {
    let Ok(script) = story(alloc, of, fault) else {
        panic!(rt; "no memory for a script");
    };
    for tear in TEARS {
        let stood = stands(rt, alloc, (of.0, script.as_str()), (actor, tear));
        assert!(rt; stood == Ok(true), "{}", script.as_str());
    }
}

/// One actor's disk stops or fails so at one of its first twelve calls.
fn faults_stand<T: Threads + Wait + Sync + Abort>(rt: &T, alloc: Global, of: Story, kind: &str) {
    for (actor, number) in ACTORS {
        for call in CALLS {
            all_stand(rt, alloc, of, (kind, actor, call), number);
        }
    }
}

#[test]
fn disks_stop_as_decisions_are_lost(rt: HostRuntime) {
    faults_stand(&rt, rt.alloc(), LOST_DECISIONS, "stop ");
}

#[test]
fn disks_fail_as_decisions_are_lost(rt: HostRuntime) {
    faults_stand(&rt, rt.alloc(), LOST_DECISIONS, "fail ");
}

#[test]
fn disks_stop_as_quorums_change(rt: HostRuntime) {
    faults_stand(&rt, rt.alloc(), CHANGE, "stop ");
}

#[test]
fn disks_fail_as_quorums_change(rt: HostRuntime) {
    faults_stand(&rt, rt.alloc(), CHANGE, "fail ");
}

/// What is asked before an actor falls, and after it rose.
const BEFORE: &str = "phase\nc0 begin\nc0 do x W1\nc0 commit\nphase\n";

const AFTER: &str = "phase\nc1 begin\nc1 do x R\nphase\nc1 do x R\nc1 commit\n";

/// A story in which an actor's disk stops or fails at a call of its restart, as the record of its new life is written.
fn restarted(alloc: Global, fault: Fault<'_>) -> Result<String, OutOfMemory> {
    let mut script = String::from_str(alloc, BEFORE)?;
    script.push_str("crash ")?;
    script.push_str(fault.1)?;
    script.push_str("\n")?;
    arm(&mut script, fault)?;
    restart(&mut script, fault.1)?;
    script.push_str("phase\n")?;
    restart(&mut script, fault.1)?;
    script.push_str(AFTER)?;
    Ok(script)
}

/// A disk stops or fails within a restart, and the next restart finds what that left.
#[test]
fn disks_stop_or_fail_within_a_restart(rt: HostRuntime) {
    for (actor, number) in ACTORS {
        for kind in KINDS {
            for call in &CALLS[..8] {
                let Ok(script) = restarted(rt.alloc(), (kind, actor, *call)) else {
                    panic!(rt; "no memory for a script");
                };
                for tear in TEARS {
                    let stood = stands(&rt, rt.alloc(), ("d", script.as_str()), (number, tear));
                    assert!(rt; stood == Ok(true), "{}", script.as_str());
                }
            }
        }
    }
}

/// A client's disk stops as the gate of its commit record is written. Where its fall leaves nothing of that, the
/// transaction didn't commit.
const IN_DOUBT_SCRIPT: &str = "\
phase
stop c0 at 4
c0 begin
c0 do x W1
c0 commit
phase
restart c0
c1 begin
c1 do x R
phase
c1 do x R
c1 commit
";

/// Where its fall leaves all of it, the record rises.
const DONE_TEXT: &str = "\
replies
c0 begin 0.1.1
c0 x W1 ok
c0 commit ?
c1 begin 1.1.1
c1 x R ! conflict 0.1.1 s1
c1 x R 1
c1 commit 2.1
log
1.0 0.1.1 x W1 ok
2.1 1.1.1 x R 1
states
x 1
sites
s0 life 1 epoch 1 lines 0 held 1
s1 life 1 epoch 1 lines 1 held 0
s2 life 1 epoch 1 lines 0 held 0
";

/// The same run by what one actor's falls leave: only its own disk's are torn.
#[test]
fn falls_tear_as_is_listed(rt: HostRuntime) {
    let rows: [(&[(u8, Tear)], &str); 4] = [
        (&[(3, Tear::Nothing)], CLIENT_IN_DOUBT_TEXT),
        (&[(3, Tear::All)], DONE_TEXT),
        (&[(4, Tear::All)], CLIENT_IN_DOUBT_TEXT),
        (
            &[(4, Tear::Nothing), (3, Tear::All), (3, Tear::Nothing)],
            DONE_TEXT,
        ),
    ];
    for (tears, text) in rows {
        for workers in ["1", "4"] {
            let words = ["run", "@three", "s", "--workers", workers];
            assert!(rt;
                prints_torn(&rt, rt.alloc(), &words, tears, text) == Ok(true),
                "{text}"
            );
        }
    }
}

/// Whether the run prints this text where falls leave so.
fn prints_torn<T: Threads + Wait + Sync>(
    rt: &T,
    alloc: Global,
    words: &[&str],
    tears: &[(u8, Tear)],
    text: &str,
) -> Result<bool, OutOfMemory> {
    let mut rack = MemRack::torn(alloc, tears.to_vec(alloc)?)?;
    let (ended, taken) = call_on(rt, alloc, words, &[("s", IN_DOUBT_SCRIPT)], &mut rack)?;
    Ok(ended.status == 0 && taken.as_slice() == text.as_bytes())
}
