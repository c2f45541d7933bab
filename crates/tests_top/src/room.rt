//! Scripts with room, and one that asks for as many operations as a run may commit.

use crate::calls::{call, ends_with, prints};
use qc_list::OutOfMemory;
use std::alloc::Global;
use std::sync::Wait;
use std::thread::Threads;

/// How many writes each transaction has.
const WRITES: u8 = 16;

/// So many transactions of sixteen writes each.
fn writes(alloc: Global, transactions: u32) -> Result<String, OutOfMemory> {
    let mut script = String::from_str(alloc, "phase\n")?;
    for _ in 0..transactions {
        script.push_str("c0 begin\n")?;
        for _ in 0..WRITES {
            script.push_str("c0 do x W1\n")?;
        }
        script.push_str("c0 commit\n")?;
    }
    Ok(script)
}

/// Adds the replies to a transaction of that number, from 1.
fn add_replies(text: &mut String, number: u32) -> Result<(), OutOfMemory> {
    write!(text, "c0 begin 0.1.{number}\n")?;
    for _ in 0..WRITES {
        text.push_str("c0 x W1 ok\n")?;
    }
    write!(text, "c0 commit {number}.0\n")?;
    Ok(())
}

/// Adds its line of the log.
fn add_line(text: &mut String, number: u32) -> Result<(), OutOfMemory> {
    write!(text, "{number}.0 0.1.{number} x W1 ok")?;
    for _ in 1..WRITES {
        text.push_str(", x W1 ok")?;
    }
    text.push_str("\n")
}

/// The text of a run of so many transactions over one site.
fn written(alloc: Global, transactions: u32) -> Result<String, OutOfMemory> {
    let mut text = String::from_str(alloc, "replies\n")?;
    for number in 1..=transactions {
        add_replies(&mut text, number)?;
    }
    text.push_str("log\n")?;
    for number in 1..=transactions {
        add_line(&mut text, number)?;
    }
    let lines = transactions.saturating_mul(u32::from(WRITES));
    write!(
        text,
        "states\nx 1\nsites\ns0 life 1 epoch 1 lines {lines} held 0\n"
    )?;
    Ok(text)
}

/// The status of a call with these words over this script.
fn status<T: Threads + Wait + Sync>(
    rt: &T,
    alloc: Global,
    words: &[&str],
    script: &str,
) -> Result<u8, OutOfMemory> {
    let (ended, _) = call(rt, alloc, words, &[("s", script)], (&[], &[]))?;
    Ok(ended.status)
}

/// 1,008 operations come to the script's end, and all is printed.
#[test]
fn a_script_below_the_limit_of_operations_has_room(rt: HostRuntime) {
    match (writes(rt.alloc(), 63), written(rt.alloc(), 63)) {
        (Ok(script), Ok(text)) => {
            let files = [("s", script.as_str())];
            prints(
                &rt,
                rt.alloc(),
                &["run", "@one", "s"],
                &files,
                text.as_str(),
            );
        }
        _ => panic!(rt; "no memory for a script"),
    }
}

/// 1,024 operations end the run, and nothing is printed of it. A transaction has 2 steps to begin, 6 for each write and
/// 11 to commit, of which the last two are a site's that takes the decision: the last one's site doesn't.
#[test]
fn the_limit_of_operations_is_met(rt: HostRuntime) {
    let Ok(script) = writes(rt.alloc(), 64) else {
        panic!(rt; "no memory for a script");
    };
    let files = [("s", script.as_str())];
    let steps = 1 + 64 * (2 + 16 * 6 + 11) - 2;
    let want = (7, "quorum: full: operations 1024\n", steps);
    ends_with(
        &rt,
        rt.alloc(),
        &["run", "@one", "s"],
        &files,
        (&[], &[]),
        want,
    );
}

/// A load of 500 transactions has room: 114,500 steps and 6,000,000 lines at most.
#[test]
fn a_load_has_room(rt: HostRuntime) {
    assert!(rt; status(&rt, rt.alloc(), &["load", "500", "7"], "") == Ok(0));
}
