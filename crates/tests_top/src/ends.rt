//! Calls that end without a run.

use crate::calls::{Ending, call, ends_with};
use qc_list::OutOfMemory;
use std::alloc::Global;
use std::process::Abort;
use std::sync::Wait;
use std::thread::Threads;

/// The script of the first run.
const SCRIPT: &str = "phase\nc0 begin\nc0 do x W1\nc0 do x R\nc0 commit\n";

const USAGE: Ending = (1, "quorum: usage\n", 0);

const NO_DECLARATION: Ending = (4, "quorum: declaration file: missing\n", 0);

const NO_SCRIPT: Ending = (4, "quorum: script file: missing\n", 0);

#[test]
fn words_have_their_forms(rt: HostRuntime) {
    let rows: [&[&str]; 29] = [
        &[],
        &["--help"],
        &["frob"],
        &["run"],
        &["check"],
        &["load", "1"],
        &["load", "0", "7"],
        &["load", "501", "7"],
        &["load", "1", "65537"],
        &["load", "1", "7", "--dir", "d"],
        &["run", "@one"],
        &["run", "@one", "-s"],
        &["run", "@one", ""],
        &["run", "-d", "s"],
        &["run", "@one", "s", "s"],
        &["run", "@one", "s", "--workers"],
        &["run", "@one", "s", "--workers", "0"],
        &["run", "@one", "s", "--workers", "9"],
        &["run", "@one", "s", "--workers", "000001"],
        &["run", "@one", "s", "--workers=2", "--workers", "2"],
        &["run", "@one", "s", "--dir="],
        &["run", "@one", "s", "--dir", "--workers=2"],
        &["run", "@one", "s", "--workers", ""],
        &["run", "@one", "s", "workers", "2"],
        &["run", "@one", "--", "s"],
        &["check", "@one", "s", "--workers", "2"],
        &["check", "@one", "s"],
        &["check", ""],
        &["check", "-d"],
    ];
    for words in rows {
        ends_with(&rt, rt.alloc(), words, &[("s", SCRIPT)], (&[], &[]), USAGE);
    }
}

#[test]
fn files_are_taken_in_their_order(rt: HostRuntime) {
    let rows: [(&[&str], Ending); 8] = [
        (&["check", "d"], NO_DECLARATION),
        (&["check", "@two"], NO_DECLARATION),
        (&["run", "d", "t"], NO_DECLARATION),
        (&["run", "@two", "t"], NO_DECLARATION),
        (&["run", "@one", "t"], NO_SCRIPT),
        (&["run", "bad", "t"], NO_SCRIPT),
        (
            &["run", "bad", "s"],
            (2, "quorum: declaration: field sites\n", 0),
        ),
        (
            &["run", "@three", "place"],
            (3, "quorum: script: line 1: place\n", 0),
        ),
    ];
    let files = [
        ("s", SCRIPT),
        ("bad", ""),
        ("@two", ""),
        ("place", "c0 begin\n"),
    ];
    for (words, want) in rows {
        ends_with(&rt, rt.alloc(), words, &files, (&[], &[]), want);
    }
}

#[test]
fn scripts_are_refused(rt: HostRuntime) {
    let rows: [(&str, Ending); 5] = [
        (
            "phase\nc0  begin\n",
            (3, "quorum: script: line 2: words\n", 0),
        ),
        (
            "phase\nc1 begin\n",
            (3, "quorum: script: line 2: name\n", 0),
        ),
        (
            "phase\nc0 do x Put\n",
            (3, "quorum: script: line 2: name\n", 0),
        ),
        (
            "phase\ncut s0 s0\n",
            (3, "quorum: script: line 2: number\n", 0),
        ),
        ("c0 begin\n", (3, "quorum: script: line 1: place\n", 0)),
    ];
    for (script, want) in rows {
        ends_with(
            &rt,
            rt.alloc(),
            &["run", "@one", "s"],
            &[("s", script)],
            (&[], &[]),
            want,
        );
    }
}

/// A text of so many times four bytes, and what ends it.
fn long(alloc: Global, times: usize, end: &str) -> Result<String, OutOfMemory> {
    let mut text = String::new(alloc);
    for _ in 0..times {
        text.push_str("# #\n")?;
    }
    text.push_str(end)?;
    Ok(text)
}

/// The status of a call over one file of such a text, which is the script.
fn status_of_long<T: Threads + Wait + Sync>(
    rt: &T,
    alloc: Global,
    times: usize,
) -> Result<u8, OutOfMemory> {
    let text = long(alloc, times, "")?;
    let files = [("s", text.as_str())];
    let (ended, _) = call(rt, alloc, &["run", "@one", "s"], &files, (&[], &[]))?;
    Ok(ended.status)
}

/// A call over one file of such a text ends so.
fn ends_with_long<T: Threads + Wait + Sync + Abort>(
    rt: &T,
    alloc: Global,
    words: &[&str],
    (times, end): (usize, &str),
    want: Ending,
) {
    let Ok(text) = long(alloc, times, end) else {
        panic!(rt; "no text");
    };
    ends_with(rt, alloc, words, &[("f", text.as_str())], (&[], &[]), want);
}

#[test]
fn files_have_limits(rt: HostRuntime) {
    assert!(rt; status_of_long(&rt, rt.alloc(), 262_144) == Ok(0));
    let rows: [(&[&str], (usize, &str), Ending); 3] = [
        (
            &["run", "@one", "f"],
            (262_144, "\n"),
            (4, "quorum: script file: too long\n", 0),
        ),
        (
            &["check", "f"],
            (1_048_576, ""),
            (2, "quorum: declaration: field sites\n", 0),
        ),
        (
            &["check", "f"],
            (1_048_576, "\n"),
            (4, "quorum: declaration file: too long\n", 0),
        ),
    ];
    for (words, text, want) in rows {
        ends_with_long(&rt, rt.alloc(), words, text, want);
    }
}

/// Words, the shelf's and the sink's calls that fail, and how the call ends.
type Failing<'a> = (&'a [&'a str], &'a [u32], &'a [u32], Ending);

#[test]
fn the_outside_may_fail(rt: HostRuntime) {
    let files = [("s", SCRIPT), ("d", "")];
    let of_one: &[&str] = &["run", "@one", "s"];
    let of_file: &[&str] = &["run", "d", "s"];
    let no_script = (4, "quorum: script file: failed\n", 0);
    let no_decl = (4, "quorum: declaration file: failed\n", 0);
    let rows: [Failing; 5] = [
        (of_one, &[1], &[], no_script),
        (of_file, &[1], &[], no_decl),
        (of_file, &[2], &[], no_script),
        (of_one, &[], &[1], (5, "quorum: output failed\n", 26)),
        (
            &["check", "@one"],
            &[],
            &[1],
            (5, "quorum: output failed\n", 0),
        ),
    ];
    for (words, shelf, sink, want) in rows {
        ends_with(&rt, rt.alloc(), words, &files, (shelf, sink), want);
    }
}
