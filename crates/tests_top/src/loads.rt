//! Loads, and words that ask for one thing in several ways.

use crate::calls::{call, prints};
use qc_list::OutOfMemory;
use std::alloc::Global;
use std::process::Abort;
use std::sync::Wait;
use std::thread::Threads;

/// The load's four transactions write 1, 1, 0 and 1.
const FOUR: &str = "load 4 7\ncommitted 4\naborted 0\noperations 8\nwrites 4\nones 3\nlast 4.0\n";

/// A read of what was written, by one client.
const SCRIPT: &str = "phase\nc0 begin\nc0 do x W1\nc0 do x R\nc0 commit\n";

const TEXT: &str = "replies\nc0 begin 0.1.1\nc0 x W1 ok\nc0 x R 1\nc0 commit 1.0\n\
    log\n1.0 0.1.1 x W1 ok, x R 1\nstates\nx 1\nsites\ns0 life 1 epoch 1 lines 1 held 0\n";

#[test]
fn loads_are_summed_up(rt: HostRuntime) {
    prints(&rt, rt.alloc(), &["load", "4", "7"], &[], FOUR);
    prints(&rt, rt.alloc(), &["load", "0004", "00007"], &[], FOUR);
}

/// What a call with these words over no files prints, where it ends with status 0.
fn printed<T: Threads + Wait + Sync>(
    rt: &T,
    alloc: Global,
    words: &[&str],
) -> Result<Option<Vec<u8>>, OutOfMemory> {
    let (ended, taken) = call(rt, alloc, words, &[], (&[], &[]))?;
    Ok(if ended.status == 0 { Some(taken) } else { None })
}

/// Both calls print the same, which ends so.
fn print_alike<T: Threads + Wait + Sync + Abort>(
    rt: &T,
    alloc: Global,
    one: &[&str],
    other: &[&str],
    end: &str,
) {
    match (printed(rt, alloc, one), printed(rt, alloc, other)) {
        (Ok(Some(one)), Ok(Some(other))) => {
            assert_eq!(rt; one.as_slice(), other.as_slice());
            assert!(rt; one.as_slice().ends_with(end.as_bytes()));
        }
        _ => panic!(rt; "a load that ends with {end} isn't done"),
    }
}

/// A load is the same by any number of workers, since one client at a time is asked.
#[test]
fn loads_are_the_same_by_several_workers(rt: HostRuntime) {
    print_alike(
        &rt,
        rt.alloc(),
        &["load", "20", "7"],
        &["load", "--workers=4", "20", "7"],
        "last 20.1\n",
    );
}

/// The greatest count, the greatest seed and the most workers.
#[test]
fn the_greatest_load_is_run(rt: HostRuntime) {
    let words = ["load", "500", "65536", "--workers", "8"];
    match printed(&rt, rt.alloc(), &words) {
        Ok(Some(text)) => assert!(rt; text.as_slice().ends_with(b"last 500.1\n")),
        _ => panic!(rt; "the greatest load isn't done"),
    }
}

#[test]
fn options_stand_anywhere(rt: HostRuntime) {
    let rows: [&[&str]; 6] = [
        &["run", "@one", "s"],
        &["run", "--workers", "4", "@one", "s"],
        &["run", "@one", "--workers=01", "s"],
        &["run", "@one", "s", "--dir", "d"],
        &["run", "--dir=a=b", "@one", "s", "--workers", "8"],
        &["run", "--workers=2", "--dir", "d", "@one", "s"],
    ];
    for words in rows {
        prints(&rt, rt.alloc(), words, &[("s", SCRIPT)], TEXT);
    }
}
