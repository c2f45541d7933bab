//! Calls over the fakes in memory.

use qc_list::OutOfMemory;
use qc_outside::{Gate, MemRack, MemShelf, MemSink, OpenGate, Rack, Tear};
use qc_top::{Ended, cause_text, quorum_words};
use std::alloc::Global;
use std::process::Abort;
use std::sync::Wait;
use std::thread::Threads;

/// A file of this name and text.
fn file(alloc: Global, name: &str, text: &str) -> Result<(Vec<u8>, Vec<u8>), OutOfMemory> {
    let name = name.as_bytes().to_vec(alloc)?;
    let text = text.as_bytes().to_vec(alloc)?;
    Ok((name, text))
}

/// A shelf of these files, each a name and its text, whose calls of these
/// numbers fail.
fn shelf(alloc: Global, files: &[(&str, &str)], failing: &[u32]) -> Result<MemShelf, OutOfMemory> {
    let mut held = Vec::new(alloc);
    for (name, text) in files {
        held.push(file(alloc, name, text)?)?;
    }
    MemShelf::new(alloc, held, failing.to_vec(alloc)?)
}

/// A new rack in memory.
pub(crate) fn new_rack(alloc: Global) -> Result<MemRack, OutOfMemory> {
    MemRack::new(alloc, Tear::Nothing)
}

/// How a call with these words over a shelf and a sink ends, whose turns pass
/// this gate, and what the sink took.
fn call_over<T: Threads + Wait + Sync, R: Rack, G: Gate + Sync>(
    rt: &T,
    alloc: Global,
    words: &[&str],
    outside: (&mut MemShelf, &mut MemSink, &mut R, &G),
) -> Result<(Ended, Vec<u8>), OutOfMemory> {
    let (shelf, sink, rack, gate) = outside;
    let ended = quorum_words(rt, alloc, words, shelf, sink, rack, gate);
    Ok((ended, sink.taken().to_vec(alloc)?))
}

/// A call with these words over a shelf of these files, whose turns pass this
/// gate.
pub(crate) fn call_by<T: Threads + Wait + Sync, G: Gate + Sync>(
    rt: &T,
    alloc: Global,
    words: &[&str],
    files: &[(&str, &str)],
    gate: &G,
) -> Result<(Ended, Vec<u8>), OutOfMemory> {
    let mut shelf = shelf(alloc, files, &[])?;
    let mut sink = MemSink::new(alloc, Vec::new(alloc))?;
    let mut rack = new_rack(alloc)?;
    call_over(rt, alloc, words, (&mut shelf, &mut sink, &mut rack, gate))
}

/// A call with these words over a shelf of these files, and over this rack.
pub(crate) fn call_on<T: Threads + Wait + Sync, R: Rack>(
    rt: &T,
    alloc: Global,
    words: &[&str],
    files: &[(&str, &str)],
    rack: &mut R,
) -> Result<(Ended, Vec<u8>), OutOfMemory> {
    let mut shelf = shelf(alloc, files, &[])?;
    let mut sink = MemSink::new(alloc, Vec::new(alloc))?;
    call_over(rt, alloc, words, (&mut shelf, &mut sink, rack, &OpenGate))
}

/// A call with these words over a shelf of these files, where the shelf's calls
/// and the sink's of these numbers fail.
pub(crate) fn call<T: Threads + Wait + Sync>(
    rt: &T,
    alloc: Global,
    words: &[&str],
    files: &[(&str, &str)],
    failing: (&[u32], &[u32]),
) -> Result<(Ended, Vec<u8>), OutOfMemory> {
    let mut shelf = shelf(alloc, files, failing.0)?;
    let mut sink = MemSink::new(alloc, failing.1.to_vec(alloc)?)?;
    let mut rack = new_rack(alloc)?;
    call_over(
        rt,
        alloc,
        words,
        (&mut shelf, &mut sink, &mut rack, &OpenGate),
    )
}

/// The call with these words over these files prints this text, at status 0.
pub(crate) fn prints<T: Threads + Wait + Sync + Abort>(
    rt: &T,
    alloc: Global,
    words: &[&str],
    files: &[(&str, &str)],
    text: &str,
) {
    let Ok((ended, taken)) = call(rt, alloc, words, files, (&[], &[])) else {
        panic!(rt; "no memory where `{text}` is wanted");
    };
    assert!(rt;
        ended.status == 0,
        "{} where `{text}` is wanted",
        ended.status
    );
    assert_eq!(rt; taken.as_slice(), text.as_bytes());
}

/// How a call ends: its status, what is told of its cause, and its steps.
pub(crate) type Ending = (u8, &'static str, u64);

/// Whether a call ended so.
pub(crate) fn is_ending(alloc: Global, ended: &Ended, want: Ending) -> Result<bool, OutOfMemory> {
    let (status, text, steps) = want;
    let told = cause_text(alloc, &ended.cause)?;
    Ok(
        told.as_slice() == text.as_bytes()
            && ended.status == status
            && ended.history.items().len() as u64 == steps,
    )
}

/// The call with these words over these files, where the shelf and the sink
/// fail so, ends so and prints nothing.
pub(crate) fn ends_with<T: Threads + Wait + Sync + Abort>(
    rt: &T,
    alloc: Global,
    words: &[&str],
    files: &[(&str, &str)],
    failing: (&[u32], &[u32]),
    want: Ending,
) {
    let Ok((ended, taken)) = call(rt, alloc, words, files, failing) else {
        panic!(rt; "no memory where {} is wanted", want.1);
    };
    assert!(rt;
        is_ending(alloc, &ended, want) == Ok(true),
        "status {} for {}",
        ended.status,
        want.1
    );
    assert!(rt; taken.is_empty());
}
