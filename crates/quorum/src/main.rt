//! The program `quorum`: the real outside, and the top call.
//!
//! All that matters is in `qc_top`. Here the words, the files and standard
//! output of the system are handed in, with a rack of disks, and the cause of a
//! status other than 0 is told on standard error, whatever that takes.
//! What a call leaves is said of the very bytes that were handed over and of all
//! that standard output took (`IsCall`).
//!
//! 1. Where the words name no folder, disks are in memory (`run_in_memory`). Their
//!    rack tells what they hold, and records are kept: so each run is due and atomic.
//! 2. Where they name one, disks are its files (`run_in_folder`). Nothing is told of
//!    what these hold: of such a run is said what holds whatever a disk does, and
//!    that it is atomic if no disk lost a record.
#![tactic(auto)]

ghost use Rattle.std.specs.Prelude.{◌≡◌, [], IfOk, drop, is_some, map};
ghost use Rattle.std.specs.IoError.{error_kind};
ghost use Rattle.std.specs.Process.{exit_status};
ghost use Rattle.std.specs.Vec.Iter.{into_iter_items};
ghost use Rattle.qc_report.specs.Causes.{status_of};
ghost use Rattle.qc_top.specs.Words.{folder_in};
ghost use Rattle.qc_words.specs.Parts.{texts_of};
ghost use Rattle.qc_words.specs.Words.{asked};
ghost use Rattle.quorum.specs.Call.{IsCallInFolder, IsCallInMemory};
ghost use Rattle.quorum.specs.Words.{cause_of_kind};

mod progress;

use crate::progress::Progress;
use qc_files::{FileRack, FileShelf, OutSink};
use qc_outside::{Gate, MemRack, Tear};
use qc_top::{Cause, Ended, Errand, WordsFault, asked_by, cause_text, quorum_words};
use std::alloc::{AllocError, Global};
use std::env::Args;
use std::io::{self, ErrorKind, Write};
use std::process::ExitCode;
use std::rt::{Env, Files};
use std::sync::Wait;
use std::thread::Threads;

/// The words that the program was called with, without its own name.
fn words_of_call<R: Env + AllocGlobal>(rt: &R) -> io::Result<Vec<String>> {
    Ok(words_after_name(rt.alloc(), std::env::args(rt)?)?)
}

/// All words but the first, which is the program's own name.
fn words_after_name(alloc: Global, all: Args) -> Result<Vec<String>, AllocError>
    ensures { IfOk result (λ words. words.items ≡ drop 1 (into_iter_items all)) }
{
    let mut rest = all;
    let _name = rest.next();
    let mut words = Vec::new(alloc);
    for word in rest {
        words.push(word)?;
    }
    Ok(words)
}

/// Why the words couldn't be taken: memory was wanting, or one isn't text.
fn cause_of(error: &io::Error) -> Cause
    ensures { result ≡ cause_of_kind (error_kind error.now) }
{
    match error.kind() {
        ErrorKind::OutOfMemory => Cause::OutOfMemory,
        _ => Cause::Usage,
    }
}

/// The words, borrowed.
fn borrowed(alloc: Global, words: &[String]) -> Result<Vec<&str>, AllocError>
    ensures { IfOk result (λ texts. texts_of texts.items ≡ map (λ w. w.bytes.items) words.now) }
{
    let mut texts = Vec::new(alloc);
    for word in words {
        texts.push(word.as_str())?;
    }
    Ok(texts)
}

/// Whether the words name a folder for the disks.
fn name_a_folder(alloc: Global, words: &[&str]) -> Result<bool, AllocError>
    ensures { IfOk result (λ b. b ≡ is_some (folder_in (texts_of words.now))) }
{
    match asked_by(alloc, words) {
        Ok(Errand::Run { dir, .. }) => Ok(dir.is_some()),
        Ok(Errand::Check { .. } | Errand::Load { .. }) | Err(WordsFault::Usage) => Ok(false),
        Err(WordsFault::OutOfMemory) => Err(AllocError),
    }
}

/// The top call over the system's files, a writer, as standard output is, and a new
/// rack in memory. All that it leaves is said of what the files were read as, and of
/// what the writer took.
fn run_in_memory<R, W, G>(
    rt: &R,
    words: &[&str],
    shelf: &mut FileShelf<'_, R>,
    sink: &mut OutSink<W>,
    rack: &mut MemRack,
    gate: &G,
) -> Ended
where
    R: Threads + Wait + Sync + Files + AllocGlobal,
    W: Write,
    G: Gate + Sync,
    requires unread { shelf.old.handed ≡ [] }
    requires unwritten { sink.old.taken ≡ [] }
    requires unused { rack.old.places.items ≡ [] }
    ensures { IsCallInMemory (texts_of words.now) shelf.new.handed result.status result.cause sink.new.taken
        result.history }
{
    quorum_words(rt, rt.alloc(), words, shelf, sink, rack, gate)
}

/// The same over a new rack of files.
fn run_in_folder<R, W, G>(
    rt: &R,
    words: &[&str],
    shelf: &mut FileShelf<'_, R>,
    sink: &mut OutSink<W>,
    rack: &mut FileRack<'_, R>,
    gate: &G,
) -> Ended
where
    R: Threads + Wait + Sync + Files + AllocGlobal,
    R::File: Send,
    W: Write,
    G: Gate + Sync,
    requires unread { shelf.old.handed ≡ [] }
    requires unwritten { sink.old.taken ≡ [] }
    requires unused { rack.old.faults ≡ 0 }
    ensures { IsCallInFolder (texts_of words.now) shelf.new.handed rack.new.faults result.status result.cause
        sink.new.taken result.history }
{
    quorum_words(rt, rt.alloc(), words, shelf, sink, rack, gate)
}

/// The cause with which a call of these words ends, over the system's files and
/// standard output.
fn call<R, G>(rt: &R, words: &[String], gate: &G) -> Cause
where
    R: Threads + Wait + Sync + Files + Print + AllocGlobal,
    R::File: Send,
    G: Gate + Sync,
{
    let alloc = rt.alloc();
    let Ok(texts) = borrowed(alloc, words) else {
        return Cause::OutOfMemory;
    };
    let words = texts.as_slice();
    let mut shelf = FileShelf::new(rt);
    let mut sink = OutSink::new(io::writer(rt));
    match (
        name_a_folder(alloc, words),
        MemRack::new(alloc, Tear::Nothing),
    ) {
        (Ok(true), _) => {
            let mut rack = FileRack::new(rt);
            run_in_folder(rt, words, &mut shelf, &mut sink, &mut rack, gate).cause
        }
        (Ok(false), Ok(mut rack)) => {
            run_in_memory(rt, words, &mut shelf, &mut sink, &mut rack, gate).cause
        }
        _ => Cause::OutOfMemory,
    }
}

/// Tells a cause on standard error, and gives the program's exit, which is the
/// cause's also where standard error takes nothing of it or only a part.
fn exit_for(rt: &HostRuntime, cause: &Cause) -> ExitCode
    ensures { exit_status result ≡ status_of cause.now }
{
    if let Ok(text) = cause_text(rt.alloc(), cause) {
        let _taken = rt.stderr().write_all(text.as_slice());
    }
    ExitCode::from(cause.status())
}

fn main(rt: HostRuntime) -> ExitCode {
    let progress = Progress::new(&rt);
    let cause = match words_of_call(&rt) {
        Ok(words) => call(&rt, words.as_slice(), &progress),
        Err(error) => cause_of(&error),
    };
    progress.end();
    exit_for(&rt, &cause)
}
