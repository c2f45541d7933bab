//! The top call.

ghost use Rattle.std.specs.Prelude.{◌≡◌, ◌⊎◌, ◌-◌, ◌<◌, ◌≤◌, ◌^◌, ℕ, Bool, IsSome, None, Ok, Some, option_copied};
ghost use Rattle.qc_fabric.specs.Events.{before_last_event};
ghost use Rattle.qc_fabric.specs.Limits.{IsBelow};
ghost use Rattle.qc_outside.specs.Causes.{Rose};
ghost use Rattle.qc_outside.specs.declared.rack.RackFault.{RackFault};
ghost use Rattle.qc_promise.specs.Kept.{Kept};
ghost use Rattle.qc_promise.specs.Spent.{Spent};
ghost use Rattle.qc_report.specs.Causes.{status_of};
ghost use Rattle.qc_top.specs.Answers.{IsShort};
ghost use Rattle.qc_top.specs.Racks.{IsRackBlamed, IsUsed, LeavesRack};
ghost use Rattle.qc_top.specs.Top.{IsFullCause, IsNoShelf, IsNotFull, IsRight, Leaves, LeavesWords, cause_of_words};
ghost use Rattle.qc_top.specs.Words.{folder_in, folder_of, workers_of};
ghost use Rattle.qc_top.specs.Work.{IsBlamed, work_of};
ghost use Rattle.qc_words.specs.Askable.{IsAskable};
ghost use Rattle.qc_words.specs.Asked.{asked_in};
ghost use Rattle.qc_words.specs.Parts.{texts_of};
ghost use Rattle.qc_words.specs.Words.{Load, asked};

use crate::answers::{Answers, answers_for};
use crate::ended::{Ended, without_run};
use crate::printing::tell;
use crate::running::run;
use crate::work::{Work, work_for};
use qc_node::Job;
use qc_outside::{Gate, Rack, Shelf, ShelfFault, Sink};
use qc_report::Cause;
use qc_words::{Errand, WordsFault, asked_by};
use std::alloc::Global;
use std::sync::Wait;
use std::thread::Threads;

/// Does all that the program does. `check DECL` takes the declaration of this
/// name and says that it is accepted; `run DECL SCRIPT` runs the script of this
/// name over it and writes the text of the run to the sink; `load COUNT SEED` runs
/// the script of a load over `@three` and writes its summary. With `--workers N`
/// the actors are served by so many threads. Files are taken from the shelf; a name
/// of a declaration that begins with `@` is that of a built-in one. For a run the
/// rack gives each actor a disk, in the folder of `--dir D` or in none, and it gets
/// all of them back. Each turn of an actor passes the gate before it is posted.
/// Where the shelf, the sink or a disk is blamed for a failure, the count of faults
/// rose, or stands at the greatest number that it can tell.
pub fn quorum_words<T, F, K, R, G>(
    rt: &T,
    alloc: Global,
    words: &[&str],
    shelf: &mut F,
    sink: &mut K,
    rack: &mut R,
    gate: &G,
) -> Ended
where
    T: Threads + Wait + Sync,
    F: Shelf,
    K: Sink,
    R: Rack,
    G: Gate + Sync,
    ensures leaves { LeavesWords F.gives (F.files shelf.old) R.places (texts_of words.now) shelf.old shelf.new
        rack.old rack.new (K.taken sink.old) result.cause (K.taken sink.new) result.history }
    ensures words { asked (texts_of words.now) ≡ None
        → (result.cause ≡ Cause.Usage) ⊎ (result.cause ≡ Cause.OutOfMemory) }
    ensures usage { result.cause ≡ Cause.Usage → asked (texts_of words.now) ≡ None }
    ensures kept { IsSome (R.places rack.old) → Kept result.history }
    ensures spent { R.faults rack.new < 2 ^ 64 - 1
        → Spent result.history (R.faults rack.new - R.faults rack.old) }
    ensures status { result.status ≡ status_of result.cause }
    ensures full { IsFullCause result.cause result.history }
    ensures loads { (count seed workers : ℕ) → asked (texts_of words.now) ≡ Some (Load count seed workers)
        → R.faults rack.new < 2 ^ 64 - 1 → R.faults rack.new ≡ R.faults rack.old → IsNotFull result.cause }
    ensures before { IsBelow (before_last_event result.history) }
    ensures files { F.files shelf.new ≡ F.files shelf.old }
    ensures shelf { (script : Bool) → result.cause ≡ Cause.Shelf script ShelfFault.Failed
        → Rose (F.faults shelf.old) (F.faults shelf.new) }
    ensures sink { result.cause ≡ Cause.Sink → Rose (K.faults sink.old) (K.faults sink.new) }
    ensures rack { (fault : RackFault) → result.cause ≡ Cause.Rack fault
        → IsRackBlamed (folder_in (texts_of words.now)) (R.places rack.old) (R.faults rack.old) (R.faults rack.new)
        fault }
    ensures later { R.faults rack.old ≤ R.faults rack.new }
    ensures tells { IsSome (R.places rack.old) → IsSome (R.places rack.new) }
{
    match asked_by(alloc, words) {
        Ok(asked) => {
            let answers = answers_for(asked, shelf);
            perform(rt, alloc, asked, answers, gate, sink, rack)
        }
        Err(fault) => without_run(alloc, words_cause(fault)),
    }
}

/// The cause for words that weren't read.
fn words_cause(fault: WordsFault) -> Cause
    ensures { result ≡ cause_of_words fault }
{
    match fault {
        WordsFault::Usage => Cause::Usage,
        WordsFault::OutOfMemory => Cause::OutOfMemory,
    }
}

/// Does what the words ask, over the bytes or faults that were handed over for
/// their files, whoever gave these.
pub fn perform<T, G, K, R>(
    rt: &T,
    alloc: Global,
    asked: Errand<'_>,
    answers: Answers,
    gate: &G,
    sink: &mut K,
    rack: &mut R,
) -> Ended
where
    T: Threads + Wait + Sync,
    G: Gate + Sync,
    K: Sink,
    R: Rack,
    requires askable { IsAskable (asked_in asked) }
    requires short { IsShort answers.script }
    ensures leaves { Leaves (work_of (asked_in asked.entry) answers)
        (K.taken sink.old) result.cause (K.taken sink.new) result.history }
    ensures blame { (script : Bool) → result.cause ≡ Cause.Shelf script ShelfFault.Failed
        → IsBlamed (asked_in asked.entry) answers script }
    ensures rack { LeavesRack (folder_of (asked_in asked.entry)) R.places (work_of (asked_in asked.entry) answers)
        rack.old rack.new result.history }
    ensures used { IsUsed (folder_of (asked_in asked.entry)) R.faults R.places rack.old rack.new result.cause
        result.history }
    ensures asked { result.cause ≡ Cause.Usage → ⊥ }
    ensures status { result.status ≡ status_of result.cause }
    ensures full { IsFullCause result.cause result.history }
    ensures before { IsBelow (before_last_event result.history) }
    ensures sink { result.cause ≡ Cause.Sink → Rose (K.faults sink.old) (K.faults sink.new) }
{
    match work_for(alloc, asked, answers) {
        Ok(work) => do_work(rt, alloc, work, asked, gate, sink, rack),
        Err(cause) => without_run(alloc, cause),
    }
}

/// Does what is to be done, a run by as many workers and over the disks that are
/// asked.
fn do_work<T, G, K, R>(
    rt: &T,
    alloc: Global,
    work: Work,
    asked: Errand<'_>,
    gate: &G,
    sink: &mut K,
    rack: &mut R,
) -> Ended
where
    T: Threads + Wait + Sync,
    G: Gate + Sync,
    K: Sink,
    R: Rack,
    requires right { IsRight work }
    ensures leaves { Leaves (Ok work) (K.taken sink.old) result.cause (K.taken sink.new) result.history }
    ensures rack { LeavesRack (folder_of (asked_in asked.entry)) R.places (Ok work) rack.old rack.new result.history }
    ensures used { IsUsed (folder_of (asked_in asked.entry)) R.faults R.places rack.old rack.new result.cause
        result.history }
    ensures asked { result.cause ≡ Cause.Usage → ⊥ }
    ensures status { result.status ≡ status_of result.cause }
    ensures full { IsFullCause result.cause result.history }
    ensures before { IsBelow (before_last_event result.history) }
    ensures shelf { IsNoShelf result.cause }
    ensures sink { result.cause ≡ Cause.Sink → Rose (K.faults sink.old) (K.faults sink.new) }
{
    match work {
        Work::Accept(decl) => without_run(alloc, tell(alloc, &decl, sink)),
        Work::Run(decl, script, output) => {
            let job = Job {
                decl: &decl,
                gate,
                workers: workers_of(asked),
                dir: folder_of(asked),
            };
            run(rt, alloc, &job, script, output, sink, rack)
        }
    }
}

/// How many workers are asked for.
fn workers_of(asked: Errand<'_>) -> u8
    ensures { result ≡ workers_of (asked_in asked.entry) }
{
    match asked {
        Errand::Check { .. } => 1,
        Errand::Run { workers, .. } | Errand::Load { workers, .. } => workers,
    }
}

/// The folder that is asked for.
fn folder_of(asked: Errand<'_>) -> Option<&str>
    ensures { option_copied result ≡ folder_of (asked_in asked.entry) }
{
    match asked {
        Errand::Run { dir, .. } => dir,
        Errand::Check { .. } | Errand::Load { .. } => None,
    }
}
