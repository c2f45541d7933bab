//! The run of a script, and how it ends.

ghost use Rattle.std.specs.Prelude.{◌≡◌, option_copied};
ghost use Rattle.laws_due.specs.Whole.{IsWholeWithFalls};
ghost use Rattle.qc_fabric.specs.Events.{before_last_event};
ghost use Rattle.qc_fabric.specs.Limits.{IsBelow};
ghost use Rattle.qc_node.specs.Ends.{HasEnded};
ghost use Rattle.qc_node.specs.Rules.{fits_of};
ghost use Rattle.qc_node.specs.declared.ends.DriveEnd.TheVariants.{Quiet};
ghost use Rattle.qc_outside.specs.Causes.{Rose};
ghost use Rattle.qc_report.specs.Causes.{status_of};
ghost use Rattle.qc_top.specs.Racks.{FillsPlaces, IsUsed, cause_of_rack};
ghost use Rattle.qc_top.specs.Top.{IsEnd, IsFullCause, IsNoRack, IsNoShelf, IsRan, IsRunnable, LeavesRun};
ghost use Rattle.qc_top.specs.Top.{OnPrinted, PrintsBetween, output_of};

use crate::ended::{Ended, without_run};
use crate::printing::print;
use crate::work::Output;
use qc_decl::Declaration;
use qc_node::{DriveEnd, Job, RunResult, run_script};
use qc_outside::{Gate, Rack, RackFault, Sink};
use qc_report::Cause;
use qc_script::Script;
use std::alloc::Global;
use std::sync::Wait;
use std::thread::Threads;

/// Runs a script over the rack's disks, and prints what is to be printed of it.
pub(crate) fn run<T, G, K, R>(
    rt: &T,
    alloc: Global,
    job: &Job<'_, G>,
    script: Script,
    output: Output,
    sink: &mut K,
    rack: &mut R,
) -> Ended
where
    T: Threads + Wait + Sync,
    G: Gate + Sync,
    K: Sink,
    R: Rack,
    requires runnable { IsRunnable job.now.decl.now script }
    ensures leaves { LeavesRun job.now.decl.now script output (K.taken sink.old) result.cause (K.taken sink.new)
        result.history }
    ensures rack { FillsPlaces (option_copied job.now.dir) job.now.decl.now (R.places rack.old) (R.places rack.new)
        result.history }
    ensures used { IsUsed (option_copied job.now.dir) R.faults R.places rack.old rack.new result.cause
        result.history }
    ensures status { result.status ≡ status_of result.cause }
    ensures full { IsFullCause result.cause result.history }
    ensures before { IsBelow (before_last_event result.history) }
    ensures shelf { IsNoShelf result.cause }
    ensures sink { result.cause ≡ Cause.Sink → Rose (K.faults sink.old) (K.faults sink.new) }
{
    match run_script(rt, alloc, job, script, rack) {
        Ok(ran) => finish(alloc, job.decl, ran, output, sink),
        Err(fault) => without_run(alloc, rack_cause(fault)),
    }
}

/// The cause for a disk that wasn't given. Want of memory is no fault of the rack.
fn rack_cause(fault: RackFault) -> Cause
    ensures { result ≡ cause_of_rack fault }
{
    match fault {
        RackFault::NotEmpty { .. } | RackFault::Failed { .. } => Cause::Rack(fault),
        RackFault::OutOfMemory => Cause::OutOfMemory,
    }
}

/// Prints a run that ended, where it came to the script's end.
fn finish<K: Sink>(
    alloc: Global,
    decl: &Declaration,
    ran: RunResult,
    output: Output,
    sink: &mut K,
) -> Ended
    requires runnable { IsRunnable decl.now ran.script }
    requires ended { HasEnded decl.now ran.script ran.history ran.end }
    ensures leaves { LeavesRun decl.now ran.script output (K.taken sink.old) result.cause (K.taken sink.new)
        result.history }
    ensures history { result.history ≡ ran.history }
    ensures status { result.status ≡ status_of result.cause }
    ensures full { IsFullCause result.cause result.history }
    ensures before { IsBelow (before_last_event result.history) }
    ensures rack { IsNoRack result.cause }
    ensures shelf { IsNoShelf result.cause }
    ensures sink { result.cause ≡ Cause.Sink → Rose (K.faults sink.old) (K.faults sink.new) }
{
    let cause = conclude(alloc, decl, &ran, output, sink);
    Ended {
        status: cause.status(),
        cause,
        history: ran.history,
    }
}

/// The cause of the end of a run, of which something is printed where the script
/// came to its end.
fn conclude<K: Sink>(
    alloc: Global,
    decl: &Declaration,
    ran: &RunResult,
    output: Output,
    sink: &mut K,
) -> Cause
    requires end { IsEnd ran.now.end ran.now.history }
    requires whole { ran.now.end ≡ Quiet
        → IsWholeWithFalls (fits_of decl.now) decl.now ran.now.script ran.now.history }
    ensures full { IsFullCause result ran.now.history }
    ensures whole { OnPrinted result (IsWholeWithFalls (fits_of decl.now) decl.now ran.now.script ran.now.history) }
    ensures text { PrintsBetween (output_of output decl.now ran.now.script ran.now.history)
        (K.taken sink.old) result (K.taken sink.new) }
    ensures ran { IsRan result }
    ensures rack { IsNoRack result }
    ensures shelf { IsNoShelf result }
    ensures sink { result ≡ Cause.Sink → Rose (K.faults sink.old) (K.faults sink.new) }
{
    match ran.end {
        DriveEnd::Quiet => print(alloc, decl, &ran.script, &ran.history, output, sink),
        DriveEnd::Full(full) => Cause::Full {
            what: full.what,
            number: full.number,
        },
        DriveEnd::OutOfMemory => Cause::OutOfMemory,
    }
}
