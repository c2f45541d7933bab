//! A whole script, by as many workers as are asked for.

ghost use Rattle.std.specs.Prelude.{◌≡◌, length, nat_le};
ghost use Rattle.qc_node.specs.Runnable.{IsRunnable};
ghost use Rattle.qc_node.specs.Ends.{IsPhaseEnd, IsScriptEnd};

use crate::cells::Cells;
use crate::ends::DriveEnd;
use crate::rules::Rules;
use crate::worker::Worker;
use qc_decl::Declaration;
use qc_fabric::{Fabric, FabricState, RunName};
use qc_outside::{Disk, Gate};
use qc_script::Script;
use std::alloc::Global;
use std::sync::Wait;
use std::thread::{Threads, map_indices};

/// What the workers of a run go by.
#[derive(Drop)]
pub struct Job<'a, G: Gate> {
    /// The declaration of the run.
    pub decl: &'a Declaration,
    /// What each turn passes before it is posted.
    pub gate: &'a G,
    /// How many workers there are.
    pub workers: u8,
    /// The folder of the disks, where one is named.
    pub dir: Option<&'a str>,
}

/// All that is left of a script that can be run, by so many workers in threads that
/// are joined. How it ended is read off the history, whatever the workers answered.
pub fn drive_script<D: Disk, N: RunName + Send + Sync, G: Gate + Sync, R: Threads + Wait + Sync>(
    rt: &R,
    alloc: Global,
    job: &Job<'_, G>,
    state: FabricState<Rules, N>,
    cells: &Cells<D, N>,
) -> (FabricState<Rules, N>, DriveEnd)
    requires declaration { job.now.decl.now ≡ N.declaration }
    requires runnable { IsRunnable N.declaration N.script }
    ensures { IsScriptEnd N.declaration N.script result.0.history result.0.open_inputs result.1 }
{
    let last = u32::try_from(state.script().phases.items().len()).unwrap_or(u32::MAX);
    let (state, _) = phase(rt, alloc, job, state, cells, last);
    let end = end_of(job.decl, &state);
    (state, end)
}

/// All that is left of it up to the end of the phase of this number, one that
/// hasn't passed; the same threads go through all these phases.
pub fn phase<D: Disk, N: RunName + Send + Sync, G: Gate + Sync, R: Threads + Wait + Sync>(
    rt: &R,
    alloc: Global,
    job: &Job<'_, G>,
    state: FabricState<Rules, N>,
    cells: &Cells<D, N>,
    number: u32,
) -> (FabricState<Rules, N>, DriveEnd)
    requires declaration { job.now.decl.now ≡ N.declaration }
    requires runnable { IsRunnable N.declaration N.script }
    ensures { IsPhaseEnd N.declaration N.script number result.0.history result.0.open_inputs result.1 }
{
    let fabric = Fabric::open(state);
    drive_all(rt, alloc, job, &fabric, cells, number);
    let state = fabric.close();
    let end = phase_end(job.decl, &state, number);
    (state, end)
}

/// So many workers, each in a thread of its own, or one after another where no
/// thread can be had; one alone needs none. What they answer is no more than the
/// history shows.
fn drive_all<D: Disk, N: RunName + Send + Sync, G: Gate + Sync, R: Threads + Wait + Sync>(
    rt: &R,
    alloc: Global,
    job: &Job<'_, G>,
    fabric: &Fabric<Rules, N>,
    cells: &Cells<D, N>,
    last: u32,
)
    requires declaration { job.now.decl.now ≡ N.declaration }
    requires runnable { IsRunnable N.declaration N.script }
{
    let worker = Worker {
        rt,
        alloc,
        decl: job.decl,
        fabric,
        cells,
        gate: job.gate,
    };
    if job.workers <= 1 {
        worker.drive(last);
        return;
    }
    let ends = map_indices(
        rt,
        alloc,
        usize::from(job.workers),
        &|_|
            requires runnable { IsRunnable N.declaration N.script }
        { worker.drive(last) },
    );
    drop(ends);
}

/// How the phase of this number ended.
fn phase_end<N: RunName>(decl: &Declaration, state: &FabricState<Rules, N>, number: u32) -> DriveEnd
    requires { decl.now ≡ N.declaration }
    ensures { IsPhaseEnd N.declaration N.script number state.now.history state.now.open_inputs result }
{
    if let Some(full) = state.full() {
        return DriveEnd::Full(full);
    }
    if state.phase() == number && state.quiet(decl) {
        DriveEnd::Quiet
    } else {
        DriveEnd::OutOfMemory
    }
}

/// How the script ended.
fn end_of<N: RunName>(decl: &Declaration, state: &FabricState<Rules, N>) -> DriveEnd
    requires { decl.now ≡ N.declaration }
    ensures { IsScriptEnd N.declaration N.script state.now.history state.now.open_inputs result }
{
    if let Some(full) = state.full() {
        return DriveEnd::Full(full);
    }
    if are_begun(state.script(), state.phase()) && state.quiet(decl) {
        DriveEnd::Quiet
    } else {
        DriveEnd::OutOfMemory
    }
}

/// Whether no phase is left where so many have begun.
fn are_begun(script: &Script, done: u32) -> bool
    ensures { result ≡ nat_le (length script.now.phases) done }
{
    script.phases.items().len() <= done as usize
}
