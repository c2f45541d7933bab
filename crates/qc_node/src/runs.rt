//! A whole run of a script.

ghost use Rattle.std.specs.Prelude.{◌≡◌, ◌+◌, ◌-◌, ◌^◌, ◌<◌, ◌≤◌, ℕ, [], true, IfErr, IfOk, IfSome, IsSome, is_some};
ghost use Rattle.std.specs.Prelude.{option_copied};
ghost use Rattle.std.specs.Prelude.{vec_capacity, vec_len};
ghost use Rattle.qc_decl.specs.Accepted.{IsAccepted};
ghost use Rattle.qc_decl.specs.Actors.{actors, controller};
ghost use Rattle.qc_pass.specs.Made.{AreNew, IsFirst};
ghost use Rattle.qc_pass.specs.Tokens.{table_of};
ghost use Rattle.qc_promise.specs.Kept.{Kept};
ghost use Rattle.qc_promise.specs.Spent.{Spent};
ghost use Rattle.qc_script.specs.Ready.{phase_of};
ghost use Rattle.qc_script.specs.Sound.{IsScriptFor};
ghost use Rattle.laws_bounds.specs.Places.{AreHandedOut};
ghost use Rattle.qc_node.specs.Runnable.{IsRunnable};
ghost use Rattle.qc_node.specs.Ends.{HasEnded};
ghost use Rattle.qc_node.specs.Places.{AreEmpty, AreGivenBack, BothTell, HoldJournals, IsRefused};
ghost use Rattle.qc_node.specs.Starts.{AreProcesses};

use crate::cell::Cell;
use crate::cells::Cells;
use crate::controller::Controller;
use crate::ends::DriveEnd;
use crate::processes::start;
use crate::rules::Rules;
use crate::scripts::{Job, drive_script};
use crate::settle::settle;
use qc_fabric::{FabricState, RunName};
use qc_list::{List, OutOfMemory};
use qc_msg::{History, Step};
use qc_outside::{Disk, Gate, Rack, RackFault};
use qc_pass::{Made, Pass, Passes};
use qc_process::Process;
use qc_script::Script;
use std::alloc::Global;
use std::marker::Brand;
use std::sync::{Mutex, Wait};
use std::thread::Threads;

/// What a run came to.
#[derive(Drop)]
pub struct RunResult {
    /// The script.
    pub script: Script,
    /// All that happened.
    pub history: History,
    /// How it ended.
    pub end: DriveEnd,
}

/// Runs a script from its beginning to its end, to a limit, or to want of
/// memory, over a disk of the rack for each actor, in the job's folder or in none. What happened is a run in each
/// case. Before its last event each counted quantity was below its limit. Each
/// disk goes back to its place. Where the rack tells, a run begins only where no
/// actor's place holds a byte; records are kept then, and each place holds its
/// actor's journal in the end.
///
/// Where no run begins and the rack tells, each place that held a byte is as it was.
/// One that held none holds none, or a begun journal, but for that of the actor who is
/// told, whose disk may have failed. Where a place that isn't empty is told, no place
/// got a byte; where one got one, the disks of all actors before that one came back
/// with their journals begun.
#[tactic(auto, using(crate::proofs::Runnable::runnable, crate::proofs::Unstarted::nothing_back))]
pub fn run_script<G: Gate + Sync, K: Rack, R: Threads + Wait + Sync>(
    rt: &R,
    alloc: Global,
    job: &Job<'_, G>,
    script: Script,
    rack: &mut K,
) -> Result<RunResult, RackFault>
    requires accepted { IsAccepted job.now.decl.now }
    requires sound { IsScriptFor job.now.decl.now script }
    ensures script { IfOk result (λ ran. ran.script ≡ script) }
    ensures ended { IfOk result (λ ran. HasEnded job.now.decl.now script ran.history ran.end) }
    ensures spent { IfOk result (λ ran. K.faults rack.new < 2 ^ 64 - 1
        → Spent ran.history (K.faults rack.new - K.faults rack.old)) }
    ensures kept { IfOk result (λ ran. IsSome (K.places rack.old) → Kept ran.history) }
    ensures empty { IfOk result (λ ran. AreEmpty (option_copied job.now.dir) job.now.decl.now (K.places rack.old)) }
    ensures places { IfOk result (λ ran. 1 ≤ phase_of ran.history
        → HoldJournals (option_copied job.now.dir) job.now.decl.now ran.history (K.places rack.new)) }
    ensures tells { IsSome (K.places rack.old) → IsSome (K.places rack.new) }
    ensures later { K.faults rack.old ≤ K.faults rack.new }
    ensures refused { IfErr result (λ fault.
        IsRefused (option_copied job.now.dir) (K.places rack.old) (K.faults rack.old) (K.faults rack.new) fault) }
    ensures given_back { IfErr result (λ fault.
        BothTell (K.places rack.old) (K.places rack.new) (AreGivenBack (option_copied job.now.dir) fault)) }
{
    let made = Passes::make(alloc, job.decl.sites + job.decl.clients + 2)?;
    run_named::<Brand, G, K, R>(rt, alloc, job, script, made, rack)
}

/// The same, under a name of its own, by these passes.
#[tactic(auto, using(crate::proofs::Unstarted::nothing_back))]
fn run_named<N: RunName + Send + Sync, G: Gate + Sync, K: Rack, R: Threads + Wait + Sync>(
    rt: &R,
    alloc: Global,
    job: &Job<'_, G>,
    script: Script,
    made: Made<Step>,
    rack: &mut K,
) -> Result<RunResult, RackFault>
    requires declaration { job.now.decl.now ≡ N.declaration }
    requires script { script ≡ N.script }
    requires runnable { IsRunnable N.declaration N.script }
    requires table { table_of made.passes ≡ N.table }
    requires right { IsFirst N.table (controller N.declaration + 1) made.right }
    requires whole { vec_len made.each ≡ controller N.declaration + 1 }
    requires each { AreNew N.table made.each.items }
    requires tells { is_some (K.places rack.old) ≡ N.tells }
    ensures script { IfOk result (λ ran. ran.script ≡ N.script) }
    ensures ended { IfOk result (λ ran. HasEnded N.declaration N.script ran.history ran.end) }
    ensures spent { IfOk result (λ ran. K.faults rack.new < 2 ^ 64 - 1
        → Spent ran.history (K.faults rack.new - K.faults rack.old)) }
    ensures kept { IfOk result (λ ran. N.tells ≡ true → Kept ran.history) }
    ensures empty { IfOk result (λ ran. AreEmpty (option_copied job.now.dir) N.declaration (K.places rack.old)) }
    ensures places { IfOk result (λ ran.
        HoldJournals (option_copied job.now.dir) N.declaration ran.history (K.places rack.new)) }
    ensures tells { is_some (K.places rack.new) ≡ N.tells }
    ensures later { K.faults rack.old ≤ K.faults rack.new }
    ensures refused { IfErr result (λ fault.
        IsRefused (option_copied job.now.dir) (K.places rack.old) (K.faults rack.old) (K.faults rack.new) fault) }
    ensures given_back { IfErr result (λ fault.
        BothTell (K.places rack.old) (K.places rack.new) (AreGivenBack (option_copied job.now.dir) fault)) }
{
    let Made {
        passes,
        right,
        each,
    } = made;
    let state: FabricState<Rules, N> = FabricState::make(alloc, job.decl, script, passes, right)?;
    let places = Vec::with_capacity(alloc, usize::from(job.decl.sites + job.decl.clients + 1))?;
    let processes = start(alloc, job.decl, job.dir, rack)?;
    let cells = cells_of(each, processes, places);
    Ok(run_cells(rt, alloc, job, state, cells, rack))
}

/// These cells are run, and each disk goes back to its place.
fn run_cells<N: RunName + Send + Sync, G: Gate + Sync, K: Rack, R: Threads + Wait + Sync>(
    rt: &R,
    alloc: Global,
    job: &Job<'_, G>,
    state: FabricState<Rules, N>,
    cells: Cells<K::D, N>,
    rack: &mut K,
) -> RunResult
    requires declaration { job.now.decl.now ≡ N.declaration }
    requires runnable { IsRunnable N.declaration N.script }
    requires tells { is_some (K.places rack.old) ≡ N.tells }
    requires handed { IfSome (K.places rack.old) (AreHandedOut (option_copied job.now.dir) (controller N.declaration)) }
    ensures script { result.script ≡ N.script }
    ensures ended { HasEnded N.declaration N.script result.history result.end }
    // The count may have risen before.
    ensures spent { (before : ℕ) → before ≤ K.faults rack.old → K.faults rack.new < 2 ^ 64 - 1
        → Spent result.history (K.faults rack.new - before) }
    ensures kept { N.tells ≡ true → Kept result.history }
    ensures places { HoldJournals (option_copied job.now.dir) N.declaration result.history (K.places rack.new) }
    ensures tells { is_some (K.places rack.new) ≡ N.tells }
    ensures later { K.faults rack.old ≤ K.faults rack.new }
{
    let (state, end) = drive_script(rt, alloc, job, state, &cells);
    let mut roll = state.roll();
    settle(job.dir, cells, &mut roll, rack);
    let (script, entries) = roll.end();
    RunResult {
        script,
        history: List::from_vec(entries),
        end,
    }
}

/// The cells of all processes, each with the pass of its number, in a list that has
/// room for them; then comes the controller's pass. It takes no memory.
fn cells_of<D: Disk, N: RunName>(
    passes: Vec<Pass<Step>>,
    processes: Vec<Process<D>>,
    cells: Vec<Mutex<Cell<D, N>>>,
) -> Cells<D, N>
    requires fresh { AreNew N.table passes.items }
    requires whole { vec_len passes ≡ controller N.declaration + 1 }
    requires processes { vec_len processes ≡ actors N.declaration }
    requires begun { AreProcesses N.tells N.declaration processes.items }
    requires none { vec_len cells ≡ 0 }
    requires room { actors N.declaration ≤ vec_capacity cells }
{
    let mut passes = passes;
    let Some(controller) = passes.pop() else {
        unreachable!()
    };
    Cells {
        cells: actors_of(passes, processes, cells),
        controller: Mutex::new(Controller::new(controller)),
    }
}

/// The cells of the actors alone.
fn actors_of<D: Disk, N: RunName>(
    passes: Vec<Pass<Step>>,
    processes: Vec<Process<D>>,
    cells: Vec<Mutex<Cell<D, N>>>,
) -> Vec<Mutex<Cell<D, N>>>
    requires fresh { AreNew N.table passes.items }
    requires whole { vec_len passes ≡ actors N.declaration }
    requires processes { vec_len processes ≡ actors N.declaration }
    requires begun { AreProcesses N.tells N.declaration processes.items }
    requires none { vec_len cells ≡ 0 }
    requires room { actors N.declaration ≤ vec_capacity cells }
    ensures whole { vec_len result ≡ actors N.declaration }
{
    let mut cells = cells;
    let mut processes = processes.into_iter();
    for pass in passes {
        let Some(process) = processes.next() else {
            unreachable!()
        };
        cells.push_reserved(Mutex::new(Cell::new(process, pass)));
    }
    cells
}
