//! A whole run of a script, over disks in memory.

ghost use Rattle.std.specs.Prelude.{◌≤◌, IfOk, length};
ghost use Rattle.qc_decl.specs.Accepted.{IsAccepted};
ghost use Rattle.qc_decl.specs.Limits.{most_script_bytes};
ghost use Rattle.qc_decl.specs.Named.{IsNamed};
ghost use Rattle.qc_script.specs.Sound.{IsScriptFor};

use crate::steps::{Short, shorts};
use qc_decl::Declaration;
use qc_node::{DriveEnd, Job, run_script};
use qc_outside::{Gate, MemRack, RackFault, Tear};
use qc_script::{Script, ScriptFault, read_script, scripts_name_what_is_declared};
use std::alloc::Global;
use std::sync::Wait;
use std::thread::Threads;

/// What a run leaves.
#[derive(Drop)]
pub struct Ran {
    /// How it ended.
    pub end: DriveEnd,
    /// The history in short.
    pub steps: Vec<Short>,
}

/// A script of the declaration.
pub fn script_of(alloc: Global, bytes: &[u8], decl: &Declaration) -> Result<Script, ScriptFault>
    requires few { length bytes.now ≤ most_script_bytes }
    requires accepted { IsAccepted decl.now }
    requires named { IsNamed decl.now }
    ensures { IfOk result (IsScriptFor decl.now) }
{
    scripts_name_what_is_declared();
    read_script(alloc, bytes, decl)
}

/// Runs the script over a rack of its own, whose disks lose what wasn't synced.
pub fn run<G: Gate + Sync, R: Threads + Wait + Sync>(
    rt: &R,
    alloc: Global,
    job: &Job<'_, G>,
    script: Script,
) -> Result<Ran, RackFault>
    requires sound { IsScriptFor job.now.decl.now script }
    requires accepted { IsAccepted job.now.decl.now }
{
    let mut rack = MemRack::new(alloc, Tear::Nothing)?;
    let ran = run_script(rt, alloc, job, script, &mut rack)?;
    let steps = shorts(alloc, ran.history.items())?;
    Ok(Ran {
        end: ran.end,
        steps,
    })
}
