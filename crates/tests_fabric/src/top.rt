//! A run of a script by the rows of a table.

ghost use Rattle.std.specs.Prelude.{◌≡◌, ◌+◌, ◌<◌, ◌≤◌, length};
ghost use Rattle.qc_decl.specs.Accepted.{IsAccepted};
ghost use Rattle.qc_decl.specs.Actors.{controller};
ghost use Rattle.qc_decl.specs.Limits.{most_script_bytes};
ghost use Rattle.qc_pass.specs.Made.{AreNew, IsFirst};
ghost use Rattle.qc_pass.specs.Tokens.{table_of};
ghost use Rattle.qc_script.specs.Sound.{IsScriptFor};

use crate::calls::Row;
use crate::conduct::AnyTurn;
use crate::rows::play;
use crate::scripts::script_of;
use crate::seat::Seat;
use crate::steps::{Short, shorts};
use crate::threads::{Both, serve_both};
use qc_decl::{Declaration, built_in};
use qc_fabric::{FabricState, RunName};
use qc_list::OutOfMemory;
use qc_msg::Step;
use qc_pass::{Made, Pass, Passes};
use qc_script::Script;
use std::alloc::Global;
use std::marker::Brand;
use std::sync::Wait;
use std::thread::Threads;

/// Whether threads share the state after the last row.
#[derive(Clone, Copy)]
pub(crate) enum Then {
    /// Nobody does.
    Ends,
    /// Two threads do, which serve the actors 0 and 1.
    Threads,
}

/// What a run leaves.
#[derive(Drop)]
pub(crate) struct Ran {
    /// How many rows answered what they were to, up to the first that didn't.
    pub(crate) rows: usize,
    /// What two threads saw, where they shared the state.
    pub(crate) both: Option<Both>,
    /// The history in short.
    pub(crate) steps: Vec<Short>,
}

/// Plays the rows over the built-in declaration of three sites. None where memory
/// is wanted, or the script is refused.
pub(crate) fn played<R: Threads + Wait + Sync>(
    rt: &R,
    alloc: Global,
    script: &[u8],
    rows: &[Row],
    then: Then,
) -> Option<Ran>
    requires { length script.now ≤ most_script_bytes }
{
    let Ok(Some(decl)) = built_in(alloc, "@three") else {
        return None;
    };
    let Ok(script) = script_of(alloc, script, &decl) else {
        return None;
    };
    run(rt, alloc, &decl, script, rows, then).ok()
}

/// Plays the rows, under a name of their own.
fn run<R: Threads + Wait + Sync>(
    rt: &R,
    alloc: Global,
    decl: &Declaration,
    script: Script,
    rows: &[Row],
    then: Then,
) -> Result<Ran, OutOfMemory>
    requires sound { IsScriptFor decl.now script }
    requires accepted { IsAccepted decl.now }
{
    let made = Passes::make(alloc, decl.sites + decl.clients + 2)?;
    run_named::<Brand, R>(rt, alloc, decl, script, made, rows, then)
}

/// Plays the rows, by these passes. Threads share the state only where each row
/// answers what it is to.
fn run_named<N: RunName + Send + Sync, R: Threads + Wait + Sync>(
    rt: &R,
    alloc: Global,
    decl: &Declaration,
    script: Script,
    made: Made<Step>,
    rows: &[Row],
    then: Then,
) -> Result<Ran, OutOfMemory>
    requires declaration { decl.now ≡ N.declaration }
    requires script { script ≡ N.script }
    requires sound { IsScriptFor N.declaration N.script }
    requires few { controller N.declaration < 34 }
    requires table { table_of made.passes ≡ N.table }
    requires right { IsFirst N.table (controller N.declaration + 1) made.right }
    requires each { AreNew N.table made.each.items }
{
    let (mut state, mut seats) = begun::<N>(alloc, decl, script, made)?;
    let count = play(alloc, decl, &mut state, seats.as_mut_slice(), rows);
    let are_shared = matches!(then, Then::Threads) && count == rows.len();
    let pair = pair_of(seats, are_shared);
    let (state, both) = go_on(rt, alloc, decl, state, pair);
    let steps = steps_of(alloc, state)?;
    Ok(Ran {
        rows: count,
        both,
        steps,
    })
}

/// The state at its beginning, with a seat for each pass.
#[tactic(auto, using(crate::proofs::Seats::tells_where_down))]
fn begun<N: RunName>(
    alloc: Global,
    decl: &Declaration,
    script: Script,
    made: Made<Step>,
) -> Result<(FabricState<AnyTurn, N>, Vec<Seat<N>>), OutOfMemory>
    requires declaration { decl.now ≡ N.declaration }
    requires script { script ≡ N.script }
    requires sound { IsScriptFor N.declaration N.script }
    requires few { controller N.declaration < 34 }
    requires table { table_of made.passes ≡ N.table }
    requires right { IsFirst N.table (controller N.declaration + 1) made.right }
    requires each { AreNew N.table made.each.items }
{
    let Made {
        passes,
        right,
        each,
    } = made;
    let state: FabricState<AnyTurn, N> = FabricState::make(alloc, decl, script, passes, right)?;
    let seats: Vec<Seat<N>> = seats_of(alloc, each)?;
    Ok((state, seats))
}

/// A seat for each pass.
fn seats_of<N: RunName>(alloc: Global, each: Vec<Pass<Step>>) -> Result<Vec<Seat<N>>, OutOfMemory>
    requires { AreNew N.table each.items }
{
    let mut seats = Vec::new(alloc);
    for pass in each {
        seats.push(Seat::new(pass))?;
    }
    Ok(seats)
}

/// The seats of the actors 0 and 1, where they are asked for.
fn pair_of<N: RunName>(seats: Vec<Seat<N>>, are_shared: bool) -> Option<(Seat<N>, Seat<N>)> {
    if !are_shared {
        return None;
    }
    let mut seats = seats.into_iter();
    seats.next().zip(seats.next())
}

/// The threads of two actors share the state, if there are any.
fn go_on<N: RunName + Send + Sync, R: Threads + Wait + Sync>(
    rt: &R,
    alloc: Global,
    decl: &Declaration,
    state: FabricState<AnyTurn, N>,
    pair: Option<(Seat<N>, Seat<N>)>,
) -> (FabricState<AnyTurn, N>, Option<Both>)
    requires { decl.now ≡ N.declaration }
{
    match pair {
        Some(pair) => {
            let (state, both) = serve_both(rt, alloc, decl, state, pair);
            (state, Some(both))
        }
        None => (state, None),
    }
}

/// The history that the state leaves, in short.
fn steps_of<N: RunName>(
    alloc: Global,
    state: FabricState<AnyTurn, N>,
) -> Result<Vec<Short>, OutOfMemory> {
    let (_, entries) = state.end();
    shorts(alloc, &entries)
}
