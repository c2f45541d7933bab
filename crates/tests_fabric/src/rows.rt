//! Rows are played one after another, until one answers something else than it
//! is to.

ghost use Rattle.std.specs.Prelude.{◌≡◌};

use crate::calls::{Act, Row, Saw};
use crate::conduct::AnyTurn;
use crate::seat::Seat;
use qc_decl::Declaration;
use qc_fabric::{FabricState, RunName};
use qc_list::OutOfMemory;
use std::alloc::Global;

/// Which of so many seats it is whose call it is: an actor's, or else the
/// controller's, which is the last.
fn caller(act: Act, count: usize) -> usize {
    match act {
        Act::Take(actor) | Act::Post(actor, _) | Act::Leave(actor) => actor as usize,
        Act::Arm(actor) | Act::Crash(actor) | Act::Restart(actor, _) => actor as usize,
        _ => count.saturating_sub(1),
    }
}

/// The call, and what it answers. Whoever has no seat may do nothing.
fn act<N: RunName>(
    alloc: Global,
    decl: &Declaration,
    state: &mut FabricState<AnyTurn, N>,
    seats: &mut [Seat<N>],
    act: Act,
) -> Result<Saw, OutOfMemory>
    requires { decl.now ≡ N.declaration }
{
    if let Act::Arm(actor) = act {
        return arm(decl, state, seats, actor as usize);
    }
    match seats.get_mut(caller(act, seats.len())) {
        Some(seat) => seat.act(alloc, state, decl, act),
        None => Ok(Saw::MayNot),
    }
}

/// The controller, whose seat is the last, arms an actor's disk.
fn arm<N: RunName>(
    decl: &Declaration,
    state: &mut FabricState<AnyTurn, N>,
    seats: &mut [Seat<N>],
    actor: usize,
) -> Result<Saw, OutOfMemory>
    requires { decl.now ≡ N.declaration }
{
    let Some((controller, actors)) = seats.split_last_mut() else {
        return Ok(Saw::MayNot);
    };
    match actors.get_mut(actor) {
        Some(seat) => seat.arm(controller, state, decl),
        None => Ok(Saw::MayNot),
    }
}

/// How many rows answer what they are to, up to the first that doesn't.
pub(crate) fn play<N: RunName>(
    alloc: Global,
    decl: &Declaration,
    state: &mut FabricState<AnyTurn, N>,
    seats: &mut [Seat<N>],
    rows: &[Row],
) -> usize
    requires { decl.now ≡ N.declaration }
{
    for (place, row) in rows.iter().enumerate() {
        if act(alloc, decl, state, seats, row.0) != Ok(row.1) {
            return place;
        }
    }
    rows.len()
}
