//! Two threads take an input each, and post at once. Then one holds an actor, and
//! the other picks.

ghost use Rattle.std.specs.Prelude.{◌≡◌};
ghost use Rattle.std.specs.Thread.{IsSync};

use crate::calls::{Saw, Says};
use crate::conduct::AnyTurn;
use crate::meeting::Meeting;
use crate::seat::Seat;
use qc_decl::Declaration;
use qc_fabric::{Fabric, FabricState, RunName};
use qc_list::OutOfMemory;
use std::alloc::Global;
use std::sync::Wait;
use std::thread::{Threads, join};

/// What the calls of the thread that holds answered, one after another.
pub(crate) type Holder = [Saw; 9];

/// What those of the thread that picks answered.
pub(crate) type Picker = [Saw; 5];

/// What the two threads saw.
pub(crate) type Both = (Result<Holder, OutOfMemory>, Result<Picker, OutOfMemory>);

/// The state is shared by two threads, which serve these actors.
pub(crate) fn serve_both<N: RunName + Send + Sync, R: Threads + Wait + Sync>(
    rt: &R,
    alloc: Global,
    decl: &Declaration,
    state: FabricState<AnyTurn, N>,
    seats: (Seat<N>, Seat<N>),
) -> (FabricState<AnyTurn, N>, Both)
    requires { decl.now ≡ N.declaration }
{
    let (fabric, meeting) = (Fabric::open(state), Meeting::new());
    let both = join_both(rt, alloc, decl, &fabric, seats, &meeting);
    (fabric.close(), both)
}

/// Each seat's actor is served in a thread of its own.
fn join_both<N: RunName + Send + Sync, R: Threads + Wait + Sync>(
    rt: &R,
    alloc: Global,
    decl: &Declaration,
    fabric: &Fabric<AnyTurn, N>,
    seats: (Seat<N>, Seat<N>),
    meeting: &Meeting,
) -> Both
    requires { decl.now ≡ N.declaration }
{
    let (first, second) = seats;
    join(
        rt,
        move ||
            requires { IsSync R.row × (decl.now ≡ N.declaration) }
        { hold(rt, alloc, decl, fabric, first, meeting) },
        move ||
            requires { IsSync R.row × (decl.now ≡ N.declaration) }
        { pick(rt, alloc, decl, fabric, second, meeting) },
    )
}

/// The seat's actor is served. Where it wants memory it isn't held any more. This
/// thread won't pick again, so it wakes the other.
fn hold<N: RunName, R: Wait>(
    rt: &R,
    alloc: Global,
    decl: &Declaration,
    fabric: &Fabric<AnyTurn, N>,
    mut seat: Seat<N>,
    meeting: &Meeting,
) -> Result<Holder, OutOfMemory>
    requires { decl.now ≡ N.declaration }
{
    let held = serve_and_hold(rt, alloc, decl, fabric, &mut seat, meeting);
    if held.is_err() {
        seat.leave_by_lock(rt, fabric);
    }
    fabric.wake();
    held
}

/// The seat's actor takes an input. Once the other has one too it asks itself, and
/// is picked: it is held, and nothing is ready for anybody else. It takes and posts
/// again once the other's pick has come, and hasn't answered for a while.
fn serve_and_hold<N: RunName, R: Wait>(
    rt: &R,
    alloc: Global,
    decl: &Declaration,
    fabric: &Fabric<AnyTurn, N>,
    seat: &mut Seat<N>,
    meeting: &Meeting,
) -> Result<Holder, OutOfMemory>
    requires { decl.now ≡ N.declaration }
{
    let took = seat.take_by_lock(rt, alloc, fabric, decl)?;
    let met = Saw::Is(meeting.meet(2));
    let asked = seat.post_by_lock(rt, alloc, fabric, decl, Says::Asks(0))?;
    let picked = Saw::Picked(Some(fabric.pick(rt, decl)));
    meeting.come();
    let (comes, answers) = (Saw::Is(meeting.waited(5)), Saw::Is(meeting.soon(6)));
    let again = seat.take_by_lock(rt, alloc, fabric, decl)?;
    let answered = seat.post_by_lock(rt, alloc, fabric, decl, Says::Answers(3, 2))?;
    let rests = Saw::Is(seat.rests(rt, fabric, decl));
    Ok([
        took, met, asked, picked, comes, answers, again, answered, rests,
    ])
}

/// The seat's actor takes an input, and once the other has one too it asks the
/// other's actor. When the other has picked, this thread picks.
fn pick<N: RunName, R: Wait>(
    rt: &R,
    alloc: Global,
    decl: &Declaration,
    fabric: &Fabric<AnyTurn, N>,
    mut seat: Seat<N>,
    meeting: &Meeting,
) -> Result<Picker, OutOfMemory>
    requires { decl.now ≡ N.declaration }
{
    serve_and_pick(rt, alloc, decl, fabric, &mut seat, meeting)
}

/// The same, by reference.
fn serve_and_pick<N: RunName, R: Wait>(
    rt: &R,
    alloc: Global,
    decl: &Declaration,
    fabric: &Fabric<AnyTurn, N>,
    seat: &mut Seat<N>,
    meeting: &Meeting,
) -> Result<Picker, OutOfMemory>
    requires { decl.now ≡ N.declaration }
{
    let took = seat.take_by_lock(rt, alloc, fabric, decl)?;
    let met = Saw::Is(meeting.meet(2));
    let asked = seat.post_by_lock(rt, alloc, fabric, decl, Says::Asks(0))?;
    let held = Saw::Is(meeting.meet(4));
    meeting.come();
    let picked = Saw::Picked(Some(fabric.pick(rt, decl)));
    meeting.come();
    Ok([took, met, asked, held, picked])
}
