//! The lock over the state. Each call is that of `FabricState` under the lock, and
//! tells what the caller's pass knows.
//!
//! Threads that serve actors pick again after each turn. So a thread that has
//! nothing to do sleeps until another, which picked, sees that there is an actor
//! for it too; and whoever stops picking wakes all (`wake`). A thread that was
//! woken takes an actor only where nobody picks for a while: as long as turns are
//! shorter than it takes to hand one over, one thread serves all.

ghost use Rattle.std.specs.Prelude.{◌≡◌, ◌<◌, [], false, Some, Ok, IfOk, IfSome, length, OnOk, OnErr, MatchOption};
ghost use Rattle.qc_decl.specs.Actors.{actors, controller};
ghost use Rattle.qc_msg.specs.Deeds.{deeds};
ghost use Rattle.qc_pass.specs.Tokens.{number, pass_table, room, seen};
ghost use Rattle.qc_fabric.specs.Advances.{HasNothingLeft, WasNext};
ghost use Rattle.qc_fabric.specs.Picks.{IsNamed};
ghost use Rattle.qc_fabric.specs.Tells.{GoesToActors, Posts, Sees, Takes, Waits, size_of};

use crate::conduct::{Conduct, RunName};
use crate::picked::Picked;
use crate::state::FabricState;
use crate::taken::Taken;
use qc_decl::Declaration;
use qc_list::OutOfMemory;
use qc_msg::{Control, Step, Turn};
use qc_pass::Pass;
use std::alloc::Global;
use std::sync::atomic::{AtomicU64, Ordering};
use std::sync::{Condvar, Mutex, MutexGuard, Wait};
use std::thread::yield_now;

/// What lies under the lock: the state, how many threads sleep, and whether one of
/// them was woken and hasn't come yet.
#[derive(Drop)]
pub struct Shared<C: Conduct, N: RunName> {
    /// The state.
    pub state: FabricState<C, N>,
    asleep: u32,
    is_one_woken: bool,
}

/// The state that many threads share, and how often something was picked.
#[derive(Drop)]
pub struct Fabric<C: Conduct, N: RunName> {
    shared: Mutex<Shared<C, N>>,
    changed: Condvar,
    picks: AtomicU64,
}

/// How often in a row a thread that was woken sees no pick before it picks: some
/// tens of microseconds, longer than a turn in memory takes, and shorter than one
/// that waits for a disk.
const POLLS: u32 = 256;

/// How often it looks at most before it sleeps again: long enough that it seldom
/// sleeps while it is wanted, and short enough that it doesn't take a processor from
/// the others.
const MOST_POLLS: u32 = 4_096;

impl<C: Conduct, N: RunName> Fabric<C, N> {
    /// Threads may share the state from now on. It takes no memory.
    pub fn open(state: FabricState<C, N>) -> Fabric<C, N> {
        Fabric {
            shared: Mutex::new(Shared {
                state,
                asleep: 0,
                is_one_woken: false,
            }),
            changed: Condvar::new(),
            picks: AtomicU64::new(0),
        }
    }

    /// The state again. It takes no memory.
    pub fn close(self) -> FabricState<C, N> {
        let Fabric { shared, .. } = self;
        let Shared { state, .. } = shared.into_inner();
        state
    }

    /// Sleeps while nothing is ready for those that aren't held and some actor is
    /// held, or while others pick, and then answers what `FabricState::pick` does. Where
    /// another actor could be picked too, it wakes one that sleeps. It takes no
    /// memory.
    pub fn pick<R: Wait>(&self, rt: &R, decl: &Declaration) -> Picked
        requires { decl.now ≡ N.declaration }
        ensures { IsNamed N.declaration (Some result) }
    {
        let mut shared = self.shared.lock(rt);
        for _ in rt.forever() {
            if let Some(picked) = shared.state.pick(decl) {
                if shared.asleep > 0 && !shared.is_one_woken && has_actor(&shared.state, decl) {
                    shared.is_one_woken = true;
                    self.changed.notify_one();
                }
                self.picks.fetch_add(1, Ordering::SeqCst);
                return picked;
            }
            shared = self.sleep(rt, shared);
        }
        unreachable!()
    }

    /// Sleeps until it is woken and nobody picks for a while, or nobody is held. As
    /// long as an actor is held its thread hasn't stopped picking: it will wake who
    /// sleeps then.
    fn sleep<'a, R: Wait>(
        &'a self,
        rt: &R,
        shared: MutexGuard<'a, Shared<C, N>>,
    ) -> MutexGuard<'a, Shared<C, N>> {
        let mut shared = shared;
        for _ in rt.forever() {
            shared.asleep = shared.asleep.saturating_add(1);
            shared = self.changed.wait(rt, shared);
            shared.asleep = shared.asleep.saturating_sub(1);
            drop(shared);
            let is_wanted = self.is_wanted();
            shared = self.shared.lock(rt);
            shared.is_one_woken = false;
            if is_wanted || !shared.state.is_any_held() {
                return shared;
            }
        }
        unreachable!()
    }

    /// Whether nobody picks for a while.
    fn is_wanted(&self) -> bool {
        let (mut picks, mut polls) = (self.picks.load(Ordering::SeqCst), 0u32);
        for _ in 0..MOST_POLLS {
            yield_now();
            let now = self.picks.load(Ordering::SeqCst);
            polls = if now == picks {
                polls.saturating_add(1)
            } else {
                0
            };
            if polls == POLLS {
                return true;
            }
            picks = now;
        }
        false
    }

    /// Wakes all that sleep. A thread that won't pick any more has to.
    pub fn wake(&self) {
        self.changed.notify_all();
    }

    /// The state itself, until the guard goes. Nobody else calls meanwhile, so what
    /// a call tells of the state stands until the next one.
    pub fn hold<R: Wait>(&self, rt: &R) -> MutexGuard<'_, Shared<C, N>> {
        self.shared.lock(rt)
    }

    /// What may be done next, in phases up to the last one that is given. It may be
    /// past as soon as it is answered.
    pub fn next_order<R: Wait>(&self, rt: &R, decl: &Declaration, last: u32) -> Option<Control>
        requires { decl.now ≡ N.declaration }
        ensures { IfSome result (WasNext N.declaration N.script) }
    {
        self.shared.lock(rt).state.next_order(decl, last)
    }

    /// The controller does what it may do next, if anything, in phases up to the last
    /// one that is given. Whether something is left: none is where there was nothing
    /// to do, nothing is ready, nobody is held and no limit is reached. A line of an
    /// actor's is left to who has that actor's pass.
    pub fn advance<R: Wait>(
        &self,
        rt: &R,
        decl: &Declaration,
        pass: &mut Pass<Step>,
        last: u32,
    ) -> Result<bool, OutOfMemory>
        requires declaration { decl.now ≡ N.declaration }
        requires table { pass_table pass.old ≡ N.table }
        requires controller { number pass.old ≡ controller N.declaration }
        ensures table { pass_table pass.new ≡ N.table }
        ensures controller { number pass.new ≡ controller N.declaration }
        ensures over { result ≡ Ok false
            → HasNothingLeft (C.lawful N.declaration) (C.fits N.declaration) N.declaration N.script last
            (seen pass.new) }
    {
        let mut shared = self.shared.lock(rt);
        if shared.state.do_next(decl, pass, last)? {
            return Ok(true);
        }
        match shared.state.comes_next(decl) {
            Some(Picked::Quiet) => Ok(false),
            _ => Ok(true),
        }
    }

    /// The pass's actor takes its next input.
    pub fn take<R: Wait>(
        &self,
        rt: &R,
        alloc: Global,
        decl: &Declaration,
        pass: &mut Pass<Step>,
    ) -> Result<Option<Taken>, OutOfMemory>
        requires declaration { decl.now ≡ N.declaration }
        requires table { pass_table pass.old ≡ N.table }
        requires actor { number pass.old < actors N.declaration }
        ensures err { OnErr result (pass.new ≡ pass.old) }
        ensures told { IfOk result (λ r. MatchOption r
            (Waits (C.lawful N.declaration) (C.fits N.declaration) N.declaration N.script pass.old pass.new)
            (λ taken. Takes (C.lawful N.declaration) (C.fits N.declaration) N.declaration N.script pass.old pass.new
            taken.given)) }
        ensures steps { IfOk result (λ r. IfSome r (λ taken. taken.steps ≡ length (seen pass.new))) }
    {
        self.shared.lock(rt).state.take(alloc, decl, pass)
    }

    /// Makes room for the turn of the pass's actor.
    pub fn reserve<R: Wait>(
        &self,
        rt: &R,
        pass: &mut Pass<Step>,
        turn: &Turn,
    ) -> Result<(), OutOfMemory>
        requires table { pass_table pass.old ≡ N.table }
        requires actor { number pass.old < actors N.declaration }
        requires room { room pass.old ≡ 0 }
        ensures ok { OnOk result (Sees pass.old pass.new × (room pass.new ≡ size_of turn.now)) }
        ensures err { OnErr result (pass.new ≡ pass.old) }
    {
        self.shared.lock(rt).state.reserve(pass, turn)
    }

    /// Posts the turn for which there is room, by what became of its record. It takes
    /// no memory.
    pub fn post<R: Wait>(&self, rt: &R, pass: &mut Pass<Step>, turn: Turn) -> u32
        requires table { pass_table pass.old ≡ N.table }
        requires actor { number pass.old < actors N.declaration }
        requires room { room pass.old ≡ size_of turn }
        requires receivers { GoesToActors turn }
        requires lawful { C.lawful N.declaration (number pass.old) (deeds (number pass.old) [] (seen pass.old)) turn }
        ensures told { Posts (C.lawful N.declaration) (C.fits N.declaration) N.declaration N.script pass.old pass.new
            turn result }
    {
        self.shared.lock(rt).state.post(pass, turn)
    }

    /// Ends the holding of the pass's actor, and gives its room up. It takes no
    /// memory.
    pub fn leave<R: Wait>(&self, rt: &R, pass: &mut Pass<Step>)
        requires table { pass_table pass.old ≡ N.table }
        ensures saw { Sees pass.old pass.new }
        ensures room { room pass.new ≡ 0 }
    {
        self.shared.lock(rt).state.leave(pass);
    }
}

/// Whether an actor comes next.
fn has_actor<C: Conduct, N: RunName>(state: &FabricState<C, N>, decl: &Declaration) -> bool
    requires { decl.now ≡ N.declaration }
{
    matches!(state.comes_next(decl), Some(Picked::Actor(_)))
}
