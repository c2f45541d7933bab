//! The fabric: one history of many threads.
//!
//! An actor takes an input, computes its turn by itself, reserves room for it,
//! and posts it. Each of these calls holds one lock, and nothing is computed
//! under it, so many inputs are open at once. Under the lock lies `FabricState`: the
//! history with the right to add to it, what is ready, which inputs are open,
//! and which actors are held. `Fabric` is the lock. What holds:
//!
//! 1. The history is that of the passes' right, and a run of the named script
//!    over the named declaration by the named conduct, where disks fail and actors
//!    fall and rise. It has at most `MOST_HISTORY` steps: a call that would pass
//!    them answers want of memory.
//! 2. `pick` answers by one table (`specs/Picks.antt`). It names nobody who is
//!    held or has an open input.
//! 3. An actor with an open input takes none. What it takes is what is ready
//!    next for it. No event begins once a limit is reached, so before the last
//!    one each counted quantity was below its own (`limits_are_told`).
//! 4. `reserve` keeps room for a turn's steps and for its messages' copies,
//!    whatever became of its record and whatever others post meanwhile, so that
//!    `post` takes no memory. So `room` does for `rise`. Nor do `pick`, `look`,
//!    `leave`, `open`, `close` and `end` take any.
//! 5. Whoever calls learns through its own pass: after a take, or a post, what it
//!    has seen is a run that ends with just its own steps (`specs/Tells.antt`).
//! 6. After want of memory nothing has changed.
//! 7. Nothing that arms an actor's disk stands behind what the actor's pass has
//!    seen: `arm` adds that step and lets the pass see it. So of what a pass gains
//!    by a call, what others did arms nothing for its actor (`IsOfOthers`).
//! 8. `post` adds the steps of a turn by what became of its record; where that isn't
//!    written, the actor falls.
//! 9. A control line of an actor's acts by a call that takes the actor's pass:
//!    `arm`, `fall` where it crashes, `room` and `rise` where it restarts. The
//!    controller's `advance` leaves it to who has that pass. `hold` gives the state
//!    itself, so that all of a line is done under one lock.
//! 10. Once nobody adds to the history any more, its passes are called one by one
//!    (`Roll`): each sees the whole history, and no two that were called have one
//!    number.
#![tactic(auto)]

mod advance;
mod bits;
mod conduct;
mod fabric;
mod feed;
mod full;
mod given;
mod laws;
mod line;
mod log;
mod order;
mod pick;
mod picked;
mod restart;
mod rising;
mod roll;
mod room;
mod state;
mod taken;
mod turn;
mod weigh;

pub use conduct::{Conduct, RunName};
pub use fabric::{Fabric, Shared};
pub use full::Full;
pub use laws::limits_are_told;
pub use log::HistoryStore;
pub use picked::Picked;
pub use rising::Rising;
pub use roll::Roll;
pub use room::MOST_HISTORY;
pub use state::FabricState;
pub use taken::Taken;
