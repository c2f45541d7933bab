//! Sites, clients and the administrator on threads, each with its journal.
//!
//! Each actor sits in a cell of its own: its process, an actor over a disk, with its
//! pass. A worker picks an actor that has something to do, and the actor takes its
//! turn: it takes its next input, acts, makes room, appends its record, and posts.
//! Who finds nothing ready and nobody held does what comes next: the next phase
//! begins, a link is cut or healed, or an actor's line acts in that actor's cell,
//! which arms its disk, crashes it or restarts it. As many workers as are asked for
//! do so at once, from the script's beginning to its end. What holds:
//!
//! 1. The history is a run with falls under the conduct of the whole system
//!    (`Rules`).
//! 2. What sits in a cell is what its actor's deeds in the history make of it, and
//!    its disk holds the records that the history tells, whichever threads served
//!    it (`specs/Cells.antt`). After want of memory a process is given up where an
//!    input stays open, or a restart was tried; then its disk alone is known.
//! 3. A turn that is done is one input, and all that it calls for, by what became
//!    of its record (`specs/Cells.antt`, `IsTurn`).
//! 4. How a phase ended, and a script, is one function of the history and the
//!    open inputs (`specs/Ends.antt`), whatever the workers answered.
//! 5. `run_script` does all of it, from a script and a rack to a history. Each disk
//!    goes back to its place; each fall is of an armed fault or one that the rack
//!    counted; and where the rack tells, no record is lost. No journal is begun before
//!    the disks of all actors are there. Where no run begins, those that were handed
//!    out go back, and each place that held a byte is as it was.
#![tactic(auto)]

mod cell;
mod cells;
mod control;
mod controller;
mod ends;
mod laws;
mod processes;
mod rules;
mod runs;
mod scripts;
mod settle;
mod worker;

pub use cell::Cell;
pub use cells::Cells;
pub use ends::{DriveEnd, TurnEnd};
pub use laws::begun_journals_have_no_records;
pub use rules::Rules;
pub use runs::{RunResult, run_script};
pub use scripts::{Job, drive_script, phase};
