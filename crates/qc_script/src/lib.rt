//! Scripts and their reader, for a system of several sites, clients, an
//! administrator, links and faults.
//!
//! A script is lines. `specs/Grammar.antt` is its grammar: what the words of a
//! line say (`specs/Lines.antt`), whether what it names is declared
//! (`specs/Items.antt`), whether its numbers are in range (`specs/Ranges.antt`),
//! whether it may stand where it does, and what it then adds to the script so
//! far (`specs/Places.antt`). What holds:
//!
//! 1. The reader gives exactly the script that the grammar gives, or names the
//!    first line that is refused, with what is wrong with it (`read_script`).
//! 2. Each form of a line is read as just that line, and a script that is
//!    written line by line as its lines in a row (`lines_are_read_as_written`,
//!    `scripts_are_read_as_written`).
//! 3. A script is refused exactly where a line is behind lines that aren't
//!    (`refused_scripts_have_a_first_refused_line`).
//! 4. A script that is read names only what is declared, and its numbers are in
//!    range (`scripts_name_what_is_declared`).
//!
//! What waits for an actor after a history (`specs/Inbox.antt`), through falls
//! too, what is ready for it (`specs/Ready.antt`), and which histories are runs
//! of a script (`specs/Runs.antt`, and `specs/RunsWithFalls.antt` where disks
//! fail and actors fall and rise) stand here too, as definitions: the loop makes
//! runs without falls, and the laws are of all of them. Each is a run with falls
//! (`runs_without_falls_are_runs`), in which everybody is up
//! (`nobody_is_down_without_falls`).
#![tactic(auto)]

mod actor;
mod conduct;
mod draft;
mod form;
mod item;
mod laws;
mod line;
mod range;
mod reader;
mod runs;
mod script;
mod word;

pub use conduct::ConductWithFalls;
pub use laws::{
    lines_are_read_as_written, refused_scripts_have_a_first_refused_line,
    scripts_are_read_as_written, scripts_name_what_is_declared,
};
pub use range::MOST_NUMBER;
pub use reader::read_script;
pub use runs::{nobody_is_down_without_falls, runs_without_falls_are_runs};
pub use script::{
    CommandLine, CommandLines, Controls, LineKind, LinkLines, PhaseLines, PhaseList, Script,
    ScriptFault,
};
