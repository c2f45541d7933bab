//! A script, as it was read.

use qc_link::Link;
use qc_list::{List, OutOfMemory};
use qc_msg::{Command, Control};

/// A command of a script, with the actor that is asked.
#[derive(Clone, Copy, Debug, PartialEq, Eq)]
pub struct CommandLine {
    /// The actor's number: a client's, or the administrator's.
    pub actor: u8,
    /// What it is asked to do.
    pub command: Command,
}

/// Rules of links in the script's order.
pub type LinkLines = List<Link>;

/// What the controller does, in the script's order.
pub type Controls = List<Control>;

/// Commands in the script's order.
pub type CommandLines = List<CommandLine>;

/// A phase of a script. It begins when all before it is done; its controls act
/// before its commands.
#[derive(Drop)]
pub struct PhaseLines {
    /// What the controller does as the phase begins.
    pub controls: Controls,
    /// The phase's commands.
    pub commands: CommandLines,
}

/// Phases in the script's order.
pub type PhaseList = List<PhaseLines>;

/// A script: the rules of the links, which stand before the first phase, and
/// the phases.
#[derive(Drop)]
pub struct Script {
    /// The rules of the links.
    pub links: LinkLines,
    /// The phases.
    pub phases: PhaseList,
}

/// What is wrong with a line: the first of these that applies, in the order
/// `Words`, `Name`, `Number`, `Place`.
#[derive(Clone, Copy, Debug, PartialEq, Eq)]
pub enum LineKind {
    /// Its words have none of the forms.
    Words,
    /// It names an actor, an object or an invocation that isn't declared.
    Name,
    /// It can't stand there.
    Place,
    /// A number of it is out of range, or it cuts or heals one actor.
    Number,
}

/// Why a script isn't read.
#[derive(Clone, Copy, Debug)]
pub enum ScriptFault {
    /// The first line that is refused, counted from 1, and what is wrong with
    /// it.
    Line { number: u32, kind: LineKind },
    /// Memory was wanting.
    OutOfMemory,
}

impl From<OutOfMemory> for ScriptFault {
    ghost use Rattle.std.specs.Prelude.{◌≡◌};
    ghost use Rattle.qc_script.specs.declared.script.ScriptFault.TheVariants.{OutOfMemory};

    ghost from_gives = { λ _ e. e ≡ OutOfMemory };

    fn from(_: OutOfMemory) -> ScriptFault {
        ScriptFault::OutOfMemory
    }
}
