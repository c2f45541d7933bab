//! Steps of a history, and what actors take.

use crate::{Envelope, Message, Record, Records, Reply};
use qc_list::Marked;
use qc_outside::ArmKind;

/// What a client or the administrator is asked to do.
#[derive(Clone, Copy, Debug, PartialEq, Eq)]
pub enum Command {
    /// To begin a transaction.
    Begin,
    /// To execute an invocation on an object.
    Do { object: u8, inv: u8 },
    /// To commit the transaction.
    Commit,
    /// To give the transaction up.
    Abort,
    /// To move the sites to this epoch.
    Epoch { number: u8 },
}

/// What the controller does between an actor's steps: the lines of a script
/// that are no commands.
#[derive(Clone, Copy, Debug, PartialEq, Eq)]
pub enum Control {
    /// This phase begins, from 1.
    Phase(u32),
    /// The two actors lose all messages between them.
    Cut(u8, u8),
    /// The two actors are joined again.
    Heal(u8, u8),
    /// The actor's disk will do so at its call of this number, counted from
    /// now on.
    Armed { actor: u8, kind: ArmKind, at: u32 },
    /// The actor falls.
    Crash(u8),
    /// The actor rises.
    Restart(u8),
}

/// Why an actor fell.
#[derive(Clone, Copy, Debug, PartialEq, Eq)]
pub enum Fall {
    /// The script said so.
    Script,
    /// Its disk stopped.
    Stop,
    /// Its disk failed.
    Disk,
}

/// A step of an actor, or of the controller.
#[derive(Drop)]
pub enum Step {
    /// The controller begins this phase, from 1.
    Phase(u32),
    /// The controller cuts two actors from each other.
    Cut(u8, u8),
    /// The controller joins them again.
    Heal(u8, u8),
    /// The controller arms an actor's disk.
    Armed {
        actor: u8,
        kind: ArmKind,
        at: u32,
    },
    /// An actor takes its next command.
    Called(Command),
    /// An actor takes a copy of the message of this number.
    Got(u32),
    /// An actor learns that its request of this number is lost.
    Lost(u32),
    /// An actor's journal has this record.
    Wrote(Record),
    /// An actor sends a message.
    Sent {
        number: u32,
        to: u8,
        message: Message,
    },
    /// An actor replies to the command that it took last.
    Told(Reply),
    /// An actor falls, with the record that was being written.
    Fell {
        cause: Fall,
        pending: Option<Record>,
    },
    /// An actor rises with what its journal gave.
    Rose(Records),
    /// An actor can't rise: at this byte its journal is none.
    Damaged(u64),
}

/// An entry of a history: a step with its actor.
pub type Entry = Marked<Step>;

/// What an actor takes.
#[derive(Drop)]
pub enum Input {
    /// A command.
    Called(Command),
    /// A message.
    Got(Envelope),
    /// That its request of this number is lost.
    Lost { number: u32 },
}

/// A counted quantity of a history, which has a limit.
#[derive(Clone, Copy, Debug, PartialEq, Eq)]
pub enum Quantity {
    /// Steps.
    Steps,
    /// Committed operations with a response.
    Operations,
    /// Lines that messages carried.
    Carried,
}
