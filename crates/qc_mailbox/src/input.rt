//! What an actor takes next, and how soon it comes.

use qc_msg::Command;

/// What is ready for an actor, a message named by its number.
#[derive(Clone, Copy, Debug, PartialEq, Eq)]
pub enum ReadyInput {
    /// A copy of the message of this number.
    Copy(u32),
    /// That its request of this number is lost.
    Lost(u32),
    /// A command.
    Command(Command),
}

/// How soon an actor comes, by what is ready for it.
#[derive(Clone, Copy, Debug, PartialEq, Eq)]
pub enum Rank {
    /// A copy of the message of this number.
    Copy(u32),
    /// A lost request.
    Lost,
    /// A command, where it called so many in this phase.
    Command(u32),
}

/// An actor for which something is ready.
#[derive(Clone, Copy, Debug, PartialEq, Eq)]
pub struct Candidate {
    /// The actor's number.
    pub actor: u8,
    /// How soon it comes.
    pub rank: Rank,
}
