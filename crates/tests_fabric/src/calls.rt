//! A row of a table: a call, and what it is to answer.

use crate::steps::Short;
use qc_fabric::Picked;
use qc_msg::{Appended, Fall};

/// What an actor does for its input.
#[derive(Clone, Copy)]
pub(crate) enum Says {
    /// Nothing.
    Nothing,
    /// It sends a request to an actor.
    Asks(u8),
    /// It sends a request to each of two actors.
    AsksBoth(u8, u8),
    /// It sends an actor the answer to the request of a number.
    Answers(u8, u32),
    /// It tells a reply.
    Tells,
    /// It writes a record, of which this becomes, and asks an actor: also where the
    /// record couldn't be written, and it then tells a reply.
    Writes(Appended, u8),
}

/// What a restart finds.
#[derive(Clone, Copy)]
pub(crate) enum Finds {
    /// No records. Of the record of the rise this becomes, and the actor asks
    /// another.
    Nothing(Appended, u8),
    /// A journal that is none.
    Damage,
    /// The disk fails or stops.
    Fault(Fall),
}

/// A call.
#[derive(Clone, Copy)]
pub(crate) enum Act {
    /// The controller begins the next phase.
    Phase,
    /// The first control line left of the phase cuts or heals, where it does.
    Control,
    /// It arms an actor's disk, where it does.
    Arm(u8),
    /// It crashes an actor, where it does.
    Crash(u8),
    /// It restarts an actor, where it does.
    Restart(u8, Finds),
    /// The actor that comes next is picked.
    Pick,
    /// An actor takes its next input.
    Take(u8),
    /// An actor makes room for its turn, and posts it.
    Post(u8, Says),
    /// An actor's pass sees the history, and the actor isn't held any more.
    Leave(u8),
    /// Whether nothing is left to do in the phase.
    Quiet,
    /// Whether a counted quantity has reached its limit.
    Full,
    /// Whether an actor is held.
    Held(u8),
}

/// What a call answers.
#[derive(Clone, Copy, Debug, PartialEq)]
pub(crate) enum Saw {
    /// The phase began.
    Began,
    /// The control line acted.
    Acted,
    /// The call may not be made now.
    MayNot,
    /// What was picked.
    Picked(Option<Picked>),
    /// What was taken, in short.
    Took(Option<Short>),
    /// The number of the turn's first message.
    Posted(u32),
    /// The pass saw so much.
    Left,
    /// It is so, or it isn't.
    Is(bool),
}

/// A call, and what it is to answer.
pub(crate) type Row = (Act, Saw);
