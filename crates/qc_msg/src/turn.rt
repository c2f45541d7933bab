//! What an actor does for one input, and how turns are made.

ghost use Rattle.std.specs.Prelude.{◌≡◌, ◌∷◌, [], Some, None, IfOk};
ghost use Rattle.qc_msg.specs.Turns.{quiet, telling, sending, ending};
ghost use Rattle.qc_msg.specs.declared.turn.Appended.TheVariants.{Done};

use crate::{Message, Record, Reply};
use qc_list::{List, OutOfMemory};
use std::alloc::Global;

/// A message to be sent.
#[derive(Drop)]
pub struct Posting {
    /// The receiver's number.
    pub to: u8,
    /// The message.
    pub message: Message,
}

/// A list of messages to be sent.
pub type Sends = List<Posting>;

/// What became of a turn's record.
#[derive(Clone, Copy, Debug, PartialEq, Eq)]
pub enum Appended {
    /// It is written, or there is none.
    Done,
    /// The disk failed.
    Failed,
    /// The disk stopped.
    Stopped,
}

/// What an actor does for one input: a record to be written first, then
/// messages, then the reply. Where there is a record and it isn't written, it
/// does something else instead.
#[derive(Drop)]
pub struct Turn {
    /// The record, if any.
    pub write: Option<Record>,
    /// The messages, in order.
    pub sends: Sends,
    /// The reply, if any.
    pub told: Option<Reply>,
    /// The messages where the record couldn't be written.
    pub failed_sends: Sends,
    /// The reply where the record wasn't written.
    pub failed_told: Option<Reply>,
    /// What became of the record: an actor makes each turn with `Done`, and who
    /// appends the record says otherwise where its disk failed or stopped.
    pub append: Appended,
}

impl Posting {
    /// The list of one message.
    pub fn alone(alloc: Global, to: u8, message: Message) -> Result<Sends, OutOfMemory>
        ensures { IfOk result (λ sends. sends ≡ record { to = to; message = message } ∷ []) }
    {
        let mut sends = List::new(alloc);
        sends.push(Posting { to, message })?;
        Ok(sends)
    }
}

impl Turn {
    /// The turn that does nothing. It takes no memory.
    pub fn quiet(alloc: Global) -> Turn
        ensures { result ≡ quiet }
    {
        Turn::says(alloc, List::new(alloc), None)
    }

    /// The turn that only tells a reply. It takes no memory.
    pub fn telling(alloc: Global, reply: Reply) -> Turn
        ensures { result ≡ telling reply }
    {
        Turn::says(alloc, List::new(alloc), Some(reply))
    }

    /// The turn that only sends messages. It takes no memory.
    pub fn sending(alloc: Global, sends: Sends) -> Turn
        ensures { result ≡ sending sends }
    {
        Turn::says(alloc, sends, None)
    }

    /// The turn that only sends one message.
    pub fn sending_one(alloc: Global, to: u8, message: Message) -> Result<Turn, OutOfMemory>
        ensures { IfOk result (λ turn. turn ≡ sending (record { to = to; message = message } ∷ [])) }
    {
        Ok(Turn::sending(alloc, Posting::alone(alloc, to, message)?))
    }

    /// The turn that sends messages, then tells a reply. It takes no memory.
    pub fn ending(alloc: Global, sends: Sends, reply: Reply) -> Turn
        ensures { result ≡ ending sends reply }
    {
        Turn::says(alloc, sends, Some(reply))
    }

    /// A turn without a record.
    fn says(alloc: Global, sends: Sends, told: Option<Reply>) -> Turn
        ensures { result ≡ record {
          write = None;
          sends = sends;
          told = told;
          failed_sends = [];
          failed_told = None;
          append = Done;
        } }
    {
        Turn {
            write: None,
            sends,
            told,
            failed_sends: List::new(alloc),
            failed_told: None,
            append: Appended::Done,
        }
    }
}
