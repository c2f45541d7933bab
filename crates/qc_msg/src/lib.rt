//! The types that sites, clients, the administrator and histories share:
//! messages, records, commands, replies, steps, turns, and the history itself.
//!
//! A history is the list of its entries, oldest first, each a step with its
//! actor. What an actor does in it is one list of deeds (`specs/Deeds.antt`):
//! each input that it takes, a message with sender, receiver and number; each
//! record that it writes; each message that it sends; each reply that it tells.
//! All that is read off an actor's steps is a fold over its deeds. What holds:
//!
//! 1. Messages are numbered from 0 in the order in which the history sent
//!    them: a message's number is its place in the list of all messages.
//! 2. The steps of a turn are its record, then its messages, then its reply
//!    (`posted`, in `specs/Steps.antt`).
//! 3. The committed operations are those of the commit records that came to
//!    stand, each once: written, or given by a rise (`operations_go_on`,
//!    `records_that_rise_count_once`). Without rises they are those of the records
//!    that were written (`operations_are_those_of_records`).
//! 4. An actor's deeds go on by its own input and turn, and stay where another
//!    actor or the controller goes on (`deeds_go_on`).
//!
//! The script's runs, the promise, the site, the client, the laws, the text and
//! the loop stand on it.
#![tactic(auto)]

mod begun;
mod call;
mod history;
mod laws;
mod message;
mod payload;
mod record;
mod reply;
mod step;
mod turn;

pub use begun::{
    Begun, FIRST_EPOCH, LifeAt, Lives, Sites, has_granted, life_of, with_life, with_site,
};
pub use call::{Call, Calls, MOST_CALLS};
pub use history::History;
pub use laws::{
    deeds_go_on, operations_are_those_of_records, operations_go_on, records_that_rise_count_once,
};
pub use message::{Answer, Envelope, Message, Outcome, Want};
pub use payload::{EpochStart, Grant, PreparedList, ReadRequest, Snapshot};
pub use record::{Record, Records};
pub use reply::{AbortCause, Half, Reply};
pub use step::{Command, Control, Entry, Fall, Input, Quantity, Step};
pub use turn::{Appended, Posting, Sends, Turn};
