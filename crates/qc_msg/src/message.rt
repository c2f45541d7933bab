//! Messages between clients, sites and the administrator.
//!
//! What is asked of a site for a transaction is nested in one form, and what is
//! answered in another, so that a request's epoch and life are tested in one
//! place, and a refusal is one case.

ghost use Rattle.std.specs.Prelude.{◌≡◌, IfOk};

use crate::payload::{EpochStart, Grant, ReadRequest, Snapshot};
use qc_entry::{Log, Owns};
use qc_list::OutOfMemory;
use qc_stamp::{Stamp, TxId};
use std::alloc::Global;

/// How a transaction stands (presumed abort).
#[derive(Clone, Copy, Debug, PartialEq, Eq)]
pub enum Outcome {
    /// It committed, with this stamp.
    Committed { stamp: Stamp },
    /// It didn't commit, and never will.
    Aborted,
    /// It is begun, and hasn't ended.
    Active,
}

/// What a transaction wants of a site.
#[derive(Drop)]
pub enum Want {
    /// The site's lines of an object, and a lock for what the invocation
    /// reads.
    Read(ReadRequest),
    /// That the site keeps the client's view of an object, and holds these own
    /// lines of it.
    Append { object: u8, view: Log, own: Owns },
    /// A promise that the transaction can commit.
    Prepare,
}

impl Want {
    /// The same, in memory of its own.
    pub fn copy(&self) -> Result<Want, OutOfMemory>
        ensures { IfOk result (λ w. w ≡ self.now) }
    {
        match self {
            Want::Read(read) => Ok(Want::Read(*read)),
            Want::Append { object, view, own } => Ok(Want::Append {
                object: *object,
                view: view.copy()?,
                own: own.copy()?,
            }),
            Want::Prepare => Ok(Want::Prepare),
        }
    }
}

/// What a request is answered.
#[derive(Drop)]
pub enum Answer {
    /// A Read or an Append is granted.
    Granted(Grant),
    /// Another transaction holds what conflicts: this invocation depends on
    /// this event.
    Clash { holder: TxId, inv: u8, event: u8 },
    /// The request's epoch is closed, and the site is in this one or closed
    /// for it.
    Closed { epoch: u8 },
    /// The site is in this epoch, an earlier one than the request's.
    Behind { epoch: u8 },
    /// The site isn't in the life that the request names, but in this one.
    Restarted { life: u32 },
    /// The site holds nothing of the transaction that it is to prepare, or
    /// more than a record can keep.
    Stale,
    /// The site couldn't write its record.
    Fault,
    /// The site promises. It tells its clock.
    Yes { clock: u64 },
    /// The site has closed its epoch.
    Shut(Snapshot),
    /// The site is in the epoch that it was to install, or in a later one.
    Installed,
    /// How the transaction stands.
    Answered { verdict: Outcome },
}

impl Answer {
    /// The same answer, in memory of its own.
    pub fn copy(&self, alloc: Global) -> Result<Answer, OutOfMemory>
        ensures { IfOk result (λ a. a ≡ self.now) }
    {
        match self {
            Answer::Granted(grant) => Ok(Answer::Granted(grant.copy()?)),
            Answer::Clash { holder, inv, event } => Ok(Answer::Clash {
                holder: *holder,
                inv: *inv,
                event: *event,
            }),
            Answer::Closed { epoch } => Ok(Answer::Closed { epoch: *epoch }),
            Answer::Behind { epoch } => Ok(Answer::Behind { epoch: *epoch }),
            Answer::Restarted { life } => Ok(Answer::Restarted { life: *life }),
            Answer::Stale => Ok(Answer::Stale),
            Answer::Fault => Ok(Answer::Fault),
            Answer::Yes { clock } => Ok(Answer::Yes { clock: *clock }),
            Answer::Shut(snapshot) => Ok(Answer::Shut(snapshot.copy(alloc)?)),
            Answer::Installed => Ok(Answer::Installed),
            Answer::Answered { verdict } => Ok(Answer::Answered { verdict: *verdict }),
        }
    }
}

/// A message.
#[derive(Drop)]
pub enum Message {
    /// A client asks a site something for a transaction of an epoch; `life` is
    /// the site's life that the client knows of, or 0.
    Request {
        tx: TxId,
        epoch: u8,
        life: u32,
        want: Want,
    },
    /// The answer to the request of this number.
    Answer {
        to: u32,
        answer: Answer,
    },
    /// A client tells a site how a transaction stands.
    Decision {
        tx: TxId,
        verdict: Outcome,
    },
    /// A site asks a client how its transaction stands.
    Inquiry {
        tx: TxId,
    },
    /// The administrator asks a client the same, as a request.
    Ask {
        tx: TxId,
    },
    /// The administrator asks a site to close its epoch for this one.
    Close {
        epoch: u8,
    },
    /// The administrator asks a site to begin an epoch.
    Install(EpochStart),
}

impl Message {
    /// The same message, in memory of its own.
    pub fn copy(&self, alloc: Global) -> Result<Message, OutOfMemory>
        ensures { IfOk result (λ m. m ≡ self.now) }
    {
        match self {
            Message::Request {
                tx,
                epoch,
                life,
                want,
            } => Ok(Message::Request {
                tx: *tx,
                epoch: *epoch,
                life: *life,
                want: want.copy()?,
            }),
            Message::Answer { to, answer } => Ok(Message::Answer {
                to: *to,
                answer: answer.copy(alloc)?,
            }),
            Message::Decision { tx, verdict } => Ok(Message::Decision {
                tx: *tx,
                verdict: *verdict,
            }),
            Message::Inquiry { tx } => Ok(Message::Inquiry { tx: *tx }),
            Message::Ask { tx } => Ok(Message::Ask { tx: *tx }),
            Message::Close { epoch } => Ok(Message::Close { epoch: *epoch }),
            Message::Install(start) => Ok(Message::Install(start.copy()?)),
        }
    }
}

/// A message with its number, its sender and its receiver.
#[derive(Drop)]
pub struct Envelope {
    /// The message's number, from 0 in the history's order.
    pub number: u32,
    /// The sender's number.
    pub from: u8,
    /// The receiver's number.
    pub to: u8,
    /// The message.
    pub message: Message,
}
