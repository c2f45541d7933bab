//! What a site takes, as messages.

use crate::sites::{READ, X, line, tx};
use qc_entry::{Log, Mark, OwnLine, Owns};
use qc_list::OutOfMemory;
use qc_msg::{Answer, EpochStart, Message, Outcome, ReadRequest, Want};
use qc_stamp::Stamp;
use std::alloc::Global;

/// What a site takes. Where no transaction is named, it is the client's first.
#[derive(Clone, Copy)]
pub(crate) enum Taken<'a> {
    /// A Read of x, by a client.
    Read(u8, u8),
    /// An Append to x by a client, with a view, each line by clock, client and
    /// event, and own lines, each by operation and event.
    Append(u8, &'a [(u64, u8, u8)], &'a [(u8, u8)]),
    /// A Prepare of a client.
    Prepare(u8),
    /// A Read of x by client 0, of an epoch, that names a life.
    ReadIn(u8, u32),
    /// A Prepare of client 0, of an epoch, that names a life.
    PrepareIn(u8, u32),
    /// An Append to x by client 0, of an epoch, with a view.
    AppendIn(u8, &'a [(u64, u8, u8)]),
    /// A Read of an object by a client.
    ReadOf(u8, u8),
    /// A Read of x by client 0 in an epoch, whose mark is of a life, an epoch and a
    /// count.
    ReadSince(u8, (u32, u8, u64)),
    /// A client's transaction committed with a clock.
    Committed(u8, u64),
    /// A client's transaction aborted.
    Aborted(u8),
    /// A client's transaction is active.
    Active(u8),
    /// What nobody sends a site: an answer, an Inquiry, an Ask.
    Answer,
    Inquiry,
    Ask,
    /// The administrator's: a Close of an epoch, and an Install of one, with its
    /// clock and its lines, each by clock, client and event.
    Close(u8),
    Install(u8, u64, &'a [(u64, u8, u8)]),
}

/// An own line on x.
pub(crate) fn own(op: u8, event: u8) -> OwnLine {
    OwnLine {
        op,
        object: X,
        event,
    }
}

/// A request of the first epoch that names no life.
fn request(client: u8, want: Want) -> Message {
    request_in(client, 1, 0, want)
}

/// A request of an epoch that names a life.
fn request_in(client: u8, epoch: u8, life: u32, want: Want) -> Message {
    Message::Request {
        tx: tx(client),
        epoch,
        life,
        want,
    }
}

/// A Decision on a client's first transaction.
fn decision(client: u8, verdict: Outcome) -> Message {
    Message::Decision {
        tx: tx(client),
        verdict,
    }
}

/// That a client's first transaction committed with a clock.
fn committed(client: u8, clock: u64) -> Message {
    let stamp = Stamp { clock, client };
    decision(client, Outcome::Committed { stamp })
}

/// An Append to x of the first epoch.
fn append(
    alloc: Global,
    client: u8,
    view: &[(u64, u8, u8)],
    owns: &[(u8, u8)],
) -> Result<Message, OutOfMemory> {
    let own = own_lines(alloc, owns)?;
    let view = log(alloc, view)?;
    append_in(client, 1, view, own)
}

/// An Append to x of an epoch.
pub(crate) fn append_in(
    client: u8,
    epoch: u8,
    view: Log,
    own: Owns,
) -> Result<Message, OutOfMemory> {
    let object = X;
    Ok(request_in(client, epoch, 0, Want::Append { object, view, own }))
}

/// An Append to x of an epoch without own lines.
fn early_append(alloc: Global, epoch: u8, view: &[(u64, u8, u8)]) -> Result<Message, OutOfMemory> {
    append_in(0, epoch, log(alloc, view)?, Owns::new(alloc))
}

/// A log of these lines.
pub(crate) fn log(alloc: Global, view: &[(u64, u8, u8)]) -> Result<Log, OutOfMemory> {
    let mut log = Log::new(alloc)?;
    for (clock, client, event) in view {
        log.add(line(*clock, *client, *event))?;
    }
    Ok(log)
}

/// These own lines.
pub(crate) fn own_lines(alloc: Global, owns: &[(u8, u8)]) -> Result<Owns, OutOfMemory> {
    let mut lines = Owns::new(alloc);
    for (op, event) in owns {
        lines.push(own(*op, *event))?;
    }
    Ok(lines)
}

/// The lines of an object, and a lock for an invocation.
fn read(object: u8, inv: u8) -> Want {
    read_since(object, inv, Mark::NONE)
}

/// The lines of an object that a mark doesn't count, and a lock for an
/// invocation.
fn read_since(object: u8, inv: u8, mark: Mark) -> Want {
    Want::Read(ReadRequest { object, inv, mark })
}

/// The message.
pub(crate) fn message(alloc: Global, taken: Taken<'_>) -> Result<Message, OutOfMemory> {
    match taken {
        Taken::Read(client, inv) => Ok(request(client, read(X, inv))),
        Taken::ReadOf(client, object) => Ok(request(client, read(object, READ))),
        Taken::Prepare(client) => Ok(request(client, Want::Prepare)),
        Taken::Append(client, view, own) => append(alloc, client, view, own),
        Taken::ReadIn(..) | Taken::ReadSince(..) | Taken::PrepareIn(..) | Taken::AppendIn(..) =>
            other_epoch(alloc, taken),
        Taken::Committed(..) | Taken::Aborted(_) | Taken::Active(_) => Ok(verdict(taken)),
        Taken::Close(epoch) => Ok(Message::Close { epoch }),
        Taken::Install(epoch, clock, lines) => Ok(Message::Install(EpochStart {
            epoch,
            clock,
            lines: log(alloc, lines)?,
        })),
        _ => Ok(unasked(taken)),
    }
}

/// The request of client 0 in an epoch and a life.
fn other_epoch(alloc: Global, taken: Taken<'_>) -> Result<Message, OutOfMemory> {
    match taken {
        Taken::ReadIn(epoch, life) => Ok(request_in(0, epoch, life, read(X, READ))),
        Taken::ReadSince(epoch, (life, since, count)) => {
            let mark = Mark {
                life,
                epoch: since,
                count,
            };
            Ok(request_in(0, epoch, 0, read_since(X, READ, mark)))
        }
        Taken::AppendIn(epoch, view) => early_append(alloc, epoch, view),
        Taken::PrepareIn(epoch, life) => Ok(request_in(0, epoch, life, Want::Prepare)),
        _ => Ok(request(0, Want::Prepare)),
    }
}

/// The Decision.
fn verdict(taken: Taken<'_>) -> Message {
    match taken {
        Taken::Committed(client, clock) => committed(client, clock),
        Taken::Active(client) => decision(client, Outcome::Active),
        Taken::Aborted(client) => decision(client, Outcome::Aborted),
        _ => decision(0, Outcome::Aborted),
    }
}

/// What nobody sends a site.
fn unasked(taken: Taken<'_>) -> Message {
    match taken {
        Taken::Answer => Message::Answer {
            to: 0,
            answer: Answer::Stale,
        },
        Taken::Inquiry => Message::Inquiry { tx: tx(0) },
        _ => Message::Ask { tx: tx(0) },
    }
}

/// Who sends it: the client, the actor 3 for client 0; or else the administrator.
pub(crate) fn sender(taken: Taken<'_>) -> u8 {
    match taken {
        Taken::Read(client, _)
        | Taken::ReadOf(client, _)
        | Taken::Append(client, _, _)
        | Taken::Prepare(client)
        | Taken::Committed(client, _)
        | Taken::Aborted(client)
        | Taken::Active(client) => client.saturating_add(3),
        Taken::ReadIn(..) | Taken::ReadSince(..) | Taken::PrepareIn(..) | Taken::AppendIn(..) => 3,
        _ => 6,
    }
}
