//! What the administrator takes, written shortly.

ghost use Rattle.std.specs.Prelude.{◌≡◌, Some, IfOk, IsTrue};
ghost use Rattle.std.specs.List.{list_all};
ghost use Rattle.qc_admin.specs.Fits.{AnswerFits, AreOfClients, MessageFits};
ghost use Rattle.tests_admin.specs.Promises.{is_of_client};

use qc_entry::{Line, Log, OwnLine, Owns, Prepared, Reads};
use qc_list::OutOfMemory;
use qc_msg::{Answer, EpochStart, Grant, Message, Outcome, PreparedList, Want};
use qc_stamp::{Stamp, TxId};
use std::alloc::Global;

/// The events W0:ok and W1:ok of the only object of `@three`, a register.
pub(crate) const WROTE_0: u8 = 2;

pub(crate) const WROTE_1: u8 = 3;

/// What he takes.
#[derive(Clone, Copy)]
pub(crate) enum Taken<'a> {
    /// A command to move the sites to an epoch.
    Epoch(u8),
    /// Commands for transactions.
    Begin,
    Do,
    Commit,
    Abort,
    /// The answer to the request of a number that a site has closed, with a
    /// clock, lines, each by clock, client and event, and promises, each by
    /// client and its own line's operation and event.
    Shut(u32, u64, &'a [(u64, u8, u8)], &'a [(u8, u8, u8)]),
    /// Another answer to the request of a number.
    Answer(u32, Said),
    /// That the request of a number is lost.
    Lost(u32),
    /// What nobody sends him.
    Other(Other),
}

/// An answer.
#[derive(Clone, Copy)]
pub(crate) enum Said {
    /// Of a site, to a Close or an Install.
    Granted,
    Clash,
    Closed,
    Behind,
    Restarted,
    Stale,
    Fault,
    Yes,
    Installed,
    /// Of a client: its first transaction committed, with a clock.
    Committed(u8, u64),
    Aborted,
    Active,
}

/// A message that isn't an answer.
#[derive(Clone, Copy)]
pub(crate) enum Other {
    Request,
    Decision,
    Inquiry,
    Ask,
    Close,
    Install,
}

/// The first transaction of a client.
pub(crate) fn tx(client: u8) -> TxId {
    TxId {
        client,
        life: 1,
        number: 1,
    }
}

/// A log of these lines, each of the first operation of a client's first
/// transaction.
pub(crate) fn log(alloc: Global, lines: &[(u64, u8, u8)]) -> Result<Log, OutOfMemory> {
    let mut log = Log::new(alloc)?;
    for (clock, client, event) in lines {
        log.add(Line {
            stamp: Stamp {
                clock: *clock,
                client: *client,
            },
            tx: tx(*client),
            op: 1,
            object: 0,
            event: *event,
        })?;
    }
    Ok(log)
}

/// The promise of a client's first transaction, with one own line.
pub(crate) fn promise(
    alloc: Global,
    client: u8,
    op: u8,
    event: u8,
) -> Result<Prepared, OutOfMemory> {
    let mut own = Owns::new(alloc);
    own.push(OwnLine {
        op,
        object: 0,
        event,
    })?;
    Ok(Prepared {
        tx: tx(client),
        epoch: 1,
        locks: Reads::new(alloc),
        own,
        lines: Log::new(alloc)?,
    })
}

/// These promises.
pub(crate) fn promises(alloc: Global, rows: &[(u8, u8, u8)]) -> Result<PreparedList, OutOfMemory> {
    let mut promises = PreparedList::new(alloc);
    for (client, op, event) in rows {
        promises.push(promise(alloc, *client, *op, *event)?)?;
    }
    Ok(promises)
}

/// Whether each promise is of a client that may be declared.
#[tactic(auto, using(crate::proofs::Promises::of_clients))]
pub(crate) fn are_of_clients(promises: &[Prepared]) -> bool
    ensures { IsTrue result → AreOfClients promises.now }
{
    all_are_of_clients(promises)
}

/// The same, as a test.
fn all_are_of_clients(promises: &[Prepared]) -> bool
    ensures { result ≡ list_all is_of_client promises.now }
{
    promises.iter().all(|promise| promise.tx.client < 16)
}

/// An answer. It takes no memory, but for a log.
pub(crate) fn answer(alloc: Global, said: Said) -> Result<Answer, OutOfMemory>
    ensures { IfOk result (λ a. AnswerFits (Some a)) }
{
    match said {
        Said::Granted => Ok(Answer::Granted(Grant {
            life: 1,
            clock: 40,
            log: Log::new(alloc)?,
            count: 0,
        })),
        Said::Clash => Ok(Answer::Clash {
            holder: tx(2),
            inv: 0,
            event: WROTE_1,
        }),
        Said::Closed => Ok(Answer::Closed { epoch: 2 }),
        Said::Behind => Ok(Answer::Behind { epoch: 1 }),
        Said::Restarted => Ok(Answer::Restarted { life: 2 }),
        Said::Stale => Ok(Answer::Stale),
        Said::Fault => Ok(Answer::Fault),
        Said::Yes => Ok(Answer::Yes { clock: 40 }),
        Said::Installed => Ok(Answer::Installed),
        Said::Committed(..) | Said::Aborted | Said::Active => Ok(told(said)),
    }
}

/// How a transaction stands.
fn told(said: Said) -> Answer
    ensures { AnswerFits (Some result) }
{
    let verdict = match said {
        Said::Committed(client, clock) => Outcome::Committed {
            stamp: Stamp { clock, client },
        },
        Said::Aborted => Outcome::Aborted,
        _ => Outcome::Active,
    };
    Answer::Answered { verdict }
}

/// A message that isn't an answer.
pub(crate) fn message(alloc: Global, kind: Other) -> Result<Message, OutOfMemory>
    ensures { IfOk result MessageFits }
{
    let tx = tx(1);
    match kind {
        Other::Request => Ok(Message::Request {
            tx,
            epoch: 1,
            life: 0,
            want: Want::Prepare,
        }),
        Other::Decision => Ok(Message::Decision {
            tx,
            verdict: Outcome::Aborted,
        }),
        Other::Inquiry => Ok(Message::Inquiry { tx }),
        Other::Ask => Ok(Message::Ask { tx }),
        Other::Close => Ok(Message::Close { epoch: 2 }),
        Other::Install => Ok(Message::Install(EpochStart {
            epoch: 2,
            clock: 9,
            lines: Log::new(alloc)?,
        })),
    }
}
