//! What a client takes, written shortly.

ghost use Rattle.std.specs.Prelude.{◌≤◌, Some, IfOk};
ghost use Rattle.tests_actors.specs.Young.{most_told, told};

use crate::declared::X;
use qc_entry::{Line, Log};
use qc_list::OutOfMemory;
use qc_msg::{Answer, Grant};
use qc_stamp::{Stamp, TxId};
use std::alloc::Global;

/// What client 1 takes.
#[derive(Clone, Copy)]
pub(crate) enum Taken<'a> {
    /// The commands.
    Begin,
    /// To execute an invocation on an object.
    Do(u8, u8),
    Commit,
    Abort,
    /// The answer to the request of this number.
    Answer(u32, Said<'a>),
    /// The request of this number is lost.
    Lost(u32),
    /// Site 2 asks how the client's transaction of this number stands.
    Inquiry(u32),
    /// The administrator asks the same, by message 77.
    Ask(u32),
}

/// What a request is answered.
#[derive(Clone, Copy)]
pub(crate) enum Said<'a> {
    /// Granted in life 1, with a clock and lines of x, each by clock, client and
    /// event.
    Granted(u32, &'a [(u64, u8, u8)]),
    /// Granted in a life, with clock 0 and no line.
    GrantedIn(u32),
    /// What the first transaction of a client holds conflicts.
    Clash(u8),
    /// The other answers to a client.
    Closed(u8),
    Behind,
    Restarted(u32),
    Stale,
    Fault,
    Yes(u32),
}

/// A transaction of a client's first life.
pub(crate) fn tx(client: u8, number: u32) -> TxId {
    TxId {
        client,
        life: 1,
        number,
    }
}

/// The answer.
pub(crate) fn answer(alloc: Global, said: Said<'_>) -> Result<Answer, OutOfMemory>
    ensures { IfOk result (λ answer. told (Some answer) ≤ most_told) }
{
    match said {
        Said::Granted(clock, lines) => granted(alloc, clock, lines),
        Said::GrantedIn(life) => granted_in(alloc, life),
        Said::Clash(client) => Ok(clash(client)),
        Said::Closed(epoch) => Ok(Answer::Closed { epoch }),
        Said::Behind => Ok(Answer::Behind { epoch: 1 }),
        Said::Restarted(life) => Ok(Answer::Restarted { life }),
        Said::Stale => Ok(Answer::Stale),
        Said::Fault => Ok(Answer::Fault),
        Said::Yes(clock) => Ok(yes(clock)),
    }
}

/// A grant in life 1.
fn granted(alloc: Global, clock: u32, lines: &[(u64, u8, u8)]) -> Result<Answer, OutOfMemory>
    ensures { IfOk result (λ answer. told (Some answer) ≤ most_told) }
{
    let log = log(alloc, lines)?;
    Ok(Answer::Granted(Grant {
        life: 1,
        clock: u64::from(clock),
        count: log.lines().len() as u64,
        log,
    }))
}

/// A grant in a life, with no line.
fn granted_in(alloc: Global, life: u32) -> Result<Answer, OutOfMemory>
    ensures { IfOk result (λ answer. told (Some answer) ≤ most_told) }
{
    let log = Log::new(alloc)?;
    Ok(Answer::Granted(Grant {
        life,
        clock: 0,
        log,
        count: 0,
    }))
}

/// A log of these lines.
fn log(alloc: Global, lines: &[(u64, u8, u8)]) -> Result<Log, OutOfMemory> {
    let mut log = Log::new(alloc)?;
    for (clock, client, event) in lines {
        log.add(line(*clock, *client, *event))?;
    }
    Ok(log)
}

/// A line of the first operation of a client's first transaction, on x.
fn line(clock: u64, client: u8, event: u8) -> Line {
    Line {
        stamp: Stamp { clock, client },
        tx: tx(client, 1),
        op: 1,
        object: X,
        event,
    }
}

/// A Clash with a client's first transaction.
fn clash(client: u8) -> Answer
    ensures { told (Some result) ≤ most_told }
{
    Answer::Clash {
        holder: tx(client, 1),
        inv: 0,
        event: 3,
    }
}

/// A promise.
fn yes(clock: u32) -> Answer
    ensures { told (Some result) ≤ most_told }
{
    Answer::Yes {
        clock: u64::from(clock),
    }
}
