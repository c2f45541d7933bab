//! Messages.

use crate::lists::{At, Tx, put_lines, put_owns};
use crate::record::put_promise;
use qc_entry::{Mark, Prepared};
use qc_list::OutOfMemory;
use qc_msg::{Answer, Grant, Message, Outcome, Want};

/// Adds a message.
pub(crate) fn put_message(text: &mut String, message: &Message) -> Result<(), OutOfMemory> {
    match message {
        Message::Request {
            tx,
            epoch,
            life,
            want,
        } => {
            write!(text, "{} epoch {epoch} life {life} ", Tx(*tx))?;
            put_want(text, want)
        }
        Message::Answer { to, answer } => {
            write!(text, "{to} ")?;
            put_answer(text, answer)
        }
        Message::Decision { tx, verdict } => {
            write!(text, "{} is ", Tx(*tx))?;
            put_outcome(text, *verdict)
        }
        Message::Inquiry { tx } => write!(text, "how is {}", Tx(*tx)),
        Message::Ask { tx } => write!(text, "ask {}", Tx(*tx)),
        Message::Close { epoch } => write!(text, "close {epoch}"),
        Message::Install(start) => {
            write!(text, "install {} clock {} ", start.epoch, start.clock)?;
            put_lines(text, start.lines.lines())
        }
    }
}

/// Adds how a transaction stands.
fn put_outcome(text: &mut String, outcome: Outcome) -> Result<(), OutOfMemory> {
    match outcome {
        Outcome::Committed { stamp } => write!(text, "committed {}", At(stamp)),
        Outcome::Aborted => text.push_str("aborted"),
        Outcome::Active => text.push_str("active"),
    }
}

/// Adds what is wanted of a site.
fn put_want(text: &mut String, want: &Want) -> Result<(), OutOfMemory> {
    match want {
        Want::Read(read) => {
            write!(text, "read {} {}", read.object, read.inv)?;
            put_mark(text, read.mark)
        }
        Want::Append { object, view, own } => {
            write!(text, "append {object} ")?;
            put_lines(text, view.lines())?;
            put_owns(text, own.items())
        }
        Want::Prepare => text.push_str("prepare"),
    }
}

/// Adds a mark, unless nothing was told.
fn put_mark(text: &mut String, mark: Mark) -> Result<(), OutOfMemory> {
    if mark == Mark::NONE {
        return Ok(());
    }
    write!(text, " since {}.{}.{}", mark.life, mark.epoch, mark.count)
}

/// Adds how many lines of the object came, where a grant doesn't tell all.
fn put_count(text: &mut String, grant: &Grant) -> Result<(), OutOfMemory> {
    if grant.count == grant.log.lines().len() as u64 {
        return Ok(());
    }
    write!(text, " of {}", grant.count)
}

/// Adds an answer.
fn put_answer(text: &mut String, answer: &Answer) -> Result<(), OutOfMemory> {
    match answer {
        Answer::Granted(grant) => {
            write!(text, "granted life {} clock {} ", grant.life, grant.clock)?;
            put_lines(text, grant.log.lines())?;
            put_count(text, grant)
        }
        Answer::Clash { holder, inv, event } => {
            write!(text, "clash {} {inv} {event}", Tx(*holder))
        }
        Answer::Closed { epoch } => write!(text, "closed {epoch}"),
        Answer::Behind { epoch } => write!(text, "behind {epoch}"),
        Answer::Restarted { life } => write!(text, "restarted {life}"),
        Answer::Stale => text.push_str("stale"),
        Answer::Fault => text.push_str("fault"),
        Answer::Yes { clock } => write!(text, "yes {clock}"),
        Answer::Shut(snapshot) => {
            write!(text, "shut clock {} ", snapshot.clock)?;
            put_lines(text, snapshot.log.lines())?;
            put_promises(text, snapshot.prepared.items())
        }
        Answer::Installed => text.push_str("installed"),
        Answer::Answered { verdict } => put_outcome(text, *verdict),
    }
}

/// Adds promises.
fn put_promises(text: &mut String, promises: &[Prepared]) -> Result<(), OutOfMemory> {
    for promise in promises {
        text.push_str(", ")?;
        put_promise(text, promise)?;
    }
    Ok(())
}
