//! What one step counts: committed operations with a response that come to stand,
//! and the lines that its message carries or that its rise keeps. A number that
//! would pass 4,294,967,295 is that.

ghost use Rattle.std.specs.Prelude.{◌≡◌, ℕ, drop};
ghost use Rattle.qc_msg.specs.Counts.{answered, answered_at, answered_in, answered_in_all, carried_at, carried_back};
ghost use Rattle.qc_msg.specs.Counts.{carried_in, commit_of, lines_answered, lines_in, lines_promised, lines_recorded};
ghost use Rattle.qc_msg.specs.Counts.{lines_wanted, standing_after};
ghost use Rattle.qc_fabric.specs.Logs.{counted, stored};

use qc_entry::{Op, Prepared};
use qc_msg::{Answer, Message, Record, Step, Want};

/// A record of a rise takes about the room of so many lines, beside its own.
const RECORD_LINES: u32 = 4;

/// How many records stand at a step's actor after it, of so many before it.
pub(crate) fn standing_by(before: usize, step: &Step) -> usize
    ensures { (n : ℕ) → before ≡ stored n → result ≡ stored (standing_after n step.now) }
{
    match step {
        Step::Wrote(_) => before.saturating_add(1),
        Step::Rose(records) => records.items().len(),
        _ => before,
    }
}

/// The committed operations with a response that a step brings to stand, where so
/// many records stood at its actor before it.
pub(crate) fn operations_by(before: usize, step: &Step) -> u32
    ensures { (n : ℕ) → before ≡ stored n → result ≡ counted (answered_at n step.now) }
{
    match step {
        Step::Wrote(written) => operations_of(written),
        Step::Rose(records) => operations_behind(before, records.items()),
        _ => 0,
    }
}

/// The committed operations with a response in the records of a rise behind the
/// first so many.
fn operations_behind(before: usize, records: &[Record]) -> u32
    ensures { (n : ℕ) → before ≡ stored n → result ≡ counted (answered_in_all (drop n records.now)) }
{
    operations_in(&records[before.min(records.len())..])
}

/// The committed operations with a response in records.
fn operations_in(records: &[Record]) -> u32
    ensures { result ≡ counted (answered_in_all records.now) }
{
    let mut total = 0u32;
    for record in records {
        total = total.saturating_add(operations_of(record));
    }
    total
}

/// The committed operations with a response in a record.
fn operations_of(written: &Record) -> u32
    ensures { result ≡ counted (answered_in (commit_of written.now)) }
{
    match written {
        Record::Commit(commit) => with_response(commit.ops.items()),
        _ => 0,
    }
}

/// How many of these operations have a response.
fn with_response(ops: &[Op]) -> u32
    ensures { result ≡ counted (answered ops.now) }
{
    saturated(ops.iter().filter(|op| op.resp.is_some()).count())
}

/// The lines that a step's message carries, or what its rise keeps.
pub(crate) fn carried_by(step: &Step) -> u32
    ensures { result ≡ counted (carried_at step.now) }
{
    match step {
        Step::Sent { message, .. } => lines_of(message),
        Step::Rose(records) => carried_back(records.items()),
        _ => 0,
    }
}

/// What a rise keeps.
fn carried_back(records: &[Record]) -> u32
    ensures { result ≡ counted (carried_back records.now) }
{
    let mut total = 0u32;
    for record in records {
        total = total.saturating_add(carried_in(record));
    }
    total
}

/// What a record counts in a rise.
fn carried_in(written: &Record) -> u32
    ensures { result ≡ counted (carried_in written.now) }
{
    lines_recorded(written).saturating_add(RECORD_LINES)
}

/// The lines that a record has.
fn lines_recorded(written: &Record) -> u32
    ensures { result ≡ counted (lines_recorded written.now) }
{
    match written {
        Record::Prepare(prepared) => saturated(prepared.lines.lines().len()),
        Record::Install(start) | Record::Decide(start) => saturated(start.lines.lines().len()),
        Record::Life | Record::Done { .. } | Record::Close { .. } | Record::Commit(_) => 0,
    }
}

/// The lines that a message carries.
fn lines_of(message: &Message) -> u32
    ensures { result ≡ counted (lines_in message.now) }
{
    match message {
        Message::Request { want, .. } => lines_wanted(want),
        Message::Answer { answer, .. } => lines_answered(answer),
        Message::Install(start) => saturated(start.lines.lines().len()),
        Message::Decision { .. }
        | Message::Inquiry { .. }
        | Message::Ask { .. }
        | Message::Close { .. } => 0,
    }
}

/// The lines that a request carries.
fn lines_wanted(want: &Want) -> u32
    ensures { result ≡ counted (lines_wanted want.now) }
{
    match want {
        Want::Append { view, .. } => saturated(view.lines().len()),
        Want::Read(_) | Want::Prepare => 0,
    }
}

/// The lines that an answer carries.
fn lines_answered(answer: &Answer) -> u32
    ensures { result ≡ counted (lines_answered answer.now) }
{
    match answer {
        Answer::Granted(grant) => saturated(grant.log.lines().len()),
        Answer::Shut(snapshot) => saturated(snapshot.log.lines().len()).saturating_add(
            lines_promised(snapshot.prepared.items()),
        ),
        _ => 0,
    }
}

/// The lines of promises.
fn lines_promised(prepared: &[Prepared]) -> u32
    ensures { result ≡ counted (lines_promised prepared.now) }
{
    let mut total = 0u32;
    for promise in prepared {
        total = total.saturating_add(saturated(promise.lines.lines().len()));
    }
    total
}

/// The number, or the greatest that fits.
fn saturated(number: usize) -> u32
    ensures { result ≡ counted number }
{
    number.min(u32::MAX as usize) as u32
}
