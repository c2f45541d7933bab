//! Records.

use crate::lists::{At, Tx, put_lines, put_locks, put_ops, put_owns};
use qc_entry::{Commit, Prepared};
use qc_list::OutOfMemory;
use qc_msg::Record;

/// Adds a record.
pub(crate) fn put_record(text: &mut String, record: &Record) -> Result<(), OutOfMemory> {
    match record {
        Record::Life => text.push_str("life"),
        Record::Prepare(promise) => put_promise(text, promise),
        Record::Done { tx, clock } => write!(text, "done {} clock {clock}", Tx(*tx)),
        Record::Close { epoch } => write!(text, "close {epoch}"),
        Record::Install(start) => write!(text, "install {}", start.epoch),
        Record::Commit(commit) => put_commit(text, commit),
        Record::Decide(start) => write!(text, "decide {}", start.epoch),
    }
}

/// Adds a promise: its locks, its own lines, its lines.
pub(crate) fn put_promise(text: &mut String, promise: &Prepared) -> Result<(), OutOfMemory> {
    write!(text, "prepare {} epoch {} ", Tx(promise.tx), promise.epoch)?;
    put_locks(text, promise.locks.items())?;
    put_owns(text, promise.own.items())?;
    put_lines(text, promise.lines.lines())
}

/// Adds a commit record, with its operations.
fn put_commit(text: &mut String, commit: &Commit) -> Result<(), OutOfMemory> {
    write!(text, "commit {} {} ", At(commit.stamp), Tx(commit.tx))?;
    put_ops(text, commit.ops.items())
}
