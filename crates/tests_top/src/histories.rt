//! What a history's commit records come to on one copy of a register, and whether clients were told of these alone.

use qc_entry::{Commit, Op};
use qc_list::List;
use qc_msg::{Entry, Record, Reply, Step};
use qc_stamp::Stamp;
use std::cmp::Ordering;

/// More commits than any of these runs has.
const MANY: u32 = 100;

/// The invocations of `register`, and its response to a write.
const READ: u8 = 0;

const WRITE_ZERO: u8 = 1;

const WRITE_ONE: u8 = 2;

const OK: u8 = 2;

/// Whether a stamp is above another, if there is one.
fn is_above(stamp: Stamp, other: Option<Stamp>) -> bool {
    match other {
        Some(other) => stamp.compare(&other) == Ordering::Greater,
        None => true,
    }
}

/// The one of these with the smaller stamp.
fn earlier<'a>(one: Option<&'a Commit>, other: Option<&'a Commit>) -> Option<&'a Commit> {
    match (one, other) {
        (Some(a), Some(b)) if is_above(a.stamp, Some(b.stamp)) => Some(b),
        (Some(a), _) => Some(a),
        (None, other) => other,
    }
}

/// The commit of a record, if it is one with a stamp above this one.
fn commit_above(record: &Record, above: Option<Stamp>) -> Option<&Commit> {
    match record {
        Record::Commit(commit) if is_above(commit.stamp, above) => Some(commit),
        _ => None,
    }
}

/// The first commit above a stamp of those that a journal gave.
fn first_risen(records: &List<Record>, above: Option<Stamp>) -> Option<&Commit> {
    let mut first = None;
    for record in records.items() {
        first = earlier(first, commit_above(record, above));
    }
    first
}

/// The commit with the smallest stamp above this one that was written, or that rose.
fn first_commit(entries: &[Entry], above: Option<Stamp>) -> Option<&Commit> {
    let mut first = None;
    for entry in entries {
        let here = match &entry.step {
            Step::Wrote(record) => commit_above(record, above),
            Step::Rose(records) => first_risen(records, above),
            _ => None,
        };
        first = earlier(first, here);
    }
    first
}

/// What a register of this value is after an operation, if that is a step of it.
fn stepped(value: u8, op: &Op) -> Option<u8> {
    match (op.inv, op.resp) {
        (READ, Some(resp)) if resp == value => Some(value),
        (WRITE_ZERO, Some(OK)) => Some(0),
        (WRITE_ONE, Some(OK)) => Some(1),
        _ => None,
    }
}

/// The same after several operations.
fn replayed(value: u8, ops: &[Op]) -> Option<u8> {
    let mut value = value;
    for op in ops {
        value = stepped(value, op)?;
    }
    Some(value)
}

/// Whether all that committed, in the order of stamps, is a run of one register.
pub(crate) fn is_replayed(entries: &[Entry]) -> bool {
    let mut value = 0;
    let mut last = None;
    for _ in 0..MANY {
        let Some(commit) = first_commit(entries, last) else {
            return true;
        };
        let Some(next) = replayed(value, commit.ops.items()) else {
            return false;
        };
        value = next;
        last = Some(commit.stamp);
    }
    false
}

/// Whether a commit of this stamp is among a journal's records.
fn has_risen(records: &List<Record>, stamp: Stamp) -> bool {
    for record in records.items() {
        if is_commit(record, stamp) {
            return true;
        }
    }
    false
}

/// Whether a record is a commit of this stamp.
fn is_commit(record: &Record, stamp: Stamp) -> bool {
    match record {
        Record::Commit(commit) => commit.stamp == stamp,
        _ => false,
    }
}

/// Whether a commit of this stamp is written in a step, or rises in it.
fn has_commit(step: &Step, stamp: Stamp) -> bool {
    match step {
        Step::Wrote(record) => is_commit(record, stamp),
        Step::Rose(records) => has_risen(records, stamp),
        _ => false,
    }
}

/// Whether a client is told in a step that a transaction committed with this stamp.
fn is_told(step: &Step, stamp: Stamp) -> bool {
    match step {
        Step::Told(Reply::Committed { stamp: told }) => *told == stamp,
        _ => false,
    }
}

/// Whether a commit of this stamp stands before anybody is told of it.
fn stands_before(entries: &[Entry], stamp: Stamp) -> bool {
    for entry in entries {
        if is_told(&entry.step, stamp) {
            return false;
        }
        if has_commit(&entry.step, stamp) {
            return true;
        }
    }
    false
}

/// Whether clients were told that a transaction committed for commits alone that stood before.
pub(crate) fn is_told_rightly(entries: &[Entry]) -> bool {
    for entry in entries {
        if let Step::Told(Reply::Committed { stamp }) = &entry.step {
            if !stands_before(entries, *stamp) {
                return false;
            }
        }
    }
    true
}
