//! Names of transactions, and lists of plain values, in brackets.

use qc_entry::{Line, Op, OwnLine, ReadLock};
use qc_list::OutOfMemory;
use qc_stamp::{Stamp, TxId};
use std::fmt::{self, Write};

/// A transaction's name, as `0.1.1`.
#[derive(Clone, Copy)]
pub(crate) struct Tx(pub(crate) TxId);

impl fmt::Display for Tx {
    fn fmt<W: Write>(&self, f: &mut fmt::Formatter<W>) -> fmt::Result {
        write!(f, "{}.{}.{}", self.0.client, self.0.life, self.0.number)
    }
}

/// A stamp, as `5.0`.
#[derive(Clone, Copy)]
pub(crate) struct At(pub(crate) Stamp);

impl fmt::Display for At {
    fn fmt<W: Write>(&self, f: &mut fmt::Formatter<W>) -> fmt::Result {
        write!(f, "{}.{}", self.0.clock, self.0.client)
    }
}

/// Adds what stands before an item: a comma, but for the first one.
fn put_comma(text: &mut String, place: usize) -> Result<(), OutOfMemory> {
    if place == 0 {
        Ok(())
    } else {
        text.push_str(", ")
    }
}

/// Adds lines, each by stamp, transaction, operation, object and event.
pub(crate) fn put_lines(text: &mut String, lines: &[Line]) -> Result<(), OutOfMemory> {
    text.push_str("[")?;
    for (place, line) in lines.iter().enumerate() {
        put_comma(text, place)?;
        put_line(text, line)?;
    }
    text.push_str("]")
}

/// Adds a line.
fn put_line(text: &mut String, line: &Line) -> Result<(), OutOfMemory> {
    let (at, tx) = (At(line.stamp), Tx(line.tx));
    write!(text, "{at} {tx} {} {} {}", line.op, line.object, line.event)
}

/// Adds own lines, each by operation, object and event.
pub(crate) fn put_owns(text: &mut String, owns: &[OwnLine]) -> Result<(), OutOfMemory> {
    text.push_str("[")?;
    for (place, own) in owns.iter().enumerate() {
        put_comma(text, place)?;
        write!(text, "{} {} {}", own.op, own.object, own.event)?;
    }
    text.push_str("]")
}

/// Adds read locks, each by object and invocation.
pub(crate) fn put_locks(text: &mut String, locks: &[ReadLock]) -> Result<(), OutOfMemory> {
    text.push_str("[")?;
    for (place, lock) in locks.iter().enumerate() {
        put_comma(text, place)?;
        write!(text, "{} {}", lock.object, lock.inv)?;
    }
    text.push_str("]")
}

/// Adds operations, each by object, invocation and response.
pub(crate) fn put_ops(text: &mut String, ops: &[Op]) -> Result<(), OutOfMemory> {
    text.push_str("[")?;
    for (place, op) in ops.iter().enumerate() {
        put_comma(text, place)?;
        put_op(text, op)?;
    }
    text.push_str("]")
}

/// Adds an operation; one without a response has `-`.
fn put_op(text: &mut String, op: &Op) -> Result<(), OutOfMemory> {
    match op.resp {
        Some(resp) => write!(text, "{} {} {resp}", op.object, op.inv),
        None => write!(text, "{} {} -", op.object, op.inv),
    }
}
