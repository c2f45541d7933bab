//! Bytes of records, written by hand from the format, and what is read of
//! bytes.

ghost use Rattle.std.specs.Prelude.{◌≡◌, true};
ghost use Rattle.qc_record.specs.Records.{is_legal};

use qc_msg::Record;
use qc_record::{RecordFault, read_bytes, write_bytes};

/// A Life.
pub(crate) const LIFE: [u8; 1] = [1];

/// The Prepare of the first transaction of a client: a lock and an own line.
pub(crate) const PREPARE: [u8; 23] = [
    2, 0, 0, 0, 0, 1, 0, 0, 0, 1, 1, 0, 1, 0, 0, 1, 1, 0, 3, 0, 0, 0, 0,
];

/// Its Done.
pub(crate) const DONE: [u8; 18] = [3, 0, 0, 0, 0, 1, 0, 0, 0, 1, 0, 0, 0, 0, 0, 0, 0, 1];

/// A Close for epoch 8.
pub(crate) const CLOSE: [u8; 2] = [4, 8];

/// An Install of epoch 2 with a line.
pub(crate) const INSTALL: [u8; 34] = [
    5, 2, 0, 0, 0, 0, 0, 0, 0, 9, 0, 0, 0, 1, 0, 0, 0, 0, 0, 0, 0, 9, 1, 0, 0, 0, 1, 0, 0, 0, 7, 1,
    3, 5,
];

/// The Commit of that first transaction: two operations with a response on
/// object 0.
pub(crate) const COMMIT: [u8; 25] = [
    6, 0, 0, 0, 0, 1, 0, 0, 0, 1, 0, 0, 0, 0, 0, 0, 0, 1, 2, 0, 2, 2, 0, 0, 1,
];

/// A Decide of epoch 1 without lines.
pub(crate) const DECIDE: [u8; 14] = [7, 1, 0, 0, 0, 0, 0, 0, 0, 0, 0, 0, 0, 0];

/// What becomes of bytes.
#[derive(Clone, Copy, Debug, PartialEq, Eq)]
pub(crate) enum Reading {
    /// They are read as a record that is written so again.
    Taken,
    /// They are no record from this place on.
    Torn(u32),
    /// Their first byte is no kind.
    Unknown,
    /// Anything else.
    Other,
}

/// What becomes of at most 65,536 bytes.
pub(crate) fn told(rt: HostRuntime, bytes: &[u8]) -> Reading {
    if bytes.len() > 65_536 {
        return Reading::Other;
    }
    match read_bytes(rt.alloc(), bytes) {
        Ok(rec) => taken(rt, &rec, bytes),
        Err(RecordFault::Torn { offset }) => Reading::Torn(offset),
        Err(RecordFault::Unknown { kind }) => unknown(kind, bytes),
        Err(RecordFault::OutOfMemory) => Reading::Other,
    }
}

/// Whether a record is written as these bytes.
fn taken(rt: HostRuntime, rec: &Record, bytes: &[u8]) -> Reading
    requires { is_legal rec.now ≡ true }
{
    match write_bytes(rt.alloc(), rec) {
        Ok(again) if again.as_slice() == bytes => Reading::Taken,
        _ => Reading::Other,
    }
}

/// Whether the unknown kind is the first of the bytes.
fn unknown(kind: u8, bytes: &[u8]) -> Reading {
    match bytes.first() {
        Some(first) if *first == kind => Reading::Unknown,
        _ => Reading::Other,
    }
}
