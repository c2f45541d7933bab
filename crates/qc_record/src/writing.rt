//! Writing a record.

ghost use Rattle.std.specs.Prelude.{◌≡◌, ◌<◌, ◌^◌, ◌++◌, true, length, OnOk, IfOk};
ghost use Rattle.qc_record.specs.Records.{spelled, is_legal, prepared_form, done_form, start_form, commit_form};

use crate::field::put;
use crate::item::put_list;
use crate::line::put_log;
use crate::parts::put_tx;
use qc_entry::{Commit, Log, Prepared};
use qc_list::OutOfMemory;
use qc_msg::{EpochStart, Record};
use qc_stamp::TxId;
use std::alloc::Global;

/// Adds what stands behind the kind of a Prepare.
fn put_prepared(out: &mut Vec<u8>, prepared: &Prepared) -> Result<(), OutOfMemory>
    requires locks { length prepared.now.locks < 2 ^ 16 }
    requires own { length prepared.now.own < 2 ^ 8 }
    requires lines { length prepared.now.lines < 2 ^ 32 }
    ensures { OnOk result (out.new.items ≡ out.old.items ++ prepared_form.spelled prepared.now) }
{
    put_tx(out, &prepared.tx)?;
    put(out, 1, u64::from(prepared.epoch))?;
    put_list(out, 2, 65535, prepared.locks.items())?;
    put_list(out, 1, 16, prepared.own.items())?;
    put_log(out, &prepared.lines)
}

/// Adds what stands behind the kind of a Done.
fn put_done(out: &mut Vec<u8>, tx: &TxId, clock: u64) -> Result<(), OutOfMemory>
    ensures { OnOk result (out.new.items ≡ out.old.items ++ done_form.spelled (tx.now, clock)) }
{
    put_tx(out, tx)?;
    put(out, 8, clock)
}

/// Adds what stands behind the kind of an Install or a Decide.
fn put_start(out: &mut Vec<u8>, start: &EpochStart) -> Result<(), OutOfMemory>
    requires { length start.now.lines < 2 ^ 32 }
    ensures { OnOk result (out.new.items
        ≡ out.old.items ++ start_form.spelled (start.now.epoch, (start.now.clock, start.now.lines))) }
{
    put(out, 1, u64::from(start.epoch))?;
    put(out, 8, start.clock)?;
    put_log(out, &start.lines)
}

/// Adds what stands behind the kind of a Commit.
fn put_commit(out: &mut Vec<u8>, commit: &Commit) -> Result<(), OutOfMemory>
    requires { length commit.now.ops < 2 ^ 8 }
    ensures { OnOk result (out.new.items ≡ out.old.items ++ commit_form.spelled commit.now) }
{
    put_tx(out, &commit.tx)?;
    put(out, 8, commit.stamp.clock)?;
    put_list(out, 1, 16, commit.ops.items())
}

/// Adds a record's bytes.
fn put_record(out: &mut Vec<u8>, rec: &Record) -> Result<(), OutOfMemory>
    requires { is_legal rec.now ≡ true }
    ensures { OnOk result (out.new.items ≡ out.old.items ++ spelled rec.now) }
{
    match rec {
        Record::Life => put(out, 1, 1),
        Record::Prepare(prepared) => {
            put(out, 1, 2)?;
            put_prepared(out, prepared)
        }
        Record::Done { tx, clock } => {
            put(out, 1, 3)?;
            put_done(out, tx, *clock)
        }
        Record::Close { epoch } => {
            put(out, 1, 4)?;
            put(out, 1, u64::from(*epoch))
        }
        Record::Install(start) => {
            put(out, 1, 5)?;
            put_start(out, start)
        }
        Record::Commit(commit) => {
            put(out, 1, 6)?;
            put_commit(out, commit)
        }
        Record::Decide(start) => {
            put(out, 1, 7)?;
            put_start(out, start)
        }
    }
}

/// The one spelling of a record whose numbers are in their ranges and whose
/// lists are in their orders. The one error is want of memory.
pub fn write_bytes(alloc: Global, rec: &Record) -> Result<Vec<u8>, OutOfMemory>
    requires { is_legal rec.now ≡ true }
    ensures { IfOk result (λ v. v.items ≡ spelled rec.now) }
{
    let mut out = Vec::new(alloc);
    put_record(&mut out, rec)?;
    Ok(out)
}
