//! Reading a record.

ghost use Rattle.std.specs.Prelude.{◌≡◌, ◌<◌, ◌^◌, ◌+◌, ◌-◌, ℕ, List, true, length, Result, Ok, IfOk};
ghost use Rattle.qc_msg.specs.declared.record.Record.{Record};
ghost use Rattle.qc_msg.specs.declared.record.Record.TheVariants as records;
ghost use Rattle.qc_record.specs.declared.fault.RecordFault.TheVariants.{Torn};
ghost use Rattle.qc_record.specs.Answers.{Gives, Answers};
ghost use Rattle.qc_record.specs.Form.{nothing, all_of};
ghost use Rattle.qc_record.specs.Records.{body_at, commit_form, decide_of, done_form, done_of, epoch_form, install_of};
ghost use Rattle.qc_record.specs.Records.{is_legal, kind_at, placed, prepared_form, record_at, spelled};
ghost use Rattle.qc_record.specs.Records.{start_form, whole_at};

use crate::RecordFault;
use crate::fault::Halt;
use crate::field::number;
use crate::item::list;
use crate::line::log;
use crate::parts::{GREATEST_CLOCK, tx};
use qc_entry::{Commit, Log, Prepared};
use qc_msg::{EpochStart, Record};
use qc_stamp::Stamp;
use std::alloc::Global;

/// A Prepare, behind its kind.
fn prepare(alloc: Global, bytes: &[u8]) -> Result<(Record, &[u8]), Halt>
    ensures { Gives (λ x. (x.0, x.1.now)) result (body_at records.Prepare prepared_form bytes.now) }
{
    let (tx, rest) = tx(bytes)?;
    let (epoch, rest) = number(rest, 1, 1, 8)?;
    let (locks, rest) = list(alloc, rest, 2, 65535)?;
    let (own, rest) = list(alloc, rest, 1, 16)?;
    let (lines, rest) = log(alloc, rest)?;
    let prepared = Prepared {
        tx,
        epoch: epoch as u8,
        locks,
        own,
        lines,
    };
    Ok((Record::Prepare(prepared), rest))
}

/// A Done, behind its kind.
fn done(bytes: &[u8]) -> Result<(Record, &[u8]), Halt>
    ensures { Gives (λ x. (x.0, x.1.now)) result (body_at done_of done_form bytes.now) }
{
    let (tx, rest) = tx(bytes)?;
    let (clock, rest) = number(rest, 8, 1, GREATEST_CLOCK)?;
    Ok((Record::Done { tx, clock }, rest))
}

/// A Close, behind its kind.
fn close(bytes: &[u8]) -> Result<(Record, &[u8]), Halt>
    ensures { Gives (λ x. (x.0, x.1.now)) result (body_at records.Close epoch_form bytes.now) }
{
    let (epoch, rest) = number(bytes, 1, 1, 8)?;
    Ok((Record::Close { epoch: epoch as u8 }, rest))
}

/// What an epoch begins with.
fn start(alloc: Global, bytes: &[u8]) -> Result<(EpochStart, &[u8]), Halt>
    ensures { Gives (λ x. ((x.0.epoch, (x.0.clock, x.0.lines)), x.1.now)) result (start_form.read bytes.now) }
{
    let (epoch, rest) = number(bytes, 1, 1, 8)?;
    let (clock, rest) = number(rest, 8, 0, GREATEST_CLOCK)?;
    let (lines, rest) = log(alloc, rest)?;
    let epoch = epoch as u8;
    Ok((
        EpochStart {
            epoch,
            clock,
            lines,
        },
        rest,
    ))
}

/// An Install, behind its kind.
fn install(alloc: Global, bytes: &[u8]) -> Result<(Record, &[u8]), Halt>
    ensures { Gives (λ x. (x.0, x.1.now)) result (body_at install_of start_form bytes.now) }
{
    let (start, rest) = start(alloc, bytes)?;
    Ok((Record::Install(start), rest))
}

/// A Commit, behind its kind.
fn commit(alloc: Global, bytes: &[u8]) -> Result<(Record, &[u8]), Halt>
    ensures { Gives (λ x. (x.0, x.1.now)) result (body_at records.Commit commit_form bytes.now) }
{
    let (tx, rest) = tx(bytes)?;
    let (clock, rest) = number(rest, 8, 1, GREATEST_CLOCK)?;
    let (ops, rest) = list(alloc, rest, 1, 16)?;
    let stamp = Stamp {
        clock,
        client: tx.client,
    };
    Ok((Record::Commit(Commit { stamp, tx, ops }), rest))
}

/// A Decide, behind its kind.
fn decide(alloc: Global, bytes: &[u8]) -> Result<(Record, &[u8]), Halt>
    ensures { Gives (λ x. (x.0, x.1.now)) result (body_at decide_of start_form bytes.now) }
{
    let (start, rest) = start(alloc, bytes)?;
    Ok((Record::Decide(start), rest))
}

/// The fault with so many of the bytes left.
fn torn(size: usize, left: usize) -> RecordFault
    requires { size < 2 ^ 32 }
    ensures { result ≡ Torn (size - left) }
{
    let offset = size.saturating_sub(left) as u32;
    RecordFault::Torn { offset }
}

/// The record, if no bytes stand behind it, or the place of the fault in so
/// many bytes.
fn placed(size: usize, read: Result<(Record, &[u8]), Halt>) -> Result<Record, RecordFault>
    requires { size < 2 ^ 32 }
    ensures { (form : Result (Record × List ℕ) ℕ) → Gives (λ x. (x.0, x.1.now)) read.entry form
        → Answers result (placed size (all_of form)) }
{
    match read {
        Ok((record, rest)) => {
            if !rest.is_empty() {
                return Err(torn(size, rest.len()));
            }
            Ok(record)
        }
        Err(Halt::Left(left)) => Err(torn(size, left)),
        Err(Halt::OutOfMemory) => Err(RecordFault::OutOfMemory),
    }
}

/// All of the bytes behind the kind of a Life.
fn whole_life(rest: &[u8]) -> Result<Record, RecordFault>
    requires { length rest.now + 1 < 2 ^ 32 }
    ensures { Answers result (whole_at (λ _. records.Life) nothing rest.now) }
{
    placed(rest.len() + 1, Ok((Record::Life, rest)))
}

/// All of the bytes behind the kind of a Prepare.
fn whole_prepare(alloc: Global, rest: &[u8]) -> Result<Record, RecordFault>
    requires { length rest.now + 1 < 2 ^ 32 }
    ensures { Answers result (whole_at records.Prepare prepared_form rest.now) }
{
    placed(rest.len() + 1, prepare(alloc, rest))
}

/// All of the bytes behind the kind of a Done.
fn whole_done(rest: &[u8]) -> Result<Record, RecordFault>
    requires { length rest.now + 1 < 2 ^ 32 }
    ensures { Answers result (whole_at done_of done_form rest.now) }
{
    placed(rest.len() + 1, done(rest))
}

/// All of the bytes behind the kind of a Close.
fn whole_close(rest: &[u8]) -> Result<Record, RecordFault>
    requires { length rest.now + 1 < 2 ^ 32 }
    ensures { Answers result (whole_at records.Close epoch_form rest.now) }
{
    placed(rest.len() + 1, close(rest))
}

/// All of the bytes behind the kind of an Install.
fn whole_install(alloc: Global, rest: &[u8]) -> Result<Record, RecordFault>
    requires { length rest.now + 1 < 2 ^ 32 }
    ensures { Answers result (whole_at install_of start_form rest.now) }
{
    placed(rest.len() + 1, install(alloc, rest))
}

/// All of the bytes behind the kind of a Commit.
fn whole_commit(alloc: Global, rest: &[u8]) -> Result<Record, RecordFault>
    requires { length rest.now + 1 < 2 ^ 32 }
    ensures { Answers result (whole_at records.Commit commit_form rest.now) }
{
    placed(rest.len() + 1, commit(alloc, rest))
}

/// All of the bytes behind the kind of a Decide.
fn whole_decide(alloc: Global, rest: &[u8]) -> Result<Record, RecordFault>
    requires { length rest.now + 1 < 2 ^ 32 }
    ensures { Answers result (whole_at decide_of start_form rest.now) }
{
    placed(rest.len() + 1, decide(alloc, rest))
}

/// The record that a kind and the bytes behind it spell.
fn of_kind(alloc: Global, kind: u8, rest: &[u8]) -> Result<Record, RecordFault>
    requires { length rest.now + 1 < 2 ^ 32 }
    ensures { Answers result (kind_at kind rest.now) }
{
    match kind {
        1 => whole_life(rest),
        2 => whole_prepare(alloc, rest),
        3 => whole_done(rest),
        4 => whole_close(rest),
        5 => whole_install(alloc, rest),
        6 => whole_commit(alloc, rest),
        7 => whole_decide(alloc, rest),
        kind => Err(RecordFault::Unknown { kind }),
    }
}

/// The record that bytes spell, or what is wrong with them.
fn record_in(alloc: Global, bytes: &[u8]) -> Result<Record, RecordFault>
    requires { length bytes.now < 2 ^ 32 }
    ensures { Answers result (record_at bytes.now) }
{
    let Some(kind) = bytes.first() else {
        return Err(RecordFault::Torn { offset: 0 });
    };
    let (_, rest) = bytes.split_at(1);
    of_kind(alloc, *kind, rest)
}

/// The record that bytes spell, each byte of them.
pub fn read_bytes(alloc: Global, bytes: &[u8]) -> Result<Record, RecordFault>
    requires { length bytes.now < 2 ^ 32 }
    // What is read is spelled so.
    ensures found { IfOk result (λ rec. (bytes.now ≡ spelled rec) × (is_legal rec ≡ true)) }
    // What is spelled so is read, unless memory runs out.
    ensures only { (rec : Record) → is_legal rec ≡ true → bytes.now ≡ spelled rec → Answers result (Ok rec) }
    // Which fault it is, and where.
    ensures exact { Answers result (record_at bytes.now) }
{
    record_in(alloc, bytes)
}
