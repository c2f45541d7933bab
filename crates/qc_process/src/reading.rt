//! The bodies of a journal are read as records that fit their actor.

ghost use Rattle.std.specs.Prelude.{◌≡◌, ◌≤◌, ◌<◌, ◌^◌, ℕ, true, false, length, IfOk};
ghost use Rattle.qc_fit.specs.Fits.{fits};
ghost use Rattle.qc_journal.specs.Journal.{AreShort};
ghost use Rattle.qc_msg.specs.declared.record.Record.{Record as MsgRecord};
ghost use Rattle.qc_record.specs.Records.{is_legal, spelled};
ghost use Rattle.qc_process.specs.Reading.{ReadsAs, ReadsOne};

use qc_decl::Declaration;
use qc_fit::fits;
use qc_list::OutOfMemory;
use qc_msg::Record;
use qc_record::{RecordFault, read_bytes};
use std::alloc::{AllocError, Global};

/// What the bodies of a journal are.
#[derive(Drop)]
pub(crate) enum Reading {
    /// Records that all fit.
    Fit(Vec<Record>),
    /// At this byte of the journal is the first that is none, or doesn't fit.
    Unfit { offset: u64 },
}

/// Reads these bodies as the records of this actor.
pub(crate) fn read_records(
    alloc: Global,
    decl: &Declaration,
    actor: u8,
    bodies: &[Vec<u8>],
) -> Result<Reading, OutOfMemory>
    requires { AreShort bodies.now }
    ensures { IfOk result (λ reading. ReadsAs decl.now actor bodies.now reading) }
{
    let mut records = Vec::new(alloc);
    let mut place = 0;
    let mut offset = 0;
    'bodies: for body in bodies {
        let Some(rec) = read_one(alloc, decl, actor, place, body)? else {
            return Ok(Reading::Unfit { offset });
        };
        records.push(rec)?;
        place += 1;
        offset += 5 + body.len() as u64;
    }
    Ok(Reading::Fit(records))
}

/// The record of this body, if it is one that fits the actor behind so many
/// others.
fn read_one(
    alloc: Global,
    decl: &Declaration,
    actor: u8,
    before: u32,
    body: &Vec<u8>,
) -> Result<Option<Record>, OutOfMemory>
    requires { length body.now.items ≤ 65536 }
    ensures { IfOk result (λ rec. ReadsOne decl.now actor before body.now.items rec) }
{
    match read_bytes(alloc, body.as_slice()) {
        Ok(rec) => Ok(if fits(decl, actor, before, &rec) {
            Some(rec)
        } else {
            None
        }),
        Err(RecordFault::OutOfMemory) => Err(AllocError),
        Err(RecordFault::Torn { .. } | RecordFault::Unknown { .. }) => Ok(None),
    }
}
