//! Lines, and logs of them.

ghost use Rattle.std.specs.Prelude.{◌≡◌, ◌++◌, ◌<◌, ◌^◌, Option, OnOk, IfOk, length};
ghost use Rattle.qc_entry.specs.Line.{IsAscending};
ghost use Rattle.qc_record.specs.Answers.{Gives};
ghost use Rattle.qc_record.specs.Records.{line_after, line_form, lines_form};

use crate::fault::Halt;
use crate::field::{Floor, climb, next, put};
use crate::item::{Item, list, put_list};
use crate::parts::{GREATEST_CLOCK, GREATEST_ORDINAL, put_tx};
use qc_entry::{Line, Log};
use qc_list::OutOfMemory;
use qc_stamp::{Stamp, TxId};
use std::alloc::Global;

/// A line that isn't below the floor.
fn line_above<'a>(bytes: &'a [u8], floor: &[u64]) -> Result<(Line, &'a [u8]), Halt>
    ensures { Gives (λ x. (x.0, x.1.now)) result ((line_after floor.now).read bytes.now) }
{
    let (clock, rest) = climb(bytes, 8, 1, GREATEST_CLOCK, Floor::AtLeast(floor))?;
    let floor = next(floor, clock);
    let (client, rest) = climb(rest, 1, 0, 15, Floor::AtLeast(floor))?;
    let floor = next(floor, client);
    let (life, rest) = climb(rest, 4, 1, GREATEST_ORDINAL, Floor::AtLeast(floor))?;
    let floor = next(floor, life);
    let (number, rest) = climb(rest, 4, 1, GREATEST_ORDINAL, Floor::AtLeast(floor))?;
    let floor = next(floor, number);
    let (op, rest) = climb(rest, 1, 1, 16, Floor::AtLeast(floor))?;
    let floor = next(floor, op);
    let (object, rest) = climb(rest, 1, 0, 15, Floor::AtLeast(floor))?;
    let (event, rest) = climb(rest, 1, 0, 63, Floor::Above(next(floor, object)))?;
    let client = client as u8;
    let line = Line {
        stamp: Stamp { clock, client },
        tx: TxId {
            client,
            life: life as u32,
            number: number as u32,
        },
        op: op as u8,
        object: object as u8,
        event: event as u8,
    };
    Ok((line, rest))
}

impl Item for Line {
    ghost form = { line_form };

    fn take(bytes: &[u8], before: Option<Line>) -> Result<(Line, &[u8]), Halt>
        ensures { Gives (λ x. (x.0, x.1.now)) result ((line_form before).read bytes.now) }
    {
        match before {
            None => line_above(bytes, &[]),
            Some(line) => line_above(
                bytes,
                &[
                    line.stamp.clock,
                    u64::from(line.tx.client),
                    u64::from(line.tx.life),
                    u64::from(line.tx.number),
                    u64::from(line.op),
                    u64::from(line.object),
                    u64::from(line.event),
                ],
            ),
        }
    }

    fn put(&self, out: &mut Vec<u8>) -> Result<(), OutOfMemory> {
        put(out, 8, self.stamp.clock)?;
        put_tx(out, &self.tx)?;
        put(out, 1, u64::from(self.op))?;
        put(out, 1, u64::from(self.object))?;
        put(out, 1, u64::from(self.event))
    }
}

/// The log of ascending lines.
fn log_of(alloc: Global, lines: &[Line]) -> Result<Log, OutOfMemory>
    requires { IsAscending lines.now }
    ensures { IfOk result (λ l. l ≡ lines.now) }
{
    let mut log = Log::new(alloc)?;
    for line in lines {
        log.add(*line)?;
    }
    Ok(log)
}

/// A count of lines, and as many lines, each above the one before it.
pub(crate) fn log(alloc: Global, bytes: &[u8]) -> Result<(Log, &[u8]), Halt>
    ensures { Gives (λ x. (x.0, x.1.now)) result (lines_form.read bytes.now) }
{
    let (lines, rest) = list::<Line>(alloc, bytes, 4, GREATEST_ORDINAL)?;
    Ok((log_of(alloc, lines.items())?, rest))
}

/// Adds a count and the bytes of as many lines.
pub(crate) fn put_log(out: &mut Vec<u8>, log: &Log) -> Result<(), OutOfMemory>
    requires { length log.now < 2 ^ 32 }
    ensures { OnOk result (out.new.items ≡ out.old.items ++ lines_form.spelled log.now) }
{
    put_list(out, 4, GREATEST_ORDINAL, log.lines())
}
