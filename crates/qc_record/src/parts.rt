//! The parts of records: reading and writing each.

ghost use Rattle.std.specs.Prelude.{◌≡◌, ◌<◌, ◌++◌, Option, OnOk};
ghost use Rattle.qc_record.specs.Answers.{Gives};
ghost use Rattle.qc_record.specs.Records.{lock_after, lock_form, op_form, own_after, own_form};
ghost use Rattle.qc_record.specs.Records.{response_form, response_of, tx_form};

use crate::fault::Halt;
use crate::field::{Floor, climb, next, number, put, response_number};
use crate::item::Item;
use qc_entry::{Op, OwnLine, ReadLock};
use qc_list::OutOfMemory;
use qc_stamp::TxId;

/// The greatest clock.
pub(crate) const GREATEST_CLOCK: u64 = 4_611_686_018_427_387_904;

/// The greatest life, and the greatest number of a transaction.
pub(crate) const GREATEST_ORDINAL: u64 = 4_294_967_295;

/// A transaction's name.
pub(crate) fn tx(bytes: &[u8]) -> Result<(TxId, &[u8]), Halt>
    ensures { Gives (λ x. (x.0, x.1.now)) result (tx_form.read bytes.now) }
{
    let (client, rest) = number(bytes, 1, 0, 15)?;
    let (life, rest) = number(rest, 4, 1, GREATEST_ORDINAL)?;
    let (ordinal, rest) = number(rest, 4, 1, GREATEST_ORDINAL)?;
    let tx = TxId {
        client: client as u8,
        life: life as u32,
        number: ordinal as u32,
    };
    Ok((tx, rest))
}

/// Adds the bytes of a transaction's name.
pub(crate) fn put_tx(out: &mut Vec<u8>, tx: &TxId) -> Result<(), OutOfMemory>
    ensures { OnOk result (out.new.items ≡ out.old.items ++ tx_form.spelled tx.now) }
{
    put(out, 1, u64::from(tx.client))?;
    put(out, 4, u64::from(tx.life))?;
    put(out, 4, u64::from(tx.number))
}

/// A lock that isn't below the floor.
fn lock_above<'a>(bytes: &'a [u8], floor: &[u64]) -> Result<(ReadLock, &'a [u8]), Halt>
    ensures { Gives (λ x. (x.0, x.1.now)) result ((lock_after floor.now).read bytes.now) }
{
    let (object, rest) = climb(bytes, 1, 0, 15, Floor::AtLeast(floor))?;
    let (inv, rest) = climb(rest, 1, 0, 31, Floor::Above(next(floor, object)))?;
    let lock = ReadLock {
        object: object as u8,
        inv: inv as u8,
    };
    Ok((lock, rest))
}

impl Item for ReadLock {
    ghost form = { lock_form };

    fn take(bytes: &[u8], before: Option<ReadLock>) -> Result<(ReadLock, &[u8]), Halt>
        ensures { Gives (λ x. (x.0, x.1.now)) result ((lock_form before).read bytes.now) }
    {
        match before {
            None => lock_above(bytes, &[]),
            Some(lock) => lock_above(bytes, &[u64::from(lock.object), u64::from(lock.inv)]),
        }
    }

    fn put(&self, out: &mut Vec<u8>) -> Result<(), OutOfMemory> {
        put(out, 1, u64::from(self.object))?;
        put(out, 1, u64::from(self.inv))
    }
}

/// An own line whose operation is above the floor.
fn own_above<'a>(bytes: &'a [u8], floor: &[u64]) -> Result<(OwnLine, &'a [u8]), Halt>
    ensures { Gives (λ x. (x.0, x.1.now)) result ((own_after floor.now).read bytes.now) }
{
    let (op, rest) = climb(bytes, 1, 1, 16, Floor::Above(floor))?;
    let (object, rest) = number(rest, 1, 0, 15)?;
    let (event, rest) = number(rest, 1, 0, 63)?;
    let own = OwnLine {
        op: op as u8,
        object: object as u8,
        event: event as u8,
    };
    Ok((own, rest))
}

impl Item for OwnLine {
    ghost form = { own_form };

    fn take(bytes: &[u8], before: Option<OwnLine>) -> Result<(OwnLine, &[u8]), Halt>
        ensures { Gives (λ x. (x.0, x.1.now)) result ((own_form before).read bytes.now) }
    {
        match before {
            None => own_above(bytes, &[]),
            Some(own) => own_above(bytes, &[u64::from(own.op)]),
        }
    }

    fn put(&self, out: &mut Vec<u8>) -> Result<(), OutOfMemory> {
        put(out, 1, u64::from(self.op))?;
        put(out, 1, u64::from(self.object))?;
        put(out, 1, u64::from(self.event))
    }
}

/// The response of a number below 256.
fn response_of(number: u64) -> Option<u8>
    requires { number < 256 }
    ensures { result ≡ response_of number }
{
    if number == 255 {
        return None;
    }
    Some(number as u8)
}

/// An operation's response, if it has one.
fn response(bytes: &[u8]) -> Result<(Option<u8>, &[u8]), Halt>
    ensures { Gives (λ x. (x.0, x.1.now)) result (response_form.read bytes.now) }
{
    let (number, rest) = response_number(bytes)?;
    Ok((response_of(number), rest))
}

/// Adds the byte of a response.
fn put_response(out: &mut Vec<u8>, response: Option<u8>) -> Result<(), OutOfMemory>
    ensures { OnOk result (out.new.items ≡ out.old.items ++ response_form.spelled response) }
{
    put(out, 1, u64::from(response.unwrap_or(255)))
}

impl Item for Op {
    ghost form = { op_form };

    fn take(bytes: &[u8], before: Option<Op>) -> Result<(Op, &[u8]), Halt>
        ensures { Gives (λ x. (x.0, x.1.now)) result ((op_form before).read bytes.now) }
    {
        let _before = before;
        let (object, rest) = number(bytes, 1, 0, 15)?;
        let (inv, rest) = number(rest, 1, 0, 31)?;
        let (resp, rest) = response(rest)?;
        let op = Op {
            object: object as u8,
            inv: inv as u8,
            resp,
        };
        Ok((op, rest))
    }

    fn put(&self, out: &mut Vec<u8>) -> Result<(), OutOfMemory> {
        put(out, 1, u64::from(self.object))?;
        put(out, 1, u64::from(self.inv))?;
        put_response(out, self.resp)
    }
}
