//! Reading and writing one number.

ghost use Rattle.std.specs.Prelude.{◌≡◌, ◌≤◌, ◌<◌, ◌^◌, ◌++◌, OnOk, IfOk};
ghost use Rattle.byteorder.specs.Endian.{big_bytes};
ghost use Rattle.qc_record.specs.Answers.{Gives};
ghost use Rattle.qc_record.specs.Floors.{clears, lets_through};
ghost use Rattle.qc_record.specs.Form.{number_at, within, tied};
ghost use Rattle.qc_record.specs.Records.{is_response};

use crate::fault::Halt;
use byteorder::{BigEndian, ByteOrder};
use qc_list::OutOfMemory;

/// The number in so many bytes, within a range, and the bytes behind it.
#[tactic(auto, unfolding(crate::specs::Form::number_at))]
pub(crate) fn number(bytes: &[u8], width: usize, low: u64, high: u64) -> Result<(u64, &[u8]), Halt>
    requires narrow { 1 ≤ width }
    requires wide { width ≤ 8 }
    ensures given { Gives (λ x. (x.0, x.1.now)) result (number_at width (within low high) bytes.now) }
    ensures range { IfOk result (λ x. x.0 ≤ high) }
{
    if bytes.len() < width {
        return Err(Halt::Left(0));
    }
    let number = BigEndian::read_uint(bytes, width);
    if number < low || number > high {
        return Err(Halt::Left(bytes.len()));
    }
    let (_, rest) = bytes.split_at(width);
    Ok((number, rest))
}

/// The number of a response, and the bytes behind it.
#[tactic(auto, unfolding(crate::specs::Form::number_at))]
pub(crate) fn response_number(bytes: &[u8]) -> Result<(u64, &[u8]), Halt>
    ensures given { Gives (λ x. (x.0, x.1.now)) result (number_at 1 is_response bytes.now) }
    ensures range { IfOk result (λ x. x.0 < 256) }
{
    if bytes.len() < 1 {
        return Err(Halt::Left(0));
    }
    let number = BigEndian::read_uint(bytes, 1);
    if number > 31 && number != 255 {
        return Err(Halt::Left(bytes.len()));
    }
    let (_, rest) = bytes.split_at(1);
    Ok((number, rest))
}

/// What the order of items wants of a field: the numbers of the item before in the
/// fields from this one on, where the item still ties with it.
#[derive(Clone, Copy)]
pub(crate) enum Floor<'a> {
    /// At least the first of these.
    AtLeast(&'a [u64]),
    /// Above the first of these: it is the last field that the order looks at.
    Above(&'a [u64]),
}

/// A number within a range that the floor lets through.
#[tactic(auto, unfolding(crate::specs::Form::number_at))]
pub(crate) fn climb<'a>(
    bytes: &'a [u8],
    width: usize,
    low: u64,
    high: u64,
    floor: Floor<'_>,
) -> Result<(u64, &'a [u8]), Halt>
    requires narrow { 1 ≤ width }
    requires wide { width ≤ 8 }
    ensures given { Gives (λ x. (x.0, x.1.now)) result (number_at width (clears low high floor.entry) bytes.now) }
    ensures range { IfOk result (λ x. x.0 ≤ high) }
{
    if bytes.len() < width {
        return Err(Halt::Left(0));
    }
    let number = BigEndian::read_uint(bytes, width);
    if number < low || number > high || !lets_through(floor, number) {
        return Err(Halt::Left(bytes.len()));
    }
    let (_, rest) = bytes.split_at(width);
    Ok((number, rest))
}

/// Whether a floor lets a number through.
fn lets_through(floor: Floor<'_>, number: u64) -> bool
    ensures { result ≡ lets_through floor.entry number }
{
    match floor {
        Floor::AtLeast([first, ..]) => *first <= number,
        Floor::Above([first, ..]) => *first < number,
        Floor::AtLeast([]) | Floor::Above([]) => true,
    }
}

/// The floor of the field behind a number.
pub(crate) fn next<'a>(floor: &'a [u64], number: u64) -> &'a [u64]
    ensures { result.now ≡ tied floor.now number }
{
    match floor {
        [first, rest @ ..] if *first == number => rest,
        _ => &[],
    }
}

/// Adds the bytes of a number.
pub(crate) fn put(out: &mut Vec<u8>, width: usize, number: u64) -> Result<(), OutOfMemory>
    requires narrow { 1 ≤ width }
    requires wide { width ≤ 8 }
    requires fits { number < 256 ^ width }
    ensures { OnOk result (out.new.items ≡ out.old.items ++ big_bytes width number) }
{
    let mut buffer = [0u8; 8];
    BigEndian::write_uint(&mut buffer, number, width);
    let (front, _) = buffer.split_at(width);
    out.extend_from_slice(front)?;
    Ok(())
}
