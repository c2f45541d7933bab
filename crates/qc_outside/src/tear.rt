//! What a fall does to writes that were not synced, and how bytes in memory are
//! overwritten.
//!
//! No call here takes memory: each needs room for the bytes that it makes.

ghost use Rattle.std.specs.Prelude.{◌≡◌, ◌≤◌, ◌<◌, ◌+◌, ◌-◌, ◌^◌, ◌++◌, take, replicate, length, IsOk, max, vec_len};
ghost use Rattle.std.specs.Prelude.{vec_capacity};
ghost use Rattle.qc_outside.specs.Images.{overwritten, padded};
ghost use Rattle.qc_outside.specs.Memory.{torn_by, blotted};

use qc_list::OutOfMemory;

/// What a fall does to the writes since the last sync.
#[derive(Clone, Copy, Debug, PartialEq, Eq)]
pub enum Tear {
    /// They are undone.
    Nothing,
    /// They are kept.
    All,
    /// Their ranges are filled with this byte.
    Fill(u8),
}

/// Makes one list of bytes the same as another, from where they differ on.
pub(crate) fn copy_from(to: &mut Vec<u8>, at: usize, from: &[u8])
    requires room { length from.now ≤ vec_capacity to.old }
    requires same { take at to.old.items ≡ take at from.now }
    requires within { at ≤ vec_len to.old }
    requires long { at ≤ length from.now }
    ensures items { to.new.items ≡ from.now }
    ensures len { vec_len to.new ≡ length from.now }
    ensures capacity { vec_capacity to.old ≤ vec_capacity to.new }
{
    to.truncate(at);
    let _done = to.extend_from_slice(&from[at..]);
}

/// Fills up with this byte.
fn fill_up(to: &mut Vec<u8>, at: usize, byte: u8) -> Result<(), OutOfMemory>
    requires room { at ≤ vec_capacity to.old }
    ensures items { to.new.items ≡ to.old.items ++ replicate (at - length to.old.items) byte }
    ensures len { vec_len to.new ≡ max (vec_len to.old) at }
    ensures capacity { vec_capacity to.old ≤ vec_capacity to.new }
    ensures ok { IsOk result }
{
    'gap: while to.len() < at {
        to.push(byte)?;
    }
    Ok(())
}

/// Writes over what is there, and past the end.
pub(crate) fn overwrite(to: &mut Vec<u8>, at: usize, bytes: &[u8]) -> Result<(), OutOfMemory>
    requires room { max (vec_len to.old) (at + length bytes.now) ≤ vec_capacity to.old }
    requires fits { at + length bytes.now < 2 ^ 64 }
    ensures items { to.new.items ≡ overwritten to.old.items (record { at = at; bytes = bytes.now }) }
    ensures len { vec_len to.new ≡ max (vec_len to.old) (at + length bytes.now) }
    ensures capacity { vec_capacity to.old ≤ vec_capacity to.new }
    ensures ok { IsOk result }
{
    fill_up(to, at, 0)?;
    let end = at + bytes.len();
    if end <= to.len() {
        to[at..end].copy_from_slice(bytes);
    } else {
        to.truncate(at);
        to.extend_from_slice(bytes)?;
    }
    Ok(())
}

/// Makes of the bytes that a fall left before a write those that it leaves after.
pub(crate) fn tear_off(
    left: &mut Vec<u8>,
    tear: Tear,
    at: usize,
    bytes: &[u8],
) -> Result<(), OutOfMemory>
    requires room { max (vec_len left.old) (at + length bytes.now) ≤ vec_capacity left.old }
    requires fits { at + length bytes.now < 2 ^ 64 }
    ensures items { left.new.items ≡ torn_by tear left.old.items (record { at = at; bytes = bytes.now }) }
    ensures len { vec_len left.new ≤ max (vec_len left.old) (at + length bytes.now) }
    ensures longer { vec_len left.old ≤ vec_len left.new }
    ensures capacity { vec_capacity left.old ≤ vec_capacity left.new }
    ensures ok { IsOk result }
{
    match tear {
        Tear::Nothing => Ok(()),
        Tear::All => overwrite(left, at, bytes),
        Tear::Fill(byte) => blot(left, at, bytes.len(), byte),
    }
}

/// Fills a range with a byte, past the end too.
fn blot(to: &mut Vec<u8>, at: usize, count: usize, byte: u8) -> Result<(), OutOfMemory>
    requires room { max (vec_len to.old) (at + count) ≤ vec_capacity to.old }
    requires fits { at + count < 2 ^ 64 }
    ensures items { to.new.items ≡ overwritten to.old.items (record { at = at; bytes = replicate count byte }) }
    ensures len { vec_len to.new ≡ max (vec_len to.old) (at + count) }
    ensures capacity { vec_capacity to.old ≤ vec_capacity to.new }
    ensures ok { IsOk result }
{
    fill_up(to, at, 0)?;
    let end = at + count;
    if end <= to.len() {
        to[at..end].fill(byte);
    } else {
        to.truncate(at);
        fill_up(to, end, byte)?;
    }
    Ok(())
}
