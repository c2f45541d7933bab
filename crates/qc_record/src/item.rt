//! Lists of items, each behind its count.

ghost use Rattle.std.specs.Prelude.{◌≡◌, ◌≤◌, ◌<◌, ◌^◌, ◌++◌, length, Option, None, OnOk};
ghost use Rattle.qc_record.specs.Answers.{Gives};
ghost use Rattle.qc_record.specs.Form.{Form, within, items_at, items_spelled, counted};

use crate::fault::Halt;
use crate::field::{number, put};
use qc_list::{List, OutOfMemory};
use std::alloc::Global;

/// A part of a record that comes in lists.
pub(crate) trait Item: Copy + Drop {
    // Its form behind the item before it.
    ghost form: { Option Self → Form Self };

    /// The item at the front of the bytes, and the bytes behind it.
    fn take(bytes: &[u8], before: Option<Self>) -> Result<(Self, &[u8]), Halt>
        ensures { Gives (λ x. (x.0, x.1.now)) result ((form before).read bytes.now) };

    /// Adds the item's bytes.
    fn put(&self, out: &mut Vec<u8>) -> Result<(), OutOfMemory>
        ensures { (before : Option Self) →
            OnOk result (out.new.items ≡ out.old.items ++ (form before).spelled self.now) };
}

/// So many items, one after another.
fn items<T: Item>(alloc: Global, bytes: &[u8], count: u64) -> Result<(Vec<T>, &[u8]), Halt>
    ensures { Gives (λ x. (x.0.items, x.1.now)) result (items_at T.form None count bytes.now) }
{
    let mut items = Vec::new(alloc);
    let mut before = None;
    let mut rest = bytes;
    for _ in 0..count {
        let (item, after) = T::take(rest, before)?;
        items.push(item)?;
        before = Some(item);
        rest = after;
    }
    Ok((items, rest))
}

/// A count of at most so many, and as many items.
pub(crate) fn list<T: Item>(
    alloc: Global,
    bytes: &[u8],
    width: usize,
    most: u64,
) -> Result<(List<T>, &[u8]), Halt>
    requires narrow { 1 ≤ width }
    requires wide { width ≤ 8 }
    ensures { Gives (λ x. (x.0, x.1.now)) result ((counted width (within 0 most) T.form).read bytes.now) }
{
    let (count, rest) = number(bytes, width, 0, most)?;
    let (items, rest) = items(alloc, rest, count)?;
    Ok((List::from_vec(items), rest))
}

/// Adds the bytes of items, one after another.
fn put_items<T: Item>(out: &mut Vec<u8>, items: &[T]) -> Result<(), OutOfMemory>
    ensures { OnOk result (out.new.items ≡ out.old.items ++ items_spelled T.form None items.now) }
{
    for item in items {
        item.put(out)?;
    }
    Ok(())
}

/// Adds a count and the bytes of as many items.
pub(crate) fn put_list<T: Item>(
    out: &mut Vec<u8>,
    width: usize,
    most: u64,
    items: &[T],
) -> Result<(), OutOfMemory>
    requires narrow { 1 ≤ width }
    requires wide { width ≤ 8 }
    requires fits { length items.now < 256 ^ width }
    ensures { OnOk result (out.new.items ≡ out.old.items ++ (counted width (within 0 most) T.form).spelled items.now) }
{
    put(out, width, items.len() as u64)?;
    put_items(out, items)
}
