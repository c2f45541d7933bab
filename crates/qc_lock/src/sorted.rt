//! Insertion into sorted lists, each linear in the list's length.

ghost use Rattle.std.specs.Prelude.{◌≡◌, IfOk, fold};
ghost use Rattle.std.specs.declared.cmp.Ordering.{Ordering};
ghost use Rattle.qc_list.specs.Order.{inserted};
ghost use Rattle.qc_lock.specs.Held.{lock_cmp, own_cmp};

use qc_entry::{OwnLine, ReadLock};
use qc_list::{List, OutOfMemory};
use std::alloc::Global;
use std::cmp::Ordering;

/// What stands in the order of its keys, one for each.
pub(crate) trait ByKey: Copy {
    ghost key_cmp: { Self → Self → Ordering };

    /// The order of the keys of two.
    fn compare(&self, other: &Self) -> Ordering
        ensures { result ≡ key_cmp self.now other.now };
}

impl ByKey for ReadLock {
    ghost key_cmp = { lock_cmp };

    /// By object, then invocation.
    fn compare(&self, other: &ReadLock) -> Ordering {
        self.object
            .cmp(&other.object)
            .then(self.inv.cmp(&other.inv))
    }
}

impl ByKey for OwnLine {
    ghost key_cmp = { own_cmp };

    /// By operation.
    fn compare(&self, other: &OwnLine) -> Ordering {
        self.op.cmp(&other.op)
    }
}

/// Ascending items with one more, in the place of that of its key.
fn with_one<T: ByKey>(alloc: Global, items: &[T], item: T) -> Result<Vec<T>, OutOfMemory>
    ensures { IfOk result (λ v. v.items ≡ inserted T.key_cmp items.now item) }
{
    let mut all = Vec::new(alloc);
    let mut i = 0;
    'items: while i < items.len() && item.compare(&items[i]).is_gt() {
        all.push(items[i])?;
        i += 1;
    }
    all.push(item)?;
    if i < items.len() && item.compare(&items[i]).is_eq() {
        i += 1;
    }
    all.extend_from_slice(&items[i..])?;
    Ok(all)
}

/// Ascending items with others, one after another.
pub(crate) fn with_all<T: ByKey>(
    alloc: Global,
    items: &[T],
    others: &[T],
) -> Result<List<T>, OutOfMemory>
    ensures { IfOk result (λ l. l ≡ fold (inserted T.key_cmp) items.now others.now) }
{
    let mut all = Vec::from_slice(alloc, items)?;
    'others: for item in others {
        all = with_one(alloc, all.as_slice(), *item)?;
    }
    Ok(List::from_vec(all))
}
