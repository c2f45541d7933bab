//! Whether a history tells that a record was lost, by how many stand in a journal and how many its actor rises with.

ghost use Rattle.std.specs.Prelude.{◌≡◌, ◌≤◌, ℕ, true, List, length};
ghost use Rattle.qc_msg.specs.Counts.{standing_after};
ghost use Rattle.qc_msg.specs.Deeds.{own};
ghost use Rattle.qc_msg.specs.declared.step.Step.{Step};
ghost use Rattle.qc_promise.specs.Kept.{IsKeptAt, Kept, journal_of};

use qc_msg::{Entry, Step};

/// How many records stand in an actor's journal after a step, of so many before it, or fewer.
fn standing_after(count: usize, step: &Step) -> usize
    ensures { (n : ℕ) → count ≤ n → result ≤ standing_after n step.now }
{
    match step {
        Step::Wrote(_) => count.saturating_add(1),
        Step::Rose(records) => records.items().len(),
        _ => count,
    }
}

/// How many records stand in an actor's journal after these steps, or fewer.
fn standing(entries: &[Entry], actor: u8) -> usize
    ensures { result ≤ length (journal_of (own actor entries.now)).records }
{
    let mut count = 0;
    'entries: for entry in entries {
        if entry.actor == actor {
            count = standing_after(count, &entry.step);
        }
    }
    count
}

/// Whether an actor in whose journal so many records stand finds in a step that it is damaged, or rises with fewer.
fn is_loss(count: usize, step: &Step) -> bool
    ensures { result ≡ true → (before : List Step) → count ≤ length (journal_of before).records
        → IsKeptAt before step.now → ⊥ }
{
    match step {
        Step::Damaged(_) => true,
        Step::Rose(records) => records.items().len() < count,
        _ => false,
    }
}

/// Whether an actor found its journal damaged, or rose with fewer records than stood: then `Kept` doesn't hold.
pub(crate) fn has_loss(entries: &[Entry]) -> bool
    ensures { result ≡ true → Kept entries.now → ⊥ }
{
    for (index, entry) in entries.iter().enumerate() {
        if is_loss(standing(&entries[..index], entry.actor), &entry.step) {
            return true;
        }
    }
    false
}
