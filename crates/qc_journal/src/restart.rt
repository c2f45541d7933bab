//! A record is added, the disk falls, and the journal is opened again.

ghost use Rattle.std.specs.Prelude.{◌≡◌, ◌⊎◌, ◌<◌, ◌^◌, List, ℕ, [], ◌∷◌, ◌++◌, length, IfOk, IfErr, vec_capacity};
ghost use Rattle.qc_outside.specs.Images.{Tells};
ghost use Rattle.qc_journal.specs.declared.fault.JournalFault.TheVariants.{Torn};
ghost use Rattle.qc_journal.specs.Grammar.{IsBody};
ghost use Rattle.qc_journal.specs.Journal.{Rests, IsReserved, lists};

use crate::{Journal, JournalFault};
use qc_outside::Disk;
use std::alloc::Global;

/// Adds a record, stops the disk whatever came of it, and reads what it left: a
/// restart in one piece, which stands on the clauses of the four calls alone.
pub fn add_and_fall<D: Disk>(
    alloc: Global,
    journal: Journal<D>,
    body: &[u8],
) -> Result<(Journal<D>, Vec<Vec<u8>>), (D, JournalFault)>
    requires body { IsBody body.now }
    requires room { IsReserved (vec_capacity journal.frame) (D.has_room journal.disk)
        journal.end (length body.now) }
    requires fewer { journal.records < 2 ^ 32 }
    // The bodies are those from before, with the new one or without.
    ensures kept { (bodies : List (List ℕ)) → Rests (D.told journal.disk) journal.end bodies → IfOk result (λ r.
        Tells (D.told journal.disk) (D.told r.0.disk) (λ _ _.
        (lists r.1.items ≡ bodies) ⊎ (lists r.1.items ≡ bodies ++ body.now ∷ []))) }
    // It is never torn.
    ensures whole { (bodies : List (List ℕ)) → Rests (D.told journal.disk) journal.end bodies → IfErr result (λ e.
        (offset : ℕ) → e.1 ≡ Torn offset → Tells (D.told journal.disk) (D.told e.0) (λ _ _. ⊥)) }
{
    let mut journal = journal;
    let _added = journal.append(body);
    Journal::open(alloc, journal.fell())
}
