//! What holds of the grammar and of what a stop leaves, and that an append can do
//! with none of its calls left out.

ghost use Rattle.std.specs.Prelude.{◌≡◌, List, ℕ, [], ◌∷◌, ◌++◌};
ghost use Rattle.qc_outside.specs.Images.{Told, Leaves, IsImage, wrote, settled};
ghost use Rattle.qc_journal.specs.Writes.{behind, gate, at_once};
ghost use Rattle.qc_journal.specs.Grammar.{Holds, IsNoJournal, HoldsWithOrWithout, counted};
ghost use Rattle.qc_journal.specs.Journal.{IsAtRest};

/// Bytes hold one list of bodies or are torn, and not both.
pub fn one_reading()
    ensures one { (a b : List (List ℕ)) (bytes : List ℕ) → Holds a bytes → Holds b bytes → a ≡ b }
    ensures not_torn { (a : List (List ℕ)) (offset : ℕ) (bytes : List ℕ)
        → Holds a bytes → IsNoJournal offset bytes → ⊥ }
{}

/// While a journal is at rest, each image that a stop may leave holds its bodies.
pub fn records_last()
    ensures { (end : ℕ) (bodies : List (List ℕ)) (t : Told) → IsAtRest end bodies t → Leaves (Holds bodies) t.now }
{}

/// Without the sync between its two writes, an append could leave what is no
/// journal.
pub fn first_sync_is_needed()
    ensures { (image : List ℕ) × IsImage (wrote (wrote (settled (0 ∷ [])) (behind 0 (5 ∷ []))) (gate 0)) image
        × (HoldsWithOrWithout [] (5 ∷ []) image → ⊥) }
{}

/// So could one that writes the gate and the record in one piece.
pub fn two_writes_are_needed()
    ensures { (image : List ℕ) × IsImage (wrote (settled (0 ∷ [])) (at_once 0 (5 ∷ []))) image
        × (HoldsWithOrWithout [] (5 ∷ []) image → ⊥) }
{}

/// Before its last sync, a stop could leave an append's record out.
pub fn last_sync_is_needed()
    ensures { (image : List ℕ) × IsImage (wrote (settled (0 ∷ (counted (5 ∷ []) ++ 0 ∷ []))) (gate 0)) image
        × (Holds ((5 ∷ []) ∷ []) image → ⊥) }
{}
