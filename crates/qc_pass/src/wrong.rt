//! States of the word that the pass rule refuses, each wrong in one thing, and
//! one that it allows.

ghost use Rattle.std.specs.Prelude.{◌∷◌, []};
ghost use Rattle.qc_pass.specs.Rule.{IsOneHistory};
ghost use Rattle.qc_pass.specs.Seats.{word_of};
ghost use Rattle.qc_pass.specs.Views.{marked, pass_view, right_view};

/// Two actors added an entry each. One has seen both, the other its own alone.
pub fn two_entries_stand<E>()
    ensures { (d e : E) → IsOneHistory (word_of 2 (
        right_view (marked 0 d ∷ marked 1 e ∷ []) (3 ∷ 0 ∷ []) (1 ∷ 2 ∷ [])
        ∷ pass_view 0 (marked 0 d ∷ []) (d ∷ []) 3
        ∷ pass_view 1 (marked 0 d ∷ marked 1 e ∷ []) (e ∷ []) 0 ∷ [])) }
{}

/// Nobody has the right; two have it.
pub fn wrong_rights<E>()
    ensures none { IsOneHistory {E = E} (word_of 0 (pass_view 0 [] [] 0 ∷ [])) → ⊥ }
    ensures second { IsOneHistory {E = E} (word_of 0 (right_view [] [] [] ∷ right_view [] [] [] ∷ [])) → ⊥ }
{}

/// The word counts an entry that isn't there; or one entry twice.
pub fn wrong_counts<E>()
    ensures none { IsOneHistory {E = E} (word_of 1 (right_view [] [] [] ∷ [])) → ⊥ }
    ensures twice { (e : E) → IsOneHistory (word_of 2 (
        right_view (marked 0 e ∷ []) (0 ∷ []) (1 ∷ []) ∷ pass_view 0 (marked 0 e ∷ []) (e ∷ []) 0 ∷ [])) → ⊥ }
{}

/// Two passes have one number; a pass has a number that was never made; an entry
/// is of a number that was never made.
pub fn wrong_numbers<E>()
    ensures second { IsOneHistory {E = E} (word_of 0 (
        right_view [] (0 ∷ []) (0 ∷ []) ∷ pass_view 0 [] [] 0 ∷ pass_view 0 [] [] 0 ∷ [])) → ⊥ }
    ensures pass_not_made { IsOneHistory {E = E} (word_of 0 (right_view [] [] [] ∷ pass_view 0 [] [] 0 ∷ [])) → ⊥ }
    ensures entry_not_made { (e : E) → IsOneHistory (word_of 1 (
        right_view (marked 1 e ∷ []) (0 ∷ []) (0 ∷ []) ∷ pass_view 0 [] [] 0 ∷ [])) → ⊥ }
{}

/// A pass doesn't know an entry of its own; it knows one that isn't there; it
/// knows one twice.
pub fn wrong_own_entries<E>()
    ensures lost { (e : E) → IsOneHistory (word_of 1 (
        right_view (marked 0 e ∷ []) (0 ∷ []) (1 ∷ []) ∷ pass_view 0 (marked 0 e ∷ []) [] 0 ∷ [])) → ⊥ }
    ensures made_up { (e : E) → IsOneHistory (word_of 0 (
        right_view [] (0 ∷ []) (0 ∷ []) ∷ pass_view 0 [] (e ∷ []) 0 ∷ [])) → ⊥ }
    ensures twice { (e : E) → IsOneHistory (word_of 1 (
        right_view (marked 0 e ∷ []) (0 ∷ []) (1 ∷ []) ∷ pass_view 0 (marked 0 e ∷ []) (e ∷ e ∷ []) 0 ∷ [])) → ⊥ }
{}

/// A pass has seen an entry that isn't there; or the second of two alone.
pub fn wrong_views<E>()
    ensures made_up { (e : E) → IsOneHistory (word_of 0 (
        right_view [] (0 ∷ 0 ∷ []) (1 ∷ 0 ∷ [])
        ∷ pass_view 0 (marked 1 e ∷ []) [] 0 ∷ pass_view 1 [] [] 0 ∷ [])) → ⊥ }
    ensures without_first { (d e : E) → IsOneHistory (word_of 2 (
        right_view (marked 0 d ∷ marked 1 e ∷ []) (0 ∷ 0 ∷ []) (1 ∷ 1 ∷ [])
        ∷ pass_view 0 (marked 0 d ∷ []) (d ∷ []) 0 ∷ pass_view 1 (marked 1 e ∷ []) (e ∷ []) 0 ∷ [])) → ⊥ }
{}

/// The right has another room for a pass, or another end.
pub fn wrong_rooms_and_ends<E>()
    ensures room { IsOneHistory {E = E} (word_of 0 (right_view [] (2 ∷ []) (0 ∷ []) ∷ pass_view 0 [] [] 3 ∷ [])) → ⊥ }
    ensures end { (e : E) → IsOneHistory (word_of 1 (
        right_view (marked 0 e ∷ []) (0 ∷ []) (0 ∷ []) ∷ pass_view 0 (marked 0 e ∷ []) (e ∷ []) 0 ∷ [])) → ⊥ }
{}
