//! What the pass rule says of any two seats, at any moment.

ghost use Rattle.std.specs.Prelude.{◌≡◌, ◌⊎◌, ℕ};
ghost use mathlib.Core.List.{IsPrefix};
ghost use Rattle.atomic_table.specs.Table.{State};
ghost use Rattle.qc_pass.specs.Rule.{IsOneHistory};
ghost use Rattle.qc_pass.specs.Seats.{IsPassAt, IsRightAt};
ghost use Rattle.qc_pass.specs.Views.{Knows, joined, own};
ghost use Rattle.qc_pass.specs.declared.view.View.{View};

/// One seat has the right, and no other.
pub fn there_is_one_right<E>()
    ensures some { (s : State (Unit {0}) (View E)) → IsOneHistory s → (k : ℕ) × (v : View E) × IsRightAt s k v }
    ensures one { (s : State (Unit {0}) (View E)) (k l : ℕ) (v w : View E)
        → IsOneHistory s → IsRightAt s k v → IsRightAt s l w → k ≡ l }
{}

/// Two passes have different numbers.
pub fn numbers_differ<E>()
    ensures { (s : State (Unit {0}) (View E)) (k l : ℕ) (v w : View E)
        → IsOneHistory s → IsPassAt s k v → IsPassAt s l w → v.number ≡ w.number → k ≡ l }
{}

/// Each pass is of the right's history, though they have not met: that history
/// begins with what the pass has seen, has just the pass's own entries of its
/// number, and the right knows the pass's room and end.
pub fn passes_are_of_the_history<E>()
    ensures { (s : State (Unit {0}) (View E)) (k l : ℕ) (v w : View E)
        → IsOneHistory s → IsPassAt s k v → IsRightAt s l w → Knows (joined v w) }
{}

/// Of what two passes have seen the one begins with the other. And what one has
/// seen of the other's entries are the first of those that the other knows as
/// its own: nobody is told of an entry that its actor did not add, or in another
/// order.
pub fn passes_agree<E>()
    ensures one { (s : State (Unit {0}) (View E)) (k l : ℕ) (v w : View E)
        → IsOneHistory s → IsPassAt s k v → IsPassAt s l w → IsPrefix v.seen w.seen ⊎ IsPrefix w.seen v.seen }
    ensures own { (s : State (Unit {0}) (View E)) (k l : ℕ) (v w : View E)
        → IsOneHistory s → IsPassAt s k v → IsPassAt s l w → IsPrefix (own v.number w.seen) v.mine }
{}
