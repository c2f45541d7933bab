//! Wrong histories, each refused, and right ones: the contracts of functions with
//! nothing to do.

ghost use Rattle.std.specs.Prelude.{◌≡◌, [], ◌∷◌};
ghost use Rattle.qc_promise.specs.Atomic.{Atomic, IsAfterSeen};
ghost use Rattle.qc_promise.specs.Committed.{committed};
ghost use Rattle.qc_promise.specs.Seen.{seen};
ghost use Rattle.laws_atomic.specs.Wrong.{counting, decl, earlier, falling, first, late, theirs, unrecorded};

/// A record isn't below a line that its client had counted, in its transaction
/// or in an earlier one, nor below a stamp that the client was told; and what
/// was seen has a record. No such history is atomic.
pub fn wrong_orders_are_refused()
    ensures below_line { IsAfterSeen decl (committed decl (counting 4)) (counting 4) → ⊥ }
    ensures below_earlier { IsAfterSeen decl (committed decl earlier) earlier → ⊥ }
    ensures below_told { IsAfterSeen decl (committed decl falling) falling → ⊥ }
    ensures unrecorded { IsAfterSeen decl (committed decl unrecorded) unrecorded → ⊥ }
    ensures not_atomic { Atomic decl (counting 4) → ⊥ }
{}

/// A record above the line that was counted is right; and a line that came late,
/// in a grant that didn't count, wasn't seen, so a record may be below it.
pub fn right_orders_are_taken()
    ensures counted { seen decl (counting 6) first ≡ theirs ∷ [] }
    ensures above { IsAfterSeen decl (committed decl (counting 6)) (counting 6) }
    ensures unseen { seen decl late first ≡ [] }
    ensures late { IsAfterSeen decl (committed decl late) late }
{}
