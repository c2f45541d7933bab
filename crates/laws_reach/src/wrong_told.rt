//! What clients were told through falls: wrong ends and records, each refused, and
//! right ones: the contracts of functions with nothing to do.

ghost use Rattle.std.specs.Prelude.{[], ◌∷◌};
ghost use Rattle.laws_reach.specs.Ends.{AreCommitsTold};
ghost use Rattle.qc_msg.specs.Deeds.{deeds};
ghost use Rattle.qc_msg.specs.declared.reply.Reply.TheVariants as replies;
ghost use Rattle.qc_msg.specs.declared.reply.AbortCause.TheVariants as causes;
ghost use Rattle.laws_reach.specs.Falling.{Deals, Tells, crashed, cut_off, fallen, kept, mine, reading_on};
ghost use Rattle.laws_reach.specs.Falling.{record_of};
ghost use Rattle.laws_turns.specs.Wrong.{first, none_read, read_it, second};

/// What a client was told isn't the end of its transaction.
pub fn wrong_ends_through_falls_are_refused()
    // It is told that the transaction aborted, or was dropped, and rises with its record.
    ensures aborted { Tells (fallen (replies.Aborted causes.Doomed) (mine ∷ [])) → ⊥ }
    ensures dropped { Tells (fallen replies.Dropped (mine ∷ [])) → ⊥ }
    // It is told that it committed, and rises without the record; or with one of another stamp.
    ensures lost { Tells (fallen (replies.Committed first) []) → ⊥ }
    ensures other_stamp { Tells (fallen (replies.Committed second) (mine ∷ [])) → ⊥ }
    // Its post that writes the record ends without a reply.
    ensures post { AreCommitsTold (deeds 1 [] cut_off) → ⊥ }
    // It is told nothing, and rises with a record; with one that it wrote, or never did.
    ensures unsaid { Tells cut_off → ⊥ }
    ensures untold { Tells (crashed (mine ∷ [])) → ⊥ }
{}

/// A record that rises isn't what its client was told.
pub fn wrong_operations_through_falls_are_refused()
    // It has another operation, or none.
    ensures other { Deals (fallen replies.Unknown (record_of (none_read ∷ []) ∷ [])) → ⊥ }
    ensures less { Deals (fallen replies.Unknown (record_of [] ∷ [])) → ⊥ }
    // It has one more, which its client was told in its next life.
    ensures later { Deals (reading_on (record_of (read_it ∷ read_it ∷ []) ∷ [])) → ⊥ }
{}

/// Right ones.
pub fn right_ends_through_falls_are_taken()
    // It falls as it writes its record, is told Unknown, and rises with the record, or without it.
    ensures told_unknown { Tells (fallen replies.Unknown (mine ∷ [])) }
    ensures dealt_unknown { Deals (fallen replies.Unknown (mine ∷ [])) }
    ensures none_rose { Tells (fallen replies.Unknown []) }
    // It is told that it committed, in the post that writes so, and falls and rises later.
    ensures post { AreCommitsTold (deeds 1 [] kept) }
    ensures told_committed { Tells kept }
    ensures dealt_committed { Deals kept }
    // It falls in the transaction, and rises without a record.
    ensures told_nothing { Tells (crashed []) }
    // What it reads in its next life isn't the transaction's.
    ensures read_later { Deals (reading_on (mine ∷ [])) }
{}
