//! What the definitions take and refuse, on histories of one site that falls and
//! rises: the contracts of functions with nothing to do.

ghost use Rattle.std.specs.Prelude.{[], ◌∷◌};
ghost use Rattle.laws_guarantees.specs.Held.{HasWanted, IsGrantedSince};
ghost use Rattle.laws_guarantees.specs.WrongGuarantees.{granted, tx};
ghost use Rattle.laws_votes.specs.Promised.{HasPromisedItems, IsPromisedStill};
ghost use Rattle.laws_votes.specs.Recorded.{HasPromised};
ghost use Rattle.laws_votes.specs.WrongHoldings.{AreCastSince, aborted_before, aborted_since, begun, fallen, finished};
ghost use Rattle.laws_votes.specs.WrongHoldings.{in_another_life, prepared, promise, promised, risen, unrecorded};
ghost use Rattle.laws_votes.specs.WrongHoldings.{voting};
ghost use Rattle.qc_lock.specs.Held.{held_of};
ghost use Rattle.qc_msg.specs.Deeds.{deeds};
ghost use Rattle.qc_msg.specs.declared.message.Want.TheVariants.{Read};
ghost use Rattle.qc_msg.specs.Payloads.{first_read};
ghost use Rattle.qc_promise.specs.SiteHeld.{held_shown, last_cut};

/// A site that rose doesn't vote for what it was asked for in its former life.
/// It may vote for what names its present life, or none.
pub fn votes_of_former_lives_are_refused()
    ensures former { AreCastSince (risen 1) (voting 1) → ⊥ }
    ensures present { AreCastSince (risen 2) (voting 2) }
    ensures none { AreCastSince (risen 0) (voting 0) }
{}

/// A participant that voted has the record of its promise, and was asked for it
/// in the life in which it granted; and it keeps the record as it rises.
pub fn votes_without_promises_are_refused()
    ensures unrecorded { HasPromised unrecorded begun 0 → ⊥ }
    ensures other_life { HasPromised in_another_life begun 0 → ⊥ }
    ensures lost { HasPromised (promised []) begun 0 → ⊥ }
    ensures kept { HasPromised (promised (promise ∷ [])) begun 0 }
{}

/// After a fall a lock is had where it was promised, and isn't where it was
/// granted alone: then it isn't granted in the present life.
pub fn locks_of_former_lives_are_refused()
    ensures granted { HasWanted (held_of (held_shown granted) tx) (Read (first_read 0 0)) }
    ensures forgotten { HasWanted (held_of (held_shown (fallen [])) tx) (Read (first_read 0 0)) → ⊥ }
    ensures promised { HasWanted (held_of (held_shown (fallen (promise ∷ []))) tx) (Read (first_read 0 0)) }
    ensures present { IsGrantedSince (last_cut granted).since tx (Read (first_read 0 0)) }
    ensures former { IsGrantedSince (last_cut (fallen [])).since tx (Read (first_read 0 0)) → ⊥ }
{}

/// A promise that isn't on the disk doesn't stand, nor does one that is done.
/// One whose abort was taken since the rise is let go of; but where the site
/// falls after that and rises, it stands again, and is had.
pub fn promises_that_were_let_go_are_refused()
    ensures kept { IsPromisedStill (promised (promise ∷ [])) 0 prepared }
    ensures lost { IsPromisedStill (promised []) 0 prepared → ⊥ }
    ensures done { IsPromisedStill finished 0 prepared → ⊥ }
    ensures aborted { IsPromisedStill aborted_since 0 prepared → ⊥ }
    ensures dropped { HasPromisedItems (held_of (held_shown (deeds 0 [] aborted_since)) tx) prepared → ⊥ }
    ensures again { IsPromisedStill aborted_before 0 prepared }
    ensures had { HasPromisedItems (held_of (held_shown (deeds 0 [] aborted_before)) tx) prepared }
{}
