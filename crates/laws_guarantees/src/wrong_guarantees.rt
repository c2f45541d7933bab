//! What the definitions take and refuse, on deeds of one site: the contracts of
//! functions with nothing to do.

ghost use Rattle.std.specs.Prelude.{[], ◌∷◌};
ghost use Rattle.qc_lock.specs.Held.{held_of};
ghost use Rattle.qc_msg.specs.declared.message.Answer.TheVariants.{Granted, Stale, Yes};
ghost use Rattle.qc_msg.specs.declared.message.Want.TheVariants.{Append, Prepare, Read};
ghost use Rattle.qc_msg.specs.Payloads.{first_read, whole_grant};
ghost use Rattle.qc_promise.specs.SiteHeld.{held_shown};
ghost use Rattle.laws_guarantees.specs.Clocks.{Tells};
ghost use Rattle.laws_guarantees.specs.Held.{HasWanted};
ghost use Rattle.laws_guarantees.specs.Votes.{IsRemembered};
ghost use Rattle.laws_guarantees.specs.WrongGuarantees.{ended, granted, line, locked, refused, tx};

/// A site remembers what it granted. One that granted nothing, refused what it
/// was asked, or was told the end, doesn't.
pub fn forgetful_sites_are_refused()
    ensures kept { IsRemembered granted tx }
    ensures nothing { IsRemembered [] tx → ⊥ }
    ensures refused { IsRemembered refused tx → ⊥ }
    ensures ended { IsRemembered ended tx → ⊥ }
{}

/// A lock that was granted is had. It isn't once the end was told, nor where it
/// was refused; and a lock is no own line.
pub fn lost_locks_are_refused()
    ensures kept { HasWanted (held_of (held_shown granted) tx) (Read (first_read 0 0)) }
    ensures ended { HasWanted (held_of (held_shown ended) tx) (Read (first_read 0 0)) → ⊥ }
    ensures refused { HasWanted (held_of (held_shown refused) tx) (Read (first_read 0 0)) → ⊥ }
    ensures own { HasWanted locked (Append 0 [] (line ∷ [])) → ⊥ }
{}

/// A grant tells its clock to who asked for a Read, and not to who asked for a
/// promise; a promise only to that one; and a refusal tells none.
pub fn uncounted_clocks_are_refused()
    ensures kept { Tells 5 (Read (first_read 0 0)) (Granted (whole_grant 1 5 [])) }
    ensures grant { Tells 5 Prepare (Granted (whole_grant 1 5 [])) → ⊥ }
    ensures promise { Tells 5 (Read (first_read 0 0)) (Yes 5) → ⊥ }
    ensures refusal { Tells 5 Prepare Stale → ⊥ }
{}
