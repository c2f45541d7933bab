//! Records that are lost or made up, each history refused, and right ones: the
//! contracts of functions with nothing to do.
//!
//! Two odd histories aren't for `Kept` to refuse, but for the rules of runs: one
//! in which a site that is down writes, and one in which it crashes with a
//! record that it wasn't writing.

ghost use Rattle.std.specs.Prelude.{[], ◌∷◌};
ghost use Rattle.qc_promise.specs.Kept.{Kept};
ghost use Rattle.tests_due.specs.Journals.{
  after_one,
  after_stop,
  after_two,
  at_last,
  damaged,
  elsewhere,
  first,
  later,
  second,
  twice,
};

/// What was written is there at each rise.
pub fn forgotten_records_are_refused()
    // It rises with nothing.
    ensures all { Kept (after_one []) → ⊥ }
    // It rises with the first of two, or with the last.
    ensures last { Kept (after_two (first ∷ [])) → ⊥ }
    ensures first { Kept (after_two (second ∷ [])) → ⊥ }
    // It rises with what it rose with before, and not with what it wrote since.
    ensures since { Kept (later (first ∷ [])) → ⊥ }
    // It rises with what it wrote since it rose, and not with what it rose with.
    ensures before { Kept (later (second ∷ [])) → ⊥ }
    // Its journal can't be read.
    ensures damaged { Kept damaged → ⊥ }
{}

/// What wasn't written isn't there; and what was is there once, in its order.
pub fn invented_records_are_refused()
    // It rises with a record that nobody wrote, besides its own or in its place.
    ensures more { Kept (after_one (first ∷ second ∷ [])) → ⊥ }
    ensures other { Kept (after_one (second ∷ [])) → ⊥ }
    // It rises with its record doubled.
    ensures doubled { Kept (after_one (first ∷ first ∷ [])) → ⊥ }
    // It rises with its records in another order.
    ensures turned { Kept (after_two (second ∷ first ∷ [])) → ⊥ }
    // It rises with the record of another site.
    ensures another { Kept (elsewhere (first ∷ [])) → ⊥ }
{}

/// The record that was being written as the site stopped comes last, once, at
/// the next rise, and stays; or it never comes.
pub fn wrong_pending_records_are_refused()
    // It comes in the place of what was written, or before it.
    ensures alone { Kept (after_stop (second ∷ [])) → ⊥ }
    ensures before { Kept (after_stop (second ∷ first ∷ [])) → ⊥ }
    // It takes what was written with it.
    ensures forgotten { Kept (after_stop []) → ⊥ }
    // It comes twice.
    ensures doubled { Kept (twice (first ∷ first ∷ []) []) → ⊥ }
    // It doesn't come at the next rise, and comes at the one after.
    ensures late { Kept (twice [] (first ∷ [])) → ⊥ }
    // It comes at the next rise, and is gone at the one after.
    ensures gone { Kept (twice (first ∷ []) []) → ⊥ }
{}

/// Right ones: with all that was written, in its order; with and without the
/// record that was being written.
pub fn kept_records_are_taken()
    // It rises with all that it wrote, also with what it wrote since it rose.
    ensures all { Kept (after_two (first ∷ second ∷ [])) }
    ensures since { Kept (later (first ∷ second ∷ [])) }
    // The record that was being written is given back, and then stays.
    ensures given { Kept (after_stop (first ∷ second ∷ [])) }
    ensures stays { Kept (twice (first ∷ []) (first ∷ [])) }
    // It is dropped, and then stays away.
    ensures dropped { Kept (after_stop (first ∷ [])) }
    ensures away { Kept (twice [] []) }
    // It is given back though the journal couldn't be opened at once.
    ensures at_last { Kept (at_last (first ∷ second ∷ [])) }
    // A record of another site isn't missed.
    ensures elsewhere { Kept (elsewhere []) }
{}
