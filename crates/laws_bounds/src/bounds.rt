//! Bounds on clocks, counts and lives in every run with falls, each law the
//! contract of a function with nothing to do.

ghost use Rattle.std.specs.Prelude.{◌≡◌, ◌≤◌, ◌+◌, ℕ, Bool, true, List, [], ◌∷◌, ◌++◌, length};
ghost use Rattle.laws_bounds.specs.Bounds.{CountsWithin, IsBoundedWithFalls, LivesWithin, RiseWithFew};
ghost use Rattle.laws_bounds.specs.Within.{MoveWithin, RiseWithin};
ghost use Rattle.qc_core.specs.Actors.{actor_after};
ghost use Rattle.qc_core.specs.Conduct.{IsLawfulWithFalls};
ghost use Rattle.qc_decl.specs.Actors.{is_client};
ghost use Rattle.qc_decl.specs.declared.declaration.Declaration.{Declaration};
ghost use Rattle.qc_entry.specs.declared.record.Commit.{Commit as CommitRecord};
ghost use Rattle.qc_msg.specs.Deeds.{Deed, Rises, deeds};
ghost use Rattle.qc_msg.specs.Steps.{Entry};
ghost use Rattle.qc_msg.specs.declared.record.Record.TheVariants.{Commit};
ghost use Rattle.qc_promise.specs.Kept.{Kept};
ghost use Rattle.qc_script.specs.RunsWithFalls.{RunsWithFalls};
ghost use Rattle.qc_script.specs.declared.script.Script.{Script};

use qc_script::ConductWithFalls;

/// Where what rises has clocks up to a bound, every clock is at most that and
/// one more for each step: of each message, of each actor that is up,
/// of its last turn, and of each record that was written, or was being written
/// at a fall. Where records are kept, every clock is at most the number of
/// steps: nothing rises but what was written.
#[tactic(auto, using(crate::proofs::Needs::run_bounded, crate::proofs::Needs::kept_bounded))]
pub fn clocks_are_bounded_with_falls<C: ConductWithFalls>()
    ensures risen { (decl : Declaration) (script : Script) (h : List Entry) (open_inputs : List Bool)
        → RunsWithFalls (IsLawfulWithFalls decl) C.fits decl script h open_inputs
        → (bound : ℕ) → RiseWithin bound h → IsBoundedWithFalls decl (bound + length h) h }
    ensures kept { (decl : Declaration) (script : Script) (h : List Entry) (open_inputs : List Bool)
        → RunsWithFalls (IsLawfulWithFalls decl) C.fits decl script h open_inputs → Kept h
        → IsBoundedWithFalls decl (length h) h }
{}

/// That what rises is within the bound is needed: a client that rises with a
/// commit record is within no lesser bound than its clock.
#[tactic(auto, using(crate::proofs::RisenClock::bounds_are_on_what_rises))]
pub fn bounds_are_on_what_rises()
    ensures { (decl : Declaration) (a : ℕ) (ds : List Deed) (c : CommitRecord) (bound : ℕ)
        → is_client decl a ≡ true
        → MoveWithin bound (actor_after decl a (ds ++ Rises (Commit c ∷ []) ∷ [])) → c.stamp.clock ≤ bound }
{}

/// A client has begun at most as many transactions as there are steps: they
/// count anew from each rise. An actor's life is at most two more than the
/// records of any rise and the steps, among which are those with which a site
/// closes an epoch; and, where records are kept, than twice the steps. So it is
/// of every history.
#[tactic(auto, using(crate::proofs::CountBounds::history_counts, crate::proofs::CountBounds::history_lives, crate::proofs::Needs::kept_lives))]
pub fn counts_and_lives_are_bounded_with_falls()
    ensures counts { (decl : Declaration) (a : ℕ) (h : List Entry)
        → CountsWithin (length h) (actor_after decl a (deeds a [] h)).actor }
    ensures lives { (most : ℕ) (decl : Declaration) (a : ℕ) (h : List Entry) → RiseWithFew most h
        → LivesWithin (most + 2 + length h) (actor_after decl a (deeds a [] h)).actor }
    ensures kept_lives { (decl : Declaration) (h : List Entry) (a : ℕ) → Kept h
        → LivesWithin (length h + 2 + length h) (actor_after decl a (deeds a [] h)).actor }
{}
