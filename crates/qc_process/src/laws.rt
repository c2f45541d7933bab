//! Laws of stores and processes, each the contract of a function with nothing to
//! do.

ghost use Rattle.std.specs.Prelude.{◌≡◌, ◌≢◌, ◌≤◌, ◌<◌, ◌^◌, ◌∷◌, ◌++◌, ℕ, Bool, true, List, [], None, length};
ghost use Rattle.qc_core.specs.Actors.{actor_after};
ghost use Rattle.qc_core.specs.declared.actor.Actor.TheVariants.{Down};
ghost use Rattle.qc_decl.specs.declared.declaration.Declaration.{Declaration};
ghost use Rattle.qc_msg.specs.Deeds.{deeds, own};
ghost use Rattle.qc_msg.specs.Steps.{Entry, posted_as, step_of};
ghost use Rattle.qc_msg.specs.declared.step.Fall.{Fall};
ghost use Rattle.qc_msg.specs.declared.step.Input.{Input};
ghost use Rattle.qc_msg.specs.declared.step.Step.{Step};
ghost use Rattle.qc_msg.specs.declared.step.Step.TheVariants.{Damaged, Fell};
ghost use Rattle.qc_msg.specs.declared.turn.Appended.{Appended};
ghost use Rattle.qc_msg.specs.declared.turn.Appended.TheVariants.{Done};
ghost use Rattle.qc_msg.specs.declared.turn.Turn.{Turn};
ghost use Rattle.qc_outside.specs.declared.disk.ArmKind.{ArmKind};
ghost use Rattle.qc_promise.specs.Kept.{Kept, journal_of};
ghost use Rattle.qc_process.specs.Fitting.{AreKeptOrUnfit, journal_fits};
ghost use Rattle.qc_process.specs.Goes.{Goes, GoesArmed};
ghost use Rattle.qc_process.specs.Stored.{IsProcess, IsStored};
ghost use Rattle.qc_process.specs.Views.{HasFewRecords, ProcessView, StoreView};

use qc_spent::fitting_records_are_kept;

/// A store stays what it is over what others do, and as its actor takes an input.
pub fn stores_stay_over_looks_and_inputs()
    ensures looks { (tells : Bool) (decl : Declaration) (a : ℕ) (h now : List Entry) (s : StoreView)
        → Goes a h [] now → IsStored tells decl a h s → IsStored tells decl a now s }
    ensures inputs { (tells : Bool) (decl : Declaration) (a : ℕ) (h now : List Entry) (s : StoreView) (given : Input)
        → Goes a h (step_of given ∷ []) now → IsStored tells decl a h s → IsStored tells decl a now s }
{}

/// What an actor posts at once may be seen in two parts.
#[tactic(auto, using(crate::proofs::Seen::posts_may_be_seen_in_parts))]
pub fn posts_may_be_seen_in_parts()
    ensures { (a : ℕ) (h now : List Entry) (xs ys : List Step) → Goes a h (xs ++ ys) now
        → (mid : List Entry) × Goes a h xs mid × Goes a mid ys now }
{}

/// Far below the limit of numbers of records, one more can be written.
#[tactic(auto, using(crate::proofs::Seen::stores_take_one_record_more))]
pub fn stores_take_one_record_more()
    ensures { (tells : Bool) (decl : Declaration) (a : ℕ) (h : List Entry) (s : StoreView) → length h < 2 ^ 31
        → IsStored tells decl a h s → HasFewRecords s }
{}

/// Where each actor's own steps leave its records, or find damage where one
/// doesn't fit, and as long as records were kept so far each journal fits its
/// actor, records are kept, and nothing is damaged.
pub fn records_are_kept_where_they_fit()
    ensures { (decl : Declaration) (h : List Entry) → ((a : ℕ) → AreKeptOrUnfit decl a (own a h))
        → ((a : ℕ) (before later : List Entry) → before ++ later ≡ h → Kept before
        → journal_fits decl a (journal_of (own a before)) ≡ true) → Kept h }
{
    fitting_records_are_kept();
}

/// A process goes on: it stays what it is over what others do and as a fault is
/// armed; it is down after each fall, and stays down over damage.
pub fn processes_go_on()
    ensures looks { (tells : Bool) (decl : Declaration) (a : ℕ) (h now : List Entry) (p : ProcessView)
        → Goes a h [] now → IsProcess tells decl a h p → IsProcess tells decl a now p }
    ensures armed { (tells : Bool) (decl : Declaration) (a : ℕ) (h now : List Entry) (old new : ProcessView)
        (kind : ArmKind) (at : ℕ) → GoesArmed a h kind at now → new.number ≡ old.number → new.actor ≡ old.actor
        → IsStored tells decl a now new.store → IsProcess tells decl a h old → IsProcess tells decl a now new }
    ensures fell { (tells : Bool) (decl : Declaration) (a : ℕ) (h now : List Entry) (new : ProcessView) (cause : Fall)
        → Goes a h (Fell cause None ∷ []) now → new.number ≡ a → new.actor ≡ Down
        → IsStored tells decl a now new.store → IsProcess tells decl a now new }
    ensures damaged { (tells : Bool) (decl : Declaration) (a : ℕ) (h now : List Entry) (old new : ProcessView)
        (offset : ℕ) → Goes a h (Damaged offset ∷ []) now → new.number ≡ old.number → old.actor ≡ Down
        → new.actor ≡ Down → IsStored tells decl a now new.store → IsProcess tells decl a h old
        → IsProcess tells decl a now new }
    ensures broken { (tells : Bool) (decl : Declaration) (a : ℕ) (h now : List Entry) (new : ProcessView) (turn : Turn)
        (end : Appended) (first : ℕ) → end ≢ Done → Goes a h (posted_as end first turn) now → new.number ≡ a
        → new.actor ≡ Down → IsStored tells decl a now new.store → IsProcess tells decl a now new }
{}
