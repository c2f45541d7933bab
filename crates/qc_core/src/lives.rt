//! Laws of an actor through its falls and rises, each the contract of a function
//! with nothing to do.

ghost use Rattle.std.specs.Prelude.{◌<◌, ◌≡◌, ℕ, Bool, true, false, List, [], ◌∷◌, ◌++◌, Option, None};
ghost use Rattle.qc_core.specs.declared.actor.Actor.TheVariants as actor;
ghost use Rattle.qc_core.specs.Actors.{actor_after, actor_rises, moved};
ghost use Rattle.qc_core.specs.Acts.{Acts};
ghost use Rattle.qc_core.specs.Conduct.{IsLawful, IsLawfulWithFalls, turn_after, turn_with_falls};
ghost use Rattle.qc_core.specs.GivenBack.{AreGivenBack};
ghost use Rattle.qc_core.specs.Journals.{journal_after};
ghost use Rattle.qc_core.specs.Lives.{AreSteady, AreUncommanded, Lives, is_up};
ghost use Rattle.qc_decl.specs.Actors.{administrator, is_site};
ghost use Rattle.qc_promise.specs.Turns.{AreByTurns};
ghost use Rattle.qc_decl.specs.declared.declaration.Declaration.{Declaration};
ghost use Rattle.qc_msg.specs.Deeds.{Deed, Falls, Rises, deeds, own};
ghost use Rattle.qc_msg.specs.Steps.{Entry};
ghost use Rattle.qc_msg.specs.Turns.{quiet};
ghost use Rattle.qc_msg.specs.declared.record.Record.{Record};
ghost use Rattle.qc_msg.specs.declared.step.Fall.{Fall};
ghost use Rattle.qc_msg.specs.declared.turn.Appended.TheVariants.{Done};
ghost use Rattle.qc_msg.specs.declared.turn.Turn.{Turn};
ghost use Rattle.qc_promise.specs.Kept.{Kept, journal_of, no_journal};

/// After a fall an actor is down, and after a rise it is what its records give,
/// whatever it was before; its turn is then its rising turn.
#[tactic(auto, using(crate::proofs::LivesOfActors::falls, crate::proofs::LivesOfActors::rises))]
pub fn actors_fall_and_rise()
    ensures fall { (decl : Declaration) (a : ℕ) (ds : List Deed) (cause : Fall) (pending : Option Record)
        → actor_after decl a (ds ++ Falls cause pending ∷ []) ≡ moved actor.Down quiet }
    ensures rise { (decl : Declaration) (a : ℕ) (ds : List Deed) (records : List Record)
        → actor_after decl a (ds ++ Rises records ∷ []) ≡ actor_rises decl a records }
{}

/// An actor has no state just while it is down.
#[tactic(auto, using(crate::proofs::LivesOfActors::down, crate::proofs::LivesOfActors::up))]
pub fn who_is_down_has_no_state()
    ensures down { (decl : Declaration) (a : ℕ) (ds : List Deed) → is_up ds ≡ false
        → (actor_after decl a ds).actor ≡ actor.Down }
    ensures up { (decl : Declaration) (a : ℕ) (ds : List Deed) → is_up ds ≡ true
        → (actor_after decl a ds).actor ≡ actor.Down → ⊥ }
{}

/// Where a site or a client neither falls nor rises, its deeds call for the turn
/// that its conduct alone calls for, which has its record written; so what acts
/// there lives.
#[tactic(auto, using(crate::proofs::LivesOfActors::same_turn, crate::proofs::LivesLaws::written, crate::proofs::LivesLaws::lawful_still, crate::proofs::LivesLaws::act_lives))]
pub fn who_never_falls_lives_as_it_acts()
    ensures turn { (decl : Declaration) (a : ℕ) (ds : List Deed) → AreSteady ds → a < administrator decl
        → turn_with_falls decl a ds ≡ turn_after decl a ds }
    ensures written { (decl : Declaration) (a : ℕ) (ds : List Deed) (turn : Turn) → AreSteady ds
        → IsLawful decl a ds turn → turn.append ≡ Done }
    ensures lawful { (decl : Declaration) (a : ℕ) (ds : List Deed) (turn : Turn) → AreSteady ds
        → IsLawful decl a ds turn → IsLawfulWithFalls decl a ds turn }
    ensures lives { (decl : Declaration) (a : ℕ) (ds : List Deed) (open_input : Bool) (n : ℕ)
        → Acts decl a ds open_input n → Lives decl a ds open_input n }
{}

/// While an actor is up no record is pending: at its rise it was given back, or
/// dropped.
#[tactic(auto, using(crate::proofs::LivesLaws::who_is_up_has_no_pending_record))]
pub fn who_is_up_has_no_pending_record()
    ensures { (decl : Declaration) (a : ℕ) (ds : List Deed) (open_input : Bool) (n : ℕ)
        → Lives decl a ds open_input n → is_up ds ≡ true → (journal_after ds).pending ≡ None }
{}

/// What an actor's deeds put into its journal is what its own steps put there.
#[tactic(auto, using(crate::proofs::LivesLaws::journal))]
pub fn journals_are_those_of_steps()
    ensures { (a : ℕ) (h : List Entry) → journal_after (deeds a [] h) ≡ journal_of (own a h) }
{}

/// Who lives goes by turns: it posts for each input and as it rises, its record
/// first, and while it is down it only tells so; where no command comes to it,
/// if it is a site.
#[tactic(auto, using(crate::proofs::ByTurns::who_lives_goes_by_turns))]
pub fn who_lives_goes_by_turns()
    ensures { (decl : Declaration) (a : ℕ) (ds : List Deed) (open_input : Bool) (n : ℕ)
        → Lives decl a ds open_input n → (is_site decl a ≡ true → AreUncommanded ds)
        → AreByTurns (is_site decl a) ds }
{}

/// Where records are kept, each rise gives back what its actor's journal holds.
#[tactic(auto, using(crate::proofs::KeptBack::rises_give_back_journals_where_records_are_kept))]
pub fn rises_give_back_journals_where_records_are_kept()
    ensures { (h : List Entry) → Kept h → (a : ℕ) → AreGivenBack no_journal (deeds a [] h) }
{}
