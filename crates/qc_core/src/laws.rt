//! Laws of the conduct, each the contract of a function with nothing to do.

ghost use Rattle.std.specs.Prelude.{◌≡◌, ℕ, ◌^◌, ◌<◌, ◌≤◌, Bool, true, false, List, [], ◌∷◌, ◌++◌, Some};
ghost use Rattle.std.specs.List.{AllByRecursion as Every};
ghost use Rattle.qc_core.specs.declared.actor.Actor.{Actor};
ghost use Rattle.qc_core.specs.declared.actor.Actor.TheVariants as actor;
ghost use Rattle.qc_core.specs.Actors.{ActorFits, ActorWithin, AsksFew, IsFrom, IsFromActor, IsShort};
ghost use Rattle.qc_core.specs.Actors.{actor_after, actor_hears, actor_sent, actor_takes};
ghost use Rattle.qc_core.specs.Acts.{Acts, MayTake};
ghost use Rattle.qc_core.specs.Conduct.{turn_after};
ghost use Rattle.qc_core.specs.Lives.{AreSteady};
ghost use Rattle.qc_core.specs.Lives.{Lives, is_up};
ghost use Rattle.qc_core.specs.Sites.{IsShown, IsSiteDeed, Serves};
ghost use Rattle.qc_decl.specs.Accepted.{IsAccepted};
ghost use Rattle.qc_decl.specs.Actors.{administrator};
ghost use Rattle.qc_decl.specs.Limits.{most_sites};
ghost use Rattle.qc_decl.specs.declared.declaration.Declaration.{Declaration};
ghost use Rattle.qc_msg.specs.Deeds.{Deed, Takes, turn_deeds};
ghost use Rattle.qc_msg.specs.declared.message.Envelope.{Envelope};
ghost use Rattle.qc_msg.specs.declared.step.Input.{Input};
ghost use Rattle.qc_msg.specs.declared.step.Input.TheVariants as inputs;
ghost use Rattle.qc_promise.specs.SiteDue.{AreDue};
ghost use Rattle.qc_site.specs.Site.{SiteState};

/// All that a site is while it is up, its own steps show: life, epoch, the lines
/// that this began with and those since, the lines that its records give, what is
/// held there and promised, and its clock.
/// So it is after any falls and rises, whatever records they gave.
#[tactic(auto, using(crate::proofs::SiteLaws::sites_are_read_off_their_steps))]
pub fn sites_are_read_off_their_steps()
    ensures { (decl : Declaration) (site : ℕ) (ds : List Deed) → site < decl.sites → Serves decl site ds true
        → (s : SiteState) × ((actor_after decl site ds).actor ≡ actor.Site s) × IsShown ds s }
{}

/// What a site posts for each input and each rise is due: what it writes, what
/// it sends, and that it falls where its record isn't written. Its own steps up
/// to then show it.
#[tactic(auto, using(crate::proofs::SiteLaws::answers_of_sites_are_due))]
pub fn answers_of_sites_are_due()
    ensures { (decl : Declaration) (site : ℕ) (ds : List Deed) (up : Bool) → site < decl.sites
        → Serves decl site ds up → AreDue decl [] ds }
{}

/// A site that lives by its conduct, and is commanded by nobody, serves: it is up
/// as it takes what it takes.
#[tactic(auto, using(crate::proofs::SiteLives::sites_that_live_serve))]
pub fn sites_that_live_serve()
    ensures { (decl : Declaration) (site : ℕ) (ds : List Deed) (n : ℕ) → Lives decl site ds false n
        → Every IsSiteDeed ds → Serves decl site ds (is_up ds) }
{}

/// An actor is a fold over its deeds: an input moves it, and it stays where it
/// writes and tells.
#[tactic(auto, using(crate::proofs::ActorLaws::input, crate::proofs::ActorLaws::message))]
pub fn actors_are_folds()
    ensures input { (decl : Declaration) (a : ℕ) (ds : List Deed) (given : Input)
        → actor_after decl a (ds ++ Takes given ∷ []) ≡ actor_takes decl (actor_after decl a ds).actor given }
    ensures message { (decl : Declaration) (actor : Actor) (envelope : Envelope)
        → actor_takes decl actor (inputs.Got envelope)
        ≡ actor_hears decl actor envelope.from envelope.number envelope.message }
{}

/// The turn that the deeds of an actor that never falls call for is the last one
/// of that fold.
#[tactic(auto, using(crate::proofs::ActorLaws::turns_are_those_of_actors))]
pub fn turns_are_those_of_actors()
    ensures { (decl : Declaration) (a : ℕ) (ds : List Deed) → AreSteady ds → a < administrator decl
        → turn_after decl a ds ≡ Some (actor_after decl a ds).turn }
{}

/// After the turn of an input that an actor of a run may take, one call with
/// the number of the first message gives what the messages give one after
/// another.
#[tactic(auto, using(crate::proofs::ActorSent::requests_are_numbered_at_once))]
pub fn requests_are_numbered_at_once()
    ensures { (decl : Declaration) (a : ℕ) (ds : List Deed) (n : ℕ) (given : Input) (first : ℕ)
        → 0 < decl.sites → decl.sites ≤ most_sites → a < administrator decl → Acts decl a ds false n → MayTake ds given
        → (actor_after decl a ((ds ++ Takes given ∷ [])
        ++ turn_deeds first (actor_takes decl (actor_after decl a ds).actor given).turn)).actor
        ≡ actor_sent (actor_takes decl (actor_after decl a ds).actor given).actor first }
{}

/// Where the life, the count and the clocks of an actor of a run are far from
/// the ends of their types, it fits: its calls may be made.
#[tactic(auto, using(crate::proofs::ActorFits::actor_fits, crate::proofs::ActorFits::actor_asks_few))]
pub fn actors_fit()
    ensures fits { (decl : Declaration) (a : ℕ) (ds : List Deed) (m n : ℕ) → IsAccepted decl → a < administrator decl
        → Acts decl a ds false m → n < 2 ^ 31 → ActorWithin n (actor_after decl a ds).actor
        → ActorFits (actor_after decl a ds).actor }
    ensures few { (decl : Declaration) (a : ℕ) (ds : List Deed) (m : ℕ) (given : Input) → IsAccepted decl
        → a < administrator decl → Acts decl a ds false m → MayTake ds given
        → AsksFew (actor_takes decl (actor_after decl a ds).actor given).actor }
{}

/// An actor's turn has few messages, and they go to actors, where those that
/// it took came from actors.
#[tactic(auto, using(crate::proofs::ActorFits::turns_are_short))]
pub fn turns_are_short()
    ensures { (decl : Declaration) (a : ℕ) (ds : List Deed) (m : ℕ) (given : Input) → IsAccepted decl
        → a < administrator decl → Acts decl a ds false m → Every IsFromActor ds → IsFrom given
        → IsShort (actor_takes decl (actor_after decl a ds).actor given).turn }
{}
