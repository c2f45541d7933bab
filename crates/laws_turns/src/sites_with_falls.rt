//! Laws of sites in runs with falls, each the contract of a function with nothing
//! to do.

ghost use Rattle.std.specs.Prelude.{◌≡◌, ◌<◌, ◌≤◌, ℕ, [], Some, true, false, slice_get};
ghost use Rattle.std.specs.List.{AllByRecursion as Every};
ghost use Rattle.qc_core.specs.declared.actor.Actor.TheVariants.{Site};
ghost use Rattle.qc_core.specs.Actors.{actor_after};
ghost use Rattle.qc_core.specs.Lives.{is_up};
ghost use Rattle.qc_core.specs.Sites.{IsShown, IsSiteDeed, IsStamped, Serves};
ghost use Rattle.laws_turns.specs.OwnRises.{RiseWithOwn};
ghost use Rattle.qc_msg.specs.Deeds.{deeds, mail};
ghost use Rattle.qc_msg.specs.declared.message.Envelope.{Envelope};
ghost use Rattle.qc_promise.specs.Kept.{Kept};
ghost use Rattle.qc_promise.specs.SiteDue.{AreDue};
ghost use Rattle.qc_site.specs.Site.{SiteState};
ghost use Rattle.laws_turns.specs.EachRun.{OfEachRun};

use qc_script::ConductWithFalls;

/// Where records are kept, clients rise with commit records that name stamps of
/// their transactions' own clients: they write no others.
#[tactic(auto, using(crate::proofs::FallKept::clients_rise_with_own_stamps_where_records_are_kept))]
pub fn clients_rise_with_own_stamps_where_records_are_kept<C: ConductWithFalls>()
    ensures { OfEachRun C.fits (λ decl script h open_inputs. Kept h → RiseWithOwn decl h) }
{}

/// Each Decision Committed names a stamp of its transaction's own client, where
/// clients rise with commit records that do.
#[tactic(auto, using(crate::proofs::FallServed::decisions_name_stamps_of_their_clients_with_falls))]
pub fn decisions_name_stamps_of_their_clients_with_falls<C: ConductWithFalls>()
    ensures { OfEachRun C.fits (λ decl script h open_inputs. RiseWithOwn decl h
        → Every (λ (e : Envelope). IsStamped e.message) (mail h)) }
{}

/// A site takes only what a site takes: nobody commands it, and each Decision
/// Committed that comes to it names a stamp of the transaction's own client.
#[tactic(auto, using(crate::proofs::FallServed::sites_take_site_inputs_with_falls))]
pub fn sites_take_site_inputs_with_falls<C: ConductWithFalls>()
    ensures { OfEachRun C.fits (λ decl script h open_inputs. RiseWithOwn decl h → (site : ℕ) → site < decl.sites
        → Every IsSiteDeed (deeds site [] h)) }
{}

/// A site without an open input has taken inputs while it was up and posted its
/// turn after each, fallen, and risen.
#[tactic(auto, using(crate::proofs::FallServed::sites_serve_with_falls))]
pub fn sites_serve_with_falls<C: ConductWithFalls>()
    ensures { OfEachRun C.fits (λ decl script h open_inputs. RiseWithOwn decl h → (site : ℕ) → site < decl.sites
        → slice_get open_inputs site ≡ Some false → Serves decl site (deeds site [] h) (is_up (deeds site [] h))) }
{}

/// All that such a site is while it is up, its own steps show.
#[tactic(auto, using(crate::proofs::FallServed::sites_are_what_their_steps_show_with_falls))]
pub fn sites_are_what_their_steps_show_with_falls<C: ConductWithFalls>()
    ensures { OfEachRun C.fits (λ decl script h open_inputs. RiseWithOwn decl h → (site : ℕ) → site < decl.sites
        → slice_get open_inputs site ≡ Some false → is_up (deeds site [] h) ≡ true → (s : SiteState)
        × ((actor_after decl site (deeds site [] h)).actor ≡ Site s) × IsShown (deeds site [] h) s) }
{}

/// What a site posts for each input and each rise is due: in every run with
/// falls, whether the site has an open input or not.
#[tactic(auto, using(crate::proofs::FallServed::what_sites_post_is_due_with_falls))]
pub fn what_sites_post_is_due_with_falls<C: ConductWithFalls>()
    ensures { OfEachRun C.fits (λ decl script h open_inputs. RiseWithOwn decl h → (site : ℕ) → site < decl.sites
        → AreDue decl [] (deeds site [] h)) }
{}
