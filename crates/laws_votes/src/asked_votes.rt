//! What sites hold for transactions that wait for their votes: the contracts of
//! functions with nothing to do.

ghost use Rattle.std.specs.Prelude.{◌≡◌, ℕ, true, false, List, [], ◌∷◌, ◌++◌, Some, slice_get};
ghost use Rattle.qc_core.specs.Conduct.{IsLawfulWithFalls};
ghost use Rattle.qc_core.specs.Lives.{is_up};
ghost use Rattle.qc_decl.specs.Actors.{is_client, is_site};
ghost use Rattle.laws_guarantees.specs.Votes.{IsOpenVote};
ghost use Rattle.qc_list.specs.Members.{In};
ghost use Rattle.qc_lock.specs.Held.{is_held};
ghost use Rattle.qc_msg.specs.Begun.{has_granted, life_of};
ghost use Rattle.qc_msg.specs.declared.message.Answer.TheVariants.{Behind, Stale};
ghost use Rattle.qc_msg.specs.declared.message.Message.TheVariants.{Answer};
ghost use Rattle.qc_msg.specs.declared.step.Input.{Input};
ghost use Rattle.qc_msg.specs.declared.turn.Posting.{Posting};
ghost use Rattle.qc_msg.specs.declared.turn.Turn.{Turn};
ghost use Rattle.qc_msg.specs.Deeds.{Deed, Takes, deeds};
ghost use Rattle.qc_promise.specs.Account.{ClientRequest, Current};
ghost use Rattle.qc_promise.specs.Accounting.{account};
ghost use Rattle.qc_promise.specs.SiteDue.{fits_record, promise_due};
ghost use Rattle.qc_promise.specs.SiteHeld.{held_shown};
ghost use Rattle.qc_promise.specs.SiteRecords.{epoch_shown, life_shown};
ghost use Rattle.laws_turns.specs.EachRun.{OfEachKeptRun};

use qc_script::ConductWithFalls;

/// A site that granted something to a transaction that its client runs, and that
/// counted, holds something of it as long as the site is in the life of that
/// grant and in the transaction's epoch: at each moment at which it is up and has
/// no open input. So it doesn't refuse a Prepare that names this life and this
/// epoch for having forgotten.
pub fn granted_sites_hold_through_falls<C: ConductWithFalls>()
    ensures { OfEachKeptRun C.fits (λ decl script h open_inputs. (a : ℕ) → is_client decl a ≡ true → (t : Current)
        → (account decl a h).current ≡ Some t → (site : ℕ) → has_granted t.lives site ≡ true
        → slice_get open_inputs site ≡ Some false → is_up (deeds site [] h) ≡ true
        → life_of t.lives site ≡ life_shown (deeds site [] h) → t.epoch ≡ epoch_shown (deeds site [] h)
        → is_held (held_shown (deeds site [] h)) t.tx ≡ true) }
{}

/// So while a client waits for a site's promise, its transaction holds something at
/// the site, as long as the site is in the life that the request names and in the
/// transaction's epoch.
pub fn asked_sites_hold_through_falls<C: ConductWithFalls>()
    ensures { OfEachKeptRun C.fits (λ decl script h open_inputs. (a : ℕ) → is_client decl a ≡ true → (t : Current)
        → (account decl a h).current ≡ Some t → (q : ClientRequest) → IsOpenVote (account decl a h) q
        → slice_get open_inputs q.site ≡ Some false → is_up (deeds q.site [] h) ≡ true
        → q.life ≡ life_shown (deeds q.site [] h) → t.epoch ≡ epoch_shown (deeds q.site [] h)
        → is_held (held_shown (deeds q.site [] h)) t.tx ≡ true) }
{}

/// A site that answers a Prepare for which its client waits says neither that it has
/// forgotten the transaction nor that it is behind, where what it would promise, by
/// its deeds before that input, fits a record: in a later epoch, or in another life
/// than the request names, it says so.
pub fn asked_sites_remember_through_falls<C: ConductWithFalls>()
    ensures stale { OfEachKeptRun C.fits (λ decl script h open_inputs. (a : ℕ) → is_client decl a ≡ true
        → (t : Current) → (account decl a h).current ≡ Some t → (q : ClientRequest) → IsOpenVote (account decl a h) q
        → (site : ℕ) → is_site decl site ≡ true → slice_get open_inputs site ≡ Some true
        → is_up (deeds site [] h) ≡ true → (before : List Deed) (input : Input)
        → deeds site [] h ≡ before ++ Takes input ∷ [] → (turn : Turn)
        → IsLawfulWithFalls decl site (deeds site [] h) turn → fits_record (promise_due before t.tx) ≡ true
        → (p : Posting) → In p turn.sends → p.message ≡ Answer q.number Stale → ⊥) }
    ensures behind { OfEachKeptRun C.fits (λ decl script h open_inputs. (a : ℕ) → is_client decl a ≡ true
        → (t : Current) → (account decl a h).current ≡ Some t → (q : ClientRequest) → IsOpenVote (account decl a h) q
        → (site : ℕ) → is_site decl site ≡ true → slice_get open_inputs site ≡ Some true
        → is_up (deeds site [] h) ≡ true → (before : List Deed) (input : Input)
        → deeds site [] h ≡ before ++ Takes input ∷ [] → (turn : Turn)
        → IsLawfulWithFalls decl site (deeds site [] h) turn → fits_record (promise_due before t.tx) ≡ true
        → (p : Posting) → In p turn.sends → (epoch : ℕ) → p.message ≡ Answer q.number (Behind epoch) → ⊥) }
{}
