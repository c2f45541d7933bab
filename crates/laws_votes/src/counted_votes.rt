//! Laws of votes, through falls: the contracts of functions with nothing to do. A
//! run may have committed as many operations again as the limit, since its last
//! events may pass that.

ghost use Rattle.std.specs.Prelude.{◌≡◌, ◌*◌, ◌≤◌, ℕ, true, false, List, [], ◌∷◌, ◌++◌, Some, slice_get};
ghost use Rattle.qc_core.specs.Conduct.{IsLawfulWithFalls};
ghost use Rattle.qc_core.specs.Lives.{is_up};
ghost use Rattle.qc_decl.specs.Actors.{is_client, is_site};
ghost use Rattle.qc_decl.specs.Limits.{most_committed_operations};
ghost use Rattle.laws_guarantees.specs.Votes.{IsOpenVote, IsRemembered};
ghost use Rattle.qc_list.specs.Members.{In};
ghost use Rattle.qc_msg.specs.declared.message.Answer.TheVariants.{Behind, Stale};
ghost use Rattle.qc_msg.specs.declared.message.Message.TheVariants.{Answer};
ghost use Rattle.qc_msg.specs.declared.message.Want.TheVariants.{Prepare};
ghost use Rattle.qc_msg.specs.declared.reply.Reply.TheVariants.{Aborted};
ghost use Rattle.qc_msg.specs.declared.reply.AbortCause.TheVariants.{Forgot};
ghost use Rattle.qc_msg.specs.declared.step.Input.{Input};
ghost use Rattle.qc_msg.specs.declared.turn.Posting.{Posting};
ghost use Rattle.qc_msg.specs.declared.turn.Turn.{Turn};
ghost use Rattle.qc_msg.specs.Counts.{operations_of};
ghost use Rattle.qc_msg.specs.Deeds.{Deed, Takes, Tells, deeds};
ghost use Rattle.qc_msg.specs.Steps.{sends_as};
ghost use Rattle.qc_promise.specs.Account.{ClientRequest, Current};
ghost use Rattle.qc_promise.specs.Accounting.{account};
ghost use Rattle.qc_promise.specs.SiteDue.{fits_record, promise_due};
ghost use Rattle.qc_promise.specs.SiteRecords.{epoch_shown, life_shown};
ghost use Rattle.laws_turns.specs.EachRun.{OfEachKeptRun};

use qc_script::ConductWithFalls;

/// What a site that is up would promise of a transaction that its client runs
/// fits a record: by its deeds so far, where it has no open input, and by those
/// before the input where it has one.
pub fn promises_of_running_transactions_fit<C: ConductWithFalls>()
    ensures free { OfEachKeptRun C.fits (λ decl script h open_inputs. operations_of h ≤ 2 * most_committed_operations
        → (a : ℕ) → is_client decl a ≡ true → (t : Current) → (account decl a h).current ≡ Some t → (site : ℕ)
        → is_site decl site ≡ true → is_up (deeds site [] h) ≡ true → slice_get open_inputs site ≡ Some false
        → fits_record (promise_due (deeds site [] h) t.tx) ≡ true) }
    ensures taken { OfEachKeptRun C.fits (λ decl script h open_inputs. operations_of h ≤ 2 * most_committed_operations
        → (a : ℕ) → is_client decl a ≡ true → (t : Current) → (account decl a h).current ≡ Some t → (site : ℕ)
        → is_site decl site ≡ true → is_up (deeds site [] h) ≡ true → slice_get open_inputs site ≡ Some true
        → (before : List Deed) (input : Input) → deeds site [] h ≡ before ++ Takes input ∷ []
        → fits_record (promise_due before t.tx) ≡ true) }
{}

/// While a client waits for a site's promise, its transaction holds something at
/// the site, and what the site would promise of it fits a record, as long as the
/// site is in the life that the request names and in the transaction's epoch, and
/// has no open input.
pub fn asked_sites_have_room_through_falls<C: ConductWithFalls>()
    ensures { OfEachKeptRun C.fits (λ decl script h open_inputs. operations_of h ≤ 2 * most_committed_operations
        → (a : ℕ) → is_client decl a ≡ true → (t : Current) → (account decl a h).current ≡ Some t
        → (q : ClientRequest) → IsOpenVote (account decl a h) q → slice_get open_inputs q.site ≡ Some false
        → is_up (deeds q.site [] h) ≡ true → q.life ≡ life_shown (deeds q.site [] h)
        → t.epoch ≡ epoch_shown (deeds q.site [] h) → IsRemembered (deeds q.site [] h) t.tx) }
{}

/// Who answers a Prepare for which its client waits says neither that it has
/// forgotten the transaction nor that it is behind, whatever becomes of its
/// record: a site in a later epoch, or in another life than the request names, says
/// so.
pub fn asked_sites_never_forget_through_falls<C: ConductWithFalls>()
    ensures stale { OfEachKeptRun C.fits (λ decl script h open_inputs. operations_of h ≤ 2 * most_committed_operations
        → (a : ℕ) → is_client decl a ≡ true → (q : ClientRequest) → IsOpenVote (account decl a h) q → (site : ℕ)
        → slice_get open_inputs site ≡ Some true → (turn : Turn) → IsLawfulWithFalls decl site (deeds site [] h) turn
        → (p : Posting) → In p (sends_as turn.append turn) → p.message ≡ Answer q.number Stale → ⊥) }
    ensures behind { OfEachKeptRun C.fits (λ decl script h open_inputs. operations_of h ≤ 2 * most_committed_operations
        → (a : ℕ) → is_client decl a ≡ true → (q : ClientRequest) → IsOpenVote (account decl a h) q → (site : ℕ)
        → slice_get open_inputs site ≡ Some true → (turn : Turn) → IsLawfulWithFalls decl site (deeds site [] h) turn
        → (p : Posting) → In p (sends_as turn.append turn) → (epoch : ℕ) → p.message ≡ Answer q.number (Behind epoch)
        → ⊥) }
{}

/// What counts for a request for a promise is never Stale, nor Behind, and
/// nobody is told that its transaction aborted because a site has forgotten it.
/// A vote may be Closed, Restarted or lost.
pub fn votes_are_never_stale_through_falls<C: ConductWithFalls>()
    ensures stale { OfEachKeptRun C.fits (λ decl script h open_inputs. operations_of h ≤ 2 * most_committed_operations
        → (a : ℕ) → is_client decl a ≡ true → (q : ClientRequest) → In q (account decl a h).requests
        → q.want ≡ Prepare → q.taken ≡ Some (Some Stale) → ⊥) }
    ensures behind { OfEachKeptRun C.fits (λ decl script h open_inputs. operations_of h ≤ 2 * most_committed_operations
        → (a : ℕ) → is_client decl a ≡ true → (q : ClientRequest) → In q (account decl a h).requests
        → q.want ≡ Prepare → (epoch : ℕ) → q.taken ≡ Some (Some (Behind epoch)) → ⊥) }
    ensures told { OfEachKeptRun C.fits (λ decl script h open_inputs. operations_of h ≤ 2 * most_committed_operations
        → (a site : ℕ) → In (Tells (Aborted (Forgot site))) (deeds a [] h) → ⊥) }
{}
