//! Laws of what sites granted in every run with falls whose records are kept,
//! each the contract of a function with nothing to do.

ghost use Rattle.std.specs.Prelude.{◌≡◌, ℕ, true, false, [], Some, slice_get};
ghost use Rattle.qc_core.specs.Lives.{is_up};
ghost use Rattle.qc_decl.specs.Actors.{is_site};
ghost use Rattle.qc_entry.specs.declared.record.Commit.{Commit};
ghost use Rattle.qc_entry.specs.declared.record.Prepared.{Prepared};
ghost use Rattle.laws_guarantees.specs.Held.{HasWanted, IsGrantedSince};
ghost use Rattle.laws_votes.specs.Promised.{HasPromisedItems, IsPromisedStill};
ghost use Rattle.qc_list.specs.Members.{In};
ghost use Rattle.qc_lock.specs.Held.{held_of};
ghost use Rattle.qc_msg.specs.declared.message.Answer.TheVariants.{Granted};
ghost use Rattle.qc_msg.specs.declared.message.Envelope.{Envelope};
ghost use Rattle.qc_msg.specs.declared.message.Message.TheVariants.{Answer, Request};
ghost use Rattle.qc_msg.specs.declared.message.Want.{Want};
ghost use Rattle.qc_msg.specs.declared.message.Want.TheVariants.{Read};
ghost use Rattle.qc_msg.specs.declared.payload.Grant.{Grant};
ghost use Rattle.qc_msg.specs.Deeds.{deeds, mail};
ghost use Rattle.qc_msg.specs.Payloads.{first_read};
ghost use Rattle.theory_onecopy.specs.Logged.{IsClosedLog};
ghost use Rattle.qc_promise.specs.Committed.{committed};
ghost use Rattle.qc_promise.specs.SiteHeld.{held_shown, last_cut};
ghost use Rattle.qc_stamp.specs.declared.stamp.TxId.{TxId};
ghost use Rattle.laws_turns.specs.EachRun.{OfEachKeptRun};

use qc_script::ConductWithFalls;

/// The held law through falls: what a site granted since it rose, closed an epoch or
/// installed one to a transaction that committed, it holds from that turn on until it
/// takes the Decision that this committed: the lock of a Read, and the own lines of an
/// Append, whatever it had promised of the transaction before.
pub fn granted_items_are_held_in_their_lives<C: ConductWithFalls>()
    ensures { OfEachKeptRun C.fits (λ decl script h open_inputs. (c : Commit) → In c (committed decl h)
        → (site : ℕ) (want : Want) → IsGrantedSince (last_cut (deeds site [] h)).since c.tx want
        → HasWanted (held_of (held_shown (deeds site [] h)) c.tx) want) }
{}

/// With a line, the log that a Read is granted has each committed line of its
/// object before it on which its invocation depends: through all falls.
pub fn granted_logs_are_closed_through_falls<C: ConductWithFalls>()
    ensures { OfEachKeptRun C.fits (λ decl script h open_inputs. (request answer : Envelope) (tx : TxId) (number epoch
        named object inv : ℕ) (grant : Grant) → slice_get (mail h) number ≡ Some request
        → request.message ≡ Request tx epoch named (Read (first_read object inv)) → In answer (mail h)
        → answer.message ≡ Answer number (Granted grant) → IsClosedLog decl (committed decl h) grant.log) }
{}

/// What was promised is held: while a promise stands on a site's disk, the last of
/// its transaction and not done, and no Decision Aborted was taken since it was
/// written and since the site rose, the site holds all its locks and own lines at
/// each moment at which it is up and has no open input, in whichever life.
pub fn promised_items_are_held_through_falls<C: ConductWithFalls>()
    ensures { OfEachKeptRun C.fits (λ decl script h open_inputs. (site : ℕ) (p : Prepared) → is_site decl site ≡ true
        → slice_get open_inputs site ≡ Some false → is_up (deeds site [] h) ≡ true → IsPromisedStill h site p
        → HasPromisedItems (held_of (held_shown (deeds site [] h)) p.tx) p) }
{}
