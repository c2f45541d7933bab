//! Laws of the votes of every run with falls whose records are kept, each the
//! contract of a function with nothing to do.

ghost use Rattle.std.specs.Prelude.{◌≡◌, ◌++◌, ◌⊎◌, ℕ, true, List, []};
ghost use Rattle.qc_decl.specs.Actors.{is_site};
ghost use Rattle.qc_entry.specs.declared.record.Commit.{Commit};
ghost use Rattle.laws_votes.specs.Recorded.{HaveAllPromised, IsRecorded};
ghost use Rattle.laws_votes.specs.Votes.{IsCastSince};
ghost use Rattle.qc_list.specs.Members.{In};
ghost use Rattle.qc_msg.specs.declared.message.Answer.TheVariants.{Yes};
ghost use Rattle.qc_msg.specs.declared.message.Envelope.{Envelope};
ghost use Rattle.qc_msg.specs.declared.message.Message.TheVariants.{Answer};
ghost use Rattle.qc_msg.specs.Deeds.{mail};
ghost use Rattle.qc_msg.specs.Steps.{Entry};
ghost use Rattle.qc_promise.specs.Committed.{committed};
ghost use Rattle.laws_turns.specs.EachRun.{OfEachKeptRun};

use qc_script::ConductWithFalls;

/// A vote is cast in the life of its site that its request names, if it names
/// one: each vote of a history is one of its first entries, or its request names
/// no life, or none before the life that the site's records gave it then. So no
/// site votes in a later life for what it was asked for in an earlier one.
pub fn votes_are_cast_in_the_lives_that_they_name<C: ConductWithFalls>()
    ensures { OfEachKeptRun C.fits (λ decl script h open_inputs. (early later : List Entry) (e : Envelope) (to clock :
        ℕ) → early ++ later ≡ h → In e (mail h) → is_site decl e.from ≡ true → e.message ≡ Answer to (Yes clock)
        → In e (mail early) ⊎ IsCastSince early h e.from to) }
{}

/// Each committed record was written by its client, or was being written as it
/// fell, when it was due; and each site with a grant that counted had voted for
/// its transaction then, asked for it in the life of its first grant, and has
/// the record of its promise, which it keeps through its falls.
pub fn participants_of_committed_transactions_have_promised<C: ConductWithFalls>()
    ensures { OfEachKeptRun C.fits (λ decl script h open_inputs. (c : Commit) → In c (committed decl h)
        → (r : IsRecorded decl h c) × HaveAllPromised h r.t) }
{}
