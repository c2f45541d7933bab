//! Laws of runs with falls whose records are kept, each the contract of a function
//! with nothing to do.

ghost use Rattle.std.specs.List.{AllPairs, filter_map};
ghost use Rattle.std.specs.Prelude.{◌≡◌, ◌≢◌, ◌<◌, ◌↔◌, ◌∷◌, ◌++◌, ℕ, true, List, [], option_to_list};
ghost use Rattle.qc_core.specs.Journals.{journal_after};
ghost use Rattle.qc_decl.specs.Actors.{client_actor, is_client};
ghost use Rattle.qc_entry.specs.declared.record.Commit.{Commit};
ghost use Rattle.qc_msg.specs.Counts.{commit_of};
ghost use Rattle.qc_msg.specs.Deeds.{Deed, Takes, deeds, mail};
ghost use Rattle.qc_msg.specs.declared.message.Envelope.{Envelope};
ghost use Rattle.qc_msg.specs.declared.message.Message.TheVariants.{Inquiry};
ghost use Rattle.qc_msg.specs.declared.step.Input.TheVariants.{Got};
ghost use Rattle.qc_promise.specs.Status.{AreRight, HasEnded, status};
ghost use Rattle.qc_promise.specs.Status.{Committed, Unborn};
ghost use Rattle.qc_stamp.specs.declared.stamp.Stamp.{Stamp};
ghost use Rattle.qc_stamp.specs.declared.stamp.TxId.{TxId};
ghost use Rattle.laws_reach.specs.Agreement.{AgreeOnVerdicts};
ghost use Rattle.laws_reach.specs.Recorded.{IsRecorded};
ghost use Rattle.laws_turns.specs.EachRun.{OfEachKeptRun};

use qc_script::ConductWithFalls;

/// A transaction begins once, under a name that no other had in any life.
/// Requests are sent for it, and its record is written, only while it is begun.
/// Sites are told that it committed, with its stamp, only once it has its record;
/// that it aborted only while it is begun, or once it is given up, and has no
/// record; that it is active only while it is begun. As its client rises it is
/// committed where the records have it, and else given up; and no record of it
/// rises that wasn't written, or wasn't being written, while it was begun.
pub fn transactions_move_on_through_falls<C: ConductWithFalls>()
    ensures { OfEachKeptRun C.fits (λ decl script h open_inputs. (a : ℕ) → is_client decl a ≡ true → (tx : TxId)
        → AreRight tx (deeds a [] h)) }
{}

/// The stamps of the commit records in a client's journal rise, over all its
/// lives; and the record that was being written as it fell is above them all.
pub fn stamps_rise_through_falls<C: ConductWithFalls>()
    ensures written { OfEachKeptRun C.fits (λ decl script h open_inputs. (a : ℕ) → is_client decl a ≡ true
        → AllPairs (λ (c d : Commit). c.stamp.clock < d.stamp.clock) (filter_map commit_of (journal_after (deeds a []
        h)).records)) }
    ensures pending { OfEachKeptRun C.fits (λ decl script h open_inputs. (a : ℕ) → is_client decl a ≡ true
        → AllPairs (λ (c d : Commit). c.stamp.clock < d.stamp.clock) (filter_map commit_of ((journal_after (deeds a []
        h)).records ++ option_to_list (journal_after (deeds a [] h)).pending))) }
{}

/// What has ended stays so: a transaction that committed stays committed, with
/// its stamp, and one that was given up never commits, whatever falls and rises
/// come after. So what its client said of it stays true.
pub fn ended_transactions_stay_so_through_falls<C: ConductWithFalls>()
    ensures { OfEachKeptRun C.fits (λ decl script h open_inputs. (a : ℕ) → is_client decl a ≡ true
        → (tx : TxId) (before later : List Deed) → before ++ later ≡ deeds a [] h → HasEnded (status before tx)
        → status (deeds a [] h) tx ≡ status before tx) }
{}

/// No two sites are told differently how a transaction ended, nor is one: each
/// final verdict on it that anybody is sent is the same, with the same stamp,
/// whatever fell between.
pub fn sites_are_told_one_verdict_through_falls<C: ConductWithFalls>()
    ensures { OfEachKeptRun C.fits (λ decl script h open_inputs. AgreeOnVerdicts (mail h)) }
{}

/// A transaction is committed, with a stamp, just where its client's journal has
/// its commit record, of that stamp: what its client says of it, its disk bears
/// out, whatever fell.
pub fn transactions_are_committed_by_their_records_through_falls<C: ConductWithFalls>()
    ensures { OfEachKeptRun C.fits (λ decl script h open_inputs. (a : ℕ) → is_client decl a ≡ true
        → (tx : TxId) (stamp : Stamp) → (status (deeds a [] h) tx ≡ Committed stamp) ↔ IsRecorded tx stamp
        (journal_after (deeds a [] h)).records) }
{}

/// A client begins no transaction of another client.
pub fn clients_begin_their_own_through_falls<C: ConductWithFalls>()
    ensures { OfEachKeptRun C.fits (λ decl script h open_inputs. (a : ℕ) → is_client decl a ≡ true → (tx : TxId)
        → status (deeds a [] h) tx ≢ Unborn → client_actor decl tx.client ≡ a) }
{}

/// A client is asked how a transaction stands only once it began it: so it
/// answers nobody Aborted of one that may begin yet.
pub fn clients_are_asked_about_begun_ones_through_falls<C: ConductWithFalls>()
    ensures { OfEachKeptRun C.fits (λ decl script h open_inputs. (a : ℕ) → is_client decl a ≡ true
        → (before later : List Deed) (e : Envelope) (tx : TxId) → before ++ Takes (Got e) ∷ later ≡ deeds a [] h
        → e.message ≡ Inquiry tx → status before tx ≢ Unborn) }
{}
