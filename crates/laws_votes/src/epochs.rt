//! Epochs in every run with falls whose records are kept: the contracts of
//! functions with nothing to do.

ghost use Rattle.std.specs.Prelude.{◌≡◌, ◌<◌, ◌≤◌, ◌*◌, ℕ, List, [], Some, true, slice_get};
ghost use Rattle.qc_core.specs.Actors.{actor_after};
ghost use Rattle.qc_core.specs.Lives.{is_up};
ghost use Rattle.qc_decl.specs.Actors.{administrator, is_client};
ghost use Rattle.qc_decl.specs.Limits.{most_committed_operations, most_record_bytes};
ghost use Rattle.qc_entry.specs.declared.line.Line.{Line};
ghost use Rattle.qc_entry.specs.declared.line.Op.{Op};
ghost use Rattle.qc_entry.specs.declared.record.Commit.{Commit};
ghost use Rattle.laws_guarantees.specs.Ordered.{IsSeenBefore};
ghost use Rattle.qc_list.specs.Members.{In};
ghost use Rattle.qc_msg.specs.Begun.{first_epoch};
ghost use Rattle.qc_msg.specs.Counts.{operations_of};
ghost use Rattle.qc_msg.specs.Deeds.{deeds, mail};
ghost use Rattle.qc_msg.specs.Lengths.{epoch_length};
ghost use Rattle.qc_msg.specs.declared.message.Envelope.{Envelope};
ghost use Rattle.qc_msg.specs.declared.message.Message.TheVariants.{Install};
ghost use Rattle.qc_msg.specs.declared.reply.Reply.TheVariants.{Fault};
ghost use Rattle.qc_msg.specs.Payloads.{start_with};
ghost use Rattle.laws_refinement.specs.Rules.{AreInTurn};
ghost use Rattle.qc_promise.specs.Account.{Current, view_of};
ghost use Rattle.qc_promise.specs.Accounting.{account};
ghost use Rattle.laws_reach.specs.Standing.{records_of};
ghost use Rattle.qc_stamp.specs.declared.stamp.TxId.{TxId};
ghost use Rattle.laws_votes.specs.Epochs.{AsksIn};
ghost use Rattle.laws_votes.specs.Ordered.{DependsOn, IsToldBy};
ghost use Rattle.laws_turns.specs.EachRun.{OfEachKeptRun};

use qc_script::ConductWithFalls;

/// All requests of a transaction name one epoch, and that is the one in which its
/// client has begun it, while it has.
pub fn transactions_ask_in_one_epoch<C: ConductWithFalls>()
    ensures one { OfEachKeptRun C.fits (λ decl script h open_inputs. (tx : TxId) (e f : ℕ) → AsksIn h tx e
        → AsksIn h tx f → e ≡ f) }
    ensures begun { OfEachKeptRun C.fits (λ decl script h open_inputs. (a : ℕ) (t : Current) → is_client decl a ≡ true
        → (account decl a h).current ≡ Some t → (e : ℕ) → AsksIn h t.tx e → e ≡ t.epoch) }
{}

/// Epochs follow each other: let an operation of a committed transaction depend on
/// the event of another one's, on the same object, and let the two have asked in
/// different epochs. Then that of the later epoch has the greater stamp; and where
/// it is the operation's own, the client's view, when it was told the operation,
/// had the line of the other. Both are committed: each record was written, or was
/// being written as its client fell, and rose later.
pub fn later_epochs_follow_earlier_ones_through_falls<C: ConductWithFalls>()
    ensures readers { OfEachKeptRun C.fits (λ decl script h open_inputs. (c : Commit) (op : Op) (t : Current)
        → IsToldBy C.fits decl script h c op t → (line : Line) → DependsOn decl h c op line → (e f : ℕ)
        → AsksIn h line.tx e → AsksIn h c.tx f → e < f → IsSeenBefore (view_of t op.object) line c.stamp) }
    ensures writers { OfEachKeptRun C.fits (λ decl script h open_inputs. (c : Commit) (op : Op) (t : Current)
        → IsToldBy C.fits decl script h c op t → (line : Line) → DependsOn decl h c op line → (e f : ℕ)
        → AsksIn h line.tx e → AsksIn h c.tx f → f < e → c.stamp.clock < line.stamp.clock) }
{}

/// Each Decide record in the administrator's journal is of the epoch after the
/// last one, the first of the second epoch, however often he falls.
pub fn decisions_are_in_turn_through_falls<C: ConductWithFalls>()
    ensures { OfEachKeptRun C.fits (λ decl script h open_inputs. AreInTurn first_epoch (records_of h (administrator
        decl))) }
{}

/// Within twice the limit of committed operations, what an epoch begins with fits
/// a record. So the administrator tells a fault only where his record isn't
/// written, as he falls: no turn that an input of his calls for tells one.
pub fn decisions_fit_records_through_falls<C: ConductWithFalls>()
    ensures { OfEachKeptRun C.fits (λ decl script h open_inputs. operations_of h ≤ 2 * most_committed_operations
        → slice_get open_inputs (administrator decl) ≡ Some true → is_up (deeds (administrator decl) [] h) ≡ true
        → (actor_after decl (administrator decl) (deeds (administrator decl) [] h)).turn.told ≡ Some Fault → ⊥) }
{}

/// And each Install that was sent fits a record of its site, which so never
/// answers that it is behind for want of room.
pub fn installs_fit_records_through_falls<C: ConductWithFalls>()
    ensures { OfEachKeptRun C.fits (λ decl script h open_inputs. operations_of h ≤ 2 * most_committed_operations
        → (e : Envelope) (epoch clock : ℕ) (log : List Line) → In e (mail h)
        → e.message ≡ Install (start_with epoch clock log)
        → epoch_length log ≤ most_record_bytes) }
{}
