//! Laws of sites, each the contract of a function with nothing to do. They hold
//! for every state, whether a run comes to it or not.

ghost use Rattle.std.specs.Prelude.{◌≡◌, ◌≢◌, ◌≤◌, ◌<◌, ◌+◌, ◌⊎◌, ℕ, true, false, List, [], ◌∷◌, Some, None};
ghost use Rattle.qc_list.specs.Members.{In};
ghost use Rattle.qc_stamp.specs.Order.{same_tx};
ghost use Rattle.qc_stamp.specs.declared.stamp.Stamp.{Stamp};
ghost use Rattle.qc_stamp.specs.declared.stamp.TxId.{TxId};
ghost use Rattle.qc_entry.specs.declared.line.Line.{Line};
ghost use Rattle.qc_entry.specs.declared.line.OwnLine.{OwnLine};
ghost use Rattle.qc_entry.specs.declared.line.ReadLock.{ReadLock};
ghost use Rattle.qc_entry.specs.declared.record.Prepared.{Prepared};
ghost use Rattle.qc_table.specs.Depends.{depends};
ghost use Rattle.qc_decl.specs.declared.declaration.Declaration.{Declaration};
ghost use Rattle.qc_decl.specs.Limits.{most_record_bytes};
ghost use Rattle.qc_lock.specs.Conflict.{In as IsAmong, IsAppendConflict, IsReadConflict, IsSmallest};
ghost use Rattle.qc_lock.specs.Held.{entry_of, held_of, with_locks, with_owns};
ghost use Rattle.qc_lock.specs.declared.clash.Clash.{Clash as Conflict};
ghost use Rattle.qc_lock.specs.declared.held.Held.{Held};
ghost use Rattle.qc_msg.specs.Deeds.{Deed};
ghost use Rattle.qc_msg.specs.Lengths.{epoch_length};
ghost use Rattle.qc_msg.specs.Turns.{quiet};
ghost use Rattle.qc_msg.specs.declared.message.Answer.{Answer};
ghost use Rattle.qc_msg.specs.declared.message.Answer.TheVariants.{Clash, Closed, Behind, Installed, Restarted};
ghost use Rattle.qc_msg.specs.declared.message.Message.{Message};
ghost use Rattle.qc_msg.specs.declared.message.Message.TheVariants as messages;
ghost use Rattle.qc_msg.specs.declared.message.Message.TheVariants.{Request};
ghost use Rattle.qc_msg.specs.declared.message.Outcome.{Outcome};
ghost use Rattle.qc_msg.specs.declared.message.Outcome.TheVariants.{Active};
ghost use Rattle.qc_msg.specs.declared.message.Want.{Want};
ghost use Rattle.qc_msg.specs.declared.payload.EpochStart.{EpochStart};
ghost use Rattle.qc_msg.specs.declared.message.Want.TheVariants.{Read, Append};
ghost use Rattle.qc_msg.specs.declared.record.Record.TheVariants as records;
ghost use Rattle.qc_msg.specs.declared.step.Command.{Command};
ghost use Rattle.qc_msg.specs.declared.step.Input.TheVariants.{Called, Lost};
ghost use Rattle.qc_msg.specs.declared.payload.ReadRequest.{ReadRequest};
ghost use Rattle.qc_site.specs.Brought.{brought, stamps_in, stamps_taken};
ghost use Rattle.qc_site.specs.Conduct.{decision_on, passed, request_on, site_after, site_on, site_takes};
ghost use Rattle.qc_site.specs.Ended.{ends};
ghost use Rattle.qc_msg.specs.Readings.{is_final};
ghost use Rattle.qc_site.specs.Holders.{HasOperation};
ghost use Rattle.qc_site.specs.Promise.{prepared_of};
ghost use Rattle.qc_site.specs.Requests.{clashing, grants, names_declared};
ghost use Rattle.qc_decl.specs.Lookup.{relation_at};
ghost use Rattle.qc_site.specs.Epochs.{closed, installed, shut_answer};
ghost use Rattle.qc_site.specs.Site.{SiteState, answers, learned, moved, recording};
ghost use Rattle.qc_site.specs.Sorted.{AreDeedsSorted, IsMessageSorted, IsSiteSorted};
ghost use Rattle.qc_site.specs.Told.{answer_of, closes_in, grants_in, installs_in, refuses_in, votes_in};
ghost use Rattle.qc_site.specs.Vote.{IsBacked};

/// A clock never falls.
pub fn clocks_never_fall()
    ensures { (decl : Declaration) (s : SiteState) (from number : ℕ) (message : Message)
        → s.clock ≤ (site_on decl s from number message).site.clock }
{}

/// A clock has passed each stamp that came, whatever became of its message: in the last one, and in all
/// that a site took.
pub fn clocks_pass_what_comes()
    ensures message { (decl : Declaration) (s : SiteState) (from number : ℕ) (message : Message) (stamp : Stamp)
        → In stamp (stamps_in message) → stamp.clock ≤ (site_on decl s from number message).site.clock }
    ensures deeds { (decl : Declaration) (number : ℕ) (deeds : List Deed) (stamp : Stamp)
        → In stamp (stamps_taken deeds) → stamp.clock ≤ (site_after decl number deeds).site.clock }
{}

/// Where a Read is granted, its invocation depends on no event of an own line of the object that
/// another transaction holds. Where an Append is granted, no invocation of a read lock that another
/// transaction holds depends on the event of one of its lines.
pub fn grants_conflict_with_nothing()
    ensures read { (decl : Declaration) (s : SiteState) (from number : ℕ) (tx : TxId) (epoch life : ℕ) (r : ReadRequest)
        (holder : Held) (line : OwnLine)
        → grants_in (request_on decl s from number tx epoch life (Read r)).turn ≡ true
        → IsAmong holder s.held → same_tx holder.tx tx ≡ false → IsAmong line holder.own → line.object ≡ r.object
        → depends (relation_at decl r.object) r.inv line.event ≡ false }
    ensures append { (decl : Declaration) (s : SiteState) (from number : ℕ) (tx : TxId) (epoch life object : ℕ)
        (view : List Line) (own : List OwnLine) (line : OwnLine) (holder : Held) (lock : ReadLock)
        → grants_in (request_on decl s from number tx epoch life (Append object view own)).turn ≡ true
        → IsAmong line own → IsAmong holder s.held → same_tx holder.tx tx ≡ false → IsAmong lock holder.locks
        → lock.object ≡ line.object → depends (relation_at decl object) lock.inv line.event ≡ false }
{}

/// What is refused changes nothing but the clock, and writes nothing.
pub fn refusals_change_nothing()
    ensures { (decl : Declaration) (s : SiteState) (from number : ℕ) (message : Message)
        → refuses_in (site_on decl s from number message).turn ≡ true
        → ((site_on decl s from number message).site ≡ passed s message)
        × ((site_on decl s from number message).turn.write ≡ None) }
{}

/// A clash that is told is the smallest conflict, and the client of its holder is asked in the same
/// turn.
pub fn clashes_are_the_smallest()
    ensures read { (decl : Declaration) (s : SiteState) (from number : ℕ) (tx : TxId) (epoch life : ℕ) (r : ReadRequest)
        (c : Conflict)
        → answer_of (request_on decl s from number tx epoch life (Read r)).turn
        ≡ Some (Clash c.holder c.inv c.event)
        → IsSmallest (IsReadConflict (relation_at decl r.object) s.held tx r.object r.inv) (Some c)
        × ((request_on decl s from number tx epoch life (Read r)).turn
        ≡ clashing decl from number c) }
    ensures append { (decl : Declaration) (s : SiteState) (from number : ℕ) (tx : TxId) (epoch life object : ℕ)
        (view : List Line) (own : List OwnLine) (c : Conflict)
        → answer_of (request_on decl s from number tx epoch life (Append object view own)).turn
        ≡ Some (Clash c.holder c.inv c.event)
        → IsSmallest (IsAppendConflict (relation_at decl object) s.held tx own) (Some c)
        × ((request_on decl s from number tx epoch life (Append object view own)).turn
        ≡ clashing decl from number c) }
{}

/// What is granted is held: the lock of a Read, and the own lines of an Append.
pub fn grants_are_held()
    ensures read { (decl : Declaration) (s : SiteState) (from number : ℕ) (tx : TxId) (epoch life : ℕ) (r : ReadRequest)
        → grants_in (request_on decl s from number tx epoch life (Read r)).turn ≡ true
        → (held_of (request_on decl s from number tx epoch life (Read r)).site.held tx).locks
        ≡ with_locks (held_of s.held tx).locks (record { object = r.object; inv = r.inv } ∷ []) }
    ensures append { (decl : Declaration) (s : SiteState) (from number : ℕ) (tx : TxId) (epoch life object : ℕ)
        (view : List Line) (own : List OwnLine)
        → grants_in (request_on decl s from number tx epoch life (Append object view own)).turn ≡ true
        → (held_of (request_on decl s from number tx epoch life (Append object view own)).site.held tx).own
        ≡ with_owns (held_of s.held tx).own own }
{}

/// What a transaction holds stays until a decision on it, or until the site closes its epoch or begins
/// another: each lock, and an own line of each operation.
pub fn what_is_held_stays()
    ensures locks { (decl : Declaration) (s : SiteState) (from number : ℕ) (message : Message) (tx : TxId)
        (lock : ReadLock)
        → In lock (held_of s.held tx).locks → ends message tx ≡ false
        → closes_in (site_on decl s from number message).turn ≡ false
        → installs_in (site_on decl s from number message).turn ≡ false
        → In lock (held_of (site_on decl s from number message).site.held tx).locks }
    ensures own { (decl : Declaration) (s : SiteState) (from number : ℕ) (message : Message) (tx : TxId) (op : ℕ)
        → HasOperation op (held_of s.held tx).own → ends message tx ≡ false
        → closes_in (site_on decl s from number message).turn ≡ false
        → installs_in (site_on decl s from number message).turn ≡ false
        → HasOperation op (held_of (site_on decl s from number message).site.held tx).own }
{}

/// A decision frees its transaction: it holds nothing, and nothing is promised of it. What other
/// transactions hold and are promised stays.
pub fn decisions_free()
    ensures held { (decl : Declaration) (s : SiteState) (from number : ℕ) (tx : TxId) (verdict : Outcome)
        → is_final verdict ≡ true
        → entry_of (decision_on decl s from number tx verdict).site.held tx ≡ None }
    ensures prepared { (decl : Declaration) (s : SiteState) (from number : ℕ) (tx : TxId) (verdict : Outcome)
        → is_final verdict ≡ true
        → prepared_of (decision_on decl s from number tx verdict).site.prepared tx ≡ None }
    ensures others_held { (decl : Declaration) (s : SiteState) (from number : ℕ) (tx other : TxId) (verdict : Outcome)
        → is_final verdict ≡ true → same_tx tx other ≡ false
        → entry_of (decision_on decl s from number tx verdict).site.held other ≡ entry_of s.held other }
    ensures others_prepared { (decl : Declaration) (s : SiteState) (from number : ℕ) (tx other : TxId)
        (verdict : Outcome)
        → is_final verdict ≡ true → same_tx tx other ≡ false
        → prepared_of (decision_on decl s from number tx verdict).site.prepared other
        ≡ prepared_of s.prepared other }
    ensures active { (decl : Declaration) (s : SiteState) (from number : ℕ) (tx : TxId)
        → decision_on decl s from number tx Active ≡ moved s quiet }
{}

/// A Yes is told only for a transaction that holds something and is promised from now on, and with the
/// record of the promise where it is a new one.
pub fn votes_are_backed()
    ensures { (decl : Declaration) (s : SiteState) (from number : ℕ) (tx : TxId) (epoch life : ℕ) (want : Want)
        → votes_in (request_on decl s from number tx epoch life want).turn ≡ true
        → IsBacked (passed s (Request tx epoch life want)) from number tx
        (request_on decl s from number tx epoch life want) }
{}

/// A promise stands until a decision on its transaction, or until the site begins another epoch: one
/// that closes its own keeps it.
pub fn promises_stand()
    ensures { (decl : Declaration) (s : SiteState) (from number : ℕ) (message : Message) (tx : TxId) (p : Prepared)
        → prepared_of s.prepared tx ≡ Some p → ends message tx ≡ false
        → installs_in (site_on decl s from number message).turn ≡ false
        → prepared_of (site_on decl s from number message).site.prepared tx ≡ Some p }
{}

/// Lines ascend, each transaction has one entry that holds something, and locks and own lines ascend in
/// it and in each promise, whatever a site took.
pub fn sites_stay_sorted()
    ensures message { (decl : Declaration) (s : SiteState) (from number : ℕ) (message : Message)
        → IsSiteSorted s → IsMessageSorted message → IsSiteSorted (site_on decl s from number message).site }
    ensures deeds { (decl : Declaration) (number : ℕ) (deeds : List Deed) → AreDeedsSorted deeds
        → IsSiteSorted (site_after decl number deeds).site }
{}

/// A site's number stays; its life and epoch never fall, and stay where it neither closes its epoch nor
/// begins another, as does whether it has closed.
pub fn lives_and_epochs_rise()
    ensures number { (decl : Declaration) (s : SiteState) (from number : ℕ) (message : Message)
        → (site_on decl s from number message).site.number ≡ s.number }
    ensures lives { (decl : Declaration) (s : SiteState) (from number : ℕ) (message : Message)
        → s.life ≤ (site_on decl s from number message).site.life }
    ensures epochs { (decl : Declaration) (s : SiteState) (from number : ℕ) (message : Message)
        → s.epoch ≤ (site_on decl s from number message).site.epoch }
    ensures life { (decl : Declaration) (s : SiteState) (from number : ℕ) (message : Message)
        → closes_in (site_on decl s from number message).turn ≡ false
        → installs_in (site_on decl s from number message).turn ≡ false
        → (site_on decl s from number message).site.life ≡ s.life }
    ensures epoch { (decl : Declaration) (s : SiteState) (from number : ℕ) (message : Message)
        → closes_in (site_on decl s from number message).turn ≡ false
        → installs_in (site_on decl s from number message).turn ≡ false
        → (site_on decl s from number message).site.epoch ≡ s.epoch }
    ensures closed_for { (decl : Declaration) (s : SiteState) (from number : ℕ) (message : Message)
        → closes_in (site_on decl s from number message).turn ≡ false
        → installs_in (site_on decl s from number message).turn ≡ false
        → (site_on decl s from number message).site.closed_for ≡ s.closed_for }
{}

/// A Close is answered by the first row that applies: the site is too far behind, or in that epoch or a
/// later one, or has closed for it and tells so again; else it closes. Then a new life begins, in which
/// it holds what it has promised and no more, and this is written before it is told.
pub fn closes_are_answered_by_rows()
    ensures behind { (decl : Declaration) (s : SiteState) (from number epoch : ℕ) → s.epoch + 1 < epoch
        → site_on decl s from number (messages.Close epoch) ≡ moved s (answers from number (Behind s.epoch)) }
    ensures closed { (decl : Declaration) (s : SiteState) (from number epoch : ℕ) → epoch ≤ s.epoch
        → site_on decl s from number (messages.Close epoch) ≡ moved s (answers from number (Closed s.epoch)) }
    ensures again { (decl : Declaration) (s : SiteState) (from number epoch : ℕ) → epoch ≡ s.epoch + 1
        → s.closed_for ≡ Some epoch
        → site_on decl s from number (messages.Close epoch) ≡ moved s (answers from number (shut_answer s)) }
    ensures closes { (decl : Declaration) (s : SiteState) (from number epoch : ℕ) → epoch ≡ s.epoch + 1
        → s.closed_for ≡ None
        → site_on decl s from number (messages.Close epoch)
        ≡ moved (closed s epoch) (recording from number (records.Close epoch) (shut_answer (closed s epoch))) }
{}

/// An Install is answered by the first row that applies: the site is in that epoch or a later one, or
/// its record would be too long; else it begins the epoch, with these lines and nothing else, and this
/// is written before it is told. The clock passes the lines in each row, and the clock of the Install
/// in the last one.
pub fn installs_are_answered_by_rows()
    ensures known { (decl : Declaration) (s : SiteState) (from number : ℕ) (start : EpochStart)
        → start.epoch ≤ s.epoch → site_on decl s from number (messages.Install start)
        ≡ moved (passed s (messages.Install start)) (answers from number Installed) }
    ensures long { (decl : Declaration) (s : SiteState) (from number : ℕ) (start : EpochStart)
        → s.epoch < start.epoch → most_record_bytes < epoch_length start.lines → site_on decl s from number
        (messages.Install start) ≡ moved (passed s (messages.Install start)) (answers from number (Behind s.epoch)) }
    ensures begins { (decl : Declaration) (s : SiteState) (from number : ℕ) (start : EpochStart)
        → s.epoch < start.epoch → epoch_length start.lines ≤ most_record_bytes
        → site_on decl s from number (messages.Install start)
        ≡ moved (installed (passed s (messages.Install start)) start.epoch start.clock start.lines)
        (recording from number (records.Install start) Installed) }
{}

/// A request is answered by the first row that applies: the site is in an earlier epoch, in a later
/// one, has closed it, or isn't in the life that is named; else what is wanted is looked at.
pub fn requests_are_answered_by_rows()
    ensures behind { (decl : Declaration) (s : SiteState) (from number : ℕ) (tx : TxId) (epoch life : ℕ) (want : Want)
        → names_declared decl tx want ≡ true → s.epoch < epoch
        → request_on decl s from number tx epoch life want
        ≡ moved (passed s (Request tx epoch life want)) (answers from number (Behind s.epoch)) }
    ensures closed { (decl : Declaration) (s : SiteState) (from number : ℕ) (tx : TxId) (epoch life : ℕ) (want : Want)
        → names_declared decl tx want ≡ true → epoch < s.epoch
        → request_on decl s from number tx epoch life want
        ≡ moved (passed s (Request tx epoch life want)) (answers from number (Closed s.epoch)) }
    ensures shut { (decl : Declaration) (s : SiteState) (from number : ℕ) (tx : TxId) (epoch life : ℕ) (want : Want)
        → names_declared decl tx want ≡ true → (other : ℕ) → epoch ≡ s.epoch → s.closed_for ≡ Some other
        → request_on decl s from number tx epoch life want
        ≡ moved (passed s (Request tx epoch life want)) (answers from number (Closed other)) }
    ensures restarted { (decl : Declaration) (s : SiteState) (from number : ℕ) (tx : TxId) (epoch life : ℕ)
        (want : Want)
        → names_declared decl tx want ≡ true → epoch ≡ s.epoch → s.closed_for ≡ None → life ≢ 0 → life ≢ s.life
        → request_on decl s from number tx epoch life want
        ≡ moved (passed s (Request tx epoch life want)) (answers from number (Restarted s.life)) }
    ensures looked_at { (decl : Declaration) (s : SiteState) (from number : ℕ) (tx : TxId) (epoch life : ℕ)
        (want : Want)
        → names_declared decl tx want ≡ true → epoch ≡ s.epoch → s.closed_for ≡ None → (life ≡ 0) ⊎ (life ≡ s.life)
        → request_on decl s from number tx epoch life want
        ≡ grants decl (passed s (Request tx epoch life want)) from number tx want }
{}

/// What no run gives to a site does nothing, and has no turn: a request of what isn't declared passes
/// the clock alone.
pub fn other_inputs_do_nothing()
    ensures undeclared { (decl : Declaration) (s : SiteState) (from number : ℕ) (tx : TxId) (epoch life : ℕ)
        (want : Want)
        → names_declared decl tx want ≡ false
        → request_on decl s from number tx epoch life want ≡ moved (passed s (Request tx epoch life want)) quiet }
    ensures answer { (decl : Declaration) (s : SiteState) (from number to : ℕ) (answer : Answer)
        → site_on decl s from number (messages.Answer to answer) ≡ moved s quiet }
    ensures inquiry { (decl : Declaration) (s : SiteState) (from number : ℕ) (tx : TxId)
        → site_on decl s from number (messages.Inquiry tx) ≡ moved s quiet }
    ensures ask { (decl : Declaration) (s : SiteState) (from number : ℕ) (tx : TxId)
        → site_on decl s from number (messages.Ask tx) ≡ moved s quiet }
    ensures command { (decl : Declaration) (s : SiteState) (command : Command)
        → site_takes decl s (Called command) ≡ moved s quiet }
    ensures lost { (decl : Declaration) (s : SiteState) (number : ℕ) → site_takes decl s (Lost number) ≡ moved s quiet }
{}
