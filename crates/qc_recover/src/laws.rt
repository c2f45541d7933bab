//! Laws of the sites and clients that rise, each the contract of a function with
//! nothing to do. They hold for any records.

ghost use Rattle.std.specs.Prelude.{◌≡◌, ◌≤◌, ◌<◌, ◌⊎◌, ◌↔◌, ◌+◌, ◌^◌, ℕ, max, true, false, List, [], ◌∷◌, ◌++◌};
ghost use Rattle.std.specs.Prelude.{Some, None};
ghost use Rattle.std.specs.Prelude.{count_by};
ghost use Rattle.qc_client.specs.Client.{new_client, outcome_of};
ghost use Rattle.qc_client.specs.Fits.{ClientFits};
ghost use Rattle.qc_decl.specs.declared.declaration.Declaration.{Declaration};
ghost use Rattle.qc_entry.specs.declared.line.Line.{Line};
ghost use Rattle.qc_entry.specs.declared.record.Commit.{Commit as CommitRecord};
ghost use Rattle.qc_entry.specs.declared.record.Prepared.{Prepared};
ghost use Rattle.qc_front.specs.Front.{new_front};
ghost use Rattle.qc_list.specs.Members.{In};
ghost use Rattle.qc_list.specs.Order.{Ascends};
ghost use Rattle.qc_lock.specs.Held.{held_of, is_held, with_locks, with_owns};
ghost use Rattle.qc_msg.specs.declared.message.Outcome.TheVariants.{Aborted, Committed};
ghost use Rattle.qc_msg.specs.declared.record.Record.{Record};
ghost use Rattle.qc_msg.specs.declared.record.Record.TheVariants.{Close, Commit, Done, Install, Life, Prepare};
ghost use Rattle.qc_msg.specs.Payloads.{start_with};
ghost use Rattle.qc_recover.specs.Clients.{client_of, client_rises};
ghost use Rattle.qc_recover.specs.Sites.{site_of, site_rises};
ghost use Rattle.qc_entry.specs.Orders.{in_order};
ghost use Rattle.qc_recover.specs.Words.{IsRecordSorted, begins_life, clocks_in, is_rise};
ghost use Rattle.qc_site.specs.Conduct.{latest};
ghost use Rattle.qc_site.specs.Promise.{is_prepared, prepared_of};
ghost use Rattle.qc_site.specs.Site.{new_site};
ghost use Rattle.qc_site.specs.Sorted.{IsSiteSorted};
ghost use Rattle.qc_stamp.specs.Order.{same_tx, tx_cmp};
ghost use Rattle.qc_stamp.specs.declared.stamp.TxId.{TxId};

/// An actor without records rises in its second life, and is a new one but for
/// that.
pub fn actors_without_records_rise_anew()
    ensures site { (decl : Declaration) (number : ℕ)
        → (site_rises decl number []).site ≡ record (new_site number) { life = 2 } }
    ensures client { (client : ℕ) → (client_rises client []).client
        ≡ record (new_client client) { front = record (new_front client) { life = 2 } } }
{}

/// The record of a rise adds a life, and nothing else.
pub fn rises_add_a_life()
    ensures site { (number : ℕ) (rs : List Record) → site_of number (rs ++ Life ∷ [])
        ≡ record (site_of number rs) { life = (site_of number rs).life + 1 } }
    ensures client { (client : ℕ) (rs : List Record)
        → (client_of client (rs ++ Life ∷ [])).front.life ≡ (client_of client rs).front.life + 1 }
    ensures desk { (client : ℕ) (rs : List Record)
        → (client_of client (rs ++ Life ∷ [])).desk ≡ (client_of client rs).desk }
{}

/// A life is 1 more than the records that begin one: of a site those of a rise
/// and of a closed epoch, of a client those of a rise.
pub fn lives_are_counted()
    ensures site { (number : ℕ) (rs : List Record) → (site_of number rs).life ≡ 1 + count_by begins_life rs }
    ensures client { (client : ℕ) (rs : List Record) → (client_of client rs).front.life ≡ 1 + count_by is_rise rs }
{}

/// A Close adds a life, and closes the epoch for the one that it names.
pub fn closes_add_a_life()
    ensures { (number : ℕ) (rs : List Record) (epoch : ℕ) → site_of number (rs ++ Close epoch ∷ [])
        ≡ record (site_of number rs) { life = (site_of number rs).life + 1; closed_for = Some epoch } }
{}

/// With an Install a site begins anew, in the life that it has: it is open, and
/// nothing stays that was promised or known before. What is done later, and was
/// prepared before, gives no lines.
pub fn installs_begin_anew()
    ensures anew { (number : ℕ) (rs : List Record) (epoch clock : ℕ) (lines : List Line)
        → site_of number (rs ++ Install (start_with epoch clock lines) ∷ []) ≡ record (new_site number) {
          life = (site_of number rs).life;
          epoch = epoch;
          began = lines;
          arrived = lines;
          clock = max (latest (site_of number rs).clock lines) clock;
        } }
    ensures late { (number : ℕ) (rs : List Record) (epoch clock done : ℕ) (lines : List Line) (tx : TxId)
        → (site_of number (rs ++ Install (start_with epoch clock lines) ∷ Done tx done ∷ [])).log ≡ [] }
{}

/// The last Prepare of a transaction is its promise, until it is done. Those of
/// others stay.
pub fn last_prepares_are_promises()
    ensures prepared { (number : ℕ) (rs : List Record) (p : Prepared)
        → prepared_of (site_of number (rs ++ Prepare p ∷ [])).prepared p.tx ≡ Some p }
    ensures done { (number : ℕ) (rs : List Record) (tx : TxId) (clock : ℕ)
        → prepared_of (site_of number (rs ++ Done tx clock ∷ [])).prepared tx ≡ None }
    ensures beside_prepared { (number : ℕ) (rs : List Record) (p : Prepared) (tx : TxId) → same_tx p.tx tx ≡ false
        → prepared_of (site_of number (rs ++ Prepare p ∷ [])).prepared tx
        ≡ prepared_of (site_of number rs).prepared tx }
    ensures beside_done { (number : ℕ) (rs : List Record) (tx other : TxId) (clock : ℕ) → same_tx tx other ≡ false
        → prepared_of (site_of number (rs ++ Done tx clock ∷ [])).prepared other
        ≡ prepared_of (site_of number rs).prepared other }
{}

/// What is promised is held, and nothing else is.
pub fn what_is_promised_is_held()
    ensures locks { (number : ℕ) (rs : List Record) (p : Prepared) → In p (site_of number rs).prepared
        → (held_of (site_of number rs).held p.tx).locks ≡ with_locks [] p.locks }
    ensures own { (number : ℕ) (rs : List Record) (p : Prepared) → In p (site_of number rs).prepared
        → (held_of (site_of number rs).held p.tx).own ≡ with_owns [] p.own }
    ensures just { (number : ℕ) (rs : List Record) (tx : TxId) → is_held (site_of number rs).held tx ≡ true
        → is_prepared (site_of number rs).prepared tx ≡ true }
{}

/// The transactions that a rising site asks about are the promised ones, each
/// once, in their order.
pub fn promises_are_asked_about_in_order()
    ensures order { (txs : List TxId) → Ascends tx_cmp (in_order txs) }
    ensures just { (tx : TxId) (txs : List TxId) → In tx (in_order txs) ↔ In tx txs }
{}

/// A site's clock has passed each clock in its records.
pub fn clocks_pass_records()
    ensures { (number : ℕ) (rs : List Record) (r : Record) (clock : ℕ) → In r rs → In clock (clocks_in r)
        → clock ≤ (site_of number rs).clock }
{}

/// What is in order at a site is so as it rises, where it is in its records.
pub fn risen_sites_are_sorted()
    ensures { (decl : Declaration) (number : ℕ) (rs : List Record) → ((r : Record) → In r rs → IsRecordSorted r)
        → IsSiteSorted (site_rises decl number rs).site }
{}

/// The last commit record of a transaction tells how it stands, and one without
/// a record aborted: nothing is begun.
pub fn last_commits_count()
    ensures last { (client : ℕ) (rs : List Record) (c : CommitRecord)
        → outcome_of (client_of client (rs ++ Commit c ∷ [])) c.tx ≡ Committed c.stamp }
    ensures beside { (client : ℕ) (rs : List Record) (c : CommitRecord) (tx : TxId) → same_tx c.tx tx ≡ false
        → outcome_of (client_of client (rs ++ Commit c ∷ [])) tx ≡ outcome_of (client_of client rs) tx }
    ensures none { (client : ℕ) (rs : List Record) (tx : TxId)
        → ((c : CommitRecord) → In (Commit c) rs → same_tx c.tx tx ≡ false)
        → outcome_of (client_of client rs) tx ≡ Aborted }
{}

/// The clock of a client, and of its desk, is the greatest of its commits'
/// stamps, and 0 where there is none.
pub fn clocks_are_the_greatest()
    ensures passed { (client : ℕ) (rs : List Record) (c : CommitRecord) → In (Commit c) rs
        → c.stamp.clock ≤ (client_of client rs).front.clock.value }
    ensures reached { (client : ℕ) (rs : List Record) → ((client_of client rs).front.clock.value ≡ 0)
        ⊎ ((c : CommitRecord) × In (Commit c) rs × ((client_of client rs).front.clock.value ≡ c.stamp.clock)) }
    ensures desk { (client : ℕ) (rs : List Record)
        → (client_of client rs).desk.clock ≡ (client_of client rs).front.clock }
{}

/// A risen client fits its calls, where its stamps are far from the end of their
/// type.
pub fn risen_clients_fit()
    ensures { (client : ℕ) (rs : List Record)
        → ((c : CommitRecord) → In (Commit c) rs → c.stamp.clock < 2 ^ 63)
        → ClientFits (client_rises client rs).client }
{}
