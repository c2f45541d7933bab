//! What sites hold, what stamps have passed, and runs without falls and epochs.

ghost use Rattle.std.specs.Prelude.{false, ◌≡◌, ◌≢◌, ℕ, List};
ghost use Rattle.qc_stamp.specs.declared.stamp.TxId.{TxId};
ghost use Rattle.qc_entry.specs.declared.line.OwnLine.{OwnLine};
ghost use Rattle.qc_entry.specs.declared.record.Commit.{Commit as CommitRecord};
ghost use Rattle.qc_decl.specs.declared.declaration.Declaration.{Declaration};
ghost use Rattle.qc_decl.specs.Accepted.{IsAccepted};
ghost use Rattle.qc_list.specs.Members.{In};
ghost use Rattle.theory_machine.specs.Site.{Deed, Item, Own, epoch_from, shut_from, items_of, site_after};
ghost use Rattle.theory_machine.specs.State.{Granted, Voting, Aborted};
ghost use Rattle.theory_machine.specs.Acts.{Act, state};
ghost use Rattle.theory_machine.specs.Guards.{IsRun};
ghost use Rattle.theory_machine.specs.Plain.{ArePlain, IsFirst};
ghost use Rattle.theory_machine.specs.HeldLaw.{AreBeforeDone, HasPassed, IsBound, IsSince};

/// The held law: what a site granted and the client counted is held at the site
/// until its first Done or the next Install, as long as the transaction hasn't
/// aborted, and the site is in the life of the grant or has voted.
pub fn counted_grants_are_held()
    ensures { (decl : Declaration) (acts : List Act) (grant : Granted) (item : Item) (since : List Deed)
        → IsRun decl acts → In grant (state acts).counted → In item grant.items
        → (state acts).status grant.tx ≢ Aborted → IsBound (state acts) grant → IsSince (state acts) grant since
        → AreBeforeDone grant.tx since
        → In item (items_of grant.tx (site_after ((state acts).deeds grant.site)).held) }
{}

/// What a site granted, and the client counted, is held while the transaction
/// is voted on, in the same life and epoch.
pub fn granted_items_are_held()
    ensures { (decl : Declaration) (acts : List Act) (grant : Granted) (item : Item) → IsAccepted decl
        → IsRun decl acts → In grant (state acts).counted → In item grant.items
        → (state acts).status grant.tx ≡ Voting → (state acts).life grant.site ≡ grant.life
        → epoch_from 1 ((state acts).deeds grant.site) ≡ grant.epoch
        → In item (items_of grant.tx (site_after ((state acts).deeds grant.site)).held) }
{}

/// Of a transaction's own lines at a site no two have one operation.
pub fn held_lines_are_one_an_operation()
    ensures { (decl : Declaration) (acts : List Act) (site : ℕ) (tx : TxId) (one other : OwnLine) → IsAccepted decl
        → IsRun decl acts → In (Own one) (items_of tx (site_after ((state acts).deeds site)).held)
        → In (Own other) (items_of tx (site_after ((state acts).deeds site)).held) → one.op ≡ other.op → one ≡ other }
{}

/// The clock law: the stamp of a record has passed each grant that its
/// transaction counted, and with it all lines, Done and Install records that
/// the site had as it granted.
pub fn stamps_pass_what_was_counted()
    ensures { (decl : Declaration) (acts : List Act) (commit : CommitRecord) (grant : Granted) → IsRun decl acts
        → In commit (state acts).records → In grant (state acts).counted → grant.tx ≡ commit.tx
        → HasPassed commit.stamp.clock grant }
{}

/// Without falls and changes of quorums all is of the first life and epoch, and
/// no site has closed.
pub fn plain_runs_have_one_life_and_epoch()
    ensures first { (decl : Declaration) (acts : List Act) → IsRun decl acts → ArePlain acts → IsFirst (state acts) }
    ensures sites { (decl : Declaration) (acts : List Act) (site : ℕ) → IsRun decl acts → ArePlain acts
        → (epoch_from 1 ((state acts).deeds site) ≡ 1) × (shut_from false ((state acts).deeds site) ≡ false) }
{}

/// Without falls and changes of quorums a participant's vote is never Stale: a
/// site holds all that the client counted of it, while the transaction is
/// voted on.
pub fn votes_are_never_stale()
    ensures { (decl : Declaration) (acts : List Act) (grant : Granted) (item : Item) → IsAccepted decl
        → IsRun decl acts → ArePlain acts → In grant (state acts).counted → In item grant.items
        → (state acts).status grant.tx ≡ Voting
        → In item (items_of grant.tx (site_after ((state acts).deeds grant.site)).held) }
{}
