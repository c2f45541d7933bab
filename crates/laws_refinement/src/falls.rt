//! Laws of what is promised across falls: votes, lives, decisions of epochs. Each
//! is the contract of a function with nothing to do.

ghost use Rattle.std.specs.Prelude.{◌≡◌, ◌≤◌, ◌⊎◌, ℕ, List, None, true};
ghost use Rattle.qc_decl.specs.Accepted.{IsAccepted};
ghost use Rattle.qc_decl.specs.Actors.{is_site};
ghost use Rattle.qc_decl.specs.declared.declaration.Declaration.{Declaration};
ghost use Rattle.qc_list.specs.Members.{In};
ghost use Rattle.qc_lock.specs.Held.{held_of};
ghost use Rattle.qc_msg.specs.declared.message.Answer.TheVariants.{Yes};
ghost use Rattle.qc_msg.specs.declared.message.Envelope.{Envelope};
ghost use Rattle.qc_msg.specs.declared.message.Message.TheVariants.{Answer, Request};
ghost use Rattle.qc_msg.specs.declared.message.Want.TheVariants.{Prepare};
ghost use Rattle.theory_machine.specs.Acts.{Act, state};
ghost use Rattle.theory_machine.specs.Guards.{MayDecide};
ghost use Rattle.theory_machine.specs.Site.{Item};
ghost use Rattle.theory_machine.specs.State.{Decision, Granted, Snapshot, State, Verdict, Voting};
ghost use Rattle.qc_site.specs.Requests.{fault_of};
ghost use Rattle.qc_stamp.specs.declared.stamp.TxId.{TxId};
ghost use Rattle.laws_refinement.specs.Mirrors.{RefinesBy};
ghost use Rattle.laws_refinement.specs.Net.{Net, Reaches};
ghost use Rattle.laws_refinement.specs.Sites.{IsHeld};
ghost use Rattle.laws_refinement.specs.Steps.{IsLater, IsNamedLater};
ghost use Rattle.laws_refinement.specs.Votes.{IsRecorded};

/// While a transaction waits for votes, a site with a grant of it that counted
/// isn't behind the epoch of a Prepare that was sent, and where it doesn't
/// refuse this by its epoch or life, the transaction holds there what was
/// granted: so the vote isn't that the site has forgotten.
pub fn asked_sites_remember()
    ensures behind { (decl : Declaration) (acts : List Act) (net : Net) (a : ℕ) (e : Envelope) (tx : TxId)
        (epoch life : ℕ) (g : Granted) → IsAccepted decl → RefinesBy decl acts net → is_site decl a ≡ true
        → net.up a ≡ true → In e net.mail → e.to ≡ a → e.message ≡ Request tx epoch life Prepare
        → (state acts).status tx ≡ Voting → In g (state acts).counted → g.tx ≡ tx → g.site ≡ a
        → epoch ≤ (net.sites a).epoch }
    ensures held { (decl : Declaration) (acts : List Act) (net : Net) (a : ℕ) (e : Envelope) (tx : TxId)
        (epoch life : ℕ) (g : Granted) (item : Item) → IsAccepted decl → RefinesBy decl acts net
        → is_site decl a ≡ true → net.up a ≡ true → In e net.mail → e.to ≡ a
        → e.message ≡ Request tx epoch life Prepare → (state acts).status tx ≡ Voting
        → In g (state acts).counted → g.tx ≡ tx → g.site ≡ a → In item g.items
        → fault_of (net.sites a) epoch life ≡ None → IsHeld (held_of (net.sites a).held tx) item }
{}

/// Each vote of a site stands on the record of a promise of the transaction
/// that it was asked for, which the site keeps, however often it falls.
pub fn votes_stand_on_records()
    ensures { (decl : Declaration) (net : Net) (e : Envelope) (to clock : ℕ) → IsAccepted decl → Reaches decl net
        → In e net.mail → is_site decl e.from ≡ true → e.message ≡ Answer to (Yes clock)
        → IsRecorded net e.from to }
{}

/// Each vote of a later net is one of the earlier net, or its request names no
/// life, or none below the one that the site's records gave in the earlier net.
pub fn later_votes_name_later_lives()
    ensures { (decl : Declaration) (net next : Net) (e : Envelope) (to clock : ℕ) → IsAccepted decl
        → Reaches decl net → IsLater decl net next → In e next.mail → is_site decl e.from ≡ true
        → e.message ≡ Answer to (Yes clock) → In e net.mail ⊎ IsNamedLater net next e.from to }
{}

/// An epoch that may be decided may be decided later too, since what was told
/// and announced stays so: a Decide record that is read again after a fall is an
/// act at that time.
pub fn decisions_may_wait()
    ensures { (decl : Declaration) (now later : State) (d : Decision)
        → ((s : Snapshot) → In s now.snapshots → In s later.snapshots)
        → ((v : Verdict) → In v now.verdicts → In v later.verdicts)
        → MayDecide decl now d → MayDecide decl later d }
{}
