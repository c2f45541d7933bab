//! Laws of every net that may come about, each the contract of a function with
//! nothing to do: that it is a run's of the machine, and what follows of records
//! and lines.

ghost use Rattle.std.specs.Prelude.{◌≡◌, ◌≤◌, ℕ, true};
ghost use Rattle.qc_decl.specs.Accepted.{IsAccepted};
ghost use Rattle.qc_decl.specs.Actors.{administrator, is_site};
ghost use Rattle.qc_decl.specs.declared.declaration.Declaration.{Declaration};
ghost use Rattle.qc_entry.specs.declared.line.Line.{Line};
ghost use Rattle.qc_front.specs.Holds as requests;
ghost use Rattle.qc_front.specs.Holds.{sites_called};
ghost use Rattle.qc_list.specs.Members.{In};
ghost use Rattle.qc_msg.specs.Begun.{first_epoch};
ghost use Rattle.qc_msg.specs.declared.message.Answer.TheVariants.{Shut};
ghost use Rattle.qc_msg.specs.declared.message.Envelope.{Envelope};
ghost use Rattle.qc_msg.specs.declared.message.Message.TheVariants.{Answer, Decision};
ghost use Rattle.qc_msg.specs.declared.message.Outcome.{Outcome};
ghost use Rattle.qc_msg.specs.declared.payload.Snapshot.{Snapshot};
ghost use Rattle.qc_msg.specs.declared.step.Input.{Input};
ghost use Rattle.theory_onecopy.specs.Committed.{AreApart, sorted};
ghost use Rattle.theory_onecopy.specs.Logged.{IsLogged};
ghost use Rattle.theory_onecopy.specs.OneCopy.{OneCopy};
ghost use Rattle.qc_site.specs.Arrived.{HasArrived};
ghost use Rattle.qc_site.specs.Conduct.{site_takes};
ghost use Rattle.qc_site.specs.Site.{known};
ghost use Rattle.qc_stamp.specs.declared.stamp.TxId.{TxId};
ghost use Rattle.laws_refinement.specs.Lines.{IsTrueVerdict, lines_in};
ghost use Rattle.laws_refinement.specs.Mirrors.{FrontStands, Refines};
ghost use Rattle.laws_refinement.specs.Net.{MayCome, Net, Reaches, after_site};
ghost use Rattle.laws_refinement.specs.Requests.{open_requests};
ghost use Rattle.laws_refinement.specs.Rules.{AreInTurn};

/// Every net of sites, clients and an administrator that may come about, with
/// falls at any time, is what a run of the protocol's machine may look like: each
/// step, each fall and each rise is some acts of the machine, or none.
pub fn nets_refine()
    ensures { (decl : Declaration) (net : Net) → IsAccepted decl → Reaches decl net → Refines decl net }
{}

/// Whatever a site that is up takes, also a Close or an Install, the net after it
/// is still what a run of the machine may look like. What arrived at the site is what
/// it knows, as in each net that may come about.
#[tactic(auto, using(crate::proofs::SiteRefines::sites_refine))]
pub fn sites_refine()
    ensures { (decl : Declaration) (net : Net) (a : ℕ) (given : Input) → IsAccepted decl → Refines decl net
        → is_site decl a ≡ true → net.up a ≡ true → HasArrived (net.sites a) → MayCome net a given
        → Refines decl (after_site net a (site_takes decl (net.sites a) given)) }
{}

/// Each front end is as its own laws say, between two of its steps.
pub fn front_ends_stand()
    ensures { (decl : Declaration) (net : Net) (a : ℕ) → Reaches decl net → FrontStands decl net a }
{}

/// No two open requests of a client are for one site, those of its round and
/// those of its vote together.
pub fn clients_have_one_open_request_at_a_site()
    ensures { (decl : Declaration) (net : Net) (a : ℕ) → Reaches decl net
        → requests.AreApart (sites_called (open_requests (net.clients a))) }
{}

/// The commit records that stand are one copy's, in the order of their stamps;
/// no two of them have one stamp, or one transaction.
pub fn nets_are_one_copy()
    ensures one_copy { (decl : Declaration) (net : Net) → IsAccepted decl → Reaches decl net
        → OneCopy decl (sorted net.written) }
    ensures apart { (decl : Declaration) (net : Net) → IsAccepted decl → Reaches decl net → AreApart net.written }
{}

/// Each line that a site that is up knows, and each line that a message carries,
/// is an operation of a record that stands.
pub fn lines_are_operations()
    ensures sites { (decl : Declaration) (net : Net) (a : ℕ) (line : Line) → IsAccepted decl → Reaches decl net
        → is_site decl a ≡ true → net.up a ≡ true → In line (known (net.sites a)) → IsLogged decl net.written line }
    ensures messages { (decl : Declaration) (net : Net) (e : Envelope) (line : Line) → IsAccepted decl
        → Reaches decl net → In e net.mail → In line (lines_in e.message) → IsLogged decl net.written line }
{}

/// A Decision Committed is of a transaction with a record of its stamp, and a
/// Decision Aborted of one that has none.
pub fn decisions_agree_with_records()
    ensures { (decl : Declaration) (net : Net) (e : Envelope) (tx : TxId) (verdict : Outcome) → IsAccepted decl
        → Reaches decl net → In e net.mail → e.message ≡ Decision tx verdict
        → IsTrueVerdict net.written tx verdict }
{}

/// What a site tells as it closes its epoch has a clock that has passed the stamp
/// of each line in its log (Lamport 1978).
pub fn closed_sites_pass_their_lines()
    ensures { (decl : Declaration) (net : Net) → IsAccepted decl → Reaches decl net → (e : Envelope) (to : ℕ)
        (snapshot : Snapshot) → In e net.mail → e.message ≡ Answer to (Shut snapshot) → (line : Line)
        → In line snapshot.log → line.stamp.clock ≤ snapshot.clock }
{}

/// Each Decide record of the administrator is of the epoch after the last one,
/// the first of the second epoch, however often he falls.
pub fn epochs_are_decided_in_turn()
    ensures { (decl : Declaration) (net : Net) → IsAccepted decl → Reaches decl net
        → AreInTurn first_epoch (net.records (administrator decl)) }
{}
