//! Laws of a desk, each the contract of a function with nothing to do.
//!
//! A commit's course is told by what is taken for its Prepares, whose numbers
//! go from `first` on in the client's order of sites: `course_ballots` are the
//! votes by what is taken first for each, `course_clock` is the greatest clock
//! of the handed one, the desk's, and the counted promises'.

ghost use Rattle.std.specs.Prelude.{◌≡◌, ◌≢◌, ◌↔◌, ◌⊎◌, ◌<◌, ◌≤◌, ◌==◌, ℕ, Bool, true, false, IsTrue, max};
ghost use Rattle.std.specs.Prelude.{Option, None, Some, List, [], ◌∷◌, ◌++◌, length, map, AllPairs, All};
ghost use Rattle.qc_list.specs.Members.{In};
ghost use Rattle.qc_stamp.specs.declared.stamp.Stamp.{Stamp};
ghost use Rattle.qc_stamp.specs.declared.stamp.TxId.{TxId};
ghost use Rattle.qc_stamp.specs.Order.{same_tx};
ghost use Rattle.qc_entry.specs.declared.record.Commit.{Commit};
ghost use Rattle.qc_decl.specs.declared.declaration.Declaration.{Declaration};
ghost use Rattle.qc_msg.specs.declared.begun.Begun.{Begun};
ghost use Rattle.qc_msg.specs.declared.message.Answer.{Answer};
ghost use Rattle.qc_msg.specs.declared.message.Message.TheVariants.{Request};
ghost use Rattle.qc_msg.specs.declared.message.Want.TheVariants.{Prepare};
ghost use Rattle.qc_msg.specs.declared.reply.AbortCause.{AbortCause};
ghost use Rattle.qc_msg.specs.Begun.{has_granted, life_of};
ghost use Rattle.qc_msg.specs.Calls.{site_called};
ghost use Rattle.qc_msg.specs.Turns.{quiet, sending};
ghost use Rattle.qc_commit.specs.declared.ballot.Ballot.{Ballot};
ghost use Rattle.qc_commit.specs.declared.desk.Desk.{Desk};
ghost use Rattle.qc_commit.specs.declared.desk.Known.TheVariants.{Committed, Uncommitted};
ghost use Rattle.qc_commit.specs.declared.desk.Voting.{Voting};
ghost use Rattle.qc_commit.specs.Calls.{AreNewTo, DeskCall, HasFew, after_call, after_calls, handed};
ghost use Rattle.qc_commit.specs.Conduct.{prepare, sent, vote};
ghost use Rattle.qc_commit.specs.Course.{AreFor, IsAborted, IsCommitted, IsRefused, IsWaiting, Taken};
ghost use Rattle.qc_commit.specs.Course.{course_ballots, course_clock, course_desk, open_calls, sent_each, stamp_after};
ghost use Rattle.qc_commit.specs.Desk.{DeskMove, known, moved, new_desk};
ghost use Rattle.qc_commit.specs.Fits.{AsksFew};
ghost use Rattle.qc_commit.specs.Votes.{are_cast, participants};

/// The participants of a commit are the sites that granted something that
/// counted, each once.
pub fn participants_are_granting_sites()
    ensures who { (decl : Declaration) (client : ℕ) (b : Begun) (site : ℕ) → 0 < decl.sites
        → In site (participants decl client b) ↔ ((site < decl.sites) × IsTrue (has_granted b.lives site)) }
    ensures once { (decl : Declaration) (client : ℕ) (b : Begun) → 0 < decl.sites
        → AllPairs (λ s t. s ≢ t) (participants decl client b) }
{}

/// A commit asks each participant for its promise, in the life of its first
/// grant, and nobody else. With no participant it commits at once.
pub fn participants_are_asked()
    ensures asked { (decl : Declaration) (desk : Desk) (b : Begun) (clock : ℕ)
        → (length (participants decl desk.client b) == 0) ≡ false
        → (prepare decl desk b clock).turn ≡ sending (map
        (λ site. record { to = site; message = Request b.tx b.epoch (life_of b.lives site) Prepare })
        (participants decl desk.client b)) }
    ensures at_once { (decl : Declaration) (desk : Desk) (b : Begun) (clock : ℕ)
        → (length (participants decl desk.client b) == 0) ≡ true
        → IsCommitted desk b (stamp_after (max desk.clock.value clock) desk.client) (prepare decl desk b clock) }
{}

/// While a vote is out, a commit waits. The taking that brings the last vote
/// ends it: where all are for, it commits, with a stamp above the clock that
/// was handed in and those of all promises (Lamport 1978); else the first
/// against, in the client's order of sites, aborts it.
pub fn first_answers_decide()
    ensures waits { (decl : Declaration) (desk : Desk) (b : Begun) (clock first : ℕ) (takes : List Taken)
        → 0 < decl.sites → (length (participants decl desk.client b) == 0) ≡ false
        → are_cast (course_ballots decl desk b first takes) ≡ false
        → IsWaiting desk b (course_clock decl desk b clock first takes)
        (open_calls first (course_ballots decl desk b first takes)) (course_ballots decl desk b first takes)
        (course_desk decl desk b clock first takes) }
    ensures quietly { (decl : Declaration) (desk : Desk) (b : Begun) (clock first : ℕ) (takes : List Taken) (t : Taken)
        → 0 < decl.sites → (length (participants decl desk.client b) == 0) ≡ false
        → are_cast (course_ballots decl desk b first (takes ++ t ∷ [])) ≡ false
        → (vote (course_desk decl desk b clock first takes) t.number t.answer).turn ≡ quiet }
    ensures commits { (decl : Declaration) (desk : Desk) (b : Begun) (clock first : ℕ) (takes : List Taken) (t : Taken)
        → 0 < decl.sites → (length (participants decl desk.client b) == 0) ≡ false
        → are_cast (course_ballots decl desk b first takes) ≡ false
        → AreFor (course_ballots decl desk b first (takes ++ t ∷ []))
        → IsCommitted desk b (stamp_after (course_clock decl desk b clock first (takes ++ t ∷ [])) desk.client)
        (vote (course_desk decl desk b clock first takes) t.number t.answer) }
    ensures aborts { (decl : Declaration) (desk : Desk) (b : Begun) (clock first : ℕ) (takes : List Taken) (t : Taken)
        (why : AbortCause) → 0 < decl.sites → (length (participants decl desk.client b) == 0) ≡ false
        → are_cast (course_ballots decl desk b first takes) ≡ false
        → are_cast (course_ballots decl desk b first (takes ++ t ∷ [])) ≡ true
        → IsRefused (course_ballots decl desk b first (takes ++ t ∷ [])) why
        → IsAborted desk b why (vote (course_desk decl desk b clock first takes) t.number t.answer) }
    ensures either { (ballots : List Ballot) → are_cast ballots ≡ true
        → AreFor ballots ⊎ ((why : AbortCause) × IsRefused ballots why) }
{}

/// What is taken second for a request is put aside, and so is all that is for
/// no open Prepare: no run gives one of them.
pub fn other_answers_are_put_aside()
    ensures second { (desk : Desk) (number : ℕ) (first second : Option Answer)
        → vote (vote desk number first).desk number second ≡ moved (vote desk number first).desk quiet }
    ensures unasked { (desk : Desk) (v : Voting) (number : ℕ) (answer : Option Answer) → desk.voting ≡ Some v
        → site_called v.calls number ≡ None → vote desk number answer ≡ moved desk quiet }
    ensures unvoted { (desk : Desk) (number : ℕ) (answer : Option Answer) → desk.voting ≡ None
        → vote desk number answer ≡ moved desk quiet }
{}

/// Over any calls each commit's stamp has a clock above all before it, and the
/// client's number, so that no two have one stamp; and a clock never falls.
pub fn stamps_rise()
    ensures rise { (client : ℕ) (calls : List DeskCall)
        → AllPairs (λ (c d : Commit). c.stamp.clock < d.stamp.clock) (after_calls (new_desk client) calls).commits }
    ensures apart { (client : ℕ) (calls : List DeskCall)
        → AllPairs (λ (c d : Commit). c.stamp ≢ d.stamp) (after_calls (new_desk client) calls).commits }
    ensures clients { (client : ℕ) (calls : List DeskCall)
        → All (λ (c : Commit). c.stamp.client ≡ client) (after_calls (new_desk client) calls).commits }
    ensures clock { (desk : Desk) (call : DeskCall) → desk.clock.value ≤ (after_call desk call).clock.value }
{}

/// No two records are of one transaction where no transaction is handed in
/// that has a record, and so where those that are handed in have different
/// names.
pub fn transactions_have_one_record()
    ensures unknown { (client : ℕ) (calls : List DeskCall) → AreNewTo (new_desk client) calls
        → AllPairs (λ (c d : Commit). same_tx c.tx d.tx ≡ false) (after_calls (new_desk client) calls).commits }
    ensures named { (client : ℕ) (calls : List DeskCall)
        → AllPairs (λ (a b : TxId). same_tx a b ≡ false) (handed calls)
        → AllPairs (λ (c d : Commit). same_tx c.tx d.tx ≡ false) (after_calls (new_desk client) calls).commits }
{}

/// Once a transaction without a record commits, the desk tells its stamp; and
/// what it tells of a committed one stays.
pub fn commits_stay_known()
    ensures told { (old : Desk) (b : Begun) (stamp : Stamp) (move : DeskMove) → IsCommitted old b stamp move
        → known old b.tx ≡ Uncommitted → known move.desk b.tx ≡ Committed stamp }
    ensures stays { (desk : Desk) (calls : List DeskCall) (tx : TxId) (stamp : Stamp)
        → known desk tx ≡ Committed stamp → known (after_calls desk calls) tx ≡ Committed stamp }
{}

/// To number the Prepares of a turn from the first on gives what it gives to
/// number each as it is sent; and while a commit waits, no later turn's numbers
/// change anything.
pub fn prepares_are_numbered()
    ensures each { (decl : Declaration) (desk : Desk) (b : Begun) (clock first : ℕ)
        → (length (participants decl desk.client b) == 0) ≡ false
        → sent_each (prepare decl desk b clock).desk first (participants decl desk.client b)
        ≡ sent (prepare decl desk b clock).desk first }
    ensures later { (decl : Declaration) (desk : Desk) (b : Begun) (clock first number : ℕ) (takes : List Taken)
        → 0 < decl.sites → (length (participants decl desk.client b) == 0) ≡ false
        → are_cast (course_ballots decl desk b first takes) ≡ false
        → sent (course_desk decl desk b clock first takes) number ≡ course_desk decl desk b clock first takes }
{}

/// A commit asks at most as many sites as are declared, so that `sent` has
/// what it requires.
pub fn few_sites_are_asked()
    ensures { (desk : Desk) (call : DeskCall) → HasFew call → AsksFew desk.voting
        → AsksFew (after_call desk call).voting }
{}
