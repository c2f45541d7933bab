//! Laws of every run with falls whose records are kept, each the contract of a
//! function with nothing to do.

ghost use Rattle.std.specs.Prelude.{◌≡◌, ℕ, Bool, true, false, List, [], Some, slice_get};
ghost use Rattle.qc_core.specs.declared.actor.Actor.TheVariants.{Site};
ghost use Rattle.qc_core.specs.Actors.{actor_after};
ghost use Rattle.qc_core.specs.Conduct.{IsLawfulWithFalls};
ghost use Rattle.qc_core.specs.Lives.{is_up};
ghost use Rattle.qc_decl.specs.Accepted.{IsAccepted};
ghost use Rattle.qc_decl.specs.Actors.{is_site};
ghost use Rattle.qc_decl.specs.declared.declaration.Declaration.{Declaration};
ghost use Rattle.qc_entry.specs.declared.line.Line.{Line};
ghost use Rattle.qc_entry.specs.declared.line.OwnLine.{OwnLine};
ghost use Rattle.qc_entry.specs.declared.record.Commit.{Commit};
ghost use Rattle.qc_list.specs.Members.{In};
ghost use Rattle.qc_msg.specs.declared.message.Answer.TheVariants.{Yes};
ghost use Rattle.qc_msg.specs.declared.message.Envelope.{Envelope};
ghost use Rattle.qc_msg.specs.declared.message.Message.TheVariants.{Answer, Decision, Request};
ghost use Rattle.qc_msg.specs.declared.message.Outcome.{Outcome};
ghost use Rattle.qc_msg.specs.declared.message.Want.TheVariants.{Append};
ghost use Rattle.qc_msg.specs.Deeds.{deeds, mail};
ghost use Rattle.qc_msg.specs.Steps.{Entry};
ghost use Rattle.laws_refinement.specs.Lines.{IsTrueVerdict, lines_in};
ghost use Rattle.laws_refinement.specs.Mirrors.{Refines};
ghost use Rattle.theory_onecopy.specs.Committed.{AreApart, sorted};
ghost use Rattle.theory_onecopy.specs.Logged.{IsClosedLog, IsLogged};
ghost use Rattle.theory_onecopy.specs.OneCopy.{OneCopy};
ghost use Rattle.qc_promise.specs.Committed.{committed, records};
ghost use Rattle.qc_promise.specs.Kept.{Kept};
ghost use Rattle.qc_promise.specs.Told.{DecisionAgrees};
ghost use Rattle.laws_reach.specs.Reached.{IsReachedWithFalls};
ghost use Rattle.laws_reach.specs.Standing.{AreStanding, IsPromiseRecorded};
ghost use Rattle.qc_script.specs.RunsWithFalls.{RunsWithFalls};
ghost use Rattle.qc_script.specs.Sound.{IsScriptFor};
ghost use Rattle.qc_script.specs.declared.script.Script.{Script};
ghost use Rattle.qc_site.specs.Site.{SiteState, known};
ghost use Rattle.qc_stamp.specs.declared.stamp.TxId.{TxId};
ghost use Rattle.laws_turns.specs.EachRun.{OfEachKeptRun};

use qc_script::ConductWithFalls;

/// Every run with falls whose records are kept is a net's that may come about:
/// with the same mail, and each site and client is up or down, has on its disk
/// and is what its own deeds give. With an open input it is as it was before.
/// And so the run is one of the machine.
#[tactic(auto, using(crate::proofs::Reaching::runs_with_falls_reach_nets))]
pub fn runs_with_falls_reach_nets<C: ConductWithFalls>()
    ensures reaches { OfEachKeptRun C.fits (λ decl script h open_inputs. IsReachedWithFalls decl h open_inputs) }
    ensures refines { OfEachKeptRun C.fits (λ decl script h open_inputs. (r : IsReachedWithFalls decl h open_inputs)
        × Refines decl r.net) }
{}

/// The commit records that stand after such a run can be listed, and are one
/// copy's, in the order of their stamps; no two of them have one stamp, or one
/// transaction.
pub fn records_that_stand_are_one_copy<C: ConductWithFalls>()
    ensures listed { OfEachKeptRun C.fits (λ decl script h open_inputs. (commits : List Commit)
        × AreStanding decl h commits) }
    ensures one_copy { (decl : Declaration) (script : Script) (h : List Entry) (open_inputs : List Bool)
        (commits : List Commit) → IsAccepted decl → IsScriptFor decl script
        → RunsWithFalls (IsLawfulWithFalls decl) C.fits decl script h open_inputs → Kept h
        → AreStanding decl h commits → OneCopy decl (sorted commits) }
    ensures apart { (decl : Declaration) (script : Script) (h : List Entry) (open_inputs : List Bool)
        (commits : List Commit) → IsAccepted decl → IsScriptFor decl script
        → RunsWithFalls (IsLawfulWithFalls decl) C.fits decl script h open_inputs → Kept h
        → AreStanding decl h commits → AreApart commits }
{}

/// Each vote of a site stands on the record of a promise of just the
/// transaction that it was asked for, however often it fell.
pub fn votes_of_runs_stand_on_records<C: ConductWithFalls>()
    ensures { (decl : Declaration) (script : Script) (h : List Entry) (open_inputs : List Bool) (e : Envelope)
        (to clock : ℕ) → IsAccepted decl → IsScriptFor decl script
        → RunsWithFalls (IsLawfulWithFalls decl) C.fits decl script h open_inputs → Kept h
        → In e (mail h) → is_site decl e.from ≡ true → e.message ≡ Answer to (Yes clock)
        → IsPromiseRecorded h e.from to }
{}

/// A Decision Committed is of a transaction with a record that stands, of its
/// stamp, and a Decision Aborted of one that has none.
pub fn decisions_tell_records_that_stand<C: ConductWithFalls>()
    ensures { (decl : Declaration) (script : Script) (h : List Entry) (open_inputs : List Bool)
        (commits : List Commit) (e : Envelope) (tx : TxId) (verdict : Outcome) → IsAccepted decl
        → IsScriptFor decl script → RunsWithFalls (IsLawfulWithFalls decl) C.fits decl script h open_inputs
        → Kept h → AreStanding decl h commits → In e (mail h) → e.message ≡ Decision tx verdict
        → IsTrueVerdict commits tx verdict }
{}

/// Each line of the log of a site that is up and has no open input, and each
/// line that a message carries, is an operation of a record that stands.
pub fn lines_are_operations_of_records_that_stand<C: ConductWithFalls>()
    ensures sites { (decl : Declaration) (script : Script) (h : List Entry) (open_inputs : List Bool)
        (commits : List Commit) (a : ℕ) (s : SiteState) (line : Line) → IsAccepted decl → IsScriptFor decl script
        → RunsWithFalls (IsLawfulWithFalls decl) C.fits decl script h open_inputs → Kept h
        → AreStanding decl h commits → is_site decl a ≡ true → is_up (deeds a [] h) ≡ true
        → slice_get open_inputs a ≡ Some false → (actor_after decl a (deeds a [] h)).actor ≡ Site s
        → In line (known s) → IsLogged decl commits line }
    ensures messages { (decl : Declaration) (script : Script) (h : List Entry) (open_inputs : List Bool)
        (commits : List Commit) (e : Envelope) (line : Line) → IsAccepted decl → IsScriptFor decl script
        → RunsWithFalls (IsLawfulWithFalls decl) C.fits decl script h open_inputs → Kept h
        → AreStanding decl h commits → In e (mail h) → In line (lines_in e.message) → IsLogged decl commits line }
{}

/// With a line, the log of a site that is up and has no open input, and the view
/// of an Append, have each line of a record that stands, of its object and
/// before it, on which its invocation depends.
pub fn logs_and_views_are_closed_through_falls<C: ConductWithFalls>()
    ensures sites { (decl : Declaration) (script : Script) (h : List Entry) (open_inputs : List Bool)
        (commits : List Commit) (a : ℕ) (s : SiteState) → IsAccepted decl → IsScriptFor decl script
        → RunsWithFalls (IsLawfulWithFalls decl) C.fits decl script h open_inputs → Kept h
        → AreStanding decl h commits → is_site decl a ≡ true → is_up (deeds a [] h) ≡ true
        → slice_get open_inputs a ≡ Some false → (actor_after decl a (deeds a [] h)).actor ≡ Site s
        → IsClosedLog decl commits (known s) }
    ensures views { (decl : Declaration) (script : Script) (h : List Entry) (open_inputs : List Bool)
        (commits : List Commit) (e : Envelope) (tx : TxId) (epoch life object : ℕ) (view : List Line)
        (own : List OwnLine) → IsAccepted decl → IsScriptFor decl script
        → RunsWithFalls (IsLawfulWithFalls decl) C.fits decl script h open_inputs → Kept h
        → AreStanding decl h commits → In e (mail h) → e.message ≡ Request tx epoch life (Append object view own)
        → IsClosedLog decl commits view }
{}

/// The commit records that clients wrote or rose with are, where records are
/// kept, just those that stand.
pub fn committed_records_stand()
    ensures { (decl : Declaration) (h : List Entry) → Kept h → AreStanding decl h (records decl h) }
{}

/// The committed transactions of such a run are one copy's, each once and at a
/// stamp of its own: with the very list of what the program promises of a run.
pub fn committed_records_are_one_copy_through_falls<C: ConductWithFalls>()
    ensures apart { OfEachKeptRun C.fits (λ decl script h open_inputs. AreApart (committed decl h)) }
    ensures one_copy { OfEachKeptRun C.fits (λ decl script h open_inputs. OneCopy decl (committed decl h)) }
{}

/// Each Decision that anybody is sent in such a run agrees with its committed
/// transactions.
pub fn decisions_agree_with_committed_through_falls<C: ConductWithFalls>()
    ensures { (decl : Declaration) (script : Script) (h : List Entry) (open_inputs : List Bool) (e : Envelope)
        → IsAccepted decl → IsScriptFor decl script
        → RunsWithFalls (IsLawfulWithFalls decl) C.fits decl script h open_inputs → Kept h
        → In e (mail h) → DecisionAgrees (committed decl h) e.message }
{}
