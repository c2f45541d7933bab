//! Laws of every run of a script, each the contract of a function with nothing
//! to do.

ghost use Rattle.std.specs.Prelude.{◌≡◌, ℕ, Bool, true, false, List, [], Some, slice_get};
ghost use Rattle.qc_core.specs.Conduct.{IsLawful};
ghost use Rattle.qc_decl.specs.Accepted.{IsAccepted};
ghost use Rattle.qc_decl.specs.Actors.{is_site};
ghost use Rattle.qc_decl.specs.declared.declaration.Declaration.{Declaration};
ghost use Rattle.qc_entry.specs.declared.line.Line.{Line};
ghost use Rattle.qc_entry.specs.declared.line.OwnLine.{OwnLine};
ghost use Rattle.qc_list.specs.Members.{In};
ghost use Rattle.qc_msg.specs.declared.message.Envelope.{Envelope};
ghost use Rattle.qc_msg.specs.declared.message.Message.TheVariants.{Decision, Request};
ghost use Rattle.qc_msg.specs.declared.message.Outcome.{Outcome};
ghost use Rattle.qc_msg.specs.declared.message.Want.TheVariants.{Append};
ghost use Rattle.qc_msg.specs.Counts.{written};
ghost use Rattle.qc_msg.specs.Deeds.{deeds, mail};
ghost use Rattle.qc_msg.specs.Steps.{Entry};
ghost use Rattle.laws_refinement.specs.Lines.{IsTrueVerdict, lines_in};
ghost use Rattle.theory_onecopy.specs.Committed.{AreApart, sorted};
ghost use Rattle.theory_onecopy.specs.Logged.{IsClosedLog, IsLogged};
ghost use Rattle.theory_onecopy.specs.OneCopy.{OneCopy};
ghost use Rattle.qc_script.specs.Runs.{Runs};
ghost use Rattle.qc_script.specs.Sound.{IsScriptFor};
ghost use Rattle.qc_script.specs.declared.script.Script.{Script};
ghost use Rattle.qc_site.specs.Site.{known};
ghost use Rattle.qc_site.specs.Conduct.{site_after};
ghost use Rattle.qc_stamp.specs.declared.stamp.TxId.{TxId};
ghost use Rattle.laws_atomic.specs.Reached.{IsReached};

/// Every run of a script is a net's that may come about: with the same mail and
/// the same commit records, and each actor without an open input is as its own
/// deeds give it.
#[tactic(auto, using(crate::proofs::Runs::runs_are_nets))]
pub fn runs_are_nets()
    ensures { (decl : Declaration) (script : Script) (h : List Entry) (open_inputs : List Bool) → IsAccepted decl
        → IsScriptFor decl script → Runs (IsLawful decl) decl script h open_inputs → IsReached decl h open_inputs }
{}

/// The commit records that a run wrote are one copy's, in the order of their
/// stamps; no two of them have one stamp, or one transaction.
pub fn runs_are_one_copy()
    ensures one_copy { (decl : Declaration) (script : Script) (h : List Entry) (open_inputs : List Bool)
        → IsAccepted decl → IsScriptFor decl script → Runs (IsLawful decl) decl script h open_inputs
        → OneCopy decl (sorted (written h)) }
    ensures apart { (decl : Declaration) (script : Script) (h : List Entry) (open_inputs : List Bool)
        → IsAccepted decl → IsScriptFor decl script → Runs (IsLawful decl) decl script h open_inputs
        → AreApart (written h) }
{}

/// Each line of the log of a site without an open input, and each line that a
/// message carries, is an operation of a record that was written.
pub fn lines_are_operations_of_records()
    ensures sites { (decl : Declaration) (script : Script) (h : List Entry) (open_inputs : List Bool) (a : ℕ)
        (line : Line) → IsAccepted decl → IsScriptFor decl script → Runs (IsLawful decl) decl script h open_inputs
        → is_site decl a ≡ true → slice_get open_inputs a ≡ Some false
        → In line (known (site_after decl a (deeds a [] h)).site) → IsLogged decl (written h) line }
    ensures messages { (decl : Declaration) (script : Script) (h : List Entry) (open_inputs : List Bool)
        (e : Envelope) (line : Line) → IsAccepted decl → IsScriptFor decl script
        → Runs (IsLawful decl) decl script h open_inputs → In e (mail h) → In line (lines_in e.message)
        → IsLogged decl (written h) line }
{}

/// With a line, the log of a site without an open input, and the view of an
/// Append, have each committed line of its object before it on which its
/// invocation depends.
pub fn logs_and_views_are_closed()
    ensures sites { (decl : Declaration) (script : Script) (h : List Entry) (open_inputs : List Bool) (a : ℕ)
        → IsAccepted decl → IsScriptFor decl script → Runs (IsLawful decl) decl script h open_inputs
        → is_site decl a ≡ true → slice_get open_inputs a ≡ Some false
        → IsClosedLog decl (written h) (known (site_after decl a (deeds a [] h)).site) }
    ensures views { (decl : Declaration) (script : Script) (h : List Entry) (open_inputs : List Bool)
        (e : Envelope) (tx : TxId) (epoch life object : ℕ) (view : List Line) (own : List OwnLine)
        → IsAccepted decl → IsScriptFor decl script → Runs (IsLawful decl) decl script h open_inputs
        → In e (mail h) → e.message ≡ Request tx epoch life (Append object view own)
        → IsClosedLog decl (written h) view }
{}

/// A Decision Committed is of a transaction with a record of its stamp, and a
/// Decision Aborted of one that has none.
pub fn decisions_tell_the_records()
    ensures { (decl : Declaration) (script : Script) (h : List Entry) (open_inputs : List Bool) (e : Envelope)
        (tx : TxId) (verdict : Outcome) → IsAccepted decl → IsScriptFor decl script
        → Runs (IsLawful decl) decl script h open_inputs → In e (mail h) → e.message ≡ Decision tx verdict
        → IsTrueVerdict (written h) tx verdict }
{}
