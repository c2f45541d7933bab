//! Laws of what sites granted, of every run, each the contract of a function
//! with nothing to do.

ghost use Rattle.std.specs.Prelude.{◌≡◌, ℕ, Bool, List, [], Some, slice_get};
ghost use Rattle.qc_core.specs.Conduct.{IsLawful};
ghost use Rattle.qc_decl.specs.Accepted.{IsAccepted};
ghost use Rattle.qc_decl.specs.declared.declaration.Declaration.{Declaration};
ghost use Rattle.qc_entry.specs.declared.record.Commit.{Commit};
ghost use Rattle.qc_list.specs.Members.{In};
ghost use Rattle.qc_lock.specs.Held.{held_of};
ghost use Rattle.qc_msg.specs.declared.message.Answer.TheVariants.{Granted};
ghost use Rattle.qc_msg.specs.declared.message.Envelope.{Envelope};
ghost use Rattle.qc_msg.specs.declared.message.Message.TheVariants.{Answer, Request};
ghost use Rattle.qc_msg.specs.declared.message.Want.{Want};
ghost use Rattle.qc_msg.specs.declared.message.Want.TheVariants.{Read};
ghost use Rattle.qc_msg.specs.declared.payload.Grant.{Grant};
ghost use Rattle.qc_msg.specs.Counts.{written};
ghost use Rattle.qc_msg.specs.Deeds.{deeds, mail};
ghost use Rattle.qc_msg.specs.Steps.{Entry};
ghost use Rattle.qc_msg.specs.Payloads.{first_read};
ghost use Rattle.theory_onecopy.specs.Logged.{IsClosedLog};
ghost use Rattle.qc_promise.specs.SiteHeld.{held_shown};
ghost use Rattle.qc_script.specs.Runs.{Runs};
ghost use Rattle.qc_script.specs.Sound.{IsScriptFor};
ghost use Rattle.qc_script.specs.declared.script.Script.{Script};
ghost use Rattle.qc_stamp.specs.declared.stamp.TxId.{TxId};
ghost use Rattle.laws_guarantees.specs.Held.{HasWanted, IsGrantedSince};

/// The held law: what a site granted to a transaction with a commit record, it
/// holds from that turn on until it takes the Decision that this committed: the
/// lock of a Read, and the own lines of an Append.
pub fn granted_items_are_held()
    ensures { (decl : Declaration) (script : Script) (h : List Entry) (open_inputs : List Bool) (c : Commit)
        (site : ℕ) (want : Want) → IsAccepted decl → IsScriptFor decl script
        → Runs (IsLawful decl) decl script h open_inputs → In c (written h)
        → IsGrantedSince (deeds site [] h) c.tx want
        → HasWanted (held_of (held_shown (deeds site [] h)) c.tx) want }
{}

/// With a line, the log that a Read without a mark is granted has each committed
/// line of its object before it on which its invocation depends.
pub fn granted_logs_are_closed()
    ensures { (decl : Declaration) (script : Script) (h : List Entry) (open_inputs : List Bool)
        (request answer : Envelope) (tx : TxId) (number epoch named object inv : ℕ) (grant : Grant)
        → IsAccepted decl → IsScriptFor decl script → Runs (IsLawful decl) decl script h open_inputs
        → slice_get (mail h) number ≡ Some request
        → request.message ≡ Request tx epoch named (Read (first_read object inv))
        → In answer (mail h) → answer.message ≡ Answer number (Granted grant)
        → IsClosedLog decl (written h) grant.log }
{}
