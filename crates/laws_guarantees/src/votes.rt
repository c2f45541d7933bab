//! Laws of the votes of every run, each the contract of a function with nothing
//! to do. A run may have committed as many operations again as the limit, since
//! its last events may pass that.

ghost use Rattle.std.specs.Prelude.{◌≡◌, ◌*◌, ◌≤◌, ℕ, true, false, Bool, List, [], Some, slice_get};
ghost use Rattle.qc_core.specs.Conduct.{IsLawful};
ghost use Rattle.qc_decl.specs.Accepted.{IsAccepted};
ghost use Rattle.qc_decl.specs.Actors.{is_client};
ghost use Rattle.qc_decl.specs.Limits.{most_committed_operations};
ghost use Rattle.qc_decl.specs.declared.declaration.Declaration.{Declaration};
ghost use Rattle.qc_list.specs.Members.{In};
ghost use Rattle.qc_msg.specs.declared.message.Answer.TheVariants.{Stale, Behind};
ghost use Rattle.qc_msg.specs.declared.message.Want.TheVariants.{Prepare};
ghost use Rattle.qc_msg.specs.declared.reply.Reply.TheVariants.{Aborted};
ghost use Rattle.qc_msg.specs.declared.reply.AbortCause.TheVariants.{Forgot};
ghost use Rattle.qc_msg.specs.Counts.{operations_of};
ghost use Rattle.qc_msg.specs.Deeds.{Tells, deeds};
ghost use Rattle.qc_msg.specs.Steps.{Entry};
ghost use Rattle.qc_promise.specs.Account.{ClientRequest, Current};
ghost use Rattle.qc_promise.specs.Accounting.{account};
ghost use Rattle.qc_script.specs.Runs.{Runs};
ghost use Rattle.qc_script.specs.Sound.{IsScriptFor};
ghost use Rattle.qc_script.specs.declared.script.Script.{Script};
ghost use Rattle.laws_guarantees.specs.Votes.{IsOpenVote, IsRemembered};

/// While a client waits for a site's promise, its transaction holds something
/// at the site, as far as that has no open input, and what the site would
/// promise of it fits a record.
pub fn asked_sites_remember()
    ensures { (decl : Declaration) (script : Script) (h : List Entry) (open_inputs : List Bool) (a : ℕ)
        (t : Current) (q : ClientRequest) → IsAccepted decl → IsScriptFor decl script
        → Runs (IsLawful decl) decl script h open_inputs → operations_of h ≤ 2 * most_committed_operations
        → is_client decl a ≡ true → (account decl a h).current ≡ Some t → IsOpenVote (account decl a h) q
        → slice_get open_inputs q.site ≡ Some false → IsRemembered (deeds q.site [] h) t.tx }
{}

/// What counts for a request for a promise is never Stale, nor Behind, and no
/// client is told that its transaction aborted because a site has forgotten it.
pub fn votes_are_never_stale()
    ensures stale { (decl : Declaration) (script : Script) (h : List Entry) (open_inputs : List Bool) (a : ℕ)
        (q : ClientRequest) → IsAccepted decl → IsScriptFor decl script
        → Runs (IsLawful decl) decl script h open_inputs → operations_of h ≤ 2 * most_committed_operations
        → is_client decl a ≡ true → In q (account decl a h).requests → q.want ≡ Prepare
        → q.taken ≡ Some (Some Stale) → ⊥ }
    ensures behind { (decl : Declaration) (script : Script) (h : List Entry) (open_inputs : List Bool) (a : ℕ)
        (q : ClientRequest) (epoch : ℕ) → IsAccepted decl → IsScriptFor decl script
        → Runs (IsLawful decl) decl script h open_inputs → operations_of h ≤ 2 * most_committed_operations
        → is_client decl a ≡ true → In q (account decl a h).requests → q.want ≡ Prepare
        → q.taken ≡ Some (Some (Behind epoch)) → ⊥ }
    ensures told { (decl : Declaration) (script : Script) (h : List Entry) (open_inputs : List Bool) (a site : ℕ)
        → IsAccepted decl → IsScriptFor decl script → Runs (IsLawful decl) decl script h open_inputs
        → operations_of h ≤ 2 * most_committed_operations → In (Tells (Aborted (Forgot site))) (deeds a [] h) → ⊥ }
{}
