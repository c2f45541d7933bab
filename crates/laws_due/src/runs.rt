//! What is due in every run, as contracts of functions with nothing to do.

ghost use Rattle.std.specs.Prelude.{◌≡◌, ◌<◌, ◌⊎◌, ℕ, Bool, true, false, List, [], Some, None, slice_get};
ghost use Rattle.qc_decl.specs.Accepted.{IsAccepted};
ghost use Rattle.laws_turns.specs.Asked.{AsksDeclared};
ghost use Rattle.qc_msg.specs.Deeds.{deeds};
ghost use Rattle.laws_due.specs.Ties.{NoneRuns};
ghost use Rattle.laws_due.specs.Waits.{IsWaiting};
ghost use Rattle.qc_core.specs.Conduct.{IsLawful};
ghost use Rattle.qc_decl.specs.Actors.{client_actor, is_client};
ghost use Rattle.qc_decl.specs.declared.declaration.Declaration.{Declaration};
ghost use Rattle.qc_msg.specs.Steps.{Entry};
ghost use Rattle.qc_promise.specs.Accounting.{account};
ghost use Rattle.qc_promise.specs.Due.{Due};
ghost use Rattle.qc_promise.specs.Replies.{AreRepliesDue};
ghost use Rattle.qc_promise.specs.Rows.{due};
ghost use Rattle.qc_script.specs.Runs.{Runs};
ghost use Rattle.qc_script.specs.declared.script.Script.{Script};

/// In every run of a script that asks for what is declared each deed of a client
/// is due: each reply, with its commit record where it has one, each record, and
/// no input comes while a reply is due that isn't told.
#[tactic(auto, using(crate::proofs::Whole::replies_are_due))]
pub fn replies_are_due()
    ensures { (decl : Declaration) (script : Script) (h : List Entry) (open_inputs : List Bool)
        → Runs (IsLawful decl) decl script h open_inputs → IsAccepted decl → AsksDeclared decl script
        → (client : ℕ) → client < decl.clients
        → AreRepliesDue decl client (deeds (client_actor decl client) [] h) }
{}

/// So all that is promised of a history is due in every such run: actors act by
/// turns, messages reach their receivers, what clients tell and write is due, and
/// what sites post. The administrator does nothing in it.
#[tactic(auto, using(crate::proofs::Whole::runs_are_due))]
pub fn runs_are_due()
    ensures { (decl : Declaration) (script : Script) (h : List Entry) (open_inputs : List Bool)
        → Runs (IsLawful decl) decl script h open_inputs → IsAccepted decl → AsksDeclared decl script → Due decl h }
{}

/// In every run a client without an open input has told all that is due, and
/// its running command waits for an open request.
pub fn commands_of_runs_wait()
    ensures waits { (decl : Declaration) (script : Script) (h : List Entry) (open_inputs : List Bool)
        → Runs (IsLawful decl) decl script h open_inputs → (a : ℕ) → is_client decl a ≡ true
        → slice_get open_inputs a ≡ Some false
        → NoneRuns (account decl a h).command ⊎ IsWaiting (account decl a h) }
    ensures told { (decl : Declaration) (script : Script) (h : List Entry) (open_inputs : List Bool)
        → Runs (IsLawful decl) decl script h open_inputs → (a : ℕ) → is_client decl a ≡ true
        → slice_get open_inputs a ≡ Some false → due decl (account decl a h) false ≡ None }
{}
