//! The order of dependent operations of every run: the contract of a function
//! with nothing to do.

ghost use Rattle.std.specs.Prelude.{◌≡◌, ℕ, true, Bool, List, [], ◌∷◌, ◌++◌, Some, None};
ghost use Rattle.qc_core.specs.Conduct.{IsLawful};
ghost use Rattle.qc_decl.specs.Accepted.{IsAccepted};
ghost use Rattle.qc_decl.specs.Actors.{is_client};
ghost use Rattle.qc_decl.specs.declared.declaration.Declaration.{Declaration};
ghost use Rattle.qc_entry.specs.declared.line.Line.{Line};
ghost use Rattle.qc_entry.specs.declared.line.Op.{Op};
ghost use Rattle.qc_entry.specs.declared.record.Commit.{Commit};
ghost use Rattle.qc_list.specs.Members.{In};
ghost use Rattle.qc_msg.specs.Counts.{written};
ghost use Rattle.qc_msg.specs.declared.reply.Reply.{Reply};
ghost use Rattle.qc_msg.specs.declared.reply.Reply.TheVariants.{Absent, Response};
ghost use Rattle.qc_msg.specs.declared.step.Step.TheVariants.{Told};
ghost use Rattle.qc_msg.specs.Steps.{Entry, marked};
ghost use Rattle.qc_promise.specs.Account.{Current, view_of};
ghost use Rattle.qc_script.specs.Runs.{Runs};
ghost use Rattle.qc_script.specs.Sound.{IsScriptFor};
ghost use Rattle.qc_script.specs.declared.script.Script.{Script};
ghost use Rattle.laws_guarantees.specs.Ordered.{DependsOn, IsOrdered, IsRunWithout, IsToldBy, Records};

/// The ordering lemma: where a committed operation depends on the event of
/// another transaction's, on the same object, then the client's view of the
/// object, when it was told the operation, had the line of the other, which has
/// the smaller stamp; or the operation's own transaction has the smaller stamp
/// (Herlihy 1986).
pub fn dependent_operations_are_ordered()
    ensures { (decl : Declaration) (script : Script) (h : List Entry) (open_inputs : List Bool) (c : Commit)
        (op : Op) (t : Current) (line : Line) → IsAccepted decl → IsScriptFor decl script
        → Runs (IsLawful decl) decl script h open_inputs → IsToldBy decl script h c op t
        → DependsOn decl h c op line → IsOrdered (view_of t op.object) line c.stamp }
{}

/// Each operation of a commit record was told before the record was written: so
/// the ordering lemma speaks of each.
pub fn operations_of_records_were_told()
    ensures { (decl : Declaration) (script : Script) (h : List Entry) (open_inputs : List Bool) (c : Commit)
        (op : Op) → IsAccepted decl → IsScriptFor decl script → Runs (IsLawful decl) decl script h open_inputs
        → In c (written h) → In op c.ops → (t : Current) × IsToldBy decl script h c op t }
{}

/// A reply ends its turn: the entries up to it are a run, in which its client
/// has no open input.
pub fn replies_end_their_turns()
    ensures { (decl : Declaration) (script : Script) (h : List Entry) (open_inputs : List Bool)
        (before after : List Entry) (a : ℕ) (reply : Reply) → Runs (IsLawful decl) decl script h open_inputs
        → h ≡ before ++ marked a (Told reply) ∷ after
        → IsRunWithout decl script a (before ++ marked a (Told reply) ∷ []) }
{}

/// With each Response and each Absent of a client an operation is recorded,
/// which was answered from the view that its client has then, and still has
/// behind it. So behind the reply is the first moment of which the ordering
/// lemma speaks, and the view is the one that the operation was answered from.
pub fn replies_record_operations()
    ensures response { (decl : Declaration) (script : Script) (h : List Entry) (open_inputs : List Bool)
        (before after : List Entry) (a resp : ℕ) → IsAccepted decl → IsScriptFor decl script
        → Runs (IsLawful decl) decl script h open_inputs → is_client decl a ≡ true
        → h ≡ before ++ marked a (Told (Response resp)) ∷ after
        → Records decl a before (Response resp) (Some resp) }
    ensures absent { (decl : Declaration) (script : Script) (h : List Entry) (open_inputs : List Bool)
        (before after : List Entry) (a : ℕ) → IsAccepted decl → IsScriptFor decl script
        → Runs (IsLawful decl) decl script h open_inputs → is_client decl a ≡ true
        → h ≡ before ++ marked a (Told Absent) ∷ after → Records decl a before Absent None }
{}
