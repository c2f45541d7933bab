//! The logs and views of every run: they hold what committed, and are closed.

ghost use Rattle.std.specs.Prelude.{◌++◌, ◌∷◌, ◌≡◌, ◌≢◌, ◌<◌, IsTrue, ◌⊎◌, List, IsSome};
ghost use Rattle.qc_entry.specs.declared.line.Line.{Line};
ghost use Rattle.qc_entry.specs.declared.record.Commit.{Commit as CommitRecord};
ghost use Rattle.qc_decl.specs.declared.declaration.Declaration.{Declaration};
ghost use Rattle.qc_decl.specs.Accepted.{IsAccepted};
ghost use Rattle.theory_onecopy.specs.Views.{IsFromView};
ghost use Rattle.theory_onecopy.specs.Committed.{sorted};
ghost use Rattle.theory_machine.specs.Placed.{placed};
ghost use Rattle.theory_onecopy.specs.Executed.{Executed, Placed, committed_line, depends_at, own_line};
ghost use Rattle.qc_list.specs.Members.{In};
ghost use Rattle.theory_onecopy.specs.Logged.{IsClosedLog, IsLogged};
ghost use Rattle.theory_machine.specs.Acts.{Act, state};
ghost use Rattle.theory_machine.specs.Guards.{IsRun};
ghost use Rattle.theory_machine.specs.Claims.{IsLogOf};

/// Each line of a log of a site, of a snapshot, of an Append or of a decision
/// is an operation of a record.
pub fn logs_hold_operations()
    ensures { (decl : Declaration) (acts : List Act) (log : List Line) (line : Line) → IsAccepted decl
        → IsRun decl acts → IsLogOf (state acts) log → In line log → IsLogged decl (state acts).records line }
{}

/// With a line, such a log has each committed line of its object before it on
/// which its invocation depends.
pub fn logs_are_closed()
    ensures { (decl : Declaration) (acts : List Act) (log : List Line) → IsAccepted decl → IsRun decl acts
        → IsLogOf (state acts) log → IsClosedLog decl (state acts).records log }
{}

/// The ordering lemma: where the invocation of a committed operation depends on
/// the event of another transaction's, its view has the line of this, or its
/// stamp is smaller.
pub fn dependent_operations_are_ordered()
    ensures { (decl : Declaration) (acts : List Act) (c d : CommitRecord) (a b : Executed) → IsAccepted decl
        → IsRun decl acts → In c (state acts).records → In d (state acts).records
        → In a ((state acts).executed c.tx) → In b ((state acts).executed d.tx) → c.stamp ≢ d.stamp
        → a.op.object ≡ b.op.object → IsSome a.op.resp → IsTrue (depends_at decl b.op.object b.op.inv a.event)
        → In (committed_line c.stamp c.tx (own_line a)) b.view ⊎ (d.stamp.clock < c.stamp.clock) }
{}

/// Each operation of a record was answered from a view, in the sense of
/// certificates, of the lines of its object in the records' order before it.
pub fn runs_answer_from_views()
    ensures { (decl : Declaration) (acts : List Act) (before after : List Placed) (b : Placed) → IsAccepted decl
        → IsRun decl acts → before ++ b ∷ after ≡ placed (state acts).executed (sorted (state acts).records)
        → IsFromView decl before b }
{}
