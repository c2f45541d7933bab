//! The order of epochs: what a transaction saw of earlier ones and of later
//! ones.

ghost use Rattle.std.specs.Prelude.{◌≡◌, ◌<◌, ◌≤◌, IsTrue, List, IsSome};
ghost use Rattle.qc_stamp.specs.declared.stamp.TxId.{TxId};
ghost use Rattle.qc_entry.specs.declared.line.Line.{Line};
ghost use Rattle.qc_entry.specs.declared.record.Commit.{Commit as CommitRecord};
ghost use Rattle.qc_decl.specs.declared.declaration.Declaration.{Declaration};
ghost use Rattle.qc_decl.specs.Accepted.{IsAccepted};
ghost use Rattle.theory_onecopy.specs.Executed.{Executed, committed_line, depends_at, own_line};
ghost use Rattle.qc_list.specs.Members.{In};
ghost use Rattle.theory_machine.specs.Acts.{Act, state};
ghost use Rattle.theory_machine.specs.Guards.{IsRun};
ghost use Rattle.theory_bases.specs.Discipline.{AreDisciplined};

/// Where a committed operation b depends on the event of an operation a of an
/// earlier epoch, its view has a's line; on one of a later epoch, it doesn't.
/// Either way the transaction of the later epoch has the greater stamp.
pub fn later_epochs_follow_earlier_ones()
    ensures readers { (decl : Declaration) (acts : List Act) (c d : CommitRecord) (a b : Executed) → IsAccepted decl
        → IsRun decl acts → In c (state acts).records → In d (state acts).records
        → In a ((state acts).executed c.tx) → In b ((state acts).executed d.tx) → a.op.object ≡ b.op.object
        → IsSome a.op.resp → IsTrue (depends_at decl b.op.object b.op.inv a.event)
        → (state acts).epoch c.tx < (state acts).epoch d.tx
        → In (committed_line c.stamp c.tx (own_line a)) b.view × (c.stamp.clock < d.stamp.clock) }
    ensures writers { (decl : Declaration) (acts : List Act) (c d : CommitRecord) (a b : Executed) → IsAccepted decl
        → IsRun decl acts → In c (state acts).records → In d (state acts).records
        → In a ((state acts).executed c.tx) → In b ((state acts).executed d.tx) → a.op.object ≡ b.op.object
        → IsSome a.op.resp → IsTrue (depends_at decl b.op.object b.op.inv a.event)
        → (state acts).epoch d.tx < (state acts).epoch c.tx
        → (In (committed_line c.stamp c.tx (own_line a)) b.view → ⊥) × (d.stamp.clock < c.stamp.clock) }
{}

/// In a disciplined run no operation sees a line of a later epoch, be it one on
/// which it depends or not.
#[tactic(auto, using(crate::proofs::Above::views_have_no_later_lines))]
pub fn views_have_no_later_lines()
    ensures { (decl : Declaration) (accepted : IsAccepted decl) (acts : List Act) (run : IsRun decl acts)
        (disciplined : AreDisciplined decl acts) (tx : TxId) (b : Executed) (l : Line)
        → In b ((state acts).executed tx) → In l b.view → (state acts).epoch l.tx ≤ (state acts).epoch tx }
{}
