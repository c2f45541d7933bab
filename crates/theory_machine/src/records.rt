//! The commit records of every run.

ghost use Rattle.std.specs.Prelude.{◌↔◌, List, ◌∷◌, ◌++◌};
ghost use Rattle.qc_entry.specs.declared.record.Commit.{Commit as CommitRecord};
ghost use Rattle.qc_decl.specs.declared.declaration.Declaration.{Declaration};
ghost use Rattle.qc_decl.specs.Accepted.{IsAccepted};
ghost use Rattle.theory_onecopy.specs.Committed.{AreApart, IsStampedBefore, sorted};
ghost use Rattle.theory_onecopy.specs.Lists.{IsOrdered};
ghost use Rattle.qc_list.specs.Members.{In};
ghost use Rattle.theory_onecopy.specs.OneCopy.{OneCopy};
ghost use Rattle.theory_machine.specs.State.{Verdict};
ghost use Rattle.theory_machine.specs.Acts.{Act, Commit, CommitUnknown, state};
ghost use Rattle.theory_machine.specs.Guards.{IsRun};
ghost use Rattle.theory_machine.specs.Claims.{FollowsSeen, IsVerdictOf};

/// In the order of their stamps, the commit records are one copy's of each
/// object.
pub fn runs_are_one_copy()
    ensures { (decl : Declaration) (acts : List Act) → IsAccepted decl → IsRun decl acts
        → OneCopy decl (sorted (state acts).records) }
{}

/// The same for any list of just these records in the order of their stamps.
pub fn records_in_order_are_one_copy()
    ensures { (decl : Declaration) (acts : List Act) (records : List CommitRecord) → IsAccepted decl → IsRun decl acts
        → IsOrdered IsStampedBefore records → ((c : CommitRecord) → In c records ↔ In c (state acts).records)
        → OneCopy decl records }
{}

/// No two records have one stamp, or one transaction.
pub fn records_are_apart()
    ensures { (decl : Declaration) (acts : List Act) → IsAccepted decl → IsRun decl acts
        → AreApart (state acts).records }
{}

/// Whatever its client had counted a line of, or had committed, before a
/// transaction's record was written has a record with a smaller stamp; also
/// where the client fell as it wrote the record, and this may stand or not.
pub fn records_follow_what_was_seen()
    ensures written { (decl : Declaration) (acts : List Act) (commit : CommitRecord) → IsAccepted decl
        → IsRun decl (Commit commit ∷ acts) → FollowsSeen (state acts) commit }
    ensures unknown { (decl : Declaration) (acts : List Act) (commit : CommitRecord) → IsAccepted decl
        → IsRun decl (CommitUnknown commit ∷ acts) → FollowsSeen (state acts) commit }
{}

/// Each verdict that was sent is the records', and it will be, whatever happens
/// next.
pub fn verdicts_agree()
    ensures now { (decl : Declaration) (acts : List Act) (verdict : Verdict) → IsAccepted decl → IsRun decl acts
        → In verdict (state acts).verdicts → IsVerdictOf (state acts).records verdict.tx verdict.stamp }
    ensures for_ever { (decl : Declaration) (acts later : List Act) (verdict : Verdict) → IsAccepted decl
        → IsRun decl (later ++ acts) → In verdict (state acts).verdicts
        → IsVerdictOf (state (later ++ acts)).records verdict.tx verdict.stamp }
{}
