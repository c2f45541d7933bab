//! The order of dependent operations of every run with falls: the contract of a
//! function with nothing to do.

ghost use Rattle.std.specs.Prelude.{◌≡◌, []};
ghost use Rattle.qc_entry.specs.declared.line.Line.{Line};
ghost use Rattle.qc_entry.specs.declared.line.Op.{Op};
ghost use Rattle.qc_entry.specs.declared.record.Commit.{Commit};
ghost use Rattle.qc_list.specs.Members.{In};
ghost use Rattle.laws_guarantees.specs.Ordered.{IsOrdered};
ghost use Rattle.laws_votes.specs.Ordered.{DependsOn, IsToldBy};
ghost use Rattle.qc_promise.specs.Account.{Current, view_of};
ghost use Rattle.qc_promise.specs.Committed.{committed};
ghost use Rattle.laws_turns.specs.EachRun.{OfEachKeptRun};

use qc_script::ConductWithFalls;

/// The ordering lemma through falls: where a committed operation depends on the
/// event of another transaction's, on the same object, then the client's view of
/// the object, when it was told the operation, had the line of the other, which
/// has the smaller stamp; or the operation's own transaction has the smaller
/// stamp (Herlihy 1986). Both are committed: each record was written, or was
/// being written as its client fell, and rose later.
pub fn dependent_operations_are_ordered_through_falls<C: ConductWithFalls>()
    ensures { OfEachKeptRun C.fits (λ decl script h open_inputs. (c : Commit) (op : Op) (t : Current)
        → IsToldBy C.fits decl script h c op t → (line : Line) → DependsOn decl h c op line
        → IsOrdered (view_of t op.object) line c.stamp) }
{}

/// Each operation of a committed transaction was told before its record was
/// written, or was being written as its client fell: so the ordering lemma speaks
/// of each.
pub fn operations_of_records_were_told_through_falls<C: ConductWithFalls>()
    ensures { OfEachKeptRun C.fits (λ decl script h open_inputs. (c : Commit) (op : Op) → In c (committed decl h)
        → In op c.ops → (t : Current) × IsToldBy C.fits decl script h c op t) }
{}
