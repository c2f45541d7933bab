//! A wrong history, and what the definitions take and refuse of it: the
//! contracts of functions with nothing to do.

ghost use Rattle.std.specs.Prelude.{◌≡◌, Some, [], ◌∷◌};
ghost use Rattle.qc_decl.specs.One.{three};
ghost use Rattle.qc_promise.specs.Account.{view_of};
ghost use Rattle.qc_promise.specs.Accounting.{account};
ghost use Rattle.laws_guarantees.specs.Ordered.{DependsOn, IsOrdered};
ghost use Rattle.laws_guarantees.specs.WrongOrder.{early, informed, line, missed, read, reader, reads, stamp_at};
ghost use Rattle.laws_guarantees.specs.WrongOrder.{write, writes};

/// A reader that was told its operation without the line of a writer with the
/// smaller stamp is refused. One that had the line is taken, and one that has
/// the smaller stamp itself.
pub fn missed_lines_are_refused()
    ensures depends { DependsOn three missed reads read line }
    ensures begun { (account three 4 early).current ≡ Some reader }
    ensures refused { IsOrdered (view_of reader 0) line reads.stamp → ⊥ }
    ensures informed { IsOrdered (view_of informed 0) line reads.stamp }
    ensures first { IsOrdered (view_of reader 0) line (stamp_at 0 1) }
{}

/// Neither helps it to have seen a line whose stamp isn't smaller; and no
/// operation depends on a line of its own transaction.
pub fn late_stamps_are_refused()
    ensures same { IsOrdered (line ∷ []) line line.stamp → ⊥ }
    ensures unseen { IsOrdered [] line line.stamp → ⊥ }
    ensures own { DependsOn three missed writes write line → ⊥ }
{}
