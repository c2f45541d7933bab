//! Laws of logs, each the contract of a function with nothing to do.

ghost use Rattle.std.specs.Prelude.{List};
ghost use Rattle.qc_entry.specs.declared.line.Line.{Line};
ghost use Rattle.qc_entry.specs.Line.{line_cmp, IsAscending};
ghost use Rattle.qc_entry.specs.Log.{IsUnion, union};
ghost use Rattle.qc_stamp.specs.Order.{IsOrder};

/// Lines are totally ordered, and different ones are told apart.
pub fn lines_are_ordered()
    ensures { IsOrder line_cmp }
{}

/// The union of two sorted lists is sorted, and has just the lines of either.
pub fn union_is_a_union()
    ensures { (xs ys : List Line) → IsAscending xs → IsAscending ys → IsUnion xs ys (union xs ys) }
{}
