//! Laws of one copy, each the contract of a function with nothing to do.

ghost use Rattle.std.specs.Prelude.{◌≡◌, ◌↔◌, ◌++◌, ◌∷◌, ℕ, List, Some, IsSome, map};
ghost use Rattle.qc_cert.specs.Views.{IsExact};
ghost use Rattle.qc_table.specs.declared.kind.Kind.{Kind};
ghost use Rattle.qc_decl.specs.declared.declaration.Declaration.{Declaration};
ghost use Rattle.qc_entry.specs.declared.record.Commit.{Commit};
ghost use Rattle.theory_onecopy.specs.Committed.{AreApart, IsStampedBefore, sorted};
ghost use Rattle.theory_onecopy.specs.Executed.{Placed, kind_at};
ghost use Rattle.theory_onecopy.specs.Lists.{IsOrdered};
ghost use Rattle.qc_list.specs.Members.{In};
ghost use Rattle.theory_onecopy.specs.OneCopy.{OneCopy, Walks, start_at};
ghost use Rattle.theory_onecopy.specs.Replay.{replay};
ghost use Rattle.theory_onecopy.specs.Views.{AreFromViews, IsFromView};

/// Operations that were answered from views, under exact relations, are those
/// of one copy of each object.
pub fn views_are_one_copy()
    ensures { (decl : Declaration) (all : List Placed)
        → ((object : ℕ) (kind : Kind) → kind_at decl object ≡ Some kind → IsExact kind)
        → AreFromViews decl all → Walks decl (start_at decl) (map (λ (p : Placed). p.operation.op) all) }
{}

/// Each of them was answered from a view, in the sense of certificates, of the
/// lines of its object before it.
pub fn answers_are_from_views()
    ensures { (decl : Declaration) (before after : List Placed) (b : Placed)
        → AreFromViews decl (before ++ b ∷ after) → IsFromView decl before b }
{}

/// The replay of commit records ends in states exactly where the records'
/// operations are those of one copy of each object. It needs no premise that
/// the objects are declared: one that isn't has no rows, in both.
pub fn replays_are_one_copy()
    ensures { (decl : Declaration) (commits : List Commit) → IsSome (replay decl commits) ↔ OneCopy decl commits }
{}

/// Records that are apart, put in order, are just these records, each with a
/// stamp before those of the records after it.
pub fn records_are_sorted()
    ensures { (records : List Commit) → AreApart records
        → IsOrdered IsStampedBefore (sorted records)
        × ((commit : Commit) → In commit (sorted records) ↔ In commit records) }
{}
