//! How many operations were committed, through falls: the contracts of functions
//! with nothing to do.

ghost use Rattle.std.specs.Prelude.{◌≡◌, true, [], ◌∷◌};
ghost use Rattle.laws_votes.specs.Operations.{committed_operations};
ghost use Rattle.qc_decl.specs.Actors.{is_client};
ghost use Rattle.qc_decl.specs.declared.declaration.Declaration.{Declaration};
ghost use Rattle.qc_msg.specs.Counts.{operations_of};
ghost use Rattle.qc_msg.specs.Fallen.{commit, risen};
ghost use Rattle.qc_msg.specs.declared.record.Record.TheVariants.{Commit};
ghost use Rattle.qc_promise.specs.Kept.{Kept};
ghost use Rattle.laws_turns.specs.EachRun.{OfEachKeptRun};

use qc_script::ConductWithFalls;

/// Where records are kept, a run counts just the operations of its committed
/// transactions, each once: of commit records that were written, and of those that
/// were being written as their clients fell, and that rose.
pub fn committed_operations_are_counted<C: ConductWithFalls>()
    ensures { OfEachKeptRun C.fits (λ decl script h open_inputs. committed_operations decl h ≡ operations_of h) }
{}

/// A client that falls as it writes a commit record has committed its operations,
/// and they are counted, where it rises with the record; and neither where it
/// rises without it. Both keep its records, and neither wrote one.
pub fn records_that_rise_are_counted()
    ensures kept { Kept (risen (Commit commit ∷ [])) }
    ensures counted { operations_of (risen (Commit commit ∷ [])) ≡ 1 }
    ensures given { (decl : Declaration) → is_client decl 1 ≡ true
        → committed_operations decl (risen (Commit commit ∷ [])) ≡ 1 }
    ensures kept_without { Kept (risen []) }
    ensures uncounted { operations_of (risen []) ≡ 0 }
    ensures without { (decl : Declaration) → is_client decl 1 ≡ true → committed_operations decl (risen []) ≡ 0 }
{}
