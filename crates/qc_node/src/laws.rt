//! Laws of begun journals, each the contract of a function with nothing to do.

ghost use Rattle.std.specs.Prelude.{List, Option, ℕ};
ghost use Rattle.qc_outside.specs.Places.{HoldsNoByte};
ghost use Rattle.qc_promise.specs.Kept.{no_journal};
ghost use Rattle.qc_node.specs.Places.{HasBegun, HoldsJournal};

/// A place where a journal was begun holds a journal of no records, and a byte: so it
/// isn't the place of a disk that never came back, or came back unwritten.
#[tactic(auto, using(crate::proofs::Unstarted::begun_holds, crate::proofs::Unstarted::none_begun))]
pub fn begun_journals_have_no_records()
    ensures holds { (place : Option (List ℕ)) → HasBegun place → HoldsJournal no_journal place }
    ensures some { (place : Option (List ℕ)) → HoldsNoByte place → HasBegun place → ⊥ }
{}
