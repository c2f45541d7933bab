//! Laws of accepted declarations, each the contract of a function with nothing
//! to do.

ghost use Rattle.std.specs.Prelude.{◌≡◌, ℕ, Some, map, slice_get};
ghost use Rattle.qc_decl.specs.Accepted.{IsAccepted};
ghost use Rattle.qc_decl.specs.Named.{IsNamed, StandForPlaces};
ghost use Rattle.qc_decl.specs.declared.declaration.Declaration.{Declaration};
ghost use Rattle.qc_decl.specs.declared.declaration.KindNames.{KindNames};

/// The names of an accepted declaration are few, so that each name's number
/// fits a byte.
pub fn accepted_declarations_have_few_names()
    ensures { (decl : Declaration) → IsAccepted decl → IsNamed decl }
{}

/// A name of an object, or of a type's state, invocation or response, stands
/// for its place among these, and for no other.
pub fn names_stand_for_their_places()
    ensures types { (decl : Declaration) → IsAccepted decl
        → StandForPlaces (map (λ (names : KindNames). names.name) decl.kind_names) }
    ensures objects { (decl : Declaration) → IsAccepted decl → StandForPlaces decl.object_names }
    ensures states { (decl : Declaration) (number : ℕ) (names : KindNames) → IsAccepted decl
        → slice_get decl.kind_names number ≡ Some names → StandForPlaces names.states }
    ensures invocations { (decl : Declaration) (number : ℕ) (names : KindNames) → IsAccepted decl
        → slice_get decl.kind_names number ≡ Some names → StandForPlaces names.invs }
    ensures responses { (decl : Declaration) (number : ℕ) (names : KindNames) → IsAccepted decl
        → slice_get decl.kind_names number ≡ Some names → StandForPlaces names.resps }
{}
