//! Laws of accepted declarations, for all bytes, each the contract of a
//! function with nothing to do.

ghost use Rattle.std.specs.Prelude.{◌≡◌, ℕ, List, Ok, codes};
ghost use Rattle.qc_accept.specs.Accept.{DraftOf, accepted, document_of, draft_of};
ghost use Rattle.qc_accept.specs.Epochs.{StoreOf, plan_of};
ghost use Rattle.qc_accept.specs.Spelled.{AreListed, IsDeclared, IsSpelled, array_at};
ghost use Rattle.qc_accept.specs.Types.{TypeOf, type_of};
ghost use Rattle.qc_accept.specs.declared.epochs.Side.TheVariants.{Initial, Final};
ghost use Rattle.qc_plan.specs.declared.plan.Plan.{Plan};
ghost use Rattle.qc_accept.specs.Sufficient.{AreAdmitted, AreInductive};
ghost use Rattle.qc_decl.specs.Accepted.{IsAccepted};
ghost use Rattle.qc_decl.specs.Named.{IsNamed};
ghost use Rattle.toml.specs.Data.{Members};
ghost use Rattle.qc_decl.specs.declared.declaration.Declaration.{Declaration};

/// A declaration that bytes spell keeps all that theorems ask of it: its
/// counts are within the limits, its types' rows are sound and their relations
/// exact, and its plans are admitted.
pub fn accepted_declarations_keep_the_rules()
    ensures { (bytes : List ℕ) (decl : Declaration) → accepted bytes ≡ Ok decl → IsAccepted decl }
{}

/// Its names are few, so that each name's number fits a byte.
pub fn accepted_declarations_are_named()
    ensures { (bytes : List ℕ) (decl : Declaration) → accepted bytes ≡ Ok decl → IsNamed decl }
{}

/// An accepted declaration is what its document spells: of each array one type,
/// object or plan for each table, in their order, with the names, rows,
/// dependences, weights and thresholds that stand there.
pub fn accepted_declarations_are_their_documents()
    ensures { (bytes : List ℕ) (table : Members) (decl : Declaration)
        → document_of bytes ≡ Ok table → accepted bytes ≡ Ok decl → IsDeclared table decl }
{}

/// A type's fields say what its table's texts say: its names, its rows, its
/// dependences and its triples, one for each text and in their order.
pub fn types_are_their_texts()
    ensures { (path : List ℕ) (table : Members) (place : ℕ) (name : List ℕ) (t : TypeOf)
        → type_of path table place name ≡ Ok t → IsSpelled table t }
{}

/// A threshold that is listed is the number that its text says, and one that
/// isn't listed is 0.
pub fn thresholds_are_their_texts()
    ensures initial { (path : List ℕ) (table : Members) (store : StoreOf) (plan : Plan)
        → plan_of path table store ≡ Ok plan → AreListed store Initial (array_at table (codes "initial")) plan.initial }
    ensures last { (path : List ℕ) (table : Members) (store : StoreOf) (plan : Plan)
        → plan_of path table store ≡ Ok plan → AreListed store Final (array_at table (codes "final")) plan.last }
{}

/// Nothing else is asked of a declaration: one whose fields are read, whose
/// types' triples are inductive and whose plans are admitted is accepted.
pub fn sufficient_declarations_are_accepted()
    ensures { (bytes : List ℕ) (table : Members) (draft : DraftOf) → document_of bytes ≡ Ok table
        → draft_of table ≡ Ok draft
        → AreInductive draft → AreAdmitted draft → accepted bytes ≡ Ok draft.decl }
{}
