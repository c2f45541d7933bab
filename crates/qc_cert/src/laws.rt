//! Laws of certificates, for every type, list and history.

ghost use Rattle.std.specs.Prelude.{◌≡◌, ℕ, Bool, IsTrue, ◌↔◌, List, None};
ghost use Rattle.qc_cert.specs.Covered.{IsAccountedFor};
ghost use Rattle.qc_cert.specs.Faults.{covers, fault_of, is_covered, triple_fault, triples_fault};
ghost use Rattle.qc_cert.specs.Firsts.{distinct, firsts, marked_fault};
ghost use Rattle.qc_cert.specs.Inductive.{Covers, IsInductive};
ghost use Rattle.qc_cert.specs.Views.{IsLegalFor, IsClosed, IsExact};
ghost use Rattle.qc_cert.specs.declared.triple.Triple.{Triple};
ghost use Rattle.qc_table.specs.Sound.{IsSound};
ghost use Rattle.qc_table.specs.declared.kind.Kind.{Kind};

/// A list that is inductive shows its type's relation exact: each view of
/// each legal history is a legal history, and allows the invocation just the
/// responses that the whole history allows.
pub fn inductive_lists_make_relations_exact()
    ensures { (kind : Kind) (list : List Triple) → IsInductive kind list → IsExact kind }
{}

/// For each closed set of positions of a legal history, the events there are
/// a legal history too, and some triple of an inductive list has the states
/// that the two lead to and leaves out only events that stand outside the
/// set.
pub fn closed_sets_are_covered()
    ensures { (kind : Kind) (list : List Triple) (history : List ℕ) (set : ℕ → Bool)
        → IsInductive kind list → IsLegalFor kind history → IsClosed kind history set
        → IsAccountedFor kind list history set }
{}

/// A list without a fault is inductive, where the type's table is sound, as
/// every table is.
pub fn no_fault_is_inductive()
    ensures { (kind : Kind) (list : List Triple)
        → IsSound kind.table → fault_of kind list ≡ None → IsInductive kind list }
{}

/// An inductive list has no fault.
pub fn inductive_lists_have_no_fault()
    ensures { (kind : Kind) (list : List Triple) → IsInductive kind list → fault_of kind list ≡ None }
{}

/// The test `covers` is true just where a triple covers another: their states
/// are the same, and each event that the one leaves out is left out by the
/// other.
pub fn covers_is_cover()
    ensures { (a b : Triple) → IsTrue (covers a b) ↔ Covers a b }
{}

/// A triple is covered by the distinct triples of a list just where it is
/// covered by the list.
pub fn distinct_triples_cover_alike()
    ensures { (list : List Triple) (t : Triple) → is_covered (distinct list) t ≡ is_covered list t }
{}

/// A triple has a fault at each place or at none, so an equal one that stands
/// before it is at fault where it is.
pub fn a_place_makes_no_fault()
    ensures { (kind : Kind) (list : List Triple) (p q : ℕ) (t : Triple)
        → triple_fault kind list p t ≡ None → triple_fault kind list q t ≡ None }
{}

/// The first fault of the triples that stand nowhere before is the first
/// fault of all.
pub fn the_first_fault_is_of_a_first()
    ensures { (kind : Kind) (list : List Triple)
        → marked_fault kind list 0 (firsts list) list ≡ triples_fault kind list 0 list }
{}
