//! Places that hold journals again: laws, each the contract of a function with
//! nothing to do.

ghost use Rattle.std.specs.Prelude.{◌≡◌, ◌<◌, ◌≤◌, ℕ, Bool, true, List, Option, Some, IfSome, IsSome};
ghost use Rattle.qc_decl.specs.Actors.{controller};
ghost use Rattle.qc_decl.specs.declared.declaration.Declaration.{Declaration};
ghost use Rattle.qc_msg.specs.Deeds.{own};
ghost use Rattle.qc_msg.specs.Steps.{Entry};
ghost use Rattle.qc_outside.specs.Images.{Told};
ghost use Rattle.qc_outside.specs.Places.{IsPutBack, IsSameElsewhere, Place, Places};
ghost use Rattle.qc_promise.specs.Kept.{Journal, journal_of};
ghost use Rattle.laws_bounds.specs.Places.{AreBackSoFar, AreHandedOut, HoldJournals, JournalIsOn, PlaceHolds, place_of};
ghost use Rattle.laws_bounds.specs.Visits.{nobody, with_visit};
ghost use Rattle.qc_store.specs.Contents.{DiskHolds};

/// A disk that tells, and holds bodies, leaves them at its place, if a disk was
/// handed out for that. All other places stay, and who tells its places still does.
pub fn disks_leave_their_bodies()
    ensures here { (old new : Places) (here : Place) (told : Option Told) (bodies : List (List ℕ))
        (pending : Option (List ℕ)) → IsPutBack (Some old) here told (Some new) → IsSome (old here) → IsSome told
        → DiskHolds told bodies pending → PlaceHolds bodies pending (new here) }
    ensures handed { (old new : Places) (here : Place) (told : Option Told)
        → IsPutBack (Some old) here told (Some new) → IsSome (old here) → IsSome told → IsSome (new here) }
    ensures elsewhere { (old new : Places) (here : Place) (told : Option Told)
        → IsPutBack (Some old) here told (Some new) → IsSameElsewhere here old new }
    ensures tells { (old new : Option Places) (here : Place) (told : Option Told) → IsPutBack old here told new
        → IsSome old → IsSome new }
    ensures told { (old new : Option Places) (here : Place) (told : Option Told) → IsPutBack old here told new
        → IsSome new → IsSome old }
{}

/// Disks come back to a rack one by one, in any order, to the places of one folder: where it tells, each that
/// holds its actor's journal leaves it at its place. Once all came back, each
/// place holds its actor's journal.
pub fn places_hold_journals_disk_by_disk()
    ensures none { (folder : Option (List ℕ)) (n : ℕ) (h : List Entry) (places : Option Places)
        → IfSome places (AreHandedOut folder n) → IfSome places (AreBackSoFar folder n h nobody) }
    ensures one { (folder : Option (List ℕ)) (n a : ℕ) (h : List Entry) (visited : ℕ → Bool)
        (old new : Option Places) (told : Option Told) → a < n → IsPutBack old (place_of folder a) told new
        → (IsSome old → JournalIsOn (journal_of (own a h)) told)
        → IfSome old (AreBackSoFar folder n h visited) → IfSome new (AreBackSoFar folder n h (with_visit visited a)) }
    ensures all { (folder : Option (List ℕ)) (decl : Declaration) (n : ℕ) (h : List Entry) (visited : ℕ → Bool)
        (places : Option Places) → controller decl ≤ n → ((a : ℕ) → a < n → visited a ≡ true)
        → IfSome places (AreBackSoFar folder n h visited) → HoldJournals folder decl h places }
{}
