//! Laws of histories, each the contract of a function with nothing to do.

ghost use Rattle.std.specs.List.{AllByRecursion as Every};
ghost use Rattle.std.specs.Prelude.{◌≡◌, ◌≤◌, ◌+◌, ◌==◌, ℕ, cond, false, List, [], ◌∷◌, ◌++◌, sum_by};
ghost use Rattle.qc_entry.specs.declared.record.Commit.{Commit};
ghost use Rattle.qc_msg.specs.Counts.{IsNoRise, answered, answered_at, operations_of, standing_after, tally_of};
ghost use Rattle.qc_msg.specs.Counts.{written};
ghost use Rattle.qc_msg.specs.Deeds.{Takes, WasSentTo, deeds, mail, turn_deeds};
ghost use Rattle.qc_msg.specs.Fallen.{commit, risen, risen_again, rewritten};
ghost use Rattle.qc_msg.specs.declared.record.Record.TheVariants as records;
ghost use Rattle.qc_msg.specs.Steps.{Entry, by, marked, posted, step_of};
ghost use Rattle.qc_msg.specs.declared.step.Input.{Input};
ghost use Rattle.qc_msg.specs.declared.step.Step.{Step};
ghost use Rattle.qc_msg.specs.declared.turn.Turn.{Turn};

/// An actor's deeds go on by its own input, and by its own turn, and stay
/// where another goes on.
pub fn deeds_go_on()
    ensures input { (a : ℕ) (h : List Entry) (given : Input) → WasSentTo a (mail h) given
        → deeds a [] (h ++ marked a (step_of given) ∷ []) ≡ deeds a [] h ++ Takes given ∷ [] }
    ensures turn { (a first : ℕ) (h : List Entry) (turn : Turn)
        → deeds a [] (h ++ by a (posted first turn)) ≡ deeds a [] h ++ turn_deeds first turn }
    ensures others { (a other : ℕ) (h : List Entry) (steps : List Step) → (other == a) ≡ false
        → deeds a [] (h ++ by other steps) ≡ deeds a [] h }
{}

/// The count of committed operations goes on by those of the commit records that
/// a step brings to stand: of the one that it wrote, and of those that it rose
/// with beyond as many as stood at its actor. It never falls.
pub fn operations_go_on()
    ensures operations { (h : List Entry) (e : Entry)
        → operations_of (h ++ e ∷ []) ≡ operations_of h + answered_at ((tally_of h).standing e.actor) e.step }
    ensures standing { (h : List Entry) (e : Entry) (a : ℕ) → (tally_of (h ++ e ∷ [])).standing a
        ≡ cond (a == e.actor) (standing_after ((tally_of h).standing a) e.step) ((tally_of h).standing a) }
    ensures grow { (h k : List Entry) → operations_of h ≤ operations_of (h ++ k) }
{}

/// Without rises the count of committed operations is that of the commit records
/// that were written.
pub fn operations_are_those_of_records()
    ensures { (h : List Entry) → Every (λ (e : Entry). IsNoRise e.step) h
        → operations_of h ≡ sum_by (λ (c : Commit). answered c.ops) (written h) }
{}

/// A commit record that was being written as its actor fell counts once where the
/// actor rises with it, also where it rises so again, and doesn't count where it
/// rises without it. One that a disk lost counts again where it is written again.
pub fn records_that_rise_count_once()
    ensures with { operations_of (risen (records.Commit commit ∷ [])) ≡ 1 }
    ensures without { operations_of (risen []) ≡ 0 }
    ensures again { operations_of risen_again ≡ 1 }
    ensures lost { operations_of rewritten ≡ 2 }
{}
