//! Falls that nothing accounts for and faults that don't come, each history
//! refused, and right ones: the contracts of functions with nothing to do.
//!
//! A record takes four calls of the disk; opening a journal takes one, and of an
//! empty one maybe two. The site writes while it stops or fails, unless it is
//! rising.

ghost use Rattle.std.specs.Prelude.{ℕ, [], ◌∷◌};
ghost use Rattle.qc_outside.specs.declared.disk.ArmKind.TheVariants.{Fail, Stop};
ghost use Rattle.qc_promise.specs.Spent.{Spent};
ghost use Rattle.tests_due.specs.Disks.{arms, arms_other, crashes, damaged, fails, rises, rises_with_one, stops};
ghost use Rattle.tests_due.specs.Disks.{stops_rising, writes};

/// Where the disk counted no fault, it falls only where a fault of that kind is
/// armed for it.
pub fn falls_that_nothing_armed_are_refused()
    // It stops, and nothing was ever armed.
    ensures unarmed { Spent (stops ∷ []) 0 → ⊥ }
    // It stops, and is armed for it only then.
    ensures after { Spent (stops ∷ arms Stop 1 ∷ []) 0 → ⊥ }
    // What was armed was for the disk of another site.
    ensures another { Spent (arms_other Stop 1 ∷ stops ∷ []) 0 → ⊥ }
    // It was armed to stop and fails, or to fail and stops.
    ensures fails { Spent (arms Stop 2 ∷ fails ∷ []) 0 → ⊥ }
    ensures stops { Spent (arms Fail 2 ∷ stops ∷ []) 0 → ⊥ }
    // It is armed once, and stops twice.
    ensures twice { Spent (arms Stop 1 ∷ stops ∷ rises ∷ stops ∷ []) 0 → ⊥ }
    // It is armed twice before it stops: one arm is kept, and it stops twice.
    ensures kept { Spent (arms Stop 1 ∷ arms Stop 1 ∷ stops ∷ rises ∷ stops ∷ []) 0 → ⊥ }
    // It was armed to fail, but then to stop in place of that, and fails.
    ensures replaced { Spent (arms Fail 1 ∷ arms Stop 9 ∷ fails ∷ []) 0 → ⊥ }
    // The disk counted one fault, and it stopped twice.
    ensures counted { Spent (stops ∷ rises ∷ stops ∷ []) 1 → ⊥ }
{}

/// Nor does it fall before the call for which it is armed.
pub fn falls_that_come_early_are_refused()
    // It is armed for the fifth call, and stops in one of the four of a record.
    ensures in_record { Spent (arms Stop 5 ∷ stops ∷ []) 0 → ⊥ }
    // It is armed for the ninth, and stops in the second record.
    ensures second { Spent (arms Stop 9 ∷ writes ∷ stops ∷ []) 0 → ⊥ }
    // It is armed for the third, and stops as its journal is opened.
    ensures opening { Spent (arms Stop 3 ∷ crashes ∷ stops_rising ∷ []) 0 → ⊥ }
    // It is armed for the sixth, and stops in the record after the opening of a journal with one: five calls at most.
    ensures reading { Spent (arms Stop 6 ∷ crashes ∷ rises_with_one ∷ stops ∷ []) 0 → ⊥ }
    // It is armed for the fourth, and stops in the opening after that of a damaged journal: three at most.
    ensures damage { Spent (arms Stop 4 ∷ crashes ∷ damaged ∷ stops_rising ∷ []) 0 → ⊥ }
{}

/// However many faults the disk counted, what is armed acts in its call.
pub fn faults_that_never_come_are_refused()
    // It is armed for the fourth call, and the record is written.
    ensures in_record { (n : ℕ) → Spent (arms Stop 4 ∷ writes ∷ []) n → ⊥ }
    // It is armed for the fifth, and a journal is opened and then a record written: five calls at least.
    ensures opening { (n : ℕ) → Spent (arms Stop 5 ∷ crashes ∷ rises ∷ writes ∷ []) n → ⊥ }
    // It is armed for the second, and a journal is opened twice.
    ensures openings { (n : ℕ) → Spent (arms Stop 2 ∷ crashes ∷ rises ∷ crashes ∷ rises ∷ []) n → ⊥ }
    // It is armed to stop in the first call, and fails in some call of a record.
    ensures first { (n : ℕ) → Spent (arms Stop 1 ∷ fails ∷ []) n → ⊥ }
    // It is armed for the ninth, and stops before: that fall leaves the arm, and two records are written.
    ensures left { (n : ℕ) → Spent (arms Stop 9 ∷ stops ∷ rises ∷ writes ∷ writes ∷ []) n → ⊥ }
{}

/// Right ones.
pub fn accounted_falls_are_taken()
    // It stops in the call for which it is armed: the first of the second record.
    ensures armed { Spent (arms Stop 5 ∷ writes ∷ stops ∷ rises_with_one ∷ writes ∷ []) 0 }
    // The arm outlasts a crash: an opening and a record come before its call.
    ensures crash { Spent (arms Stop 6 ∷ crashes ∷ rises ∷ writes ∷ stops ∷ []) 0 }
    // So it does after an opening of a journal with a record: in the last call of a record.
    ensures reading { Spent (arms Stop 5 ∷ crashes ∷ rises_with_one ∷ stops ∷ []) 0 }
    // It stops as its journal is opened.
    ensures opening { Spent (arms Stop 2 ∷ crashes ∷ stops_rising ∷ rises ∷ []) 0 }
    // A later arm takes the place of an earlier one, whose call then passes.
    ensures replaced { Spent (arms Stop 1 ∷ arms Stop 9 ∷ writes ∷ writes ∷ []) 0 }
    // Two arms, one after the other, for two falls of two kinds.
    ensures both { Spent (arms Stop 1 ∷ stops ∷ arms Fail 3 ∷ rises ∷ fails ∷ []) 0 }
    // The arm of another site waits.
    ensures another { Spent (arms_other Stop 1 ∷ writes ∷ []) 0 }
    // Nothing was armed, and the disk counted a fault.
    ensures counted { Spent (stops ∷ []) 1 }
{}
