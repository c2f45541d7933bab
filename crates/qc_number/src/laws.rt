//! A law of numbers, the contract of a function with nothing to do.

ghost use Rattle.std.specs.Prelude.{◌≡◌, ◌≤◌, ℕ, Some, decimal};
ghost use Rattle.qc_number.specs.Numbers.{greatest, number_of};

/// The decimal digits of a number of at most five are read as that number.
#[tactic(auto, using(crate::proofs::Numbers::numbers_are_read_as_written))]
pub fn numbers_are_read_as_written()
    ensures { (n : ℕ) → n ≤ greatest → number_of (decimal n) ≡ Some n }
{}
