//! Laws of loads, as the contract of a function with nothing to do.

ghost use Rattle.std.specs.Prelude.{◌≡◌, ◌<◌, ℕ, suc, Ok, Some, length, slice_get};
ghost use Rattle.qc_decl.specs.One.{three};
ghost use Rattle.qc_gen.specs.Load.{load_of, load_text, phase_of, state_after};
ghost use Rattle.qc_script.specs.Grammar.{script_of};

/// A load's text is read over `@three` without a refusal, as a script without
/// rules of links. It has a phase for each transaction: the one at place `k` is
/// transaction `k`'s, for which the generator made `k + 1` steps from the seed.
pub fn loads_are_read()
    ensures read { (count seed : ℕ) → script_of three (load_text count seed) ≡ Ok (load_of count seed) }
    ensures phases { (count seed : ℕ) → length (load_of count seed).phases ≡ count }
    ensures each { (count seed k : ℕ) → k < count
        → slice_get (load_of count seed).phases k ≡ Some (phase_of k (state_after (suc k) seed)) }
{}
