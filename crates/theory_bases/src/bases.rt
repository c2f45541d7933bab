//! States in place of lines: what an epoch began with may be kept as a state.

ghost use Rattle.std.specs.Prelude.{◌≡◌, ◌++◌, ℕ, List, [], Option};
ghost use Rattle.qc_entry.specs.declared.line.Line.{Line};
ghost use Rattle.qc_entry.specs.Line.{IsAscending};
ghost use Rattle.qc_entry.specs.Log.{union};
ghost use Rattle.qc_table.specs.Run.{after};
ghost use Rattle.theory_bases.specs.Bases.{IsAbove, events, state_from};
ghost use Rattle.theory_bases.specs.Short.{IsUnionOf};

/// Lines that are above a log stand behind it in the union.
#[tactic(auto, using(crate::proofs::Fold::logs_stand_behind))]
pub fn logs_stand_behind()
    ensures { (base since : List Line) → IsAbove base since → union base since ≡ base ++ since }
{}

/// The state after such a union and own events is reached from the state after
/// the first log; there is none where there is none after the first.
#[tactic(auto, using(crate::proofs::Fold::folds_split))]
pub fn folds_split()
    ensures { (step : ℕ → ℕ → Option ℕ) (start : ℕ) (base since : List Line) (own : List ℕ) → IsAbove base since
        → after step start (events (union base since) ++ own)
        ≡ state_from step (after step start (events base)) since own }
{}

/// Logs of several sites of one epoch join as their lines since the epoch began
/// do.
#[tactic(auto, using(crate::proofs::Fold::views_of_an_epoch_join))]
pub fn views_of_an_epoch_join()
    ensures { (base a b : List Line) → IsAscending base → IsAscending a → IsAscending b
        → union (union base a) (union base b) ≡ union base (union a b) }
{}

/// Where the log that the next epoch begins with has just what this one began
/// with and its lines since, the state after it is reached from the state that
/// this one began with, by the events of those lines.
#[tactic(auto, using(crate::proofs::Fold::next_bases_are_reached))]
pub fn next_bases_are_reached()
    ensures { (step : ℕ → ℕ → Option ℕ) (start : ℕ) (base since next : List Line) → IsAscending base
        → IsAscending since → IsAscending next → IsAbove base since → IsUnionOf base since next
        → after step start (events next) ≡ state_from step (after step start (events base)) since [] }
{}
