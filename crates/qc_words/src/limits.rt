//! The limits of words. `specs/Limits.antt` has the same numbers for
//! definitions, and the law at the end says that both agree.

ghost use Rattle.std.specs.Prelude.{◌≡◌};
ghost use Rattle.qc_words.specs.Limits.{greatest_seed, most_transactions, most_workers};

/// The most transactions of a load.
pub const MOST_TRANSACTIONS: u32 = 500;

/// The greatest seed of a load.
pub const GREATEST_SEED: u32 = 65_536;

/// The most workers of a run.
pub const MOST_WORKERS: u32 = 8;

/// The limits of the code are those of the definitions.
pub fn limits_of_words_are_as_defined()
    ensures transactions { MOST_TRANSACTIONS ≡ most_transactions }
    ensures seed { GREATEST_SEED ≡ greatest_seed }
    ensures workers { MOST_WORKERS ≡ most_workers }
{}
