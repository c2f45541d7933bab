//! Numbers within bounds, as words write them.

ghost use Rattle.std.specs.Prelude.{◌≡◌};
ghost use Rattle.qc_words.specs.Numbers.{number_within};

use qc_number::number;

/// The number that a word writes, where it lies within these bounds.
pub(crate) fn number_within(least: u32, most: u32, word: &str) -> Option<u32>
    ensures { result ≡ number_within least most word.now }
{
    match number(word.as_bytes()) {
        Some(number) if least <= number && number <= most => Some(number),
        _ => None,
    }
}
