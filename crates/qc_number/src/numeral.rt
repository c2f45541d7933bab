//! Numbers, as words write them.

ghost use Rattle.std.specs.Prelude.{◌≡◌, ◌<◌, ◌≤◌, length, IsTrue};
ghost use Rattle.std.specs.Char.{is_ascii_digit};
ghost use Rattle.std.specs.List.{list_all};
ghost use Rattle.std.specs.Str.Parse.{digits_value};
ghost use Rattle.qc_number.specs.Numbers.{most_digits, number_of};

/// The most digits of a number.
pub const MOST_DIGITS: usize = 5;

/// The limit of the code is that of the definition.
pub fn most_digits_are_as_defined()
    ensures { MOST_DIGITS ≡ most_digits }
{}

/// The number that a word writes by ASCII digits, one to five, or none where it
/// has another form.
pub fn number(word: &[u8]) -> Option<u32>
    ensures { result ≡ number_of word.now }
{
    if !word.is_empty() && word.len() <= MOST_DIGITS && are_digits(word) {
        Some(value(word))
    } else {
        None
    }
}

/// Whether each byte is an ASCII digit.
fn are_digits(word: &[u8]) -> bool
    ensures { result ≡ list_all is_ascii_digit word.now }
{
    word.iter().all(|b| b.is_ascii_digit())
}

/// The number that digits write that are not too many.
fn value(digits: &[u8]) -> u32
    requires few { length digits.now ≤ most_digits }
    requires digits { IsTrue (list_all is_ascii_digit digits.now) }
    ensures { result ≡ digits_value 10 digits.now }
{
    let mut value = 0;
    for digit in digits {
        value = 10 * value + u32::from(*digit - b'0');
    }
    value
}
