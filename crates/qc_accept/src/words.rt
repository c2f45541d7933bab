//! Texts of a declaration: words, names and numbers.

ghost use Rattle.std.specs.Prelude.{◌≡◌, ◌<◌, ◌≤◌, length, option_map, IsTrue};
ghost use Rattle.std.specs.List.{list_all};
ghost use Rattle.qc_decl.specs.Names.{is_between, is_name, is_name_byte};
ghost use Rattle.qc_number.specs.Numbers.{most_digits};
ghost use Rattle.qc_accept.specs.Words.{two, three, four, number_in, value_of};

use qc_decl::LONGEST_NAME;
use qc_number::MOST_DIGITS;

/// The one word before and the one behind the text's one space.
pub(crate) fn two(text: &str) -> Option<(&str, &str)>
    ensures { option_map (λ w. (w.0.now, w.1.now)) result ≡ two text.now }
{
    let (first, second) = text.split_once(' ')?;
    if second.contains(' ') {
        return None;
    }
    Some((first, second))
}

/// Three words with one space between them.
pub(crate) fn three(text: &str) -> Option<(&str, &str, &str)>
    ensures { option_map (λ w. (w.0.now, w.1.now, w.2.now)) result ≡ three text.now }
{
    let (first, rest) = text.split_once(' ')?;
    let (second, third) = two(rest)?;
    Some((first, second, third))
}

/// Four words with one space between them.
pub(crate) fn four(text: &str) -> Option<(&str, &str, &str, &str)>
    ensures { option_map (λ w. (w.0.now, w.1.now, w.2.now, w.3.now)) result ≡ four text.now }
{
    let (first, rest) = text.split_once(' ')?;
    let (second, third, fourth) = three(rest)?;
    Some((first, second, third, fourth))
}

/// Whether a text is a name: ASCII letters, digits and `_`, one or more and not
/// too many.
pub(crate) fn is_name(text: &str) -> bool
    ensures { result ≡ is_name text.now }
{
    let bytes = text.as_bytes();
    !bytes.is_empty() && bytes.len() <= LONGEST_NAME && bytes.iter().all(|b| is_name_byte(*b))
}

/// Whether a byte may stand in a name.
fn is_name_byte(byte: u8) -> bool
    ensures { result ≡ is_name_byte byte }
{
    byte.is_ascii_alphanumeric() || byte == b'_'
}

/// The number that a text writes by ASCII digits, one or more and not too many,
/// where 16 bits hold it.
pub(crate) fn number(text: &str) -> Option<u16>
    ensures { result ≡ number_in text.now }
{
    let bytes = text.as_bytes();
    if bytes.is_empty() || bytes.len() > MOST_DIGITS || !bytes.iter().all(|b| b.is_ascii_digit()) {
        return None;
    }
    u16::try_from(value(bytes)).ok()
}

/// The value of digits that are not too many.
fn value(digits: &[u8]) -> u32
    requires few { length digits.now ≤ most_digits }
    requires digits { IsTrue (list_all (is_between 48 57) digits.now) }
    ensures value { result ≡ value_of digits.now }
    ensures small { result < 100000 }
{
    let mut value = 0;
    for digit in digits {
        value = 10 * value + (*digit - b'0') as u32;
    }
    value
}
