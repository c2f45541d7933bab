//! Numbers, as the words of scripts and of the program write them: one to five
//! ASCII digits, of which the first may be zeros.
//!
//! 1. A word is read as the number that it writes, exactly (`number`).
//! 2. Each number of at most five digits is read from its decimal digits
//!    (`numbers_are_read_as_written`).
#![tactic(auto)]

mod laws;
mod numeral;

pub use laws::numbers_are_read_as_written;
pub use numeral::{MOST_DIGITS, most_digits_are_as_defined, number};
