//! A counted quantity that has reached its limit.

use qc_msg::Quantity;

/// A counted quantity of a history that has reached its limit, and its number.
#[derive(Clone, Copy, Debug, PartialEq, Eq)]
pub struct Full {
    /// Which it is.
    pub what: Quantity,
    /// Its number.
    pub number: u64,
}
