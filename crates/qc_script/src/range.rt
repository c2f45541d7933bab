//! Numbers of lines: which are in range.

ghost use Rattle.std.specs.Prelude.{◌≡◌, ◌<◌, length, IsTrue};
ghost use Rattle.qc_script.specs.Ranges.{is_counted, is_ordinal, is_control_in_range, is_in_range, FitsByte};

use crate::item::Item;
use qc_decl::Declaration;
use qc_msg::Control;

/// The greatest ordinal of a message, and the greatest number of a disk call:
/// the greatest number of five digits.
pub const MOST_NUMBER: u32 = 99_999;

/// The first epoch that the administrator may be asked to move to.
const FIRST_MOVE: u32 = 2;

impl Item {
    /// Whether the numbers are in range.
    pub(crate) fn is_in_range(&self, decl: &Declaration) -> bool
        requires { length decl.now.plans < 256 }
        ensures range { result ≡ is_in_range decl.now self.now }
        ensures fits { IsTrue result → FitsByte self.now }
    {
        match self {
            Item::Phase | Item::Command(_) => true,
            Item::Link(link) => is_ordinal(link.ordinal),
            Item::Control(control) => is_control_in_range(control),
            Item::Epoch { number, .. } => {
                FIRST_MOVE <= *number && *number as usize <= decl.plans.items().len()
            }
        }
    }
}

/// Whether a message's ordinal, or a disk call's number, is in range.
fn is_counted(number: u32) -> bool
    ensures { result ≡ is_counted number }
{
    1 <= number && number <= MOST_NUMBER
}

/// Whether an ordinal is in range; none stands for all.
fn is_ordinal(ordinal: Option<u32>) -> bool
    ensures { result ≡ is_ordinal ordinal }
{
    match ordinal {
        None => true,
        Some(number) => is_counted(number),
    }
}

/// Whether what the controller does has its numbers in range.
fn is_control_in_range(control: &Control) -> bool
    ensures { result ≡ is_control_in_range control.now }
{
    match control {
        Control::Cut(a, b) | Control::Heal(a, b) => a != b,
        Control::Armed { at, .. } => is_counted(*at),
        Control::Phase(_) | Control::Crash(_) | Control::Restart(_) => true,
    }
}
