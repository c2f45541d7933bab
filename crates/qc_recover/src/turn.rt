//! The turn of an actor that rises.

ghost use Rattle.std.specs.Prelude.{◌≡◌};
ghost use Rattle.qc_recover.specs.Sites.{rising};

use qc_list::List;
use qc_msg::{Appended, Record, Sends, Turn};
use std::alloc::Global;

/// The turn that writes the record of a new life, and then sends these. Where
/// the record isn't written, nothing is said. It takes no memory.
pub fn rising(alloc: Global, sends: Sends) -> Turn
    ensures { result ≡ rising sends }
{
    Turn {
        write: Some(Record::Life),
        sends,
        told: None,
        failed_sends: List::new(alloc),
        failed_told: None,
        append: Appended::Done,
    }
}
