//! An actor's present life: what it is, it became since it rose last.

ghost use Rattle.std.specs.Prelude.{◌≡◌, option_map, map};
ghost use Rattle.qc_msg.specs.InputReadings.{risen_in};
ghost use Rattle.qc_promise.specs.Lifetimes.{lifetime};
ghost use Rattle.qc_text.specs.Deeds.{deed_of};
ghost use Rattle.qc_text.specs.Lifetimes.{present};

use crate::deeds::Deed;
use qc_msg::Record;

/// The records that an actor's last rise gave it, or none, and its deeds since.
#[derive(Clone, Copy)]
pub(crate) struct Lifetime<'a> {
    pub(crate) kept: &'a [Record],
    pub(crate) since: &'a [Deed<'a>],
}

/// The life that these deeds end in.
pub(crate) fn lifetime_of<'a>(deeds: &'a [Deed<'a>]) -> Lifetime<'a>
    ensures { present result ≡ lifetime (map deed_of deeds.now) }
{
    'deeds: for place in (0..deeds.len()).rev() {
        if let Some(kept) = risen(&deeds[place]) {
            return Lifetime {
                kept,
                since: &deeds[place + 1..],
            };
        }
    }
    Lifetime {
        kept: &[],
        since: deeds,
    }
}

/// The records that a rise gives.
fn risen<'a>(deed: &Deed<'a>) -> Option<&'a [Record]>
    ensures { option_map (λ records. records.now) result ≡ risen_in (deed_of deed.now) }
{
    match deed {
        Deed::Rose(records) => Some(records.items()),
        _ => None,
    }
}
