//! The deeds of a life, parted where what is held begins anew: at its last Close
//! or Install record.

ghost use Rattle.std.specs.Prelude.{◌≡◌, map};
ghost use Rattle.qc_promise.specs.SiteHeld.{cuts, last_cut};
ghost use Rattle.qc_text.specs.Deeds.{deed_of};
ghost use Rattle.qc_text.specs.Holdings.{cut_by, parted};

use crate::deeds::Deed;
use qc_msg::Record;

/// The deeds up to it, with it, and those since.
#[derive(Clone, Copy)]
pub(crate) struct Holding<'a> {
    pub(crate) before: &'a [Deed<'a>],
    pub(crate) since: &'a [Deed<'a>],
}

/// The parts of these deeds.
pub(crate) fn holding_of<'a>(deeds: &'a [Deed<'a>]) -> Holding<'a>
    ensures { parted result ≡ last_cut (map deed_of deeds.now) }
{
    'deeds: for place in (0..deeds.len()).rev() {
        if cuts(&deeds[place]) {
            return Holding {
                before: &deeds[..place + 1],
                since: &deeds[place + 1..],
            };
        }
    }
    Holding {
        before: &[],
        since: deeds,
    }
}

/// Whether what is held begins anew with a deed.
fn cuts(deed: &Deed<'_>) -> bool
    ensures { result ≡ cuts (deed_of deed.now) }
{
    match deed {
        Deed::Rose(_) => true,
        Deed::Wrote(written) => is_cut(written),
        Deed::Called(_)
        | Deed::Got(_)
        | Deed::Lost(_)
        | Deed::Sent { .. }
        | Deed::Told(_)
        | Deed::Fell { .. } => false,
    }
}

/// Whether it does with a record.
fn is_cut(written: &Record) -> bool
    ensures { result ≡ cut_by written.now }
{
    match written {
        Record::Close { .. } | Record::Install(_) => true,
        Record::Life
        | Record::Prepare(_)
        | Record::Done { .. }
        | Record::Commit(_)
        | Record::Decide(_) => false,
    }
}
