//! The administrator that rises from his records.

ghost use Rattle.std.specs.Prelude.{◌≡◌, IfOk, OnOk, [], None};
ghost use Rattle.qc_epoch.specs.Admin.{moved};
ghost use Rattle.qc_recover.specs.Admins.{admin_rises, keeps, kept_by};

use crate::admin::Admin;
use qc_list::{List, OutOfMemory};
use qc_msg::{EpochStart, Record, Turn};
use qc_recover::rising;
use std::alloc::Global;

/// The administrator, risen, and his rising turn.
#[derive(Drop)]
pub struct RisenAdmin {
    /// The administrator. Nothing runs.
    pub admin: Admin,
    /// What he does as he rises: he writes the record of a new life.
    pub turn: Turn,
}

/// The administrator that rises from the records of his journal, and his rising
/// turn. What others write gives him nothing.
pub fn admin_of(alloc: Global, records: &[Record]) -> Result<RisenAdmin, OutOfMemory>
    ensures { IfOk result (λ risen. admin_rises records.now ≡ moved risen.admin risen.turn) }
{
    Ok(RisenAdmin {
        admin: Admin::by(kept_by(records)?),
        turn: rising(alloc, List::new(alloc)),
    })
}

/// What the records tell of the decided epoch: the last Decide record.
fn kept_by(records: &[Record]) -> Result<Option<EpochStart>, OutOfMemory>
    ensures { IfOk result (λ kept. kept ≡ kept_by records.now) }
{
    let mut kept = None;
    'records: for rec in records {
        if let Record::Decide(start) = rec {
            kept = Some(start.copy()?);
        }
    }
    Ok(kept)
}
