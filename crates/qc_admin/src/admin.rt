//! His state.

ghost use Rattle.std.specs.Prelude.{◌≡◌};
ghost use Rattle.qc_epoch.specs.Admin.{new_admin};
ghost use Rattle.qc_recover.specs.Admins.{admin_by};

use crate::doing::Doing;
use qc_msg::{EpochStart, FIRST_EPOCH};
use std::marker::Model;

/// The administrator.
#[derive(Drop)]
pub struct Admin {
    /// The epoch that is decided.
    pub(crate) epoch: u8,
    /// The record of it: none for the first one.
    pub(crate) decided: Option<EpochStart>,
    /// What runs.
    pub(crate) doing: Doing,
}

impl Model for Admin {
    ghost use Rattle.qc_epoch.specs.Admin.{Admin as AdminState};
    ghost use Rattle.qc_admin.specs.Shown.{doing_of};

    ghost Value = { AdminState };

    ghost view = { λ a. record { epoch = a.epoch; decided = a.decided; doing = doing_of a.doing } };
}

impl Admin {
    /// The administrator before he does anything. It takes no memory.
    pub fn new() -> Admin
        ensures { result ≡ new_admin }
    {
        Admin::by(None)
    }

    /// The administrator with this record, or none; nothing runs. It takes no
    /// memory.
    pub(crate) fn by(decided: Option<EpochStart>) -> Admin
        ensures { result ≡ admin_by decided }
    {
        let epoch = match &decided {
            Some(decided) => decided.epoch,
            None => FIRST_EPOCH,
        };
        Admin {
            epoch,
            decided,
            doing: Doing::Resting,
        }
    }
}
