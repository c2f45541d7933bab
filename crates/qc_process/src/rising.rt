//! The actor that rises from records that fit it.

ghost use Rattle.std.specs.Prelude.{◌≡◌, ◌<◌, true, IfOk};
ghost use Rattle.qc_core.specs.Actors.{actor_rises, moved};
ghost use Rattle.qc_decl.specs.Accepted.{IsAccepted};
ghost use Rattle.qc_process.specs.Fitting.{all_fit};

use qc_admin::admin_of;
use qc_core::Actor;
use qc_decl::Declaration;
use qc_list::OutOfMemory;
use qc_msg::{Record, Turn};
use qc_recover::{client_of, site_of};
use std::alloc::Global;

/// The actor of this number that rises from these records, and its rising turn.
pub(crate) fn risen(
    alloc: Global,
    decl: &Declaration,
    actor: u8,
    records: &[Record],
) -> Result<(Actor, Turn), OutOfMemory>
    requires accepted { IsAccepted decl.now }
    requires fit { all_fit decl.now actor 0 records.now ≡ true }
    ensures { IfOk result (λ r. actor_rises decl.now actor records.now ≡ moved r.0 r.1) }
{
    if actor < decl.sites {
        let risen = site_of(alloc, decl, actor, records)?;
        Ok((Actor::Site(risen.site), risen.turn))
    } else if actor - decl.sites < decl.clients {
        let risen = client_of(alloc, actor - decl.sites, records)?;
        Ok((Actor::Client(risen.client), risen.turn))
    } else {
        let risen = admin_of(alloc, records)?;
        Ok((Actor::Admin(risen.admin), risen.turn))
    }
}
