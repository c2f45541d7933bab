//! The site that rises from its records.

ghost use Rattle.std.specs.Prelude.{◌≡◌, ◌≤◌, ◌<◌, ◌-◌, ◌^◌, ◌+◌, length, IfOk, OnOk};
ghost use Rattle.std.specs.List.{AllByRecursion};
ghost use Rattle.qc_decl.specs.Limits.{most_clients, most_sites};
ghost use Rattle.qc_entry.specs.declared.record.Prepared.{Prepared};
ghost use Rattle.qc_list.specs.Members.{In};
ghost use Rattle.qc_msg.specs.declared.record.Record.TheVariants.{Prepare};
ghost use Rattle.qc_recover.specs.Sites.{inquiries, kept_by, site_by, site_rises};
ghost use Rattle.qc_site.specs.Site.{moved};

use crate::site_records::SiteRecords;
use crate::turn::rising;
use qc_decl::Declaration;
use qc_list::{List, OutOfMemory};
use qc_lock::Locks;
use qc_msg::{Message, Posting, Record, Sends, Turn};
use qc_site::{Promises, RisenState, Site, held_by};
use std::alloc::Global;

/// A site that has risen, and its rising turn.
#[derive(Drop)]
pub struct RisenSite {
    /// The site, in the life whose record the turn writes.
    pub site: Site,
    /// What it does as it rises: it writes that record, and then asks the client
    /// of each transaction that it has promised how that stands.
    pub turn: Turn,
}

/// The site of this number that rises from the records of its journal, and its
/// rising turn.
pub fn site_of(
    alloc: Global,
    decl: &Declaration,
    number: u8,
    records: &[Record],
) -> Result<RisenSite, OutOfMemory>
    requires sites { decl.now.sites ≤ most_sites }
    requires few { length records.now < 2 ^ 32 - 2 }
    requires clients { (p : Prepared) → In (Prepare p) records.now → p.tx.client < most_clients }
    ensures { IfOk result (λ risen. site_rises decl.now number records.now ≡ moved risen.site risen.turn) }
{
    let mut kept = kept_by(alloc, records)?;
    let turn = rising(alloc, inquiries(alloc, decl, &kept.promises)?);
    kept.keep(alloc, &Record::Life)?;
    Ok(RisenSite {
        site: site_by(alloc, number, kept)?,
        turn,
    })
}

/// What the records give.
fn kept_by(alloc: Global, records: &[Record]) -> Result<SiteRecords, OutOfMemory>
    requires { length records.now < 2 ^ 32 - 2 }
    ensures { IfOk result (λ kept. kept ≡ kept_by records.now) }
{
    let mut kept = SiteRecords::new(alloc)?;
    'records: for rec in records {
        kept.keep(alloc, rec)?;
    }
    Ok(kept)
}

/// The site of this number that has what its records give.
fn site_by(alloc: Global, number: u8, kept: SiteRecords) -> Result<Site, OutOfMemory>
    requires { AllByRecursion (λ (p : Prepared). p.tx.client < most_clients) kept.promises }
    ensures { IfOk result (λ site. site ≡ site_by number kept) }
{
    let held = held_by(alloc, &kept.promises)?;
    let state = RisenState {
        life: kept.life,
        epoch: kept.epoch,
        closed_for: kept.closed_for,
        began: kept.began,
        lines: kept.lines.into_log(alloc)?,
        held,
        prepared: kept.promises,
        clock: kept.clock,
    };
    Site::risen(alloc, number, state)
}

/// At most so many questions go out at a rise.
const MOST_INQUIRIES: u32 = 65_536;

/// The questions to the clients of the promised transactions, in the order of
/// these, and of the first so many alone.
fn inquiries(alloc: Global, decl: &Declaration, promises: &Promises) -> Result<Sends, OutOfMemory>
    requires sites { decl.now.sites ≤ most_sites }
    requires clients { AllByRecursion (λ (p : Prepared). p.tx.client < most_clients) promises.now }
    ensures { IfOk result (λ sends. sends ≡ inquiries decl.now promises.now) }
{
    let mut sends = List::new(alloc);
    let mut left = MOST_INQUIRIES;
    'transactions: for tx in promises.transactions() {
        if left == 0 {
            break;
        }
        left -= 1;
        sends.push(Posting {
            to: decl.client_actor(tx.client),
            message: Message::Inquiry { tx: *tx },
        })?;
    }
    Ok(sends)
}
