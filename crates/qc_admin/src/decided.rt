//! The record of an epoch that is decided, and its Installs.

ghost use Rattle.std.specs.Prelude.{◌≡◌, nat_le, IfOk, map};
ghost use Rattle.qc_decl.specs.Limits.{most_record_bytes};
ghost use Rattle.qc_epoch.specs.Conduct.{install_of};
ghost use Rattle.qc_msg.specs.Lengths.{epoch_length};

use qc_decl::MOST_RECORD_BYTES;
use qc_list::{List, OutOfMemory};
use qc_msg::{EpochStart, Message, Posting, Sends, Sites};
use std::alloc::Global;

/// Whether the Decide record fits a journal's record.
pub(crate) fn fits_record(start: &EpochStart) -> bool
    ensures { result ≡ nat_le (epoch_length start.now.lines) most_record_bytes }
{
    let lines = start.lines.lines().len().saturating_mul(20);
    lines.saturating_add(14) <= MOST_RECORD_BYTES
}

/// The Installs to these sites.
pub(crate) fn installs(
    alloc: Global,
    start: &EpochStart,
    sites: &Sites,
) -> Result<Sends, OutOfMemory>
    ensures { IfOk result (λ sends. sends ≡ map (install_of start.now) sites.now) }
{
    let mut sends = List::new(alloc);
    for site in sites.items() {
        sends.push(install(start, *site)?)?;
    }
    Ok(sends)
}

/// The Install to a site.
fn install(start: &EpochStart, site: u8) -> Result<Posting, OutOfMemory>
    ensures { IfOk result (λ posting. posting ≡ install_of start.now site) }
{
    Ok(Posting {
        to: site,
        message: Message::Install(start.copy()?),
    })
}
