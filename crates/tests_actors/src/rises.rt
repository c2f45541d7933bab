//! A site of `@three` that rises from records, and what is wanted of it.

ghost use Rattle.qc_decl.specs.Accepted.{IsAccepted};

use crate::journals::{Written, are_of_clients, records};
use crate::messages::Taken;
use crate::sites::{check_rows, three};
use qc_decl::Declaration;
use qc_list::OutOfMemory;
use qc_msg::Record;
use qc_recover::{RisenSite, site_of};
use qc_site::Site;
use std::alloc::Global;
use std::process::Abort;
use tests_texts::turn_text;

/// The site 1 that rises from fewer than 10,000 records of few clients.
pub(crate) fn risen(
    rt: &impl Abort,
    alloc: Global,
    decl: &Declaration,
    records: &[Record],
) -> Result<RisenSite, OutOfMemory>
    requires { IsAccepted decl.now }
{
    assert!(rt; records.len() < 10_000);
    let are_few = are_of_clients(records);
    assert!(rt; are_few);
    site_of(alloc, decl, 1, records)
}

/// The site that rises from these.
fn risen_from(
    rt: &impl Abort,
    alloc: Global,
    decl: &Declaration,
    written: &[Written<'_>],
) -> Result<RisenSite, OutOfMemory>
    requires { IsAccepted decl.now }
{
    let records = records(alloc, written)?;
    risen(rt, alloc, decl, records.items())
}

/// What is read off a site: its life, its epoch, how many lines it knows, and how
/// many transactions hold something.
pub(crate) fn check_state(
    rt: &impl Abort,
    site: &Site,
    want: (u32, u8, u64, u64),
) -> Result<(), OutOfMemory> {
    let state = (site.life(), site.epoch(), site.lines()?, site.holders());
    assert_eq!(rt; site.number(), 1);
    assert_eq!(rt; state, want);
    Ok(())
}

/// The rising turn is as wanted, and so is the site. It is given back.
fn check_rise(
    rt: &impl Abort,
    alloc: Global,
    rise: RisenSite,
    turn: &str,
    state: (u32, u8, u64, u64),
) -> Result<Site, OutOfMemory> {
    let text = turn_text(alloc, &rise.turn)?;
    assert_eq!(rt; text.as_str(), turn);
    check_state(rt, &rise.site, state)?;
    Ok(rise.site)
}

/// Over `@three`, the site that rises from these records has this rising turn and
/// this state, and then does what the rows say, from message number 10 on.
pub(crate) fn check_risen(
    rt: &impl Abort,
    alloc: Global,
    written: &[Written<'_>],
    turn: &str,
    state: (u32, u8, u64, u64),
    rows: &[(Taken<'_>, &str)],
) -> Result<(), OutOfMemory> {
    let decl = three(rt, alloc)?;
    let rise = risen_from(rt, alloc, &decl, written)?;
    let mut site = check_rise(rt, alloc, rise, turn, state)?;
    check_rows(rt, alloc, &decl, &mut site, rows)
}
