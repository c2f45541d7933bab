//! The section of sites.

ghost use Rattle.std.specs.Prelude.{◌≡◌, ◌++◌, OnOk, map};
ghost use Rattle.qc_text.specs.Deeds.{deed_of};
ghost use Rattle.qc_text.specs.Sites.{down_after, down_by, is_down, shown_text, site_line, sites_text};

use crate::deeds::{Deed, deeds_of};
use crate::grants::count_holders;
use crate::lifetimes::lifetime_of;
use crate::lines::log_of;
use crate::piece::{Piece, put_all};
use crate::records::{epoch_of, life_of};
use qc_decl::Declaration;
use qc_list::{OutOfMemory, Page};
use qc_msg::{Entry, Step};
use std::alloc::Global;

/// Adds the section of sites.
pub(crate) fn put_sites(
    page: &mut Page,
    alloc: Global,
    decl: &Declaration,
    entries: &[Entry],
) -> Result<(), OutOfMemory>
    ensures { OnOk result (page.new ≡ page.old ++ sites_text decl.now entries.now) }
{
    page.put("sites\n")?;
    'sites: for number in 0..decl.sites {
        put_site(page, alloc, entries, number)?;
    }
    Ok(())
}

/// Adds a site's line.
fn put_site(
    page: &mut Page,
    alloc: Global,
    entries: &[Entry],
    number: u8,
) -> Result<(), OutOfMemory>
    ensures { OnOk result (page.new ≡ page.old ++ site_line entries.now number) }
{
    put_all(page, &[Piece::Site(number)])?;
    if is_down(entries, number) {
        return page.put(" down\n");
    }
    let deeds = deeds_of(alloc, entries, number)?;
    put_shown(page, alloc, &deeds)?;
    page.put("\n")
}

/// Whether an actor is down.
fn is_down(entries: &[Entry], number: u8) -> bool
    ensures { result ≡ is_down number entries.now }
{
    let mut down = false;
    'entries: for entry in entries {
        down = down_by(down, number, entry);
    }
    down
}

/// Whether an actor is down after an entry of anybody.
fn down_by(down: bool, number: u8, entry: &Entry) -> bool
    ensures { result ≡ down_by down number entry.now }
{
    if entry.actor == number {
        down_after(down, &entry.step)
    } else {
        down
    }
}

/// Whether an actor is down after a step of its own.
fn down_after(down: bool, step: &Step) -> bool
    ensures { result ≡ down_after down step.now }
{
    match step {
        Step::Fell { .. } => true,
        Step::Rose(_) => false,
        Step::Phase(_)
        | Step::Cut(_, _)
        | Step::Heal(_, _)
        | Step::Armed { .. }
        | Step::Called(_)
        | Step::Got(_)
        | Step::Lost(_)
        | Step::Wrote(_)
        | Step::Sent { .. }
        | Step::Told(_)
        | Step::Damaged(_) => down,
    }
}

/// Adds what a site's deeds show: its life, its epoch, how many lines it has
/// and how many transactions hold something there.
#[tactic(auto, using(crate::proofs::Held::held_present))]
fn put_shown(page: &mut Page, alloc: Global, deeds: &[Deed<'_>]) -> Result<(), OutOfMemory>
    ensures { OnOk result (page.new ≡ page.old ++ shown_text (map deed_of deeds.now)) }
{
    let current = lifetime_of(deeds);
    let log = log_of(alloc, &current)?;
    let held = count_holders(alloc, &current)?;
    put_all(
        page,
        &[
            Piece::Words(" life "),
            Piece::Number(life_of(&current)),
            Piece::Words(" epoch "),
            Piece::Number(epoch_of(&current) as u64),
            Piece::Words(" lines "),
            Piece::Number(log.lines().len() as u64),
            Piece::Words(" held "),
            Piece::Number(held),
        ],
    )
}
