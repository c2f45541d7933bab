//! Actors and sets of sites as text.

ghost use Rattle.std.specs.Prelude.{◌≡◌, ◌<◌, ◌++◌, OnOk, flat_map};
ghost use Rattle.std.specs.List.{range_with_len};
ghost use Rattle.qc_decl.specs.Actors.{is_client};
ghost use Rattle.qc_decl.specs.Limits.{most_sites};
ghost use Rattle.qc_table.specs.Sets.{has};
ghost use Rattle.qc_text.specs.Parts.{actor_text, has_any, member_text, set_text};

use crate::piece::{Piece, put_all};
use qc_decl::{Declaration, MOST_SITES};
use qc_list::{OutOfMemory, Page};

/// Adds an actor, as `s0`, `c0` or `admin`.
pub(crate) fn put_actor(page: &mut Page, decl: &Declaration, actor: u8) -> Result<(), OutOfMemory>
    ensures { OnOk result (page.new ≡ page.old ++ actor_text decl.now actor) }
{
    if actor < decl.sites {
        put_all(page, &[Piece::Site(actor)])
    } else if is_client(decl, actor) {
        let client = actor - decl.sites;
        put_all(page, &[Piece::Words("c"), Piece::Number(client as u64)])
    } else {
        page.put("admin")
    }
}

/// Whether an actor is a client.
pub(crate) fn is_client(decl: &Declaration, actor: u8) -> bool
    ensures { result ≡ is_client decl.now actor }
{
    decl.sites <= actor && u16::from(actor) < u16::from(decl.sites) + u16::from(decl.clients)
}

/// Adds the sites of a set, bit k for site k, each after a space, and `-` where
/// there is none.
pub(crate) fn put_set(page: &mut Page, set: u16) -> Result<(), OutOfMemory>
    ensures { OnOk result (page.new ≡ page.old ++ set_text set) }
{
    if has_any(set) {
        put_members(page, set)
    } else {
        page.put(" -")
    }
}

/// Whether the set has a site.
fn has_any(set: u16) -> bool
    ensures { result ≡ has_any set }
{
    'sites: for site in 0..MOST_SITES {
        if has(set, site) {
            return true;
        }
    }
    false
}

/// Adds the sites of a set, each after a space.
fn put_members(page: &mut Page, set: u16) -> Result<(), OutOfMemory>
    ensures { OnOk result (page.new ≡ page.old ++ flat_map (member_text set) (range_with_len 0 most_sites)) }
{
    'sites: for site in 0..MOST_SITES {
        put_member(page, set, site)?;
    }
    Ok(())
}

/// Adds a site, where it is in the set.
fn put_member(page: &mut Page, set: u16, site: u8) -> Result<(), OutOfMemory>
    requires { site < most_sites }
    ensures { OnOk result (page.new ≡ page.old ++ member_text set site) }
{
    if has(set, site) {
        put_all(page, &[Piece::Words(" "), Piece::Site(site)])?;
    }
    Ok(())
}

/// Whether a site is in the set.
fn has(set: u16, site: u8) -> bool
    requires { site < most_sites }
    ensures { result ≡ has set site }
{
    (set >> site) & 1 == 1
}
