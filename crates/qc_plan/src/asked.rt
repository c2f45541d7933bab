//! What is read off the sites of a round.

ghost use Rattle.std.specs.Prelude.{◌≡◌, ◌-◌, ◌≤◌, ◌++◌, length, map, OnOk};
ghost use Rattle.std.specs.List.{range_with_len};
ghost use Rattle.qc_plan.specs.declared.standing.Asked.{Asked};
ghost use Rattle.qc_plan.specs.Round.{is_granted, is_asked, has_granted, all_noted, place_in, weighing};
ghost use Rattle.qc_plan.specs.Round.{first_closed, first_clash, refusal};
ghost use Rattle.qc_plan.specs.Weights.{weight};

use crate::quorum::weight;
use crate::standing::{Asked, Standing, Verdict};
use qc_list::OutOfMemory;

/// Adds the sites of positive weight from one to before another.
pub(crate) fn push_weighing(
    sites: &mut Vec<Asked>,
    weights: &[u8],
    first: usize,
    end: usize,
) -> Result<(), OutOfMemory>
    requires few { length weights.now ≤ 16 }
    requires end { end ≤ length weights.now }
    requires first { first ≤ end }
    ensures { OnOk result (map (λ (a : Asked). a.site) sites.new.items
        ≡ map (λ (a : Asked). a.site) sites.old.items ++ weighing weights.now (range_with_len first (end - first))) }
{
    for site in first..end {
        if weights[site] > 0 {
            sites.push(Asked {
                site: site as u8,
                standing: None,
            })?;
        }
    }
    Ok(())
}

/// The place of an asked site, or the number of asked ones where it isn't
/// among them.
pub(crate) fn place_of(asked: &[Asked], site: u8) -> usize
    ensures place { result ≡ place_in site asked.now }
    ensures within { result ≤ length asked.now }
{
    let mut place = 0;
    'asked: while place < asked.len() && asked[place].site != site {
        place += 1;
    }
    place
}

/// Whether it is known what came of each request.
pub(crate) fn all_noted(asked: &[Asked]) -> bool
    ensures { result ≡ all_noted asked.now }
{
    asked.iter().all(|a| a.standing.is_some())
}

/// What refuses the round: a closed epoch before a clash.
pub(crate) fn refusal(asked: &[Asked]) -> Option<Verdict>
    ensures { result ≡ refusal asked.now }
{
    first_closed(asked).or_else(|| first_clash(asked))
}

/// The first asked site at which the epoch is closed.
fn first_closed(asked: &[Asked]) -> Option<Verdict>
    ensures { result ≡ first_closed asked.now }
{
    'asked: for a in asked {
        if let Some(Standing::Closed { epoch }) = a.standing {
            return Some(Verdict::Closed {
                epoch,
                site: a.site,
            });
        }
    }
    None
}

/// The first asked site that told of a clash.
fn first_clash(asked: &[Asked]) -> Option<Verdict>
    ensures { result ≡ first_clash asked.now }
{
    'asked: for a in asked {
        if let Some(Standing::Clash { tx }) = a.standing {
            return Some(Verdict::Clash { tx, site: a.site });
        }
    }
    None
}

/// The weight of the sites that granted.
pub(crate) fn granted_weight(weights: &[u8], asked: &[Asked]) -> u16
    requires { length weights.now ≤ 16 }
    ensures { result ≡ weight (has_granted asked.now) weights.now }
{
    weight(weights, |site| has_granted(asked, site as u8))
}

/// The weight of the asked sites.
pub(crate) fn asked_weight(weights: &[u8], asked: &[Asked]) -> u16
    requires { length weights.now ≤ 16 }
    ensures { result ≡ weight (is_asked asked.now) weights.now }
{
    weight(weights, |site| is_asked(asked, site as u8))
}

/// Whether a site granted.
fn has_granted(asked: &[Asked], site: u8) -> bool
    ensures { result ≡ has_granted asked.now site }
{
    asked
        .iter()
        .any(|a| a.site == site && is_granted(a.standing))
}

/// Whether a site is among the asked ones.
fn is_asked(asked: &[Asked], site: u8) -> bool
    ensures { result ≡ is_asked asked.now site }
{
    asked.iter().any(|a| a.site == site)
}

/// Whether the request was granted.
fn is_granted(standing: Option<Standing>) -> bool
    ensures { result ≡ is_granted standing }
{
    matches!(standing, Some(Standing::Granted))
}
