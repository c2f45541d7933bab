//! Rounds: which sites are asked, and what their answers come to.
//!
//! A round asks the smallest prefix of the sites that weighs what is needed,
//! and one further site whenever all answers are in and it still waits
//! (weighted voting, Gifford 1979).

ghost use Rattle.std.specs.Prelude.{◌≡◌, ◌<◌, ◌≤◌, [], length, IfOk};
ghost use Rattle.qc_plan.specs.Round.{verdict, is_waiting, may_ask, next_site, asking_next, note, start};

use crate::asked::{all_noted, asked_weight, granted_weight, place_of, push_weighing, refusal};
use crate::plan::{Plan, Weights};
use crate::standing::{Asked, Standing, Verdict};
use qc_list::OutOfMemory;
use std::alloc::Global;
use std::marker::Model;

/// A round over the sites of a plan.
#[derive(Drop)]
pub struct Round {
    /// Each site's weight.
    weights: Weights,
    /// The weight that is needed.
    need: u16,
    /// The sites of positive weight, in the order of asking.
    sites: Vec<Asked>,
    /// How many of them are asked; of the others the standing says nothing.
    asked: usize,
}

impl Model for Round {
    ghost use Rattle.std.specs.Prelude.{◌≤◌, drop, length, map, take};
    ghost use Rattle.qc_plan.specs.Round.{RoundState};
    ghost use Rattle.qc_plan.specs.declared.standing.Asked.{Asked};

    ghost Value = { RoundState };

    ghost view = { λ r. record {
      weights = r.weights;
      need = r.need;
      asked = take r.asked r.sites.items;
      rest = map (λ (a : Asked). a.site) (drop r.asked r.sites.items);
    } };

    ghost invariant = { λ r. (length r.weights ≤ 16) × (r.asked ≤ length r.sites.items) };
}

impl Round {
    /// A round in which nobody was asked yet. It would ask the sites of
    /// positive weight in their cyclic order from this one, a site of the plan,
    /// which has at most 16.
    pub fn start(alloc: Global, plan: &Plan, from: u8, need: u16) -> Result<Round, OutOfMemory>
        requires sites { length plan.now.weights ≤ 16 }
        requires from { from < length plan.now.weights }
        ensures { IfOk result (λ r. r ≡ start plan.now.weights from need) }
    {
        let mut sites = Vec::new(alloc);
        let weights = plan.weights.items();
        push_weighing(&mut sites, weights, from as usize, weights.len())?;
        push_weighing(&mut sites, weights, 0, from as usize)?;
        Ok(Round {
            weights: plan.weights.copy()?,
            need,
            sites,
            asked: 0,
        })
    }

    /// A round over a plan without sites, from whichever site: `Met` where
    /// nothing is needed, else `Short`. It takes no memory.
    pub fn over_no_site(alloc: Global, from: u8, need: u16) -> Round
        ensures { result ≡ start [] from need }
    {
        Round {
            weights: Weights::new(alloc),
            need,
            sites: Vec::new(alloc),
            asked: 0,
        }
    }

    /// The same round, in memory of its own.
    pub fn copy(&self) -> Result<Round, OutOfMemory>
        ensures { IfOk result (λ r. r ≡ self.now) }
    {
        Ok(Round {
            weights: self.weights.copy()?,
            need: self.need,
            sites: Vec::from_slice(*self.sites.allocator(), self.sites.as_slice())?,
            asked: self.asked,
        })
    }

    /// Asks the next site, if one is to be asked now, and answers its number.
    pub fn ask(&mut self) -> Option<u8>
        ensures told { result ≡ next_site self.old }
        ensures asked { self.new ≡ asking_next self.old }
    {
        if !self.may_ask() {
            return None;
        }
        let site = self.sites.get(self.asked)?.site;
        self.sites[self.asked] = Asked {
            site,
            standing: None,
        };
        self.asked += 1;
        Some(site)
    }

    /// Notes what came of the request to an asked site. Nothing changes where
    /// the site wasn't asked.
    pub fn note(&mut self, site: u8, standing: Standing)
        ensures { self.new ≡ note self.old site standing }
    {
        let place = place_of(self.asked_sites(), site);
        if place < self.asked {
            self.sites[place] = Asked {
                site,
                standing: Some(standing),
            };
        }
    }

    /// What the round comes to: `Waiting` while an asked site isn't noted; then
    /// the first Closed in the order of asking, else the first Clash, else `Met`
    /// where the sites that granted weigh what is needed, else `Waiting` while
    /// a further site can be asked, else `Short`.
    pub fn verdict(&self) -> Verdict
        ensures { result ≡ verdict self.now }
    {
        let asked = self.asked_sites();
        if !all_noted(asked) {
            return Verdict::Waiting;
        }
        if let Some(refusal) = refusal(asked) {
            return refusal;
        }
        let got = granted_weight(self.weights.items(), asked);
        if self.need <= got {
            Verdict::Met
        } else if self.asked < self.sites.len() {
            Verdict::Waiting
        } else {
            Verdict::Short {
                got,
                need: self.need,
            }
        }
    }

    /// Whether a further site may be asked.
    fn may_ask(&self) -> bool
        ensures { result ≡ may_ask self.now }
    {
        let asked = self.asked_sites();
        is_waiting(self.verdict())
            && (asked_weight(self.weights.items(), asked) < self.need || all_noted(asked))
    }

    /// The asked sites, in the order of asking, with what was noted of each.
    pub fn asked_sites(&self) -> &[Asked]
        ensures { result.now ≡ self.now.asked }
    {
        &self.sites.as_slice()[..self.asked]
    }
}

/// Whether the round still waits.
fn is_waiting(verdict: Verdict) -> bool
    ensures { result ≡ is_waiting verdict }
{
    matches!(verdict, Verdict::Waiting)
}
