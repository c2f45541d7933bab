//! Weights of site sets, and the thresholds that they reach.

ghost use Rattle.std.specs.Prelude.{◌≡◌, ◌<◌, ◌≤◌, ℕ, Bool, length, nat_le};
ghost use Rattle.qc_plan.specs.Need.{need_of};
ghost use Rattle.qc_plan.specs.Weights.{weight, total};
ghost use Rattle.qc_table.specs.Sets.{has};
ghost use Rattle.qc_plan.specs.Limits.{most_sites, most_weight};

use crate::plan::Plan;

/// Whether the sites, bit k for site k, are an initial quorum of an invocation
/// of an object: whether their weight reaches its threshold.
pub fn initial_met(plan: &Plan, object: u8, inv: u8, sites: u16) -> bool
    requires { length plan.now.weights ≤ most_sites }
    ensures { result ≡ nat_le (need_of plan.now.initial object inv) (weight (has sites) plan.now.weights) }
{
    plan.read_need(object, inv) <= weight(plan.weights.items(), |site| has(sites, site))
}

/// Whether the sites, bit k for site k, are a final quorum of an event of an
/// object: whether their weight reaches its threshold.
pub fn final_met(plan: &Plan, object: u8, event: u8, sites: u16) -> bool
    requires { length plan.now.weights ≤ most_sites }
    ensures { result ≡ nat_le (need_of plan.now.last object event) (weight (has sites) plan.now.weights) }
{
    plan.append_need(object, event) <= weight(plan.weights.items(), |site| has(sites, site))
}

/// The weight of the sites that pass a test.
pub(crate) fn weight<F: Fn(usize) -> bool>(weights: &[u8], test: F) -> u16
    requires few { length weights.now ≤ most_sites }
    requires test { (site : ℕ) → site < most_sites → F.pre test site }
    ensures { (sites : ℕ → Bool)
        → ((site : ℕ) → site < most_sites → (passes : Bool) → F.post test site passes → passes ≡ sites site)
        → result ≡ weight sites weights.now }
{
    let mut sum = 0;
    'sites: for (site, weight) in weights.iter().enumerate() {
        if test(site) {
            sum += *weight as u16;
        }
    }
    sum
}

/// Whether a site is in the set.
fn has(sites: u16, site: usize) -> bool
    requires { site < most_sites }
    ensures { result ≡ has sites site }
{
    (sites >> site) & 1 == 1
}

/// The weight of all sites.
pub(crate) fn total(weights: &[u8]) -> u16
    requires { length weights.now ≤ most_sites }
    ensures total { result ≡ total weights.now }
    ensures few { result ≤ most_weight }
{
    let mut sum = 0;
    for weight in weights {
        sum += *weight as u16;
    }
    sum
}
