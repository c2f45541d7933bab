//! The close weight.

ghost use Rattle.std.specs.Prelude.{◌≡◌, ◌≤◌, length};
ghost use Rattle.qc_plan.specs.Admitted.{IsCloseWeight};
ghost use Rattle.qc_plan.specs.Close.{closing, closing_list, closing_needs};
ghost use Rattle.qc_plan.specs.Limits.{most_sites, most_weight};

use crate::plan::{Needs, Plan};
use crate::quorum::total;

/// The least weight that adds with each threshold above 0 of the plan to more
/// than the weight of all sites, and 0 where no threshold is above 0. Sites of
/// this weight share a site with every quorum of such a threshold.
pub fn close_weight(plan: &Plan) -> u16
    requires { length plan.now.weights ≤ most_sites }
    ensures { IsCloseWeight plan.now result }
{
    let all = total(plan.weights.items());
    closing_needs(&plan.initial, all).max(closing_needs(&plan.last, all))
}

/// The least weight that adds with each of these thresholds above 0 to more
/// than all weight.
fn closing_needs(needs: &Needs, all: u16) -> u16
    requires { all ≤ most_weight }
    ensures { result ≡ closing_needs all needs.now }
{
    let mut most = 0;
    for list in needs.items() {
        most = most.max(closing_list(list.items(), all));
    }
    most
}

/// The same of one object's thresholds.
fn closing_list(list: &[u16], all: u16) -> u16
    requires { all ≤ most_weight }
    ensures { result ≡ closing_list all list.now }
{
    let mut most = 0;
    for need in list {
        most = most.max(closing(*need, all));
    }
    most
}

/// The least weight that adds with this threshold to more than all weight, and
/// 0 where the threshold is 0.
fn closing(need: u16, all: u16) -> u16
    requires { all ≤ most_weight }
    ensures { result ≡ closing all need }
{
    if need == 0 {
        return 0;
    }
    (all + 1).saturating_sub(need)
}
