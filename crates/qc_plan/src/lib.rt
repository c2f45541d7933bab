//! Weighted quorums: how much weight of sites an operation needs.
//!
//! A plan gives each site a weight, and thresholds: one for each invocation of
//! each object, that its initial quorum's weight has to reach, and one for
//! each event of each object, for its final quorum (Herlihy 1986; weighted
//! voting, Gifford 1979).
//!
//! 1. A plan is admitted where each initial quorum of an invocation shares a
//!    site with each final quorum of an event on which the invocation depends.
//! 2. The close weight is the least that adds with each threshold above 0 to
//!    more than all weight. So sites of that weight share a site with every
//!    quorum of such a threshold. A smaller number may pick the same sites: with
//!    the weights 2, 2 and 2 and the threshold 3 it is 4, though 3 would do,
//!    since no sites weigh just 3.
//! 3. A round asks sites until those that granted weigh what is needed: none of
//!    weight 0, in the order in which it lists them.
//! 4. What a round comes to depends on the asked sites and what was noted of
//!    them, and is final only once each asked site is noted.
//! 5. A round takes memory as it starts or is copied, and else none.
//!
//! `qc_accept` admits the plan of each declared epoch, and front ends ask sites
//! by rounds. `initial_met`, `final_met` and the close weight have no caller
//! yet: changes of epochs will ask them.
#![tactic(auto)]

mod admission;
mod asked;
mod close;
mod fault;
mod laws;
mod limits;
mod plan;
mod quorum;
mod round;
mod round_laws;
mod standing;

pub use admission::admit;
pub use close::close_weight;
pub use fault::PlanFault;
pub use laws::{
    closing_sites_meet_every_quorum, dependent_quorums_meet, faultless_plans_are_admitted,
    unread_invocations_are_independent, unwritten_events_are_ignored,
};
pub use limits::{MOST_SITES, limit_of_sites_is_as_defined};
pub use plan::{Needs, Plan, Weights};
pub use quorum::{final_met, initial_met};
pub use round::Round;
pub use round_laws::{met_rounds_share_a_site, sites_are_asked_one_by_one};
pub use standing::{Asked, Standing, Verdict};
