//! Tests of the administrator: what he does for each command, answer and lost
//! request, over three sites; and what he is as he rises from records.
//!
//! They call what `qc_admin` offers to all, and stand in a crate of their own,
//! so that it isn't proved once more with them. Their values come from the rules
//! of the administrator in docs/PROTOCOL.md.
#![tactic(auto)]

#[cfg(test)]
mod admins;
#[cfg(test)]
mod aside;
#[cfg(test)]
mod moves;
#[cfg(test)]
mod refusals;
#[cfg(test)]
mod rises;
#[cfg(test)]
mod taken;
