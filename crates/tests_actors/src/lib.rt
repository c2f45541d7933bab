//! Tests of actors: what a site does for each message and Decision, what a client
//! does for each command, answer, lost request and Inquiry, over three sites; and
//! the site and the client that rise from records.
//!
//! They call what `qc_site` and `qc_client` offer to all, through that one what
//! `qc_front` and `qc_commit` do, and `site_of` and `client_of` of `qc_recover`.
//! They stand in a crate of their own, so that those aren't proved once more with
//! them. Their values come from the rules of a site and of a client in
//! docs/PROTOCOL.md.
//!
//! A client's calls ask that its clocks and counts are far from the ends of
//! their types. `specs/Young.antt` says what holds of a client that took few
//! inputs, which is more; each input keeps it.
#![tactic(auto)]

#[cfg(test)]
mod aside;
#[cfg(test)]
mod client_rises;
#[cfg(test)]
mod clients;
#[cfg(test)]
mod commands;
#[cfg(test)]
mod commits;
#[cfg(test)]
mod decisions;
#[cfg(test)]
mod declared;
#[cfg(test)]
mod epochs;
#[cfg(test)]
mod grants;
#[cfg(test)]
mod journals;
#[cfg(test)]
mod many;
#[cfg(test)]
mod marks;
#[cfg(test)]
mod messages;
#[cfg(test)]
mod promises;
#[cfg(test)]
mod refusals;
#[cfg(test)]
mod refused_calls;
#[cfg(test)]
mod risen;
#[cfg(test)]
mod risen_clients;
#[cfg(test)]
mod rises;
#[cfg(test)]
mod rounds;
#[cfg(test)]
mod sites;
#[cfg(test)]
mod taken;
