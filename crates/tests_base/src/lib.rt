//! Tests of lists, stamps, logs, tables, certificates and plans, and of the parts
//! of a system of several sites: views, locks, links, rounds and replays, through
//! what their crates offer to others. They stand here, above them, so that these
//! are proved without them.
//!
//! A function owns one value that has to be dropped, or two, and asserts on it
//! with no way out of its own: each way out of each further value costs the
//! proof of dropping all of them.
#![tactic(auto)]

#[cfg(test)]
mod certificates;
#[cfg(test)]
mod links;
#[cfg(test)]
mod lists;
#[cfg(test)]
mod locks;
#[cfg(test)]
mod logs;
#[cfg(test)]
mod plans;
#[cfg(test)]
mod register;
#[cfg(test)]
mod replays;
#[cfg(test)]
mod rounds;
#[cfg(test)]
mod stamps;
#[cfg(test)]
mod tables;
#[cfg(test)]
mod views;
