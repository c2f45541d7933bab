//! Tests of the program's words: what is asked by those that have the form of a
//! command, and which others are refused. Each rule of forms stands in a row,
//! each limit at its edge and one past it.
//!
//! They call what `qc_words` offers to all, and stand in a crate of their own,
//! so that it isn't proved once more with them. The values were written down by
//! hand from the rules.
#![tactic(auto)]

#[cfg(test)]
mod reading;
#[cfg(test)]
mod refused;
#[cfg(test)]
mod taken;
