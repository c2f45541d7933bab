//! Tests of processes in memory, through falls and rises, by the calls that
//! `qc_process` offers. They stand here, above it, so that it is proved without
//! them.
#![tactic(auto)]

#[cfg(test)]
mod processes;
