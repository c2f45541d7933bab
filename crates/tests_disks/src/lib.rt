//! Tests of what disks hold: what stands for the outside in memory, journals on
//! such disks, and stores; the bytes of records, and which fit their actor: the
//! vectors, byte for byte; each cut of them; each with one byte changed, against
//! a rule that stands apart from the reader; what else is refused, with its
//! place.
//!
//! They call what these crates offer to others, and stand above them, so that
//! those are proved without them.
#![tactic(auto)]

#[cfg(test)]
mod bytes;
#[cfg(test)]
mod changes;
#[cfg(test)]
mod disk_bytes;
#[cfg(test)]
mod disks;
#[cfg(test)]
mod dones;
#[cfg(test)]
mod fitting;
#[cfg(test)]
mod greatest;
#[cfg(test)]
mod refusals;
#[cfg(test)]
mod shelves;
#[cfg(test)]
mod stops;
#[cfg(test)]
mod stores;
#[cfg(test)]
mod vectors;
