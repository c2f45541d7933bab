//! A gate that a worker passes between taking an input and posting its turn, and
//! before a phase begins.

use std::sync::Wait;
use std::thread::Threads;

/// Lets a test hold workers back, so that it can choose how they interleave, and a
/// program tell how far a run is.
pub trait Gate: Sync {
    /// Called by a worker that has taken an input for `actor` when the history
    /// had `taken` steps, and has not posted yet. It may wait.
    fn at<T: Threads + Wait + Sync>(&self, rt: &T, actor: u8, taken: u64);

    /// Called by a worker before the phase of this number, from 1, of so many is
    /// begun, by itself or by another worker. It may wait.
    fn phase<T: Threads + Wait + Sync>(&self, _rt: &T, _number: u32, _phases: u32) {}
}

/// The gate that holds nobody back, which the program uses.
#[derive(Clone, Copy, Debug)]
pub struct OpenGate;

impl Gate for OpenGate {
    fn at<T: Threads + Wait + Sync>(&self, _rt: &T, _actor: u8, _taken: u64) {}
}
