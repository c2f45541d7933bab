//! What `pick` answers.

use crate::full::Full;

/// Who takes the next input, or why nobody does.
#[derive(Clone, Copy, Debug, PartialEq, Eq)]
pub enum Picked {
    /// This actor, which is held from now on.
    Actor(u8),
    /// Nothing is ready, and no actor is held.
    Quiet,
    /// A counted quantity has reached its limit.
    Full(Full),
}
