//! What `take` answers.

use qc_msg::Input;

/// An input that an actor took.
#[derive(Drop)]
pub struct Taken {
    /// The input, its message in full.
    pub given: Input,
    /// The number of steps of the history, this input's own among them.
    pub steps: u64,
}
