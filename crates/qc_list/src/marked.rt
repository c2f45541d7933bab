//! An entry of a history: a step with the actor that made it.

/// A step, marked with its actor. A history is a list of these, oldest first.
#[derive(Drop)]
pub struct Marked<E> {
    /// The actor's number.
    pub actor: u8,
    /// What it did.
    pub step: E,
}
