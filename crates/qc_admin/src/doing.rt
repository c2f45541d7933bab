//! What the running command waits for.

use crate::asking::Asking;
use crate::closing::Closing;
use crate::installing::Installing;

/// What runs.
#[derive(Drop)]
pub(crate) enum Doing {
    /// Nothing.
    Resting,
    /// A round of Closes.
    Closing(Closing),
    /// Asks.
    Asking(Asking),
    /// Installs.
    Installing(Installing),
}
