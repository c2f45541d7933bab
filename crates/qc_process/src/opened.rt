//! What a restart finds.

use qc_msg::{Fall, Records, Turn};

/// What a process finds as it opens its journal again.
#[derive(Drop)]
pub enum Opened {
    /// The actor rose with the records of its journal, and its rising turn's
    /// record waits to be written.
    Rose { records: Records, turn: Turn },
    /// At this byte the journal is none, or has a record that isn't this actor's.
    Damaged { offset: u64 },
    /// The disk failed or stopped.
    NotOpened { cause: Fall },
}
