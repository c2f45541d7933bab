//! What a restart of an actor found.

use qc_msg::{Fall, Records, Turn};

/// What a restart found, as the journal was opened.
#[derive(Drop)]
pub enum Rising {
    /// The journal's records, with which the actor rises. The turn that it posts
    /// has a record, of its new life, and says what became of that.
    Rose { records: Records, turn: Turn },
    /// At this byte the journal is none. The actor stays down.
    Damaged { offset: u64 },
    /// The disk failed or stopped in the opening. The actor stays down.
    NotOpened { cause: Fall },
}
