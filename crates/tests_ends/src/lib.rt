//! The exchanges of clients, computed on whole histories with falls.
//!
//! Each command that the script of a worked history asks a client is answered
//! there: a commit whose record isn't written is told Unknown before its client
//! falls, and the client's next command comes once it has risen
//! (`worked_falls_are_answered`).
//!
//! There is no code here, and nothing stands on this crate.
#![tactic(auto)]

mod worked;

pub use worked::worked_falls_are_answered;
