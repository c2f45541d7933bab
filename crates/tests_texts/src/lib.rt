//! Texts of turns, by which tests of actors compare what an actor does with what
//! it is to do.
//!
//! A turn's parts stand in their order, with `; ` between them: its record
//! (`write ..`), its messages (`TO: ..`), its reply (`tell ..`), and then, each
//! behind `else`, what is sent and told where the record isn't written. Where the
//! append wasn't done, `failed` or `stopped` ends it. A turn that does nothing is
//! the empty text. Transactions are written `0.1.1`
//! (client, life, number), stamps `5.0` (clock, client); what a message answers
//! is its first number.
#![tactic(auto)]

mod lists;
mod message;
mod record;
mod turn;

pub use turn::turn_text;
