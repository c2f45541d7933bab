//! The bytes of records, as journals hold them.
//!
//! A record is its kind, one byte, and its fields, numbers with their highest
//! byte first. `specs/Form.antt` says what a form of bytes is, and
//! `specs/Records.antt` gives the form of each kind. What holds:
//!
//! 1. Each record whose numbers are in their ranges and whose lists are in
//!    their orders (`legal_records_are_in_form`) has one spelling, and
//!    `write_bytes` gives it.
//! 2. `read_bytes` answers a record exactly for its spelling, and else the
//!    kind that is none, or the place of the first field that is out of its
//!    range or out of order, of the end of the bytes within a field, or of the
//!    first byte behind the last field (`one_spelling`).
//! 3. A spelling that is cut is refused at its end, and one with bytes behind
//!    it at the first of them (`cut_spellings_are_refused`,
//!    `longer_spellings_are_refused`). So no spelling is a prefix of another,
//!    neither bare nor behind a gate and its length (`no_spelling_is_a_prefix`,
//!    `no_frame_is_a_prefix`).
//! 4. Bytes that were written by hand are read, a record of each kind, and
//!    wrong ones are refused, for each sentence of the grammar
//!    (`src/spellings.rt`).
//!
//! Actors write their journals' bodies by it, and read them as they rise.
//! Whether a record that was read is one of this actor is asked in `qc_fit`.
#![tactic(auto)]

mod fault;
mod field;
mod item;
mod laws;
mod line;
mod parts;
mod reading;
mod spellings;
mod writing;

pub use fault::RecordFault;
pub use laws::{
    cut_spellings_are_refused, legal_records_are_in_form, longer_spellings_are_refused,
    no_frame_is_a_prefix, no_spelling_is_a_prefix, one_spelling, prepares_are_as_long_as_told,
    spellings_are_apart,
};
pub use reading::read_bytes;
pub use spellings::{
    lists_out_of_order_are_refused, numbers_out_of_range_are_refused, other_bytes_are_refused,
    spellings_are_read, wrong_counts_are_refused,
};
pub use writing::write_bytes;
