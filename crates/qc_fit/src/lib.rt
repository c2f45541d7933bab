//! Which records of a journal fit their actor.
//!
//! Bytes that are a record's spelling may still be no record of this journal:
//! they may be another actor's, or of another declaration. So as an actor rises
//! it takes a record only where it is one that this actor writes, and each
//! number in it is declared. `specs/Fits.antt` says this with a line for each
//! kind. What holds:
//!
//! 1. `fits` answers just this, and takes no memory.
//! 2. It is what is said in words of a record's parts: its writer, and its
//!    clients, epochs, clocks, locks, own lines, lines and operations
//!    (`fits_is_as_said`).
//! 3. Each of these sentences refuses a record over `@three`, and a record of
//!    each kind fits (`src/wrong.rt`).
//!
//! It stands beside the bytes of records, of which it knows nothing.
#![tactic(auto)]

mod laws;
mod numbers;
mod record;
mod wrong;

pub use laws::fits_is_as_said;
pub use record::fits;
pub use wrong::{
    late_records_dont_fit, records_of_others_dont_fit, undeclared_clients_and_epochs_dont_fit,
    undeclared_objects_and_events_dont_fit, written_records_fit,
};
