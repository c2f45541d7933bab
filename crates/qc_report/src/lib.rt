//! The texts that the program prints of a declaration, and of why a call ended.
//!
//! Each cause of a call's end has one exit status and one line on standard
//! error, both given by definitions in `specs/`; want of memory has the same
//! status and the same line wherever it stands. Each function that adds to a
//! page adds exactly what its definition says. The text of a run is `qc_text`'s;
//! the top call prints both.
#![tactic(auto)]

mod cause;
mod declaration;
mod script;

pub use cause::{Cause, cause_text};
pub use declaration::accepted_text;
