//! The tables of declared types: which responses a state allows an invocation,
//! and what each of them leads to.
//!
//! 1. Each row names states, invocations and responses within the table's
//!    counts, which keep to their limits, and so do the rows.
//! 2. No two rows have the same state, invocation and response.
//! 3. The events, numbered by their first rows, keep to their limit.
//! 4. A grid has the next state of each state and each event as the rows give
//!    it, so that no question goes over the rows.
//!
//! A table keeps its rows as they were given. `qc_accept` makes tables;
//! `qc_cert` and `qc_plan` check certificates and plans over them; front ends,
//! and the laws on replies, read the same tables.
#![tactic(auto)]

mod cases;
mod fault;
mod grid;
mod kind;
mod laws;
mod limits;
mod relation;
mod row;
mod rows;
mod table;

pub use fault::TableFault;
pub use kind::Kind;
pub use laws::{first_is_an_event, first_leads_on, runs_join};
pub use limits::{
    MOST_EVENTS, MOST_INVOCATIONS, MOST_RESPONSES, MOST_ROWS, MOST_STATES,
    limits_of_types_are_as_defined,
};
pub use relation::{Pair, Relation};
pub use row::{Event, Row};
pub use table::{Table, tables_are_sound};
