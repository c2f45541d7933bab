//! Views: what a client knows of one object while it runs a transaction.
//!
//! A view has the lines that sites granted, in their order, and after them the
//! events of the client's own operations in its transaction. The state after
//! them decides what an invocation answers (Herlihy 1986).
//!
//! 1. A view's lines are a log: sorted, each once, whatever order the grants
//!    come in.
//! 2. Own events come after all lines, in the order of the operations.
//! 3. What a view answers to an invocation is legal after it.
#![tactic(auto)]

mod laws;
mod view;

pub use laws::{answers_lead_on, own_events_come_last};
pub use view::View;
