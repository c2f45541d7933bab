//! Every run of the system, with falls and epochs, is a run of the protocol's
//! machine.
//!
//! A net (`specs/Net`) is the system over a network that may lose, repeat and
//! delay each message. Sites, clients and the administrator may fall at any time,
//! also as they write a record, and rise with the records that they wrote, and
//! maybe the one that they were writing (`qc_recover`). `specs/Mirrors` says when
//! it agrees with a state of the machine: each site and its records (`Sites`),
//! each client (`Clients`), the administrator (`Admins`), each message
//! (`Messages`). There is no code here: each law is the contract of a function
//! with nothing to do. Its invariants:
//!
//! 1. Each step, fall and rise of an actor is some acts of the machine, or none,
//!    and the net agrees with the state after them (`nets_refine`,
//!    `sites_refine`).
//! 2. Between two of its steps a front end is as its own laws say
//!    (`front_ends_stand`), and no two open requests of a client are for one site
//!    (`clients_have_one_open_request_at_a_site`).
//! 3. So what the machine's runs keep, the system keeps: its commit records are
//!    one copy's and apart (`nets_are_one_copy`), lines are operations of them
//!    (`lines_are_operations`), Decisions agree with them
//!    (`decisions_agree_with_records`), and the clock that a site tells as it
//!    closes has passed its lines (`closed_sites_pass_their_lines`).
//! 4. What was promised is kept across falls: a vote stands on a record that its
//!    site keeps (`votes_stand_on_records`), and is cast in the life that its
//!    request names (`asked_sites_remember`, `later_votes_name_later_lives`).
//! 5. Epochs are decided one after another (`epochs_are_decided_in_turn`), and
//!    what may be decided may be decided later (`decisions_may_wait`).
#![tactic(auto)]

mod falls;
mod laws;

pub use falls::{
    asked_sites_remember, decisions_may_wait, later_votes_name_later_lives, votes_stand_on_records,
};
pub use laws::{
    clients_have_one_open_request_at_a_site, closed_sites_pass_their_lines,
    decisions_agree_with_records, epochs_are_decided_in_turn, front_ends_stand,
    lines_are_operations, nets_are_one_copy, nets_refine, sites_refine,
};
