//! The desk of a client: it gathers the votes of a transaction's participants,
//! decides, and keeps the records of what committed (presumed abort).
#![tactic(auto)]

mod ballot;
mod conduct;
mod desk;
mod laws;
mod participants;

pub use ballot::{Ballot, Ballots, Vote};
pub use desk::{Commits, Desk, Known, Voting};
pub use laws::{
    commits_stay_known, few_sites_are_asked, first_answers_decide, other_answers_are_put_aside,
    participants_are_asked, participants_are_granting_sites, prepares_are_numbered, stamps_rise,
    transactions_have_one_record,
};
