//! Bounds of every run with falls: of clocks, counts and turns, of records and their
//! spellings, of mailboxes; and what disks tell of it, once they go back to the rack.
//!
//! There is no code here: each law is the contract of a function with nothing to
//! do. All are of histories alone.
//!
//! # Clocks, counts, turns and records
//!
//! 1. Every clock is at most a bound on what rises and the number of steps; where
//!    records are kept, at most the number of steps
//!    (`clocks_are_bounded_with_falls`, `bounds_are_on_what_rises`). A client has
//!    begun at most as many transactions, and an actor's life is at most two more
//!    than the records that it rose with (`counts_and_lives_are_bounded_with_falls`).
//! 2. Where what rises fits its actor (`what_rises_fits`), and below the limit of
//!    steps, each actor's calls may be made (`calls_may_be_made_with_falls`), and
//!    its turns are short (`turns_are_short_with_falls`); so may the calls of a rise
//!    (`records_that_fit_may_rise`), whose turn is at most as long as its records
//!    are many (`rising_turns_are_short`). One call numbers all messages of a turn
//!    (`requests_are_numbered_at_once_with_falls`).
//! 3. Where records are kept, each record of a journal fits its actor
//!    (`journals_fit_their_actors`), the record of a lawful turn where it would be
//!    written (`records_of_lawful_turns_fit`), and what rises
//!    (`what_rises_fits_where_records_are_kept`); each at its place
//!    (`records_fit_at_their_places`).
//!
//! # Trays
//!
//! 1. Where what rises fits its actor, there is for each run with falls what is
//!    kept of its inboxes: from it follow what is ready, who is up and which
//!    control lines are left (`runs_with_falls_have_trays`).
//!
//! # Spellings
//!
//! 1. In each run with falls, below 2^31 steps, in which only records rise that
//!    fit their actor and are legal, the record of each lawful turn is legal, and
//!    its spelling is no longer than a journal's record may be; the same is so of
//!    the turn of a rise (`records_of_lawful_turns_have_spellings`). It holds
//!    whether records are kept or not, so that an actor relies on its own disk
//!    alone.
//! 2. That what rises is legal is needed (`what_rises_has_to_be_legal`).
//!
//! All that is said, known and held in such runs is in form (`proofs/Forms.antt`):
//! the numbers of transactions, operations, objects, invocations, responses and
//! events are in the ranges of their fields, and lines, locks and own lines are in
//! order.
//!
//! # Disks that go back to the rack
//!
//! 1. Who is armed, falls and rises in a run is an actor of the script's control
//!    lines (`faults_are_of_the_scripts_actors`), and the next control line is
//!    one of the script's (`next_lines_are_of_the_script`). So of every other
//!    actor nothing waits past its call, and its records are kept
//!    (`others_have_no_faults`).
//! 2. Where an actor rises with its journal, and its journal is found damaged only
//!    where a record of it doesn't fit, and below the limit of steps, every
//!    history keeps all records (`records_are_kept_where_damage_is_a_misfit`).
//!    What is known of an actor's steps goes on with them
//!    (`misfits_go_on`), and damage is found below the limit where each event
//!    begins below it (`damage_is_found_within_the_limit`).
//! 3. Disks that come back to the rack, in any order, spend the history's falls
//!    (`falls_are_spent_disk_by_disk`), once all numbers were visited, as they
//!    were after as many visits as there are numbers (`visits_are_counted`).
//! 4. A disk leaves what it holds at its place (`disks_leave_their_bodies`), and the
//!    place of each actor whose disk came back holds its journal
//!    (`places_hold_journals_disk_by_disk`).
#![tactic(auto)]

mod bounds;
mod calls;
mod faults;
mod misfits;
mod place_laws;
mod records;
mod spelling;
mod trays;
mod visits;

pub use bounds::{
    bounds_are_on_what_rises, clocks_are_bounded_with_falls,
    counts_and_lives_are_bounded_with_falls,
};
pub use calls::{
    calls_may_be_made_with_falls, records_that_fit_may_rise,
    requests_are_numbered_at_once_with_falls, rising_turns_are_short, turns_are_short_with_falls,
    what_rises_fits,
};
pub use faults::{
    faults_are_of_the_scripts_actors, next_lines_are_of_the_script, others_have_no_faults,
};
pub use misfits::{
    damage_is_found_within_the_limit, misfits_go_on, records_are_kept_where_damage_is_a_misfit,
};
pub use place_laws::{disks_leave_their_bodies, places_hold_journals_disk_by_disk};
pub use records::{
    journals_fit_their_actors, records_fit_at_their_places, records_of_lawful_turns_fit,
    what_rises_fits_where_records_are_kept,
};
pub use spelling::{records_of_lawful_turns_have_spellings, what_rises_has_to_be_legal};
pub use trays::runs_with_falls_have_trays;
pub use visits::{falls_are_spent_disk_by_disk, visits_are_counted};
