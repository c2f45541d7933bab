//! The conduct of the whole system: which turn each actor's input calls for,
//! and the laws of it.
//!
//! An actor is known by its deeds alone: what it is, and which turn is its next,
//! are functions of what it took and sent so far.
//!
//! 1. All that a site is, its own steps show
//!    (`sites_are_read_off_their_steps`).
//! 2. What a site posts for each input and each rise is due
//!    (`answers_of_sites_are_due`); so a site that lives serves
//!    (`sites_that_live_serve`).
//! 3. An actor's turn is the one that its deeds call for
//!    (`turns_are_those_of_actors`), and each call of `Actor` is one step of
//!    the fold over them (`actors_are_folds`).
//! 4. After a fall an actor has no state, and after a rise it is what its
//!    records give (`actors_fall_and_rise`, `who_is_down_has_no_state`); who
//!    never falls lives as it acts (`who_never_falls_lives_as_it_acts`);
//!    and who lives goes by turns (`who_lives_goes_by_turns`).
//! 5. What an actor's deeds put into its journal is what its steps put there
//!    (`journals_are_those_of_steps`); while it is up no record is pending
//!    (`who_is_up_has_no_pending_record`); and where records are kept each rise
//!    gives back what the journal holds
//!    (`rises_give_back_journals_where_records_are_kept`).
#![tactic(auto)]

mod actor;
mod laws;
mod lives;

pub use actor::Actor;
pub use laws::{
    actors_are_folds, actors_fit, answers_of_sites_are_due, requests_are_numbered_at_once,
    sites_are_read_off_their_steps, sites_that_live_serve, turns_are_short,
    turns_are_those_of_actors,
};
pub use lives::{
    actors_fall_and_rise, journals_are_those_of_steps,
    rises_give_back_journals_where_records_are_kept, who_is_down_has_no_state,
    who_is_up_has_no_pending_record, who_lives_goes_by_turns, who_never_falls_lives_as_it_acts,
};
