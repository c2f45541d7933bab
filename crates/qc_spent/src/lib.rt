//! What each actor knows of its own store, its journal on its disk, makes up what
//! is promised of the whole: `Spent` and `Kept`. Laws alone, there is no code here.
//!
//! 1. Each disk has an account of what is armed on it and of its falls. What waits
//!    in each in time, and the falls of all together, make `Spent` of the history;
//!    and `Spent` says no less of each (`accounts_make_spent`,
//!    `spent_histories_are_of_accounts`).
//! 2. Where each actor's own steps keep its records, the history does, and the
//!    other way round (`own_steps_make_kept`, `kept_histories_keep_own_steps`).
//! 3. What is known of an actor's store goes on with what others do, with the
//!    actor's own steps, and with a fault that is armed (`stores_go_on`).
//! 4. Where damage is found only where a record doesn't fit, and records fit as
//!    long as they were kept, records are kept (`fitting_records_are_kept`).
#![tactic(auto)]

mod laws;

pub use laws::{
    accounts_make_spent, fitting_records_are_kept, kept_histories_keep_own_steps,
    own_steps_make_kept, spent_histories_are_of_accounts, stores_go_on,
};
