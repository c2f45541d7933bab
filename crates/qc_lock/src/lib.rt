//! Locks: what the unfinished transactions hold at a site, and who is in whose
//! way.
//!
//! A transaction holds a read lock for each invocation that it has read for,
//! and an own line for each event that it has appended. A read conflicts with
//! another transaction's own line of its object on whose event the invocation
//! depends, and an append with another transaction's read lock whose
//! invocation depends on the appended event (typed locking by dependency,
//! Herlihy 1986). What conflicts is refused, and the smallest clash is told.
//!
//! 1. Each transaction has one entry, and each entry holds something.
//! 2. Each lock and each operation's own line stands in an entry once, in
//!    order.
//! 3. A call that is refused, or that finds no memory, changes nothing.
//!
//! What a call costs grows with the logarithm of what is held in all, and with
//! what its own transaction holds: entries, and the index of who holds what,
//! are trees. A read looks once for each event on which its invocation depends,
//! and an append once for each invocation that depends on one of its lines.
//!
//! `TransactionMap` keeps what transactions have, one each, in the order in which they
//! came to have it: the entries here, and what a site has promised.
#![tactic(auto)]

mod clash;
mod held;
mod holder_set;
mod laws;
mod locks;
mod sorted;
mod transaction_map;

pub use clash::{Clash, LockFault};
pub use held::Held;
pub use laws::{
    appends_are_refused_on_conflict, granted_appends_conflict_with_nothing,
    granted_reads_conflict_with_nothing, reads_are_refused_on_conflict, transactions_are_dropped,
    transactions_hold_what_is_given,
};
pub use locks::{Locks, locks_are_sound};
pub use transaction_map::{OfTransaction, TransactionMap};
