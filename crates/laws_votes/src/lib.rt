//! What sites hold, promise and vote in every run with falls whose records are kept, and
//! that dependent operations are ordered.
//!
//! There is no code here: each law is the contract of a function with nothing to
//! do. All are of histories alone.
//!
//! # What is held and promised
//!
//! 1. What a site granted since it last rose, closed an epoch or installed one to a
//!    transaction that committed it holds until it takes the Decision
//!    (`granted_items_are_held_in_their_lives`).
//!    What it has promised it holds, in every life, till it is done
//!    (`promised_items_are_held_through_falls`).
//! 2. A vote is cast in the life of its site that its request names
//!    (`votes_are_cast_in_the_lives_that_they_name`).
//! 3. A record is written, or being written as its client falls, when each site
//!    with a grant that counted has voted in the life of that grant, and has the
//!    record of its promise, which it keeps
//!    (`participants_of_committed_transactions_have_promised`).
//! 4. A record's stamp has passed the clock of each grant and each promise that
//!    its client counted before in that life
//!    (`stamps_pass_what_was_counted_in_their_lives`); a site's clock has passed
//!    the lines that it knows (`sites_clocks_pass_their_lines_through_falls`), and
//!    the Dones on its disk (`sites_clocks_pass_their_dones_through_falls`). What a
//!    site tells as it closes has a clock that has passed its lines
//!    (`shuts_pass_their_lines_through_falls`).
//! 5. With a line, the log that a Read is granted has each committed line of its
//!    object before it on which its invocation depends
//!    (`granted_logs_are_closed_through_falls`).
//! 6. The definitions refuse votes of former lives
//!    (`votes_of_former_lives_are_refused`), votes without promises
//!    (`votes_without_promises_are_refused`), locks of former lives
//!    (`locks_of_former_lives_are_refused`) and promises that were let go
//!    (`promises_that_were_let_go_are_refused`).
//!
//! # The ordering lemma
//!
//! It is said as a sentence over the history (Herlihy 1986): what a committed operation
//! depends on was seen as it was told, or is stamped later.
//!
//! 1. Let an operation of a committed transaction depend on the event of a line of
//!    another one, on the same object. At each moment from the operation's reply to
//!    its record, the client's view of the object has the line, whose stamp is
//!    smaller; or the operation's record has the smaller stamp
//!    (`dependent_operations_are_ordered_through_falls`). Sites may fall and rise
//!    at any time: one that granted something votes for it in the life in which it
//!    granted, or not at all. So may clients: a record that was being written as
//!    its client fell counts from its rise on. And epochs may change: a transaction
//!    that is to commit has ended before the next epoch is decided.
//! 2. There are such moments: each operation of a committed transaction had been
//!    told as its record was written, or was being written
//!    (`operations_of_records_were_told_through_falls`).
//! 3. Where the two asked in different epochs, that of the later epoch has the
//!    greater stamp, and where it depends on the other, it had seen its line
//!    (`later_epochs_follow_earlier_ones_through_falls`). A transaction asks in
//!    one epoch (`transactions_ask_in_one_epoch`), the one that its requests name
//!    (`other_epochs_are_refused`). Epochs are decided one after another
//!    (`decisions_are_in_turn_through_falls`, `decisions_out_of_turn_are_refused`).
//! 4. A client's reply ends its turn, and only Unknown is told at a fall
//!    (`replies_end_their_turns_through_falls`); with each Response and each Absent
//!    an operation is recorded, which was answered from the view of then
//!    (`replies_record_operations_through_falls`).
//! 5. A record that never rose is no committed one
//!    (`records_that_never_rose_are_refused`), and other replies than Unknown are
//!    none of a fall (`other_replies_at_falls_are_refused`).
//!
//! # Sites that are asked remember
//!
//! 1. A site that granted something, which counted, to a transaction that its
//!    client runs holds something of it, as long as it is in the life of that
//!    grant and in the transaction's epoch (`granted_sites_hold_through_falls`).
//! 2. So does a site whose promise a client waits for, as long as it is in the
//!    life that the request names and in that epoch
//!    (`asked_sites_hold_through_falls`): where epoch and life don't refuse the
//!    Prepare, the site holds what it granted.
//! 3. So it doesn't answer Stale or Behind, where what it would promise fits a
//!    record (`asked_sites_remember_through_falls`).
//!
//! # No vote that counts is stale
//!
//! 1. Within twice the limit of committed operations, as a run counts them, what a site would promise
//!    of a transaction that its client runs fits a record
//!    (`promises_of_running_transactions_fit`). So a site whose promise a client
//!    waits for, in the life that the request names and in the transaction's epoch, remembers
//!    (`asked_sites_have_room_through_falls`), and answers neither Stale nor Behind
//!    (`asked_sites_never_forget_through_falls`).
//! 2. So no vote that counts is Stale or Behind, and nobody is told that a site
//!    has forgotten (`votes_are_never_stale_through_falls`).
//! 3. What an epoch begins with fits a record too: the administrator finds no
//!    decision too long (`decisions_fit_records_through_falls`), and no site an
//!    Install (`installs_fit_records_through_falls`).
//! 4. A run counts just the operations of its committed transactions, each once:
//!    those of records that clients wrote, and of records that were being written
//!    as they fell, and that rose (`committed_operations_are_counted`,
//!    `records_that_rise_are_counted`).
#![tactic(auto)]

mod asked_votes;
mod clocks;
mod count_laws;
mod counted_votes;
mod epochs;
mod holdings;
mod order;
mod promised_votes;
mod replies;
mod wrong_epochs;
mod wrong_holdings;
mod wrong_precedence;

pub use asked_votes::{
    asked_sites_hold_through_falls, asked_sites_remember_through_falls,
    granted_sites_hold_through_falls,
};
pub use clocks::{
    shuts_pass_their_lines_through_falls, sites_clocks_pass_their_dones_through_falls,
    sites_clocks_pass_their_lines_through_falls, stamps_pass_what_was_counted_in_their_lives,
};
pub use count_laws::{committed_operations_are_counted, records_that_rise_are_counted};
pub use counted_votes::{
    asked_sites_have_room_through_falls, asked_sites_never_forget_through_falls,
    promises_of_running_transactions_fit, votes_are_never_stale_through_falls,
};
pub use epochs::{
    decisions_are_in_turn_through_falls, decisions_fit_records_through_falls,
    installs_fit_records_through_falls, later_epochs_follow_earlier_ones_through_falls,
    transactions_ask_in_one_epoch,
};
pub use holdings::{
    granted_items_are_held_in_their_lives, granted_logs_are_closed_through_falls,
    promised_items_are_held_through_falls,
};
pub use order::{
    dependent_operations_are_ordered_through_falls, operations_of_records_were_told_through_falls,
};
pub use promised_votes::{
    participants_of_committed_transactions_have_promised,
    votes_are_cast_in_the_lives_that_they_name,
};
pub use replies::{replies_end_their_turns_through_falls, replies_record_operations_through_falls};
pub use wrong_epochs::{decisions_out_of_turn_are_refused, other_epochs_are_refused};
pub use wrong_holdings::{
    locks_of_former_lives_are_refused, promises_that_were_let_go_are_refused,
    votes_of_former_lives_are_refused, votes_without_promises_are_refused,
};
pub use wrong_precedence::{
    other_replies_at_falls_are_refused, records_that_never_rose_are_refused,
};
