//! All that a client records, asks and tells is due, and commands end.
//!
//! There is no code here: each law is the contract of a function with nothing to
//! do. All are of histories alone.
//!
//! # The account of a client's deeds is the client
//!
//! They are of one life, but for 9.
//!
//! 1. Where a client has no open input, the account of its deeds tells it
//!    (`accounts_are_their_clients`). It begins anew as the client rises, with its
//!    records (`accounts_begin_anew`).
//! 2. One input keeps that, and all that its turn records, asks and tells is by
//!    the rows of its command (`inputs_are_answered_as_is_due`).
//! 3. So all deeds of a client are by those rows (`deeds_of_clients_are_by_rows`).
//!    The row is the reply that is due where what came to the client is declared:
//!    then each deed is due (`deeds_of_clients_are_due`).
//! 4. In every run of a script that asks for what is declared each deed of each
//!    client is due (`replies_are_due`), since sites tell of no epoch but the
//!    first, and so is all else that is promised to be (`runs_are_due`).
//! 5. A turn tells just what is due after its input (`turns_tell_what_is_due`,
//!    `turns_tell_their_rows`), and nothing that is due is left untold
//!    (`what_is_due_is_told`): so a `do` that everybody grants is answered
//!    (`granted_dos_are_answered`). Where a commit record that is due isn't
//!    written, Unknown is the row (`unwritten_commits_are_unknown`).
//! 6. A running command waits for an open request (`commands_wait_for_requests`),
//!    and nothing was taken for that since it was sent
//!    (`open_requests_were_sent`). So it is in every run
//!    (`commands_of_runs_wait`).
//! 7. A client waits for nothing but open requests
//!    (`clients_wait_only_for_requests`). So where nothing is left to happen each
//!    command has ended (`commands_end`) and has its reply
//!    (`each_call_has_its_reply`), and where no phase is left the run is whole
//!    (`runs_are_whole`).
//! 8. What the laws of 7 want of a script, each has that is read for an accepted
//!    declaration (`read_scripts_ask_what_is_declared`), since it names what is
//!    declared (`scripts_ask_what_is_declared`).
//! 9. What is due of a client stays so through its falls and rises, whatever the
//!    records that it rises with (`lives_of_clients_are_due`).
//!
//! # The account of the administrator's deeds is the administrator
//!
//! Stage by stage, as he closes sites, asks clients and installs: each reply, record
//! and message of his is due, and so is what he does as he rises, whatever the
//! records (`lives_of_the_administrator_are_due`). Of a run without falls it is
//! nothing: he does nothing there.
//!
//! # What is due with falls
//!
//! 1. In every run with falls each deed of a client is due, where what comes to it
//!    is declared (`clients_of_runs_with_falls_are_due`).
//! 2. That is so where the script asks for what is declared and each record that
//!    rises names epochs with plans (`replies_are_due_with_falls`).
//! 3. Then all is due in the run, by turns, by mail, of clients, of sites and of the
//!    administrator, where the commit records that rise name stamps of their own
//!    clients (`runs_with_falls_are_due`).
//! 4. Where records are kept, each record that rises names epochs with plans
//!    (`what_rises_is_planned_where_records_are_kept`); and so all is due
//!    (`runs_with_falls_are_due_where_records_are_kept`).
//!
//! # Commands, replies, requests and ends with falls
//!
//! None of them asks that records are kept: whatever disks lose, commands end.
//!
//! 1. What an actor called and what is left to it is what the phases so far ask
//!    it (`calls_are_asked_with_falls`), and no more phases begin than the script
//!    has (`phases_are_the_scripts_with_falls`).
//! 2. A client that is up waits just while a command of it runs
//!    (`clients_wait_while_commands_run_with_falls`), and its command waits for
//!    an open request (`commands_of_runs_with_falls_wait`).
//! 3. Each open request of a client that is up is awaited
//!    (`open_requests_are_awaited_with_falls`), and an unanswered one is at its
//!    site (`unanswered_requests_are_at_their_sites_with_falls`). So where
//!    nothing is left to happen no request is open
//!    (`no_request_is_open_at_the_end_with_falls`), and no command runs
//!    (`commands_end_with_falls`).
//! 4. So none runs while a control line is left
//!    (`no_command_runs_while_a_line_is_left`): a client falls and rises only
//!    between commands, and each reply answers the command that runs
//!    (`replies_answer_commands_with_falls`). So each command has one reply, but
//!    the one that runs (`calls_are_replied_with_falls`,
//!    `each_call_has_its_reply_with_falls`).
//! 5. A run with falls of which no phase is left is whole
//!    (`runs_with_falls_are_whole`): each command is told its reply. Answered
//!    commands are just those that were called in order, each with its reply
//!    (`answered_commands_were_called_in_order`,
//!    `answered_commands_have_a_reply_each`,
//!    `commands_in_order_are_answered`), and exchanges that miss something are
//!    refused (`missing_replies_are_refused`, `needless_replies_are_refused`,
//!    `falls_before_a_reply_are_refused`, `other_calls_are_refused`).
#![tactic(auto)]

mod client_laws;
mod command_laws;
mod due;
mod endings;
mod endings_with_falls;
mod exchanges;
mod lives;
mod request_laws;
mod runs;
mod scripts;
mod waiting_laws;

pub use client_laws::{
    accounts_are_their_clients, accounts_begin_anew, deeds_of_clients_are_by_rows,
    deeds_of_clients_are_due, inputs_are_answered_as_is_due, turns_tell_their_rows,
    turns_tell_what_is_due, unwritten_commits_are_unknown,
};
pub use command_laws::{
    calls_are_asked_with_falls, calls_are_replied_with_falls,
    clients_wait_while_commands_run_with_falls, no_command_runs_while_a_line_is_left,
    phases_are_the_scripts_with_falls, replies_answer_commands_with_falls,
};
pub use due::{
    clients_of_runs_with_falls_are_due, replies_are_due_with_falls, runs_with_falls_are_due,
    runs_with_falls_are_due_where_records_are_kept, what_rises_is_planned_where_records_are_kept,
};
pub use endings::{
    clients_wait_only_for_requests, commands_end, each_call_has_its_reply, runs_are_whole,
};
pub use endings_with_falls::{
    commands_end_with_falls, commands_of_runs_with_falls_wait, each_call_has_its_reply_with_falls,
    runs_with_falls_are_whole,
};
pub use exchanges::{
    answered_commands_have_a_reply_each, answered_commands_were_called_in_order,
    commands_in_order_are_answered, falls_before_a_reply_are_refused,
    falls_between_commands_are_taken, missing_replies_are_refused, needless_replies_are_refused,
    other_calls_are_refused,
};
pub use lives::{lives_of_clients_are_due, lives_of_the_administrator_are_due};
pub use request_laws::{
    no_request_is_open_at_the_end_with_falls, open_requests_are_awaited_with_falls,
    unanswered_requests_are_at_their_sites_with_falls,
};
pub use runs::{commands_of_runs_wait, replies_are_due, runs_are_due};
pub use scripts::{read_scripts_ask_what_is_declared, scripts_ask_what_is_declared};
pub use waiting_laws::{
    commands_wait_for_requests, granted_dos_are_answered, open_requests_were_sent,
    what_is_due_is_told,
};
