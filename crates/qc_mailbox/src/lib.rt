//! What waits for each actor, kept beside a history of a script in memory that
//! is taken beforehand; and the definitions and laws of what is ready.
//!
//! Beside the history stands, for each actor, a tray: which copies wait, which
//! of its requests are lost, which commands it is asked. So what is ready next
//! is known without a look at the history, the script or its rules.
//! `IsKept` (`specs/KeptInboxes.antt`) says that the trays show the
//! inboxes of the history, through falls too. Laws of trays:
//!
//! 1. Before the first step the trays show the inboxes (`new_trays_are_kept`),
//!    and each step keeps that: an input that is taken, a turn that is posted, a
//!    phase that begins, a control line that acts (`inputs_keep_trays`,
//!    `turns_keep_trays`, `phases_keep_trays`, `controls_keep_trays`).
//! 2. So do falls and rises (`src/fall_trays.rt`): a post whose record isn't
//!    written, a crash, a rise with its turn or in vain, a journal that isn't
//!    opened or is damaged (`posts_keep_trays`, `falls_by_lines_keep_trays`,
//!    `rises_keep_trays`, `damaged_journals_keep_trays`). What is kept knows who
//!    is up (`trays_know_who_is_up`), and who posts is (`lawful_posts_are_of_who_is_up`).
//! 3. What the trays show as ready is ready, and where it is a message, that was
//!    sent to the actor and is found under its number
//!    (`trays_show_what_is_ready`, `ready_messages_were_sent`).
//! 4. The trays tell who comes next: none just where nothing is ready, else one
//!    that comes before all others (`picks_are_made_by_trays`,
//!    `who_comes_next_has_something_ready`, `who_comes_next_is_first`).
//!
//! Of runs with falls, what waits for an actor is known by laws (`src/falls.rt`).
//! While a control line is left, no input is open and
//! nothing is ready; the next line crashes an actor that is up, or restarts one
//! that is down; each inbox knows who is up; nothing waits for who is down but
//! commands; what is ready was sent, and what is lost is an own request.
//!
//! The mailboxes show these trays: each call answers, or leaves, what is defined
//! of them, so the laws are of mailboxes too. What these add is when memory is
//! taken:
//!
//! 5. `ready` answers what is ready for an actor, and `pick` who comes next;
//!    `take`, `post`, `begin_phase` and `control` change what is shown as the
//!    same steps change what the history gives.
//! 6. So do falls and rises: `fall`, `rise`, `post_as`, which posts a turn by
//!    what became of its record, and `end_line`, which ends a control line that
//!    isn't the controller's own. Lines that have nothing to do are passed over
//!    as those before them act, so `next_control` never answers one.
//! 7. `reserve` makes room for so many messages, and `post` then takes no
//!    memory, whoever posts and whomever the messages are for. Room that isn't
//!    used stays.
//! 8. That room counts what a message may want later: a place where its late
//!    copy is ready, and one where it is lost as its receiver falls. So `fall`,
//!    `rise` and control lines take no memory.
//! 9. A phase that begins takes all memory before anything changes: after want of
//!    memory nothing has.
//! 10. `take`, `ready` and `pick` take no memory. `pick` passes over actors that
//!     are held or have an open input.
//! 11. A message takes one look at its fate, and no work grows with the history,
//!     the script or its rules.
#![tactic(auto)]

mod asked;
mod boxes;
mod counts;
mod fall;
mod fall_trays;
mod falls;
mod input;
mod laws;
mod lines;
mod mailbox;
mod mailboxes;
mod phase;
mod pick;
mod queue;
mod ups;

pub use asked::Asked;
pub use counts::Counts;
pub use fall_trays::{
    damaged_journals_keep_trays, falls_by_lines_keep_trays, lawful_posts_are_of_who_is_up,
    posts_keep_trays, rises_keep_trays, trays_know_who_is_up,
};
pub use falls::{
    inboxes_know_who_is_up, lost_requests_are_own, next_lines_have_something_to_do,
    no_input_is_open_while_a_line_is_left, nothing_is_ready_while_a_line_is_left,
    nothing_waits_for_who_is_down, ready_messages_were_sent_through_falls,
};
pub use input::{Candidate, Rank, ReadyInput};
pub use laws::{
    controls_keep_trays, inboxes_agree, inputs_keep_trays, new_trays_are_kept, phases_keep_trays,
    picks_are_made_by_trays, ready_messages_have_senders, ready_messages_were_sent,
    steps_leave_other_inboxes, trays_are_in_range, trays_show_controls, trays_show_what_is_ready,
    turns_keep_trays, waiting_messages_were_sent, who_comes_next_has_something_ready,
    who_comes_next_is_first,
};
pub use mailbox::Mailbox;
pub use mailboxes::Mailboxes;
pub use pick::is_set;
pub use queue::Queue;
pub use ups::Ups;
