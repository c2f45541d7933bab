//! Short messages: a site tells a client only what it lacks, and a client tells a
//! site only what that lacks, over requests and answers that may be lost, repeated
//! and late, while sites and clients fall, and sites begin new lives and epochs.
//!
//! A client keeps, of each site and object, the site's log as it knows it, with a
//! mark: the site's life and epoch, and how many lines had arrived there. A Read
//! carries the mark; the site answers with what has arrived since. An Append
//! carries what the view has beyond what the site is known to have. This is a
//! machine of its own: own lines, locks and clocks don't meet what is told, and
//! aren't in it.
//!
//! 1. What a client knows after a counted answer is the whole log that the site
//!    had of the object (`known_logs_are_whole`); so its view gains all of it
//!    (`views_gain_whole_logs`).
//! 2. A short Append that is granted brings the site to the log, in the order of
//!    arrival, to which the whole view would bring it (`appends_bring_all`).
//! 3. Messages are short (`specs/Witnesses`), and each rule is needed
//!    (`specs/Wrong`): one open request of a client at a site, marks and short
//!    Appends that name a life, counts in the order of arrival.
//!
//! There is no code here.
#![tactic(auto)]

mod laws;
mod witnesses;
mod wrong;

pub use laws::{appends_bring_all, known_logs_are_whole, views_gain_whole_logs};
pub use witnesses::{a_second_read_brings_one_line, an_append_brings_one_line_of_three, reads_run};
pub use wrong::{
    counts_in_line_order_lose_lines, marks_without_lives_lose_lines, overlapping_reads_lose_lines,
    short_appends_without_lives_lose_lines,
};
