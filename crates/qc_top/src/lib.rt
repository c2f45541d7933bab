//! The top call: from a command line's words to the printed run.
//!
//! `quorum_words` does all that the program does: it reads the words (`asked_by`),
//! takes the files that they name from the shelf (`answers_for`), and does what is
//! asked over the bytes or faults that it was handed (`perform`): it says that a
//! declaration is accepted, or runs a script, over a disk of the rack for each
//! actor, and prints the run, or the summary of the load that it is.
//!
//! 1. What a call has to do is exact in the words and in what it was handed, and
//!    so is the cause for which it has nothing to do (`work_of`).
//! 2. What happened is a run of the script, in which disks may fail, and actors
//!    fall and rise; nothing is left to do where its text is printed. Where actors
//!    keep their records, the history is atomic, and all that was posted is due.
//! 3. Where the rack tells what its places hold, records are kept, and each place
//!    holds its actor's journal in the end. Falls by disks are within what was
//!    armed and what the rack counted.
//! 4. The sink takes the whole text of the run, a part of it where it failed,
//!    or nothing. Each printed state is known, where records are kept.
//! 5. Status, limits and blame are those of the cause.
//!
//! The program stands on it.
#![tactic(auto)]

mod answers;
mod ended;
mod printing;
mod running;
mod top;
mod work;

pub use answers::{Answer, Answers, answers_for};
pub use ended::Ended;
pub use qc_msg::Quantity;
pub use qc_report::{Cause, cause_text};
pub use qc_text::{summary, text};
pub use qc_words::{Errand, WordsFault, asked_by};
pub use top::{perform, quorum_words};
pub use work::{Output, Work};
