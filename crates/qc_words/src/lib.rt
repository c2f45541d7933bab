//! What the program's words ask.
//!
//! A definition says which words have the form of a command, and what they ask:
//! `specs/Forms.antt` cuts words into the values of places and options, and
//! `specs/Words.antt` has the commands. What holds:
//!
//! 1. The reader gives exactly what the definition says that the words ask, or
//!    tells that they ask nothing (`asked_by`). Memory may be wanting instead.
//! 2. Words that have a form are read with `clap`, as a simple command without
//!    help and version. It takes them with the same values, so that it fails at
//!    them only for want of memory (`words_of_a_form_are_taken_by_clap`).
//! 3. What is asked is within the limits (`words_ask_within_limits`), and all
//!    that is can be asked (`words_are_read_as_written`).
//! 4. Each word is a value or names an option (`words_are_values_and_options`).
//!    An option is one word or two (`options_are_one_word_or_two`), and stands
//!    anywhere behind the command (`options_stand_anywhere`).
#![tactic(auto)]

mod asked;
mod fault;
mod form;
mod laws;
mod limits;
mod matching;
mod number;

pub use asked::{Errand, asked_by};
pub use fault::WordsFault;
pub use laws::{
    options_are_one_word_or_two, options_stand_anywhere, words_are_read_as_written,
    words_are_values_and_options, words_ask_within_limits, words_of_a_form_are_taken_by_clap,
};
pub use limits::{GREATEST_SEED, MOST_TRANSACTIONS, MOST_WORKERS, limits_of_words_are_as_defined};
