//! What the words ask.

ghost use Rattle.std.specs.Prelude.{◌≡◌, IfOk, MatchResult, Some, option_and_then, option_map};
ghost use Rattle.qc_words.specs.Asked.{IsTold, asked_in};
ghost use Rattle.qc_words.specs.Forms.{values_of};
ghost use Rattle.qc_words.specs.Matching.{found_in};
ghost use Rattle.qc_words.specs.Parts.{texts_of};
ghost use Rattle.qc_words.specs.Words.{asked, check_form, check_of, load_form, load_of, run_form, run_of, workers_of};

use crate::fault::WordsFault;
use crate::form::Form;
use crate::limits::{GREATEST_SEED, MOST_TRANSACTIONS, MOST_WORKERS};
use crate::matching::matches_by;
use crate::number::number_within;
use clap::ArgMatches;
use qc_list::OutOfMemory;
use std::alloc::Global;

/// What the program is asked.
#[derive(Clone, Copy, PartialEq, Eq)]
pub enum Errand<'a> {
    /// Whether the declaration of this name is accepted.
    Check {
        /// The declaration's name.
        decl: &'a str,
    },
    /// The run of a script over a declaration.
    Run {
        /// The declaration's name.
        decl: &'a str,
        /// The script's name.
        script: &'a str,
        /// How many workers are to run it, from 1 to 8.
        workers: u8,
        /// The folder of the disks, where one is named.
        dir: Option<&'a str>,
    },
    /// A load.
    Load {
        /// How many transactions, from 1 to 500.
        count: u32,
        /// The seed, from 0 to 65,536.
        seed: u32,
        /// How many workers are to run it, from 1 to 8.
        workers: u8,
    },
}

/// `check DECL`.
const CHECK: Form<'static> = Form {
    places: &["DECL"],
    options: &[],
};

/// `run DECL SCRIPT [--workers N] [--dir D]`.
const RUN: Form<'static> = Form {
    places: &["DECL", "SCRIPT"],
    options: &["workers", "dir"],
};

/// `load COUNT SEED [--workers N]`.
const LOAD: Form<'static> = Form {
    places: &["COUNT", "SEED"],
    options: &["workers"],
};

/// What the words ask, without the program's own name.
///
/// # Errors
/// `Usage` where the words have the form of no command, exactly. `OutOfMemory`
/// may come in place of anything.
pub fn asked_by<'a>(alloc: Global, words: &'a [&'a str]) -> Result<Errand<'a>, WordsFault>
    ensures { MatchResult result
        (λ a. asked (texts_of words.entry.now) ≡ Some (asked_in a))
        (λ fault. IsTold fault (asked (texts_of words.entry.now))) }
{
    match read(alloc, words)? {
        Some(asked) => Ok(asked),
        None => Err(WordsFault::Usage),
    }
}

/// What the words ask, where they have the form of a command.
fn read<'a>(alloc: Global, words: &'a [&'a str]) -> Result<Option<Errand<'a>>, OutOfMemory>
    ensures { IfOk result (λ a. option_map asked_in a ≡ asked (texts_of words.entry.now)) }
{
    let [command, behind @ ..] = words else {
        return Ok(None);
    };
    if *command == "check" {
        check_by(alloc, behind)
    } else if *command == "run" {
        run_by(alloc, behind)
    } else if *command == "load" {
        load_by(alloc, behind)
    } else {
        Ok(None)
    }
}

/// What `check` asks by the words behind it.
fn check_by<'a>(alloc: Global, words: &'a [&'a str]) -> Result<Option<Errand<'a>>, OutOfMemory>
    ensures { IfOk result (λ a. option_map asked_in a
        ≡ option_and_then check_of (values_of check_form (texts_of words.entry.now))) }
{
    match matches_by(alloc, CHECK, words)? {
        Some(matches) => Ok(check_of(&matches)),
        None => Ok(None),
    }
}

/// What `run` asks by the words behind it.
fn run_by<'a>(alloc: Global, words: &'a [&'a str]) -> Result<Option<Errand<'a>>, OutOfMemory>
    ensures { IfOk result (λ a. option_map asked_in a
        ≡ option_and_then run_of (values_of run_form (texts_of words.entry.now))) }
{
    match matches_by(alloc, RUN, words)? {
        Some(matches) => Ok(run_of(&matches)),
        None => Ok(None),
    }
}

/// What `load` asks by the words behind it.
fn load_by<'a>(alloc: Global, words: &'a [&'a str]) -> Result<Option<Errand<'a>>, OutOfMemory>
    ensures { IfOk result (λ a. option_map asked_in a
        ≡ option_and_then load_of (values_of load_form (texts_of words.entry.now))) }
{
    match matches_by(alloc, LOAD, words)? {
        Some(matches) => Ok(load_of(&matches)),
        None => Ok(None),
    }
}

/// What the values of `check` ask.
fn check_of<'a>(values: &ArgMatches<'a>) -> Option<Errand<'a>>
    ensures { option_map asked_in result ≡ check_of (found_in values.now) }
{
    Some(Errand::Check {
        decl: values.get_str("DECL")?,
    })
}

/// What the values of `run` ask.
fn run_of<'a>(values: &ArgMatches<'a>) -> Option<Errand<'a>>
    ensures { option_map asked_in result ≡ run_of (found_in values.now) }
{
    Some(Errand::Run {
        decl: values.get_str("DECL")?,
        script: values.get_str("SCRIPT")?,
        workers: workers_of(values)?,
        dir: values.get_str("dir"),
    })
}

/// What the values of `load` ask.
fn load_of<'a>(values: &ArgMatches<'a>) -> Option<Errand<'a>>
    ensures { option_map asked_in result ≡ load_of (found_in values.now) }
{
    let count = values.get_str("COUNT")?;
    let seed = values.get_str("SEED")?;
    Some(Errand::Load {
        count: number_within(1, MOST_TRANSACTIONS, count)?,
        seed: number_within(0, GREATEST_SEED, seed)?,
        workers: workers_of(values)?,
    })
}

/// How many workers the values ask for; one where they don't say it.
fn workers_of(values: &ArgMatches<'_>) -> Option<u8>
    ensures { result ≡ workers_of (found_in values.now) }
{
    match values.get_str("workers") {
        None => Some(1),
        Some(word) => Some(number_within(1, MOST_WORKERS, word)? as u8),
    }
}
