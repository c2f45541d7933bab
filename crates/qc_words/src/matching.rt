//! Words that have a form, read with `clap`.

ghost use Rattle.std.specs.Prelude.{◌≡◌, IfErr, IfOk, Some, is_some, map, option_map, false, true};
ghost use Rattle.clap.specs.Simple.{app_of};
ghost use Rattle.clap.specs.Values.{kind_of};
ghost use Rattle.clap.specs.Walk.{rule_of};
ghost use Rattle.clap.specs.declared.error.kind.ErrorKind.TheVariants as kinds;
ghost use Rattle.qc_words.specs.Forms.{parts_of, values_of};
ghost use Rattle.qc_words.specs.Matching.{IsForm, command_for, found_in, option_rule, place_rule, with_rules};
ghost use Rattle.qc_words.specs.Parts.{form_in, texts_of};

use crate::form::{Form, has_form};
use clap::{Arg, ArgAction, ArgMatches, Command, Error};
use qc_list::OutOfMemory;
use std::alloc::{AllocError, Global};

/// The values of these words, where they have this form.
pub(crate) fn matches_by<'a>(
    alloc: Global,
    form: Form<'a>,
    words: &'a [&'a str],
) -> Result<Option<ArgMatches<'a>>, OutOfMemory>
    requires { IsForm (form_in form) }
    ensures { IfOk result (λ m. option_map found_in m
        ≡ values_of (form_in form.entry) (texts_of words.entry.now)) }
{
    if !has_form(alloc, form, words)? {
        return Ok(None);
    }
    match matches_of(alloc, form, words) {
        Ok(matches) => Ok(Some(matches)),
        // `clap` has no other cause to fail here.
        Err(_) => Err(AllocError),
    }
}

/// The values of words that have this form. `clap` takes them, so that it fails
/// only for want of memory.
fn matches_of<'a>(
    alloc: Global,
    form: Form<'a>,
    words: &'a [&'a str],
) -> Result<ArgMatches<'a>, Error>
    requires form { IsForm (form_in form) }
    requires has { is_some (parts_of (form_in form) (texts_of words.now)) ≡ true }
    ensures ok { IfOk result (λ m. Some (found_in m)
        ≡ values_of (form_in form.entry) (texts_of words.entry.now)) }
    ensures err { IfErr result (λ e. kind_of e ≡ kinds.OutOfMemory) }
{
    let command = command_for(alloc, form)?;
    command.try_get_matches_from(words)
}

/// A simple command of this form, without help and version, which is handed the
/// words behind its own.
fn command_for<'a>(alloc: Global, form: Form<'a>) -> Result<Command<'a>, OutOfMemory>
    ensures { IfOk result (λ c. app_of c ≡ command_for (form_in form.entry)) }
{
    let command = Command::new(alloc, "quorum")
        .no_binary_name(true)
        .disable_help_flag(true);
    with_options(
        alloc,
        with_places(alloc, command, form.places)?,
        form.options,
    )
}

/// The command with places of these names.
#[tactic(auto, using(crate::proofs::Commands::with_none))]
fn with_places<'a>(
    alloc: Global,
    mut command: Command<'a>,
    names: &'a [&'a str],
) -> Result<Command<'a>, OutOfMemory>
    ensures { IfOk result (λ c. app_of c
        ≡ with_rules (app_of command.entry) (map place_rule (texts_of names.entry.now))) }
{
    'names: for name in names {
        command = command.arg(place(alloc, name))?;
    }
    Ok(command)
}

/// The command with options of these names.
#[tactic(auto, using(crate::proofs::Commands::with_none))]
fn with_options<'a>(
    alloc: Global,
    mut command: Command<'a>,
    names: &'a [&'a str],
) -> Result<Command<'a>, OutOfMemory>
    ensures { IfOk result (λ c. app_of c
        ≡ with_rules (app_of command.entry) (map option_rule (texts_of names.entry.now))) }
{
    'names: for name in names {
        command = command.arg(option(alloc, name))?;
    }
    Ok(command)
}

/// A place, which has to be given.
fn place<'a>(alloc: Global, name: &'a str) -> Arg<'a>
    ensures rule { rule_of result ≡ place_rule name.entry.now }
    ensures local { result.global ≡ false }
{
    Arg::new(alloc, name).required(true).action(ArgAction::Set)
}

/// An option, which is `--` and its name.
fn option<'a>(alloc: Global, name: &'a str) -> Arg<'a>
    ensures rule { rule_of result ≡ option_rule name.entry.now }
    ensures local { result.global ≡ false }
{
    Arg::new(alloc, name).long(name).action(ArgAction::Set)
}
