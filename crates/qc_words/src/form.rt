//! The words behind a command, cut into parts.

ghost use Rattle.std.specs.Prelude.{◌≡◌, ◌++◌, ◌∷◌, [], Some, None, List, option_map, map, slice_get, is_some};
ghost use Rattle.std.specs.Prelude.{if◌then◌else◌, IfOk};
ghost use Rattle.qc_words.specs.Forms.{Reading as ReadingOf, option_of, is_given, is_value, nothing_read, parts_of};
ghost use Rattle.qc_words.specs.Forms.{are_given, cut_at_equals, is_among, with_named, with_option};
ghost use Rattle.qc_words.specs.Forms.{option_or_place, placed, with_part, with_word};
ghost use Rattle.qc_words.specs.Parts.{Took, form_in, option_in, part_in, texts_of};

use qc_list::OutOfMemory;
use std::alloc::Global;
use std::marker::Model;

/// What a command takes.
#[derive(Clone, Copy)]
pub(crate) struct Form<'f> {
    /// The names of its places, in their order.
    pub(crate) places: &'f [&'f str],
    /// The names of its options.
    pub(crate) options: &'f [&'f str],
}

/// A value, by the name of its place or option. The test alone holds it; what is
/// asked is read of `clap`'s.
#[derive(Clone, Copy)]
pub(crate) struct Part<'a> {
    pub(crate) name: &'a str,
    pub(crate) value: &'a str,
}

/// What the words so far gave. After a word that doesn't fit it isn't asked
/// again.
#[derive(Drop)]
struct Reading<'a> {
    parts: Vec<Part<'a>>,
    /// How many places are taken.
    taken: usize,
    /// The option that waits for its value.
    waits: Option<&'a str>,
}

impl<'a> Model for Reading<'a> {
    ghost use Rattle.std.specs.Prelude.{map, option_map};
    ghost use Rattle.qc_words.specs.Forms.{Reading};
    ghost use Rattle.qc_words.specs.Parts.{part_in};

    ghost Value = { Reading };

    ghost view = { λ r. record {
      parts = map part_in r.parts.items;
      taken = r.taken;
      waits = option_map (λ name. name.now) r.waits;
    } };
}

/// Whether a word can be a value.
fn is_value(word: &str) -> bool
    ensures { result ≡ is_value word.now }
{
    match word.as_bytes() {
        [] => false,
        [first, ..] => *first != b'-',
    }
}

/// Whether there is a part of this name.
fn is_given(name: &str, parts: &[Part<'_>]) -> bool
    ensures { result ≡ is_given name.now (map part_in parts.now) }
{
    'parts: for part in parts {
        if part.name == name {
            return true;
        }
    }
    false
}

/// Whether there is a part of each of these names.
fn are_given(names: &[&str], parts: &[Part<'_>]) -> bool
    ensures { result ≡ are_given (texts_of names.now) (map part_in parts.now) }
{
    'names: for name in names {
        if !is_given(name, parts) {
            return false;
        }
    }
    true
}

/// The option that a word names, with its value where that is joined.
fn option_of(word: &str) -> Option<(&str, Option<&str>)>
    ensures { option_map option_in result ≡ option_of word.now }
{
    match word.strip_prefix("--") {
        None | Some("") => None,
        Some(rest) => Some(cut(rest)),
    }
}

/// A text, cut at its first `=` where it has one.
fn cut(rest: &str) -> (&str, Option<&str>)
    ensures { option_in result ≡ cut_at_equals rest.now }
{
    match rest.split_once('=') {
        Some((name, value)) => (name, Some(value)),
        None => (rest, None),
    }
}

impl<'a> Reading<'a> {
    /// Takes a part more, unless it is given or isn't one.
    fn add_part(&mut self, name: &'a str, value: &'a str) -> Result<bool, OutOfMemory>
        ensures { IfOk result (λ ok. Took ok self.new (with_part name.now value.now self.old)) }
    {
        if !is_value(value) || is_given(name, &self.parts) {
            return Ok(false);
        }
        self.parts.push(Part { name, value })?;
        self.waits = None;
        Ok(true)
    }

    /// Takes an option, whose value is joined or is to come.
    fn add_option(&mut self, name: &'a str, value: Option<&'a str>) -> Result<bool, OutOfMemory>
        ensures { IfOk result (λ ok. Took ok self.new
            (with_named name.now (option_map (λ v. v.now) value.entry) self.old)) }
    {
        match value {
            Some(value) => self.add_part(name, value),
            None if is_given(name, &self.parts) => Ok(false),
            None => {
                self.waits = Some(name);
                Ok(true)
            }
        }
    }

    /// Takes the value of the next of these places.
    fn add_placed(&mut self, places: &[&'a str], word: &'a str) -> Result<bool, OutOfMemory>
        ensures { IfOk result (λ ok. Took ok self.new
            (placed (slice_get (texts_of places.now) self.old.taken) word.now self.old)) }
    {
        let Some(place) = places.get(self.taken) else {
            return Ok(false);
        };
        self.taken += 1;
        self.add_part(place, word)
    }

    /// Takes a word.
    fn add(&mut self, form: Form<'a>, word: &'a str) -> Result<bool, OutOfMemory>
        ensures { IfOk result (λ ok. Took ok self.new (with_word (form_in form.entry) self.old word.now)) }
    {
        if let Some(name) = self.waits {
            return self.add_part(name, word);
        }
        match option_of(word) {
            Some((name, value)) if is_named(form.options, name) => self.add_option(name, value),
            Some(_) => Ok(false),
            None => self.add_placed(form.places, word),
        }
    }
}

/// Whether a name is among these.
fn is_named(names: &[&str], name: &str) -> bool
    ensures { result ≡ is_among (texts_of names.now) name.now }
{
    'names: for one in names {
        if *one == name {
            return true;
        }
    }
    false
}

/// Whether words have this form.
pub(crate) fn has_form<'a>(
    alloc: Global,
    form: Form<'a>,
    words: &[&'a str],
) -> Result<bool, OutOfMemory>
    ensures { IfOk result (λ has. has ≡ is_some (parts_of (form_in form.entry) (texts_of words.now))) }
{
    let mut reading = Reading {
        parts: Vec::new(alloc),
        taken: 0,
        waits: None,
    };
    'words: for word in words {
        if !reading.add(form, word)? {
            return Ok(false);
        }
    }
    Ok(reading.waits.is_none() && are_given(form.places, &reading.parts))
}
