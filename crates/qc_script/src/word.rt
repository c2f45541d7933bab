//! The words of a line, one at a time.

ghost use Rattle.std.specs.Prelude.{◌≡◌, ◌==◌, ◌<◌, length, position, IfSome};
ghost use Rattle.qc_script.specs.Text.{words_of};
ghost use Rattle.qc_script.specs.Cut.{cut_off, one, two, three, four};

use std::marker::Model;

/// A word: bytes of a line between two spaces.
#[derive(Drop)]
pub struct Word<'a> {
    bytes: &'a [u8],
}

impl<'a> Model for Word<'a> {
    ghost use Rattle.std.specs.Prelude.{List, ℕ};

    ghost Value = { List ℕ };

    ghost view = { λ w. w.bytes.now };
}

impl<'a> Word<'a> {
    /// The word of these bytes.
    pub(crate) fn new(bytes: &'a [u8]) -> Word<'a>
        ensures { result ≡ bytes.now }
    {
        Word { bytes }
    }

    /// The bytes of the word.
    pub(crate) fn bytes(&self) -> &[u8]
        ensures { result.now ≡ self.now }
    {
        self.bytes
    }
}

/// The words of a line that weren't cut off yet.
#[derive(Drop)]
pub(crate) struct Words<'a> {
    rest: Option<&'a [u8]>,
}

impl<'a> Model for Words<'a> {
    ghost use Rattle.std.specs.Prelude.{List, ℕ};

    ghost Value = { List (List ℕ) };

    ghost use Rattle.qc_script.specs.Cut.{words_behind};

    ghost view = { λ w. words_behind w.rest };
}

impl<'a> Words<'a> {
    /// The words of a line.
    pub(crate) fn of(line: &'a [u8]) -> Words<'a>
        ensures { result ≡ words_of line.now }
    {
        Words { rest: Some(line) }
    }

    /// The first word, and the words behind it.
    pub(crate) fn cut(self) -> Option<(Word<'a>, Words<'a>)>
        ensures { result ≡ cut_off self.entry }
    {
        let line = self.rest?;
        match space(line) {
            Some(place) => Some((Word::new(&line[..place]), Words::of(&line[place + 1..]))),
            None => Some((Word::new(line), Words { rest: None })),
        }
    }

    /// One word and no more.
    pub(crate) fn one(self) -> Option<Word<'a>>
        ensures { result ≡ one self.entry }
    {
        let (first, rest) = self.cut()?;
        match rest.cut() {
            None => Some(first),
            Some(_) => None,
        }
    }

    /// Two words and no more.
    pub(crate) fn two(self) -> Option<(Word<'a>, Word<'a>)>
        ensures { result ≡ two self.entry }
    {
        let (first, rest) = self.cut()?;
        let second = rest.one()?;
        Some((first, second))
    }

    /// Three words and no more.
    pub(crate) fn three(self) -> Option<(Word<'a>, Word<'a>, Word<'a>)>
        ensures { result ≡ three self.entry }
    {
        let (first, rest) = self.cut()?;
        let (second, third) = rest.two()?;
        Some((first, second, third))
    }

    /// Four words and no more.
    pub(crate) fn four(self) -> Option<(Word<'a>, Word<'a>, Word<'a>, Word<'a>)>
        ensures { result ≡ four self.entry }
    {
        let (first, rest) = self.cut()?;
        let (second, third, fourth) = rest.three()?;
        Some((first, second, third, fourth))
    }
}

/// The place of the first space of a line.
fn space(line: &[u8]) -> Option<usize>
    ensures place { result ≡ position (λ b. b == 32) line.now }
    ensures within { IfSome result (λ place. place < length line.now) }
{
    line.iter().position(|b| *b == b' ')
}
