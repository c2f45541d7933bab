//! Actors, as words name them.

ghost use Rattle.std.specs.Prelude.{◌≡◌};
ghost use Rattle.qc_script.specs.Forms.{actor_of, client_of, has_leading_zero, index_of, numbered_of};

use qc_number::number;

/// An actor, as a word names it. There may be none of that number.
#[derive(Clone, Copy)]
pub enum ActorName {
    /// `sN`: the site of this number.
    Site(u32),
    /// `cN`: the client of this number.
    Client(u32),
    /// `admin`: the administrator.
    Administrator,
}

impl ActorName {
    /// The actor that a word names.
    pub(crate) fn of(word: &[u8]) -> Option<ActorName>
        ensures { result ≡ actor_of word.now }
    {
        if word == b"admin".as_slice() {
            Some(ActorName::Administrator)
        } else {
            numbered(word)
        }
    }
}

/// The site or the client that a word names.
fn numbered(word: &[u8]) -> Option<ActorName>
    ensures { result ≡ numbered_of word.now }
{
    let (letter, digits) = word.split_first()?;
    match letter {
        b's' => Some(ActorName::Site(index(digits)?)),
        b'c' => Some(ActorName::Client(index(digits)?)),
        _ => None,
    }
}

/// A number without a leading zero, as stands in an actor's name.
fn index(digits: &[u8]) -> Option<u32>
    ensures { result ≡ index_of digits.now }
{
    if has_leading_zero(digits) {
        None
    } else {
        number(digits)
    }
}

/// Whether a zero stands before other digits.
fn has_leading_zero(digits: &[u8]) -> bool
    ensures { result ≡ has_leading_zero digits.now }
{
    match digits {
        [] | [_] => false,
        [first, ..] => *first == b'0',
    }
}

/// The number of the client that a word names.
pub(crate) fn client(word: &[u8]) -> Option<u32>
    ensures { result ≡ client_of word.now }
{
    match ActorName::of(word)? {
        ActorName::Client(number) => Some(number),
        ActorName::Site(_) | ActorName::Administrator => None,
    }
}
