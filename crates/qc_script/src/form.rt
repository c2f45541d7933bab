//! What a word may be in the place where it stands: a link's end, an ordinal, a
//! rule, a name.

ghost use Rattle.std.specs.Prelude.{◌≡◌};
ghost use Rattle.qc_script.specs.Forms.{end_of, ordinal_of, rule_of, name_of};

use crate::actor::ActorName;
use crate::word::Word;
use qc_link::Rule;
use qc_number::number;

/// A link's end: an actor, or none for `*`, which stands for all.
pub(crate) fn end(word: &[u8]) -> Option<Option<ActorName>>
    ensures { result ≡ end_of word.now }
{
    if word == b"*".as_slice() {
        return Some(None);
    }
    Some(Some(ActorName::of(word)?))
}

/// A message's number among those of a link, or none for `*`, which stands for
/// all.
pub(crate) fn ordinal(word: &[u8]) -> Option<Option<u32>>
    ensures { result ≡ ordinal_of word.now }
{
    if word == b"*".as_slice() {
        return Some(None);
    }
    Some(Some(number(word)?))
}

/// A link's rule.
pub(crate) fn rule(word: &[u8]) -> Option<Rule>
    ensures { result ≡ rule_of word.now }
{
    if word == b"drop".as_slice() {
        return Some(Rule::Drop);
    }
    if word == b"twice".as_slice() {
        return Some(Rule::Twice);
    }
    if word == b"late".as_slice() {
        return Some(Rule::Late);
    }
    if word == b"again".as_slice() {
        return Some(Rule::Again);
    }
    None
}

/// A name of an object or an invocation: each word but the empty one.
pub(crate) fn name(word: Word<'_>) -> Option<Word<'_>>
    ensures { result ≡ name_of word.entry }
{
    if word.bytes().is_empty() {
        None
    } else {
        Some(word)
    }
}
