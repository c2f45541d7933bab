//! What a line's words say.

ghost use Rattle.std.specs.Prelude.{◌≡◌};
ghost use Rattle.qc_script.specs.Lines.{line_of, other_line, phase_line, link_line, link_of};
ghost use Rattle.qc_script.specs.Lines.{pair_of, cut_line, heal_line};
ghost use Rattle.qc_script.specs.Lines.{single_of, crash_line, restart_line, armed_line, epoch_line};
ghost use Rattle.qc_script.specs.Lines.{alone_of, do_of, verb_of, command_line};

use crate::actor::{self, ActorName};
use crate::form;
use crate::word::{Word, Words};
use qc_link::Rule;
use qc_number::number;
use qc_outside::ArmKind;

/// What a line's words say: its actors, numbers and names as they are written,
/// declared or not.
#[derive(Drop)]
pub enum ScriptLine<'a> {
    /// The next phase begins here.
    Phase,
    /// A rule of a link; none stands for all.
    Link {
        from: Option<ActorName>,
        to: Option<ActorName>,
        ordinal: Option<u32>,
        rule: Rule,
    },
    /// Two actors are cut from each other.
    Cut(ActorName, ActorName),
    /// Two actors are joined again.
    Heal(ActorName, ActorName),
    /// An actor falls.
    Crash(ActorName),
    /// An actor rises.
    Restart(ActorName),
    /// An actor's disk will stop or fail.
    Armed {
        actor: ActorName,
        kind: ArmKind,
        at: u32,
    },
    /// A client is asked something.
    Command {
        client: u32,
        verb: Verb<'a>,
    },
    /// The administrator is asked to move to an epoch.
    Epoch {
        number: u32,
    },
}

/// What a client is asked.
#[derive(Drop)]
pub enum Verb<'a> {
    /// To begin a transaction.
    Begin,
    /// To execute an invocation on an object.
    Do { object: Word<'a>, inv: Word<'a> },
    /// To commit the transaction.
    Commit,
    /// To give the transaction up.
    Abort,
}

impl<'a> ScriptLine<'a> {
    /// The line that words are.
    pub(crate) fn of(words: Words<'a>) -> Option<ScriptLine<'a>>
        ensures { result ≡ line_of words.entry }
    {
        let (word, words) = words.cut()?;
        let first = word.bytes();
        if first == b"phase".as_slice() {
            return phase(words);
        }
        if first == b"link".as_slice() {
            return link(words);
        }
        if first == b"cut".as_slice() {
            return cut(words);
        }
        if first == b"heal".as_slice() {
            return heal(words);
        }
        other(first, words)
    }
}

/// A line that tells of an actor's fall or rise, of a disk, or of what is asked,
/// behind its first word.
#[tactic(auto, unfolding(crate::specs::Lines::other_line))]
fn other<'a>(first: &[u8], words: Words<'a>) -> Option<ScriptLine<'a>>
    ensures { result ≡ other_line first.now words.entry }
{
    if first == b"crash".as_slice() {
        return crash(words);
    }
    if first == b"restart".as_slice() {
        return restart(words);
    }
    if first == b"stop".as_slice() {
        return armed(ArmKind::Stop, words);
    }
    if first == b"fail".as_slice() {
        return armed(ArmKind::Fail, words);
    }
    if first == b"admin".as_slice() {
        return epoch(words);
    }
    command(first, words)
}

/// `phase`, behind that word.
fn phase<'a>(words: Words<'a>) -> Option<ScriptLine<'a>>
    ensures { result ≡ phase_line words.entry }
{
    match words.cut() {
        None => Some(ScriptLine::Phase),
        Some(_) => None,
    }
}

/// `link FROM TO ORDINAL RULE`, behind its first word.
fn link<'a>(words: Words<'a>) -> Option<ScriptLine<'a>>
    ensures { result ≡ link_line words.entry }
{
    let (from, to, ordinal, rule) = words.four()?;
    link_of(from.bytes(), to.bytes(), ordinal.bytes(), rule.bytes())
}

/// A rule of a link, by its four words.
fn link_of<'a>(from: &[u8], to: &[u8], ordinal: &[u8], rule: &[u8]) -> Option<ScriptLine<'a>>
    ensures { result ≡ link_of from.now to.now ordinal.now rule.now }
{
    Some(ScriptLine::Link {
        from: form::end(from)?,
        to: form::end(to)?,
        ordinal: form::ordinal(ordinal)?,
        rule: form::rule(rule)?,
    })
}

/// Two actors.
fn pair(words: Words<'_>) -> Option<(ActorName, ActorName)>
    ensures { result ≡ pair_of words.entry }
{
    let (first, second) = words.two()?;
    let a = ActorName::of(first.bytes())?;
    let b = ActorName::of(second.bytes())?;
    Some((a, b))
}

/// `cut A B`, behind its first word.
fn cut<'a>(words: Words<'a>) -> Option<ScriptLine<'a>>
    ensures { result ≡ cut_line words.entry }
{
    let (a, b) = pair(words)?;
    Some(ScriptLine::Cut(a, b))
}

/// `heal A B`, behind its first word.
fn heal<'a>(words: Words<'a>) -> Option<ScriptLine<'a>>
    ensures { result ≡ heal_line words.entry }
{
    let (a, b) = pair(words)?;
    Some(ScriptLine::Heal(a, b))
}

/// One actor.
fn single(words: Words<'_>) -> Option<ActorName>
    ensures { result ≡ single_of words.entry }
{
    let word = words.one()?;
    ActorName::of(word.bytes())
}

/// `crash A`, behind its first word.
fn crash<'a>(words: Words<'a>) -> Option<ScriptLine<'a>>
    ensures { result ≡ crash_line words.entry }
{
    Some(ScriptLine::Crash(single(words)?))
}

/// `restart A`, behind its first word.
fn restart<'a>(words: Words<'a>) -> Option<ScriptLine<'a>>
    ensures { result ≡ restart_line words.entry }
{
    Some(ScriptLine::Restart(single(words)?))
}

/// `stop A at K` and `fail A at K`, behind the first word.
fn armed<'a>(kind: ArmKind, words: Words<'a>) -> Option<ScriptLine<'a>>
    ensures { result ≡ armed_line kind words.entry }
{
    let (actor, at, number_word) = words.three()?;
    if at.bytes() != b"at".as_slice() {
        return None;
    }
    Some(ScriptLine::Armed {
        actor: ActorName::of(actor.bytes())?,
        kind,
        at: number(number_word.bytes())?,
    })
}

/// `admin epoch K`, behind its first word.
fn epoch<'a>(words: Words<'a>) -> Option<ScriptLine<'a>>
    ensures { result ≡ epoch_line words.entry }
{
    let (word, number_word) = words.two()?;
    if word.bytes() != b"epoch".as_slice() {
        return None;
    }
    Some(ScriptLine::Epoch {
        number: number(number_word.bytes())?,
    })
}

/// A client's word, and what it is asked.
fn command<'a>(client: &[u8], words: Words<'a>) -> Option<ScriptLine<'a>>
    ensures { result ≡ command_line client.now words.entry }
{
    Some(ScriptLine::Command {
        client: actor::client(client)?,
        verb: verb_in(words)?,
    })
}

/// What a client is asked.
fn verb_in<'a>(words: Words<'a>) -> Option<Verb<'a>>
    ensures { result ≡ verb_of words.entry }
{
    let (word, words) = words.cut()?;
    match words.cut() {
        None => alone(word.bytes()),
        Some((object, rest)) => invocation(word.bytes(), object, rest.one()?),
    }
}

/// What a client is asked by one word.
fn alone<'a>(word: &[u8]) -> Option<Verb<'a>>
    ensures { result ≡ alone_of word.now }
{
    if word == b"begin".as_slice() {
        return Some(Verb::Begin);
    }
    if word == b"commit".as_slice() {
        return Some(Verb::Commit);
    }
    if word == b"abort".as_slice() {
        return Some(Verb::Abort);
    }
    None
}

/// `do OBJECT INV`.
fn invocation<'a>(word: &[u8], object: Word<'a>, inv: Word<'a>) -> Option<Verb<'a>>
    ensures { result ≡ do_of word.now object.entry inv.entry }
{
    if word != b"do".as_slice() {
        return None;
    }
    Some(Verb::Do {
        object: form::name(object)?,
        inv: form::name(inv)?,
    })
}
