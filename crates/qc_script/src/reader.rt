//! Reading a script.

ghost use Rattle.std.specs.Prelude.{◌≡◌, ◌+◌, ◌<◌, ◌≤◌, length, IfOk, MatchResult, Ok};
ghost use Rattle.qc_decl.specs.Limits.{most_script_bytes};
ghost use Rattle.qc_decl.specs.Named.{IsNamed};
ghost use Rattle.qc_script.specs.Answers.{IsTold};
ghost use Rattle.qc_script.specs.Grammar.{script_of, numbered, placed, with_line, read_words};
ghost use Rattle.qc_script.specs.Ranges.{FitsByte};
ghost use Rattle.qc_script.specs.Text.{without_cr, is_skipped, words_of};

use crate::draft::Draft;
use crate::item::Item;
use crate::line::ScriptLine;
use crate::script::{LineKind, Script, ScriptFault};
use crate::word::Words;
use qc_decl::Declaration;
use std::alloc::Global;

/// The script that these bytes spell for the declaration.
///
/// # Errors
/// `ScriptLine` where the grammar refuses a line: the first such line, and what is
/// wrong with it.
pub fn read_script(alloc: Global, bytes: &[u8], decl: &Declaration) -> Result<Script, ScriptFault>
    requires few { length bytes.now ≤ most_script_bytes }
    requires actors { decl.now.sites + decl.now.clients < 256 }
    requires epochs { length decl.now.plans < 256 }
    requires named { IsNamed decl.now }
    ensures { MatchResult result
        (λ script. script_of decl.now bytes.now ≡ Ok script)
        (λ fault. IsTold fault (script_of decl.now bytes.now)) }
{
    let mut draft = Draft::new(alloc);
    let mut number = 0;
    for line in bytes.split(|b| *b == b'\n') {
        number += 1;
        add_line(alloc, &mut draft, decl, without_cr(line), number)?;
    }
    Ok(draft.into_script())
}

/// Adds what a line without its end asks for, which has this number.
fn add_line(
    alloc: Global,
    draft: &mut Draft,
    decl: &Declaration,
    line: &[u8],
    number: u32,
) -> Result<(), ScriptFault>
    requires actors { decl.now.sites + decl.now.clients < 256 }
    requires epochs { length decl.now.plans < 256 }
    requires named { IsNamed decl.now }
    ensures { MatchResult result
        (λ _. numbered number (with_line decl.now draft.old line.now) ≡ Ok draft.new)
        (λ fault. IsTold fault (numbered number (with_line decl.now draft.old line.now))) }
{
    if is_skipped(line) {
        return Ok(());
    }
    match item_in(line, decl) {
        Ok(item) => add_item(alloc, draft, item, number),
        Err(kind) => Err(ScriptFault::Line { number, kind }),
    }
}

/// Adds what the line with this number asks for, where it has a place.
fn add_item(alloc: Global, draft: &mut Draft, item: Item, number: u32) -> Result<(), ScriptFault>
    requires { FitsByte item }
    ensures { MatchResult result
        (λ _. numbered number (placed draft.old item) ≡ Ok draft.new)
        (λ fault. IsTold fault (numbered number (placed draft.old item))) }
{
    if !draft.has_place(&item) {
        return Err(ScriptFault::Line {
            number,
            kind: LineKind::Place,
        });
    }
    draft.add(alloc, item)?;
    Ok(())
}

/// What a line asks for, wherever it stands.
fn item_in(line: &[u8], decl: &Declaration) -> Result<Item, LineKind>
    requires actors { decl.now.sites + decl.now.clients < 256 }
    requires epochs { length decl.now.plans < 256 }
    requires named { IsNamed decl.now }
    ensures read { result ≡ read_words decl.now (words_of line.now) }
    ensures fits { IfOk result FitsByte }
{
    let Some(line) = ScriptLine::of(Words::of(line)) else {
        return Err(LineKind::Words);
    };
    let Some(item) = Item::of(line, decl) else {
        return Err(LineKind::Name);
    };
    if item.is_in_range(decl) {
        Ok(item)
    } else {
        Err(LineKind::Number)
    }
}

/// Whether a line is skipped: it is empty, or a comment.
fn is_skipped(line: &[u8]) -> bool
    ensures { result ≡ is_skipped line.now }
{
    match line {
        [] => true,
        [first, ..] => *first == b'#',
    }
}

/// A line without one CR at its end.
fn without_cr(line: &[u8]) -> &[u8]
    ensures { result.now ≡ without_cr line.now }
{
    match line.split_last() {
        Some((b'\r', front)) => front,
        _ => line,
    }
}
