//! What the shelf answers for the files that the words name.

ghost use Rattle.std.specs.Prelude.{◌≡◌, ◌≤◌, option_map, Err};
ghost use Rattle.qc_outside.specs.Causes.{Rose};
ghost use Rattle.qc_top.specs.Answers.{AreAnswers, IsAnswerFor, IsCounted, decl_file, file_of, is_built_in};
ghost use Rattle.qc_top.specs.Answers.{script_file};
ghost use Rattle.qc_words.specs.Asked.{asked_in};

use qc_decl::{MOST_DECLARATION_BYTES, MOST_SCRIPT_BYTES};
use qc_list::List;
use qc_outside::{Shelf, ShelfFault};
use qc_words::Errand;

/// A file's bytes, or why there are none.
pub type Answer = Result<List<u8>, ShelfFault>;

/// What the shelf answered for the two files. A file that wasn't taken is
/// missing.
#[derive(Drop)]
pub struct Answers {
    /// For the declaration's file, unless its name begins with `@` or none is asked.
    pub decl: Answer,
    /// For the script's, where one is asked and the declaration's was given.
    pub script: Answer,
}

/// Takes the files that the words name from the shelf: the declaration's, and
/// then the script's.
pub fn answers_for<F: Shelf>(asked: Errand<'_>, shelf: &mut F) -> Answers
    ensures answers { AreAnswers F.gives (F.files shelf.old) (asked_in asked.entry) shelf.old shelf.new result }
    ensures files { F.files shelf.new ≡ F.files shelf.old }
    ensures count { IsCounted (F.faults shelf.old) (F.faults shelf.new) result }
{
    let decl = answer_for(decl_file(asked), MOST_DECLARATION_BYTES, shelf);
    let script = answer_for(script_file(asked, &decl), MOST_SCRIPT_BYTES, shelf);
    Answers { decl, script }
}

/// What the shelf answers for a file, where one is to be taken.
fn answer_for<F: Shelf>(name: Option<&str>, limit: u32, shelf: &mut F) -> Answer
    ensures answer { IsAnswerFor F.gives (F.files shelf.old) (option_map (λ n. n.now) name.entry) limit
        shelf.old shelf.new result }
    ensures files { F.files shelf.new ≡ F.files shelf.old }
    ensures later { F.faults shelf.old ≤ F.faults shelf.new }
    ensures failed { result ≡ Err ShelfFault.Failed → Rose (F.faults shelf.old) (F.faults shelf.new) }
{
    let Some(name) = name else {
        return Err(ShelfFault::Missing);
    };
    match shelf.take(name, limit) {
        Ok(bytes) => Ok(List::from_vec(bytes)),
        Err(fault) => Err(fault),
    }
}

/// The declaration's file, which is taken first.
fn decl_file(asked: Errand<'_>) -> Option<&str>
    ensures { option_map (λ n. n.now) result ≡ decl_file (asked_in asked.entry) }
{
    match asked {
        Errand::Check { decl } | Errand::Run { decl, .. } => file_of(decl),
        Errand::Load { .. } => None,
    }
}

/// The script's file, which is taken where the declaration's was given.
fn script_file<'a>(asked: Errand<'a>, answer: &Answer) -> Option<&'a str>
    ensures { option_map (λ n. n.now) result ≡ script_file (asked_in asked.entry) answer.now }
{
    match asked {
        Errand::Run { decl, script, .. } if is_built_in(decl) || answer.is_ok() => Some(script),
        Errand::Check { .. } | Errand::Run { .. } | Errand::Load { .. } => None,
    }
}

/// The file of a declaration's name.
fn file_of(name: &str) -> Option<&str>
    ensures { option_map (λ n. n.now) result ≡ file_of name.now }
{
    if is_built_in(name) { None } else { Some(name) }
}

/// Whether a name begins with `@`. No file is taken for such a name.
pub(crate) fn is_built_in(name: &str) -> bool
    ensures { result ≡ is_built_in name.now }
{
    match name.as_bytes() {
        [] => false,
        [first, ..] => *first == b'@',
    }
}
