//! What is told of a script that isn't read.

ghost use Rattle.std.specs.Prelude.{◌≡◌, ◌++◌, OnOk};
ghost use Rattle.qc_report.specs.Scripts.{status_of_script, script_text, line_text, kind_text};

use itoa::Buffer;
use qc_list::{OutOfMemory, Page};
use qc_script::{LineKind, ScriptFault};

/// The status for a script that isn't read: 3, or 8 where memory was wanting.
pub(crate) fn script_status(fault: ScriptFault) -> u8
    ensures { result ≡ status_of_script fault }
{
    match fault {
        ScriptFault::Line { .. } => 3,
        ScriptFault::OutOfMemory => 8,
    }
}

/// Adds the line of a script that isn't read.
pub(crate) fn put_script(page: &mut Page, fault: ScriptFault) -> Result<(), OutOfMemory>
    ensures { OnOk result (page.new ≡ page.old ++ script_text fault) }
{
    match fault {
        ScriptFault::Line { number, kind } => put_line(page, number, kind),
        ScriptFault::OutOfMemory => page.put("quorum: out of memory\n"),
    }
}

/// Adds a refused line of a script, by its number, and what is wrong with it.
fn put_line(page: &mut Page, number: u32, kind: LineKind) -> Result<(), OutOfMemory>
    ensures { OnOk result (page.new ≡ page.old ++ line_text number kind) }
{
    let mut digits = Buffer::new();
    page.put_all(&[
        "quorum: script: line ",
        digits.format(number),
        ": ",
        kind_word(kind),
        "\n",
    ])
}

/// What is wrong with a line, as a word.
fn kind_word(kind: LineKind) -> &'static str
    ensures { result.now ≡ kind_text kind }
{
    match kind {
        LineKind::Words => "words",
        LineKind::Name => "name",
        LineKind::Place => "place",
        LineKind::Number => "number",
    }
}
