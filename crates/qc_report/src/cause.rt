//! How a call of the program ended.

ghost use Rattle.std.specs.Prelude.{◌≡◌, IfOk, OnOk, ◌++◌};
ghost use Rattle.qc_report.specs.Causes.{status_of, status_of_rack, status_of_shelf, cause_text_of, shelf_text};
ghost use Rattle.qc_report.specs.Causes.{disk_text, file_text, rack_text, what_text};

use crate::declaration::{put_refused, refused_status};
use crate::script::{put_script, script_status};
use itoa::Buffer;
use qc_accept::DeclFault;
use qc_list::{OutOfMemory, Page};
use qc_msg::Quantity;
use qc_outside::{RackFault, ShelfFault};
use qc_script::ScriptFault;
use std::alloc::Global;

/// Why a call of the program ended.
#[derive(Drop)]
pub enum Cause {
    /// All was done.
    Done,
    /// The words have the form of no command.
    Usage,
    /// A file wasn't taken: the script's, or else the declaration's.
    Shelf { script: bool, fault: ShelfFault },
    /// The declaration is refused.
    Declaration(DeclFault),
    /// The script isn't read.
    Script(ScriptFault),
    /// The rack gave no disk for an actor.
    Rack(RackFault),
    /// The output failed.
    Sink,
    /// A counted quantity reached its limit, and then had this number.
    Full { what: Quantity, number: u64 },
    /// Memory was wanting.
    OutOfMemory,
}

impl Cause {
    /// The program's exit status: 0 where all was done, 1 for words of no
    /// command, 2 for a declaration that is refused, 3 for a script, 4 for a
    /// file, 5 for the output, 6 for a disk, 7 for a limit, 8 for want of memory.
    pub fn status(&self) -> u8
        ensures { result ≡ status_of self.now }
    {
        match self {
            Cause::Done => 0,
            Cause::Usage => 1,
            Cause::Declaration(fault) => refused_status(fault),
            Cause::Script(fault) => script_status(*fault),
            Cause::Shelf { fault, .. } => shelf_status(*fault),
            Cause::Sink => 5,
            Cause::Rack(fault) => rack_status(*fault),
            Cause::Full { .. } => 7,
            Cause::OutOfMemory => 8,
        }
    }
}

/// The status for a file that wasn't taken.
fn shelf_status(fault: ShelfFault) -> u8
    ensures { result ≡ status_of_shelf fault }
{
    match fault {
        ShelfFault::Missing | ShelfFault::TooLong | ShelfFault::Failed => 4,
        ShelfFault::OutOfMemory => 8,
    }
}

/// The status for a disk that wasn't given.
fn rack_status(fault: RackFault) -> u8
    ensures { result ≡ status_of_rack fault }
{
    match fault {
        RackFault::NotEmpty { .. } | RackFault::Failed { .. } => 6,
        RackFault::OutOfMemory => 8,
    }
}

/// What is told of a cause on standard error: a line that ends with LF, or no
/// byte where all was done.
pub fn cause_text(alloc: Global, cause: &Cause) -> Result<Vec<u8>, OutOfMemory>
    ensures { IfOk result (λ v. v.items ≡ cause_text_of cause.now) }
{
    let mut page = Page::new(alloc);
    match cause {
        Cause::Done => {}
        Cause::Usage => page.put("quorum: usage\n")?,
        Cause::Shelf { script, fault } => shelf_text(&mut page, *script, *fault)?,
        Cause::Declaration(fault) => put_refused(&mut page, fault)?,
        Cause::Script(fault) => put_script(&mut page, *fault)?,
        Cause::Rack(fault) => rack_text(&mut page, *fault)?,
        Cause::Sink => page.put("quorum: output failed\n")?,
        Cause::Full { what, number } => full_text(&mut page, *what, *number)?,
        Cause::OutOfMemory => page.put("quorum: out of memory\n")?,
    }
    Ok(page.into_bytes())
}

/// The line of a file that wasn't taken.
fn shelf_text(page: &mut Page, script: bool, fault: ShelfFault) -> Result<(), OutOfMemory>
    ensures { OnOk result (page.new ≡ page.old ++ shelf_text script fault) }
{
    match fault {
        ShelfFault::Missing => file_text(page, script, "missing\n"),
        ShelfFault::TooLong => file_text(page, script, "too long\n"),
        ShelfFault::Failed => file_text(page, script, "failed\n"),
        ShelfFault::OutOfMemory => page.put("quorum: out of memory\n"),
    }
}

/// Which file it was, and what of it.
fn file_text(page: &mut Page, script: bool, what: &str) -> Result<(), OutOfMemory>
    ensures { OnOk result (page.new ≡ page.old ++ (file_text script ++ what.now)) }
{
    let file = if script {
        "quorum: script file: "
    } else {
        "quorum: declaration file: "
    };
    page.put_all(&[file, what])
}

/// The line of a disk that wasn't given.
fn rack_text(page: &mut Page, fault: RackFault) -> Result<(), OutOfMemory>
    ensures { OnOk result (page.new ≡ page.old ++ rack_text fault) }
{
    match fault {
        RackFault::NotEmpty { actor } => disk_text(page, actor, ": not empty\n"),
        RackFault::Failed { actor } => disk_text(page, actor, ": failed\n"),
        RackFault::OutOfMemory => page.put("quorum: out of memory\n"),
    }
}

/// Whose disk it was, and what of it.
fn disk_text(page: &mut Page, actor: u8, what: &str) -> Result<(), OutOfMemory>
    ensures { OnOk result (page.new ≡ page.old ++ disk_text actor what.now) }
{
    let mut digits = Buffer::new();
    page.put_all(&["quorum: disk of actor ", digits.format(actor), what])
}

/// The line of a limit that was reached.
fn full_text(page: &mut Page, what: Quantity, number: u64) -> Result<(), OutOfMemory>
    ensures { OnOk result (page.new ≡ page.old ++ cause_text_of (Cause.Full what number)) }
{
    let mut digits = Buffer::new();
    page.put_all(&[
        "quorum: full: ",
        what_word(what),
        digits.format(number),
        "\n",
    ])
}

/// The word of a quantity, and a space.
fn what_word(what: Quantity) -> &'static str
    ensures { result.now ≡ what_text what }
{
    match what {
        Quantity::Steps => "steps ",
        Quantity::Operations => "operations ",
        Quantity::Carried => "lines ",
    }
}
