//! What is told of a declaration: what it has, or why it is refused.

ghost use Rattle.std.specs.Prelude.{◌≡◌, ◌++◌, IfOk, OnOk, codes};
ghost use Rattle.qc_decl.specs.Names.{name_at};
ghost use Rattle.qc_report.specs.Declarations.{accepted_text_of, accepted_line, refused_text, status_of_refused};
ghost use Rattle.qc_report.specs.Declarations.{status_of_table, status_of_cert, table_text, cert_text, plan_text};
ghost use Rattle.qc_report.specs.Declarations.{type_text, row_text, triple_text, uncovered_text, differs_text};
ghost use Rattle.qc_report.specs.Declarations.{epoch_text, can_miss_text};

use itoa::Buffer;
use qc_accept::DeclFault;
use qc_cert::CertFault;
use qc_decl::{Declaration, Names, name_at};
use qc_list::{OutOfMemory, Page};
use qc_plan::PlanFault;
use qc_table::TableFault;
use std::alloc::Global;

/// The line of an accepted declaration: how many types, objects and epochs it
/// has.
pub fn accepted_text(alloc: Global, decl: &Declaration) -> Result<Vec<u8>, OutOfMemory>
    ensures { IfOk result (λ v. v.items ≡ accepted_text_of decl.now) }
{
    let mut page = Page::new(alloc);
    let types = decl.kinds.items().len();
    let objects = decl.objects.items().len();
    let epochs = decl.plans.items().len();
    put_accepted(&mut page, types, objects, epochs)?;
    Ok(page.into_bytes())
}

/// Adds the line of an accepted declaration that has so many types, objects
/// and epochs.
fn put_accepted(
    page: &mut Page,
    types: usize,
    objects: usize,
    epochs: usize,
) -> Result<(), OutOfMemory>
    ensures { OnOk result (page.new ≡ page.old ++ accepted_line types objects epochs) }
{
    let mut type_digits = Buffer::new();
    let mut object_digits = Buffer::new();
    let mut epoch_digits = Buffer::new();
    page.put_all(&[
        "accepted types ",
        type_digits.format(types),
        " objects ",
        object_digits.format(objects),
        " epochs ",
        epoch_digits.format(epochs),
        "\n",
    ])
}

/// The status for a refused declaration: 2, or 8 where memory was wanting.
pub(crate) fn refused_status(fault: &DeclFault) -> u8
    ensures { result ≡ status_of_refused fault.now }
{
    match fault {
        DeclFault::NotToml | DeclFault::Field { .. } | DeclFault::Plan { .. } => 2,
        DeclFault::Table { fault, .. } => table_status(*fault),
        DeclFault::Cert { fault, .. } => cert_status(*fault),
        DeclFault::OutOfMemory => 8,
    }
}

/// The status for rows that are no table.
fn table_status(fault: TableFault) -> u8
    ensures { result ≡ status_of_table fault }
{
    match fault {
        TableFault::UnknownName { .. } | TableFault::DuplicateRow { .. } | TableFault::TooMany => 2,
        TableFault::OutOfMemory => 8,
    }
}

/// The status for triples that don't show a relation exact.
fn cert_status(fault: CertFault) -> u8
    ensures { result ≡ status_of_cert fault }
{
    match fault {
        CertFault::NoStart | CertFault::Uncovered { .. } | CertFault::Unequal { .. } => 2,
        CertFault::OutOfMemory => 8,
    }
}

/// Adds the line of a refused declaration.
pub(crate) fn put_refused(page: &mut Page, fault: &DeclFault) -> Result<(), OutOfMemory>
    ensures { OnOk result (page.new ≡ page.old ++ refused_text fault.now) }
{
    match fault {
        DeclFault::NotToml => page.put("quorum: declaration: not toml\n"),
        DeclFault::Field { path } => {
            page.put_all(&["quorum: declaration: field ", path.text(), "\n"])
        }
        DeclFault::Table { fault, names, .. } => put_table(page, *fault, names),
        DeclFault::Cert { fault, names, .. } => put_cert(page, *fault, names),
        DeclFault::Plan {
            epoch,
            fault,
            names,
        } => put_plan(page, *epoch, *fault, names),
        DeclFault::OutOfMemory => page.put("quorum: out of memory\n"),
    }
}

/// Adds the line of rows that are no table.
fn put_table(page: &mut Page, fault: TableFault, names: &Names) -> Result<(), OutOfMemory>
    ensures { OnOk result (page.new ≡ page.old ++ table_text fault names.now) }
{
    match fault {
        TableFault::UnknownName { row } => put_row(page, names, row, "unknown name\n"),
        TableFault::DuplicateRow { row } => put_row(page, names, row, "repeated\n"),
        TableFault::TooMany => put_type(page, names, "too many events\n"),
        TableFault::OutOfMemory => page.put("quorum: out of memory\n"),
    }
}

/// Adds the line of triples that don't show a relation exact.
fn put_cert(page: &mut Page, fault: CertFault, names: &Names) -> Result<(), OutOfMemory>
    ensures { OnOk result (page.new ≡ page.old ++ cert_text fault names.now) }
{
    match fault {
        CertFault::NoStart => put_type(page, names, "no start triple\n"),
        CertFault::Uncovered { triple, taken, .. } => {
            put_uncovered(page, names, triple, uncovered_words(taken))
        }
        CertFault::Unequal { triple, .. } => put_unequal(page, names, triple),
        CertFault::OutOfMemory => page.put("quorum: out of memory\n"),
    }
}

/// Adds the line of a plan that isn't admitted.
fn put_plan(page: &mut Page, epoch: u8, fault: PlanFault, names: &Names) -> Result<(), OutOfMemory>
    ensures { OnOk result (page.new ≡ page.old ++ plan_text epoch fault names.now) }
{
    match fault {
        PlanFault::NoWeight => put_no_weight(page, epoch),
        PlanFault::TooHeavy { .. } => put_too_heavy(page, epoch, names),
        PlanFault::CanMiss { .. } => put_can_miss(page, epoch, names),
    }
}

/// Adds a type, the first of these names, and what is wrong with it.
fn put_type(page: &mut Page, names: &Names, wrong: &str) -> Result<(), OutOfMemory>
    ensures { OnOk result (page.new ≡ page.old ++ type_text names.now wrong.now) }
{
    page.put_all(&["quorum: declaration: type ", name_at(names, 0), ": ", wrong])
}

/// Adds a type, a row of it, and what is wrong with the row.
fn put_row(page: &mut Page, names: &Names, row: u32, wrong: &str) -> Result<(), OutOfMemory>
    ensures { OnOk result (page.new ≡ page.old ++ type_text names.now (row_text row wrong.now)) }
{
    let mut digits = Buffer::new();
    page.put_all(&[
        "quorum: declaration: type ",
        name_at(names, 0),
        ": row ",
        digits.format(row),
        ": ",
        wrong,
    ])
}

/// Adds a type, a triple of it, an event, and what isn't covered by it.
fn put_uncovered(
    page: &mut Page,
    names: &Names,
    triple: u32,
    words: &str,
) -> Result<(), OutOfMemory>
    ensures { OnOk result (page.new ≡ page.old
        ++ type_text names.now (triple_text triple (name_at names.now 1 ++ words.now))) }
{
    let mut digits = Buffer::new();
    page.put_all(&[
        "quorum: declaration: type ",
        name_at(names, 0),
        ": triple ",
        digits.format(triple),
        ": ",
        name_at(names, 1),
        words,
    ])
}

/// Whether the event isn't covered taken or left out, behind its name.
fn uncovered_words(taken: bool) -> &'static str
    ensures { result.now ≡ uncovered_text taken }
{
    if taken {
        " taken isn't covered\n"
    } else {
        " left out isn't covered\n"
    }
}

/// Adds a type, a triple of it, and the invocation and the response by which
/// its two states differ.
fn put_unequal(page: &mut Page, names: &Names, triple: u32) -> Result<(), OutOfMemory>
    ensures { OnOk result (page.new ≡ page.old
        ++ type_text names.now (triple_text triple (differs_text names.now))) }
{
    let (inv, resp) = (name_at(names, 1), name_at(names, 2));
    let mut digits = Buffer::new();
    page.put_all(&[
        "quorum: declaration: type ",
        name_at(names, 0),
        ": triple ",
        digits.format(triple),
        ": ",
        inv,
        " ",
        resp,
        " differs\n",
    ])
}

/// Adds an epoch in which the sites have no weight.
fn put_no_weight(page: &mut Page, epoch: u8) -> Result<(), OutOfMemory>
    ensures { OnOk result (page.new ≡ page.old ++ epoch_text epoch (codes "no weight\n")) }
{
    let mut digits = Buffer::new();
    page.put_all(&[
        "quorum: declaration: epoch ",
        digits.format(epoch),
        ": no weight\n",
    ])
}

/// Adds an epoch, and an object with a threshold above all weight.
fn put_too_heavy(page: &mut Page, epoch: u8, names: &Names) -> Result<(), OutOfMemory>
    ensures { OnOk result (page.new ≡ page.old
        ++ epoch_text epoch (name_at names.now 0 ++ codes " too heavy\n")) }
{
    let mut digits = Buffer::new();
    page.put_all(&[
        "quorum: declaration: epoch ",
        digits.format(epoch),
        ": ",
        name_at(names, 0),
        " too heavy\n",
    ])
}

/// Adds an epoch, and an object with the invocation that can miss an event.
fn put_can_miss(page: &mut Page, epoch: u8, names: &Names) -> Result<(), OutOfMemory>
    ensures { OnOk result (page.new ≡ page.old ++ epoch_text epoch (can_miss_text names.now)) }
{
    let mut digits = Buffer::new();
    page.put_all(&[
        "quorum: declaration: epoch ",
        digits.format(epoch),
        ": ",
        name_at(names, 0),
        " ",
        name_at(names, 1),
        " can miss ",
        name_at(names, 2),
        "\n",
    ])
}
