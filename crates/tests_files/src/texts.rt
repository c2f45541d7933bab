//! A declaration's text, its edits, and what is told of them.

use qc_accept::{DeclFault, accept};
use qc_cert::CertFault;
use qc_decl::Names;
use qc_plan::PlanFault;
use qc_table::TableFault;
use std::alloc::{AllocError, Global};
use std::process::Abort;

/// The text of `@three`.
pub(crate) const THREE: &str = r#"sites = 3
clients = 3
[[type]]
name = "register"
states = ["0", "1"]
start = "0"
invocations = ["R", "W0", "W1"]
responses = ["0", "1", "ok"]
rows = ["0 R 0 0", "1 R 1 1", "0 W0 ok 0", "1 W0 ok 0", "0 W1 ok 1", "1 W1 ok 1"]
depends = ["R W0:ok", "R W1:ok"]
triples = ["0 0 -", "0 1 W1:ok", "1 1 -", "1 0 W0:ok"]
[[object]]
name = "x"
type = "register"
[[epoch]]
weights = [1, 1, 1]
initial = ["x R 2"]
final = ["x W0:ok 2", "x W1:ok 2"]
"#;

/// `@three`'s text with one part in place of another; `None` where it isn't
/// there, or memory is wanted.
pub(crate) fn edited(alloc: Global, old: &str, new: &str) -> Option<String> {
    let (before, after) = THREE.split_once(old)?;
    format!(in alloc; "{before}{new}{after}").ok()
}

/// What `accept` says of a text: `accepted`, or the fault as words.
fn told(alloc: Global, text: &str) -> Result<String, AllocError> {
    match accept(alloc, text.as_bytes()) {
        Ok(_) => String::from_str(alloc, "accepted"),
        Err(fault) => fault_text(alloc, &fault),
    }
}

/// A fault as words.
fn fault_text(alloc: Global, fault: &DeclFault) -> Result<String, AllocError> {
    match fault {
        DeclFault::NotToml => String::from_str(alloc, "not toml"),
        DeclFault::Field { path } => format!(in alloc; "field {}", path.text()),
        DeclFault::Table { kind, fault, names } => {
            with_names(alloc, *kind, &table_text(alloc, *fault)?, names)
        }
        DeclFault::Cert { kind, fault, names } => {
            with_names(alloc, *kind, &cert_text(alloc, *fault)?, names)
        }
        DeclFault::Plan {
            epoch,
            fault,
            names,
        } => with_names(alloc, *epoch, &plan_text(alloc, *fault)?, names),
        DeclFault::OutOfMemory => String::from_str(alloc, "out of memory"),
    }
}

/// A number, a fault's words, and names.
fn with_names(
    alloc: Global,
    number: u8,
    words: &String,
    names: &Names,
) -> Result<String, AllocError> {
    let names = joined(alloc, names)?;
    format!(in alloc; "{number} {words} {names}")
}

/// A table's fault as words.
fn table_text(alloc: Global, fault: TableFault) -> Result<String, AllocError> {
    match fault {
        TableFault::UnknownName { row } => format!(in alloc; "unknown {row}"),
        TableFault::DuplicateRow { row } => format!(in alloc; "repeated {row}"),
        TableFault::TooMany => String::from_str(alloc, "too many"),
        TableFault::OutOfMemory => String::from_str(alloc, "out of memory"),
    }
}

/// A certificate's fault as words.
fn cert_text(alloc: Global, fault: CertFault) -> Result<String, AllocError> {
    match fault {
        CertFault::NoStart => String::from_str(alloc, "no start"),
        CertFault::Uncovered {
            triple,
            event,
            taken,
        } => format!(in alloc; "uncovered {triple} {event} {taken}"),
        CertFault::Unequal { triple, inv, resp } => {
            format!(in alloc; "unequal {triple} {inv} {resp}")
        }
        CertFault::OutOfMemory => String::from_str(alloc, "out of memory"),
    }
}

/// A plan's fault as words.
fn plan_text(alloc: Global, fault: PlanFault) -> Result<String, AllocError> {
    match fault {
        PlanFault::NoWeight => String::from_str(alloc, "no weight"),
        PlanFault::TooHeavy { object } => format!(in alloc; "too heavy {object}"),
        PlanFault::CanMiss { object, inv, event } => {
            format!(in alloc; "can miss {object} {inv} {event}")
        }
    }
}

/// Names with a comma between them.
fn joined(alloc: Global, names: &Names) -> Result<String, AllocError> {
    let mut text = String::new(alloc);
    for (place, name) in names.items().iter().enumerate() {
        if place > 0 {
            text.push_str(",")?;
        }
        text.push_str(name.text())?;
    }
    Ok(text)
}

/// A text, known by a part of it, is told so.
pub(crate) fn check_told(rt: &impl Abort, alloc: Global, text: &str, want: &str, part: &str) {
    let Ok(told) = told(alloc, text) else {
        panic!(rt; "no memory at `{part}`");
    };
    assert!(rt; told.as_str() == want, "{} at `{part}`", told.as_str());
}

/// The same of a text that is to be there.
pub(crate) fn check_made(
    rt: &impl Abort,
    alloc: Global,
    text: &Option<String>,
    want: &str,
    part: &str,
) {
    let Some(text) = text else {
        panic!(rt; "no text of `{part}`");
    };
    check_told(rt, alloc, text.as_str(), want, part);
}

/// Each row edits `@three`'s text, an old part and a new one, and says what is
/// told of it.
pub(crate) fn check_edits(rt: &impl Abort, alloc: Global, rows: &[(&str, &str, &str)]) {
    for (old, new, want) in rows {
        check_made(rt, alloc, &edited(alloc, old, new), want, new);
    }
}
