//! Reading a text over one declaration, and what is to come of it.

ghost use Rattle.std.specs.Prelude.{IfOk};
ghost use Rattle.qc_decl.specs.Accepted.{IsAccepted};
ghost use Rattle.qc_decl.specs.Named.{IsNamed};

use qc_accept::{DeclFault, accept};
use qc_decl::{Declaration, MOST_SCRIPT_BYTES};
use qc_list::OutOfMemory;
use qc_script::{LineKind, Script, ScriptFault, read_script};
use std::alloc::{AllocError, Global};
use std::process::Abort;

/// Two sites and three clients, so that s1 is actor 1, c0 is 2, c2 is 4 and the
/// administrator 5; a register `x` and a flag `f`; two epochs.
const DECLARED: &str = r#"sites = 2
clients = 3
[[type]]
name = "register"
states = ["0", "1"]
start = "0"
invocations = ["R", "W0", "W1"]
responses = ["0", "1", "ok"]
rows = ["0 R 0 0", "1 R 1 1", "0 W0 ok 0", "1 W0 ok 0", "0 W1 ok 1", "1 W1 ok 1"]
depends = ["R W0:ok", "R W1:ok"]
triples = ["0 0 -", "0 1 W1:ok", "1 1 -", "1 0 W0:ok"]
[[type]]
name = "flag"
states = ["0", "1"]
start = "0"
invocations = ["TAS", "Reset"]
responses = ["0", "1", "ok"]
rows = ["0 TAS 0 1", "1 TAS 1 1", "0 Reset ok 0", "1 Reset ok 0"]
depends = ["TAS TAS:0", "TAS Reset:ok"]
triples = ["0 0 -", "0 1 TAS:0", "1 1 -", "1 0 Reset:ok"]
[[object]]
name = "x"
type = "register"
[[object]]
name = "f"
type = "flag"
[[epoch]]
weights = [1, 1]
initial = ["x R 1", "f TAS 1"]
final = ["x W0:ok 2", "x W1:ok 2", "f TAS:0 2", "f Reset:ok 2"]
[[epoch]]
weights = [1, 1]
initial = ["x R 2", "f TAS 2"]
final = ["x W0:ok 1", "x W1:ok 1", "f TAS:0 1", "f Reset:ok 1"]
"#;

/// That declaration.
pub(crate) fn declared(rt: &impl Abort, alloc: Global) -> Result<Declaration, OutOfMemory>
    ensures accepted { IfOk result IsAccepted }
    ensures named { IfOk result IsNamed }
{
    match accept(alloc, DECLARED.as_bytes()) {
        Ok(decl) => Ok(decl),
        Err(DeclFault::OutOfMemory) => Err(AllocError),
        Err(_) => panic!(rt; "not accepted"),
    }
}

/// What a text is read as over a declaration.
pub(crate) fn script_of(
    rt: &impl Abort,
    alloc: Global,
    decl: &Declaration,
    text: &str,
) -> Result<Script, ScriptFault>
    requires accepted { IsAccepted decl.now }
    requires named { IsNamed decl.now }
{
    assert!(rt; text.len() <= MOST_SCRIPT_BYTES as usize);
    read_script(alloc, text.as_bytes(), decl)
}

/// What is wrong with a text is this.
fn check_fault(
    rt: &impl Abort,
    alloc: Global,
    decl: &Declaration,
    text: &str,
    want: (u32, LineKind),
) -> Result<(), OutOfMemory>
    requires accepted { IsAccepted decl.now }
    requires named { IsNamed decl.now }
{
    match script_of(rt, alloc, decl, text) {
        Err(ScriptFault::Line { number, kind }) => {
            assert_eq!(rt; (number, kind), want, "at `{text}`");
            Ok(())
        }
        Err(ScriptFault::OutOfMemory) => Err(AllocError),
        Ok(_) => panic!(rt; "`{text}` is read"),
    }
}

/// Each row has a text, the number of its first refused line, and what is wrong
/// with that.
fn check_rows(
    rt: &impl Abort,
    alloc: Global,
    decl: &Declaration,
    rows: &[(&str, u32, LineKind)],
) -> Result<(), OutOfMemory>
    requires accepted { IsAccepted decl.now }
    requires named { IsNamed decl.now }
{
    for (text, number, kind) in rows {
        check_fault(rt, alloc, decl, text, (*number, *kind))?;
    }
    Ok(())
}

/// The same over the declaration.
pub(crate) fn check_faults(
    rt: &impl Abort,
    alloc: Global,
    rows: &[(&str, u32, LineKind)],
) -> Result<(), OutOfMemory> {
    let decl = declared(rt, alloc)?;
    check_rows(rt, alloc, &decl, rows)
}

/// Each text is refused in its first line, and this is wrong with it.
fn check_texts(
    rt: &impl Abort,
    alloc: Global,
    decl: &Declaration,
    kind: LineKind,
    texts: &[&str],
) -> Result<(), OutOfMemory>
    requires accepted { IsAccepted decl.now }
    requires named { IsNamed decl.now }
{
    for text in texts {
        check_fault(rt, alloc, decl, text, (1, kind))?;
    }
    Ok(())
}

/// The same over the declaration.
pub(crate) fn check_lines(
    rt: &impl Abort,
    alloc: Global,
    kind: LineKind,
    texts: &[&str],
) -> Result<(), OutOfMemory> {
    let decl = declared(rt, alloc)?;
    check_texts(rt, alloc, &decl, kind, texts)
}
