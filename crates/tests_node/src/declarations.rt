//! The declarations that scripts run over.

ghost use Rattle.std.specs.Prelude.{IfOk};
ghost use Rattle.qc_decl.specs.Accepted.{IsAccepted};
ghost use Rattle.qc_decl.specs.Named.{IsNamed};

use qc_accept::accept;
use qc_decl::{Declaration, built_in};
use std::alloc::Global;
use std::test::Fail;

/// `@three` with a second epoch, in which one site answers a read and a write
/// needs all three.
const TWO_EPOCHS: &str = r#"sites = 3
clients = 3
[[type]]
name = "register"
states = ["0", "1"]
start = "0"
invocations = ["R", "W0", "W1"]
responses = ["0", "1", "ok"]
rows = ["0 R 0 0", "1 R 1 1", "0 W0 ok 0", "1 W0 ok 0", "0 W1 ok 1", "1 W1 ok 1"]
depends = ["R W0:ok", "R W1:ok"]
triples = ["0 0 -", "0 1 W1:ok", "1 1 -", "1 0 W0:ok"]
[[object]]
name = "x"
type = "register"
[[epoch]]
weights = [1, 1, 1]
initial = ["x R 2"]
final = ["x W0:ok 2", "x W1:ok 2"]
[[epoch]]
weights = [1, 1, 1]
initial = ["x R 1"]
final = ["x W0:ok 3", "x W1:ok 3"]
"#;

/// `@three`.
pub(crate) fn three(alloc: Global) -> Result<Declaration, Fail>
    ensures accepted { IfOk result IsAccepted }
    ensures named { IfOk result IsNamed }
{
    match built_in(alloc, "@three")? {
        Some(decl) => Ok(decl),
        None => Err(Fail::from("no such declaration")),
    }
}

/// The declaration with two epochs.
pub(crate) fn two_epochs(alloc: Global) -> Result<Declaration, Fail>
    ensures accepted { IfOk result IsAccepted }
    ensures named { IfOk result IsNamed }
{
    match accept(alloc, TWO_EPOCHS.as_bytes()) {
        Ok(decl) => Ok(decl),
        Err(_) => Err(Fail::from("the declaration isn't accepted")),
    }
}
