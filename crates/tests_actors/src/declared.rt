//! The declarations that the tests run over.

ghost use Rattle.std.specs.Prelude.{IfOk};
ghost use Rattle.qc_decl.specs.Accepted.{IsAccepted};

use qc_accept::{DeclFault, accept};
use qc_decl::{Declaration, built_in};
use qc_list::OutOfMemory;
use std::alloc::{AllocError, Global};
use std::process::Abort;

/// The objects: the register of `@three`, which is the first one of both
/// declarations; a bell that needs nobody; a slot that is empty or full.
pub(crate) const X: u8 = 0;

pub(crate) const BELL: u8 = 1;

pub(crate) const SLOT: u8 = 2;

/// The invocations of the register.
pub(crate) const READ: u8 = 0;

pub(crate) const WRITE_0: u8 = 1;

pub(crate) const WRITE_1: u8 = 2;

/// The invocation of the bell.
pub(crate) const RING: u8 = 0;

/// The invocations of the slot.
pub(crate) const PUT: u8 = 0;

pub(crate) const GET: u8 = 1;

/// The events of the register.
pub(crate) const WROTE_0: u8 = 2;

pub(crate) const WROTE_1: u8 = 3;

/// Three sites that weigh 1, 2 and 1, and in the second epoch 2, 1 and nothing.
const WEIGHED: &str = r#"sites = 3
clients = 3
[[type]]
name = "register"
states = ["0", "1"]
start = "0"
invocations = ["R", "W0", "W1"]
responses = ["0", "1", "ok"]
rows = ["0 R 0 0", "1 R 1 1", "0 W0 ok 0", "1 W0 ok 0", "0 W1 ok 1", "1 W1 ok 1"]
depends = ["R W0:ok", "R W1:ok"]
triples = ["0 0 -", "0 1 W1:ok", "1 1 -", "1 0 W0:ok"]
[[type]]
name = "bell"
states = ["still"]
start = "still"
invocations = ["Ring"]
responses = ["ok"]
rows = ["still Ring ok still"]
triples = ["still still -"]
[[type]]
name = "slot"
states = ["empty", "full"]
start = "empty"
invocations = ["Put", "Get"]
responses = ["ok", "item"]
rows = ["empty Put ok full", "full Get item empty"]
depends = ["Put Put:ok", "Put Get:item", "Get Put:ok", "Get Get:item"]
triples = ["empty empty -", "full full -", "empty full Put:ok", "full empty Get:item"]
[[object]]
name = "x"
type = "register"
[[object]]
name = "b"
type = "bell"
[[object]]
name = "q"
type = "slot"
[[epoch]]
weights = [1, 2, 1]
initial = ["x R 2", "q Put 3", "q Get 3"]
final = ["x W0:ok 3", "x W1:ok 3", "q Put:ok 2", "q Get:item 2"]
[[epoch]]
weights = [2, 1, 0]
initial = ["x R 2", "q Put 2", "q Get 2"]
final = ["x W0:ok 2", "x W1:ok 2", "q Put:ok 2", "q Get:item 2"]
"#;

/// `@three`.
pub(crate) fn three(rt: &impl Abort, alloc: Global) -> Result<Declaration, OutOfMemory>
    ensures { IfOk result IsAccepted }
{
    match built_in(alloc, "@three")? {
        Some(decl) => Ok(decl),
        None => panic!(rt; "no @three"),
    }
}

/// The declaration with weights.
pub(crate) fn weighed(rt: &impl Abort, alloc: Global) -> Result<Declaration, OutOfMemory>
    ensures { IfOk result IsAccepted }
{
    match accept(alloc, WEIGHED.as_bytes()) {
        Ok(decl) => Ok(decl),
        Err(DeclFault::OutOfMemory) => Err(AllocError),
        Err(_) => panic!(rt; "not accepted"),
    }
}
