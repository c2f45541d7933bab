//! The causes behind the fields: tables, certificates and plans.

use crate::texts::{check_edits, check_made, check_told};
use std::alloc::Global;

/// A flag, with these dependences and triples.
const FLAG: &str = r#"sites = 3
clients = 1
object = [{ name = "f", type = "flag" }]
epoch = [{ weights = [1, 1, 1], initial = ["f TAS 2"], final = ["f TAS:0 2", "f Reset:ok 2"] }]
[[type]]
name = "flag"
states = ["0", "1"]
start = "0"
invocations = ["TAS", "Reset"]
responses = ["0", "1", "ok"]
rows = ["0 TAS 0 1", "1 TAS 1 1", "0 Reset ok 0", "1 Reset ok 0"]
triples = ["0 0 -", "0 1 TAS:0", "1 1 -", "1 0 Reset:ok"]
"#;

/// A slot, on one site.
const SLOT: &str = r#"sites = 1
clients = 1
[[type]]
name = "slot"
states = ["empty", "full"]
start = "empty"
invocations = ["Put", "Get"]
responses = ["ok", "item"]
rows = ["empty Put ok full", "full Get item empty"]
depends = ["Put Put:ok", "Put Get:item", "Get Put:ok", "Get Get:item"]
triples = ["empty empty -", "full full -", "empty full Put:ok", "full empty Get:item"]
[[object]]
name = "q"
type = "slot"
[[epoch]]
weights = [1]
initial = ["q Put 1", "q Get 1"]
final = ["q Put:ok 1", "q Get:item 1"]
"#;

/// The flag's text with these dependences.
fn flag(alloc: Global, depends: &str) -> Option<String> {
    format!(in alloc; "{FLAG}{depends}").ok()
}

#[test]
fn flags_and_slots(rt: HostRuntime) {
    let alone = "depends = [\"TAS TAS:0\"]\n";
    let both = "depends = [\"TAS TAS:0\", \"TAS Reset:ok\"]\n";
    for (depends, want) in [(alone, "0 unequal 3 0 0 flag,TAS,0"), (both, "accepted")] {
        check_made(&rt, rt.alloc(), &flag(rt.alloc(), depends), want, depends);
    }
    check_told(&rt, rt.alloc(), SLOT, "accepted", "slot");
}

#[test]
fn rows_that_are_no_table(rt: HostRuntime) {
    check_edits(
        &rt,
        rt.alloc(),
        &[
            ("\"1 R 1 1\"", "\"1 R 1 2\"", "0 unknown 1 register"),
            ("\"1 R 1 1\"", "\"1 S 1 1\"", "0 unknown 1 register"),
            ("\"1 R 1 1\"", "\"1 R okay 1\"", "0 unknown 1 register"),
            ("\"1 R 1 1\"", "\"2 R 1 1\"", "0 unknown 1 register"),
            ("\"1 R 1 1\"", "\"0 R 0 1\"", "0 repeated 1 register"),
            (
                "\"0 R 0 0\", \"1 R 1 1\"",
                "\"1 R 1 1\", \"1 R 1 1\", \"2 R 1 1\"",
                "0 unknown 2 register",
            ),
            (
                "\"1 R 1 1\"",
                "\"1 R 1 9\"]\ndepends = [\"no\"]\nhue = [\"",
                "not toml",
            ),
            (
                "rows = [\"0 R 0 0\"",
                "hue = 1\nrows = [\"0 R 0 9\"",
                "0 unknown 0 register",
            ),
        ],
    );
}

#[test]
fn certificates_and_plans(rt: HostRuntime) {
    check_edits(
        &rt,
        rt.alloc(),
        &[
            (
                "triples = [\"0 0 -\", ",
                "triples = [",
                "0 no start register",
            ),
            (
                "\"0 1 W1:ok\", ",
                "",
                "0 uncovered 0 3 false register,W1:ok",
            ),
            ("\"1 1 -\", ", "", "0 uncovered 0 3 true register,W1:ok"),
            (
                "depends = [\"R W0:ok\", ",
                "depends = [",
                "0 unequal 3 0 0 register,R,0",
            ),
            ("\"x R 2\"", "\"x R 1\"", "1 can miss 0 0 2 x,R,W0:ok"),
            (
                "\"x W1:ok 2\"",
                "\"x W1:ok 1\"",
                "1 can miss 0 0 3 x,R,W1:ok",
            ),
            ("\"x R 2\"", "\"x R 4\"", "1 too heavy 0 x"),
            ("\"x W1:ok 2\"", "\"x W1:ok 4\"", "1 too heavy 0 x"),
            ("weights = [1, 1, 1]", "weights = [0, 0, 0]", "1 no weight "),
            (
                "weights = [1, 1, 1]",
                "weights = [1, 1, 1]\n[[epoch]]\nweights = [1, 1, 0]",
                "1 can miss 0 0 2 x,R,W0:ok",
            ),
            (
                "[[epoch]]",
                "[[epoch]]\nweights = [1, 1, 1]\ninitial = [\"x R 3\"]\n\
                 final = [\"x W0:ok 1\", \"x W1:ok 1\"]\n[[epoch]]",
                "accepted",
            ),
            (
                "final = [\"x W0:ok 2\", \"x W1:ok 2\"]",
                "final = [\"x W0:ok 2\", \"x W1:ok 2\"]\n[[epoch]]\nweights = [0, 0, 0]",
                "2 no weight ",
            ),
        ],
    );
}
