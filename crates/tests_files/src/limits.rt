//! Each limit at its edge, and one past it.

use crate::texts::{THREE, check_edits, check_made};
use std::alloc::{AllocError, Global};
use std::process::Abort;

/// Texts in quotes with commas between them: the text of each number.
fn list<F: Fn(&mut String, u32) -> Result<(), AllocError>>(
    alloc: Global,
    count: u32,
    put: F,
) -> Result<String, AllocError>
    requires { F.IsAlwaysCallable put }
{
    let mut text = String::new(alloc);
    for k in 0..count {
        text.push_str("\"")?;
        put(&mut text, k)?;
        text.push_str("\",")?;
    }
    Ok(text)
}

#[test]
fn numbers_have_limits(rt: HostRuntime) {
    check_edits(
        &rt,
        rt.alloc(),
        &[
            ("sites = 3", "sites = 0", "field sites"),
            ("sites = 3", "sites = -1", "field sites"),
            ("sites = 3", "sites = 17", "field sites"),
            ("sites = 3", "sites = 16", "field epoch[0].weights"),
            ("sites = 3", "sites = 256", "field sites"),
            ("sites = 3", "sites = 259", "field sites"),
            ("clients = 3", "clients = 0", "field clients"),
            ("clients = 3", "clients = 16", "accepted"),
            ("clients = 3", "clients = 17", "field clients"),
            (
                "weights = [1, 1, 1]",
                "weights = [1, 1]",
                "field epoch[0].weights",
            ),
            (
                "weights = [1, 1, 1]",
                "weights = [1, 1, 1, 1]",
                "field epoch[0].weights",
            ),
            ("weights = [1, 1, 1]", "weights = [0, 1, 2]", "accepted"),
            (
                "weights = [1, 1, 1]",
                "weights = [1, 1, 256]",
                "field epoch[0].weights",
            ),
            (
                "weights = [1, 1, 1]",
                "weights = [1, 1, -1]",
                "field epoch[0].weights",
            ),
            (
                "weights = [1, 1, 1]",
                "weights = [1, 1, 255]",
                "1 can miss 0 0 2 x,R,W0:ok",
            ),
            ("\"x R 2\"", "\"x R 65535\"", "1 too heavy 0 x"),
            ("\"x R 2\"", "\"x R 65536\"", "field epoch[0].initial"),
            ("\"x R 2\"", "\"x R 99999\"", "field epoch[0].initial"),
            ("\"x R 2\"", "\"x R 000002\"", "field epoch[0].initial"),
            ("\"x R 2\"", "\"x R 00003\"", "accepted"),
            ("\"x R 2\"", "\"x R -1\"", "field epoch[0].initial"),
            ("\"x R 2\"", "\"x R 1_0\"", "field epoch[0].initial"),
            (
                "name = \"x\"",
                "name = \"abcdefghijklmnopqrstuvwxyzABCDEFG\"",
                "field object[0].name",
            ),
            (
                "name = \"x\"",
                "name = \"_bcdefghijklmnopqrstuvwxyzABCDE9\"",
                "field epoch[0].initial",
            ),
            (
                "states = [\"0\", \"1\"]",
                "states = []",
                "field type[0].states",
            ),
            (
                "invocations = [\"R\", \"W0\", \"W1\"]",
                "invocations = []",
                "field type[0].invocations",
            ),
            (
                "responses = [\"0\", \"1\", \"ok\"]",
                "responses = []",
                "field type[0].responses",
            ),
        ],
    );
}

/// The text with more behind a part of it; `None` where it isn't there, or
/// memory is wanted.
fn behind(alloc: Global, part: &str, more: &str) -> Option<String> {
    let (before, after) = THREE.split_once(part)?;
    format!(in alloc; "{before}{part}{more}{after}").ok()
}

/// The same with more behind each of two parts, the second behind the first.
fn behind_both(alloc: Global, first: (&str, &String), second: (&str, &String)) -> Option<String> {
    let (before, rest) = THREE.split_once(first.0)?;
    let (middle, after) = rest.split_once(second.0)?;
    let (part, more) = first;
    let (other, others) = second;
    format!(in alloc; "{before}{part}{more}{middle}{other}{others}{after}").ok()
}

/// The text with so many names more in a list that begins so.
fn with_names(alloc: Global, part: &str, more: u32) -> Option<String> {
    let names = list(alloc, more, |text, k| write!(text, "n{k}")).ok()?;
    behind(alloc, part, names.as_str())
}

#[test]
fn names_have_limits(rt: HostRuntime) {
    for (part, more, want) in [
        ("states = [", 62, "accepted"),
        ("states = [", 63, "field type[0].states"),
        ("invocations = [", 29, "accepted"),
        ("invocations = [", 30, "field type[0].invocations"),
        ("responses = [", 29, "accepted"),
        ("responses = [", 30, "field type[0].responses"),
    ] {
        check_made(
            &rt,
            rt.alloc(),
            &with_names(rt.alloc(), part, more),
            want,
            part,
        );
    }
}

/// So many tables of a key, each with this body, and a name where it has one.
fn tables(alloc: Global, head: &str, body: &str, count: u32) -> Result<String, AllocError> {
    let mut tables = String::new(alloc);
    for k in 0..count {
        if head == EPOCH {
            write!(tables, "{head}\n{body}")?;
        } else {
            write!(tables, "{head}\nname = \"n{k}\"\n{body}")?;
        }
    }
    Ok(tables)
}

const EPOCH: &str = "[[epoch]]";

/// The text with so many tables more in front of the first one of their key.
fn with_tables(alloc: Global, head: &str, body: &str, more: u32) -> Option<String> {
    let tables = tables(alloc, head, body, more).ok()?;
    let (before, after) = THREE.split_once(head)?;
    format!(in alloc; "{before}{tables}{head}{after}").ok()
}

#[test]
fn tables_have_limits(rt: HostRuntime) {
    let kind =
        "states = [\"0\"]\nstart = \"0\"\ninvocations = [\"R\"]\nresponses = [\"0\"]\nrows = []\n\
         triples = [\"0 0 -\"]\n";
    let object = "type = \"register\"\n";
    let epoch =
        "weights = [1, 1, 1]\ninitial = [\"x R 3\"]\nfinal = [\"x W0:ok 1\", \"x W1:ok 1\"]\n";
    for (head, body, more, want) in [
        ("[[type]]", kind, 7, "accepted"),
        ("[[type]]", kind, 8, "field type"),
        ("[[object]]", object, 15, "1 can miss 0 0 2 n0,R,W0:ok"),
        ("[[object]]", object, 16, "field object"),
        (EPOCH, epoch, 7, "accepted"),
        (EPOCH, epoch, 8, "field epoch"),
    ] {
        let text = with_tables(rt.alloc(), head, body, more);
        check_made(&rt, rt.alloc(), &text, want, head);
    }
}

/// The text with so many texts more in a list that begins so.
fn with_texts(alloc: Global, part: &str, one: &str, more: u32) -> Option<String> {
    let texts = list(alloc, more, |text, _| text.push_str(one)).ok()?;
    behind(alloc, part, texts.as_str())
}

#[test]
fn triples_and_rows_have_limits(rt: HostRuntime) {
    let (triples, rows) = ("triples = [", "rows = [");
    for (part, one, more, want) in [
        (triples, "0 0 -", 1_023, "accepted"),
        (triples, "0 0 -", 1_024, "field type[0].triples"),
        (triples, "a b c", 65_533, "field type[0].triples"),
        (rows, "0 R 9 0", 131_066, "0 unknown 0 register"),
        (rows, "0 R 9 0", 131_067, "field type[0].rows"),
    ] {
        let text = with_texts(rt.alloc(), part, one, more);
        check_made(&rt, rt.alloc(), &text, want, part);
    }
}

/// 62 states more, and so many pairs of two of them as triples.
fn with_triples(alloc: Global, more: u32) -> Option<String> {
    let states = list(alloc, 62, |text, k| write!(text, "s{k}")).ok()?;
    let triples = list(
        alloc,
        more,
        |text, k| write!(text, "s{} s{} -", k % 61, k / 61 % 62),
    )
    .ok()?;
    behind_both(alloc, ("states = [", &states), ("triples = [", &triples))
}

#[test]
fn a_type_may_have_65536_triples(rt: HostRuntime) {
    for (more, want) in [(65_532, "accepted"), (65_533, "field type[0].triples")] {
        check_made(&rt, rt.alloc(), &with_triples(rt.alloc(), more), want, want);
    }
}

/// The response of the row at this place: of each of 29 invocations first 0,
/// then 1, then ok.
fn response(place: u32) -> &'static str {
    if place < 29 {
        "0"
    } else if place < 58 {
        "1"
    } else {
        "ok"
    }
}

/// 29 invocations more, and so many rows more.
fn with_rows(alloc: Global, more: u32) -> Option<String> {
    let invs = list(alloc, 29, |text, k| write!(text, "i{k}")).ok()?;
    let rows = list(
        alloc,
        more,
        |text, k| write!(text, "0 i{} {} 0", k % 29, response(k)),
    )
    .ok()?;
    behind_both(
        alloc,
        ("invocations = [", &invs),
        ("\"0 W1 ok 1\", ", &rows),
    )
}

/// 32 invocations with two responses each are 64 events.
#[test]
fn a_type_may_have_64_events(rt: HostRuntime) {
    for (more, want) in [
        (60, "0 unequal 1 0 0 register,i0,0"),
        (61, "0 too many register"),
    ] {
        check_made(&rt, rt.alloc(), &with_rows(rt.alloc(), more), want, want);
    }
}
