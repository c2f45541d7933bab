//! Texts that are no TOML, and other spellings of a declaration.

use crate::texts::{THREE, check_edits, check_made, check_told, edited};
use qc_accept::{DeclFault, accept};
use qc_decl::{Declaration, KindNames, Names, built_in};
use qc_plan::Plan;
use qc_table::{Kind, Relation, Table};
use std::alloc::{AllocError, Global};
use std::process::Abort;
use std::test::Fail;

#[test]
fn three_is_as_built_in(rt: HostRuntime) -> Result<(), Fail> {
    let three = built_in(rt.alloc(), "@three")?.ok_or("no @three")?;
    assert_accepted_as(&rt, rt.alloc(), &three);
    Ok(())
}

/// The text of `@three` is accepted as this declaration.
fn assert_accepted_as(rt: &impl Abort, alloc: Global, three: &Declaration) {
    let Ok(decl) = accept(alloc, THREE.as_bytes()) else {
        panic!(rt; "not accepted");
    };
    assert_same(rt, &decl, three);
}

/// Two declarations are the same.
fn assert_same(rt: &impl Abort, a: &Declaration, b: &Declaration) {
    assert!(rt; (a.sites, a.clients) == (b.sites, b.clients));
    assert!(rt; a.objects.items() == b.objects.items());
    assert!(rt; are_same_names(&a.object_names, &b.object_names));
    assert!(rt; are_same_kinds(a.kinds.items(), b.kinds.items()));
    assert!(rt; are_same_kind_names(a.kind_names.items(), b.kind_names.items()));
    assert!(rt; are_same_weights(a.plans.items(), b.plans.items()));
    assert!(rt; are_same_needs(a, b));
}

/// Whether the first types are there and the same.
fn are_same_kinds(a: &[Kind], b: &[Kind]) -> bool {
    match (a.first(), b.first()) {
        (Some(a), Some(b)) => {
            are_same_tables(&a.table, &b.table) && are_same_relations(&a.relation, &b.relation)
        }
        _ => false,
    }
}

fn are_same_tables(a: &Table, b: &Table) -> bool {
    are_same_counts(a, b) && a.events() == b.events() && are_same_steps(a, b)
}

fn are_same_steps(a: &Table, b: &Table) -> bool {
    for event in 0..4u8 {
        if a.step(0, event) != b.step(0, event) || a.step(1, event) != b.step(1, event) {
            return false;
        }
    }
    true
}

fn are_same_counts(a: &Table, b: &Table) -> bool {
    a.states() == b.states()
        && a.invs() == b.invs()
        && a.resps() == b.resps()
        && a.start() == b.start()
}

fn are_same_relations(a: &Relation, b: &Relation) -> bool {
    for inv in 0..3u8 {
        if a.depended(inv) != b.depended(inv) {
            return false;
        }
    }
    true
}

/// Whether the names of the first types are there and the same.
fn are_same_kind_names(a: &[KindNames], b: &[KindNames]) -> bool {
    match (a.first(), b.first()) {
        (Some(a), Some(b)) => {
            a.name.text() == b.name.text()
                && are_same_names(&a.states, &b.states)
                && are_same_names(&a.invs, &b.invs)
                && are_same_names(&a.resps, &b.resps)
        }
        _ => false,
    }
}

/// Whether the first plans are there and have the same weights.
fn are_same_weights(a: &[Plan], b: &[Plan]) -> bool {
    match (a.first(), b.first()) {
        (Some(a), Some(b)) => a.weights.items() == b.weights.items(),
        _ => false,
    }
}

/// Whether the thresholds of the first epoch and object are the same.
fn are_same_needs(a: &Declaration, b: &Declaration) -> bool {
    for event in 0..4u8 {
        if a.append_need(1, 0, event) != b.append_need(1, 0, event) {
            return false;
        }
    }
    for inv in 0..3u8 {
        if a.read_need(1, 0, inv) != b.read_need(1, 0, inv) {
            return false;
        }
    }
    true
}

/// Whether two lists of names are the same.
fn are_same_names(a: &Names, b: &Names) -> bool {
    if a.items().len() != b.items().len() {
        return false;
    }
    for (a, b) in a.items().iter().zip(b.items()) {
        if a.text() != b.text() {
            return false;
        }
    }
    true
}

#[test]
fn texts_that_are_no_toml(rt: HostRuntime) {
    for text in [
        "sites",
        "sites = ",
        "sites = 3\nsites = 3\n",
        "sites = 9223372036854775808\n",
        "[type",
        "a = 1\n[a]\n",
    ] {
        check_told(&rt, rt.alloc(), text, "not toml", text);
    }
    for bytes in [
        b"\xff".as_slice(),
        b"sites = 3 # \xc3\n",
        b"\xed\xa0\x80 = 1",
    ] {
        assert!(rt; matches!(accept(rt.alloc(), bytes), Err(DeclFault::NotToml)));
    }
}

#[test]
fn a_text_may_be_cut_off(rt: HostRuntime) -> Result<(), Fail> {
    let cut = THREE.split_once("register").ok_or("no register")?.0;
    check_told(&rt, rt.alloc(), cut, "not toml", cut);
    Ok(())
}

/// The text behind a mark of its encoding.
fn marked(alloc: Global) -> Option<String> {
    format!(in alloc; "\u{feff}{THREE}").ok()
}

#[test]
fn what_the_reader_takes(rt: HostRuntime) {
    let alloc = rt.alloc();
    check_told(&rt, alloc, "", "field sites", "nothing");
    check_told(&rt, alloc, "# nothing\n", "field sites", "# nothing");
    check_made(&rt, alloc, &marked(alloc), "accepted", "a mark");
    check_edits(
        &rt,
        alloc,
        &[
            ("sites = 3", "\"sites\" = 0x3", "accepted"),
            ("sites = 3", "'sites' = 0b11", "accepted"),
            ("sites = 3", "sites = 9223372036854775807", "field sites"),
            ("clients = 3\n", "clients = 3 # many\r\n", "accepted"),
            ("name = \"register\"", "name = '''register'''", "accepted"),
            ("name = \"register\"", "name = \"\\x72egister\"", "accepted"),
            ("name = \"x\"", "name = \"\\e\"", "field object[0].name"),
            ("sites = 3", "sites = 3\ntime = 07:32", "field time"),
            ("sites = 3", "sites = 3\nmuch = 1e999", "not toml"),
            (
                "name = \"x\"\ntype = \"register\"",
                "type = \"register\"\nname = \"x\"",
                "accepted",
            ),
            (
                "[[object]]\nname = \"x\"\ntype = \"register\"\n",
                "",
                "field object",
            ),
            (
                "clients = 3\n",
                "clients = 3\nobject = [{ name = \"x\", type = \"register\", }]\n",
                "not toml",
            ),
        ],
    );
}

/// An array in an array, and so on, so many deep.
fn nested(alloc: Global, depth: usize) -> Result<String, AllocError> {
    let mut text = String::from_str(alloc, "sites = 3\nnest = ")?;
    for _ in 0..depth {
        text.push_str("[")?;
    }
    for _ in 0..depth {
        text.push_str("]")?;
    }
    Ok(text)
}

/// The text with such an array.
fn nesting(alloc: Global, depth: usize) -> Option<String> {
    let deep = nested(alloc, depth).ok()?;
    edited(alloc, "sites = 3", deep.as_str())
}

#[test]
fn arrays_are_nested_up_to_80_deep(rt: HostRuntime) {
    for (depth, want) in [(79, "field nest"), (80, "field nest"), (81, "not toml")] {
        check_made(&rt, rt.alloc(), &nesting(rt.alloc(), depth), want, want);
    }
}

/// The text with its objects declared so.
fn with_objects(alloc: Global, objects: &str) -> Option<String> {
    let (before, after) = THREE.split_once(OBJECTS)?;
    format!(in alloc; "{objects}{before}{after}").ok()
}

const OBJECTS: &str = "[[object]]\nname = \"x\"\ntype = \"register\"\n";

#[test]
fn inline_tables_and_other_orders(rt: HostRuntime) {
    for (objects, want) in [
        (
            "object = [{ type = \"register\", name = \"x\" }]\n",
            "accepted",
        ),
        (
            "object = [{\n type = \"register\", # in two lines\n name = \"x\",\n}]\n",
            "accepted",
        ),
        ("object = [\"x\"]\n", "field object[0]"),
        (
            "object = [{ type = \"register\", name = \"x\" }, \"y\"]\n",
            "field object[1]",
        ),
        (
            "object = [1, 2, 3, 4, 5, 6, 7, 8, 9, 10, 11, 12, 13, 14, 15, 16, 17]\n",
            "field object",
        ),
        ("object = []\n", "field object"),
        ("object = {}\n", "field object"),
        ("object.name = \"x\"\n", "field object"),
    ] {
        check_made(
            &rt,
            rt.alloc(),
            &with_objects(rt.alloc(), objects),
            want,
            objects,
        );
    }
}
