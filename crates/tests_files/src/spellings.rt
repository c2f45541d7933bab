//! Texts of fields that are not of their form.

use crate::texts::check_edits;

#[test]
fn texts_are_of_their_form(rt: HostRuntime) {
    check_edits(
        &rt,
        rt.alloc(),
        &[
            (
                "name = \"register\"",
                "name = \"re-gister\"",
                "field type[0].name",
            ),
            ("name = \"register\"", "name = \"\"", "field type[0].name"),
            (
                "name = \"register\"",
                "name = \"régister\"",
                "field type[0].name",
            ),
            (
                "states = [\"0\", \"1\"]",
                "states = [\"0\", \"0\"]",
                "field type[0].states",
            ),
            (
                "states = [\"0\", \"1\"]",
                "states = [\"0\", \"1 \"]",
                "field type[0].states",
            ),
            ("start = \"0\"", "start = \"2\"", "field type[0].start"),
            ("\"0 R 0 0\"", "\"0 R 0\"", "field type[0].rows"),
            ("\"0 R 0 0\"", "\"0 R 0 0 0\"", "field type[0].rows"),
            ("\"0 R 0 0\"", "\"0 R  0 0\"", "field type[0].rows"),
            ("\"0 R 0 0\"", "\" 0 R 0 0\"", "field type[0].rows"),
            ("\"0 R 0 0\"", "\"0 R 0 0 \"", "field type[0].rows"),
            ("\"0 R 0 0\"", "\"0 R 0:1 0\"", "field type[0].rows"),
            (
                "depends = [\"R W0:ok\"",
                "depends = [\"R\"",
                "field type[0].depends",
            ),
            (
                "depends = [\"R W0:ok\"",
                "depends = [\"R W0 ok\"",
                "field type[0].depends",
            ),
            (
                "depends = [\"R W0:ok\"",
                "depends = [\"R W0:0\"",
                "field type[0].depends",
            ),
            (
                "depends = [\"R W0:ok\"",
                "depends = [\"W0:ok R\"",
                "field type[0].depends",
            ),
            (
                "depends = [\"R W0:ok\"",
                "depends = [\"S W0:ok\"",
                "field type[0].depends",
            ),
            (
                "depends = [\"R W0:ok\"",
                "depends = [\"R W0:ok:ok\"",
                "field type[0].depends",
            ),
            ("\"0 1 W1:ok\"", "\"0 1\"", "field type[0].triples"),
            ("\"0 1 W1:ok\"", "\"0 1 \"", "field type[0].triples"),
            ("\"0 1 W1:ok\"", "\"0 2 W1:ok\"", "field type[0].triples"),
            ("\"0 1 W1:ok\"", "\"0 1 W1:ok,\"", "field type[0].triples"),
            (
                "\"0 1 W1:ok\"",
                "\"0 1 W1:ok,W1:ok\"",
                "field type[0].triples",
            ),
            (
                "\"0 1 W1:ok\"",
                "\"0 1 W1:ok, W0:ok\"",
                "field type[0].triples",
            ),
            ("\"0 1 W1:ok\"", "\"0 1 -,W1:ok\"", "field type[0].triples"),
            ("\"0 1 W1:ok\"", "\"0 1 W1\"", "field type[0].triples"),
            (
                "type = \"register\"",
                "type = \"flag\"",
                "field object[0].type",
            ),
            ("name = \"x\"", "name = \"x.y\"", "field object[0].name"),
            ("\"x R 2\"", "\"y R 2\"", "field epoch[0].initial"),
            ("\"x R 2\"", "\"x S 2\"", "field epoch[0].initial"),
            ("\"x R 2\"", "\"x R:0 2\"", "field epoch[0].initial"),
            ("\"x R 2\"", "\"x R +2\"", "field epoch[0].initial"),
            ("\"x R 2\"", "\"x R \"", "field epoch[0].initial"),
            (
                "\"x R 2\"",
                "\"x R 2\", \"x R 2\"",
                "field epoch[0].initial",
            ),
            ("\"x W0:ok 2\"", "\"x W0 2\"", "field epoch[0].final"),
            ("\"x W0:ok 2\"", "\"x W0:1 2\"", "field epoch[0].final"),
            ("\"x W0:ok 2\"", "\"x W1:ok 2\"", "field epoch[0].final"),
            ("\"x R 2\"", "\"x R 00002\"", "accepted"),
        ],
    );
}
