//! Fields that are missing or not of their form.

use crate::texts::check_edits;

#[test]
fn keys_are_required(rt: HostRuntime) {
    check_edits(
        &rt,
        rt.alloc(),
        &[
            ("sites = 3\n", "", "field sites"),
            ("clients = 3\n", "", "field clients"),
            ("name = \"register\"\n", "", "field type[0].name"),
            ("states = [\"0\", \"1\"]\n", "", "field type[0].states"),
            ("start = \"0\"\n", "", "field type[0].start"),
            (
                "invocations = [\"R\", \"W0\", \"W1\"]\n",
                "",
                "field type[0].invocations",
            ),
            (
                "responses = [\"0\", \"1\", \"ok\"]\n",
                "",
                "field type[0].responses",
            ),
            ("rows =", "depends_not =", "field type[0].rows"),
            ("name = \"x\"\n", "", "field object[0].name"),
            ("type = \"register\"\n", "", "field object[0].type"),
            ("weights = [1, 1, 1]\n", "", "field epoch[0].weights"),
            ("[[type]]", "[[types]]", "field type"),
            ("[[object]]", "[[objects]]", "field object"),
            ("[[epoch]]", "[[epochs]]", "field epoch"),
            (
                "depends = [\"R W0:ok\", \"R W1:ok\"]\n\
                 triples = [\"0 0 -\", \"0 1 W1:ok\", \"1 1 -\", \"1 0 W0:ok\"]\n",
                "",
                "0 no start register",
            ),
            ("initial = [\"x R 2\"]\n", "", "1 can miss 0 0 2 x,R,W0:ok"),
            (
                "final = [\"x W0:ok 2\", \"x W1:ok 2\"]\n",
                "",
                "1 can miss 0 0 2 x,R,W0:ok",
            ),
        ],
    );
}

#[test]
fn values_are_of_their_kind(rt: HostRuntime) {
    check_edits(
        &rt,
        rt.alloc(),
        &[
            ("sites = 3", "sites = \"3\"", "field sites"),
            ("sites = 3", "sites = 3.0", "field sites"),
            ("clients = 3", "clients = [3]", "field clients"),
            ("name = \"register\"", "name = 1", "field type[0].name"),
            (
                "states = [\"0\", \"1\"]",
                "states = \"0\"",
                "field type[0].states",
            ),
            (
                "states = [\"0\", \"1\"]",
                "states = [\"0\", 1]",
                "field type[0].states",
            ),
            (
                "states = [\"0\", \"1\"]",
                "states = { a = \"0\" }",
                "field type[0].states",
            ),
            ("start = \"0\"", "start = 0", "field type[0].start"),
            (
                "invocations = [\"R\",",
                "invocations = [true,",
                "field type[0].invocations",
            ),
            (
                "responses = [\"0\",",
                "responses = [[\"0\"],",
                "field type[0].responses",
            ),
            (
                "rows = [\"0 R 0 0\"",
                "rows = [1979-05-27",
                "field type[0].rows",
            ),
            (
                "depends = [\"R W0:ok\"",
                "depends = [1",
                "field type[0].depends",
            ),
            (
                "triples = [\"0 0 -\"",
                "triples = [1",
                "field type[0].triples",
            ),
            (
                "triples = [\"0 0 -\", \"0 1 W1:ok\", \"1 1 -\", \"1 0 W0:ok\"]",
                "triples = \"0 0 -\"",
                "field type[0].triples",
            ),
            ("name = \"x\"", "name = []", "field object[0].name"),
            ("type = \"register\"", "type = 0", "field object[0].type"),
            (
                "weights = [1, 1, 1]",
                "weights = [1, 1, \"1\"]",
                "field epoch[0].weights",
            ),
            (
                "weights = [1, 1, 1]",
                "weights = 3",
                "field epoch[0].weights",
            ),
            (
                "initial = [\"x R 2\"]",
                "initial = [2]",
                "field epoch[0].initial",
            ),
            (
                "final = [\"x W0:ok 2\"",
                "final = [2",
                "field epoch[0].final",
            ),
            ("sites = 3", "sites = 3\nobject = 1", "not toml"),
        ],
    );
}

#[test]
fn items_of_tables_have_their_own_path(rt: HostRuntime) {
    let object = "[[object]]\nname = \"x\"\ntype = \"register\"\n";
    check_edits(
        &rt,
        rt.alloc(),
        &[
            (object, "", "field object"),
            ("clients = 3", "clients = 3\nobject = []", "not toml"),
            (
                "[[object]]\nname = \"x\"\ntype = \"register\"\n",
                "[object]\nname = \"x\"\ntype = \"register\"\n",
                "field object",
            ),
            (
                "[[object]]",
                "[[object]]\nname = \"y\"\ntype = \"register\"\n[[object]]",
                "1 can miss 0 0 2 y,R,W0:ok",
            ),
            (
                "[[object]]",
                "[[object]]\nname = \"x\"\ntype = \"register\"\n[[object]]",
                "field object[1].name",
            ),
            (
                "[[object]]",
                "[[object]]\nname = \"y\"\n[[object]]",
                "field object[0].type",
            ),
        ],
    );
}

#[test]
fn other_keys_are_refused_last_in_their_table(rt: HostRuntime) {
    check_edits(
        &rt,
        rt.alloc(),
        &[
            ("sites = 3", "sites = 3\nhue = 1\nhub = 2", "field hub"),
            (
                "start = \"0\"",
                "start = \"0\"\nhue = 1",
                "field type[0].hue",
            ),
            (
                "start = \"0\"",
                "start = \"2\"\nhue = 1",
                "field type[0].start",
            ),
            (
                "type = \"register\"",
                "type = \"register\"\nTYPE = 1",
                "field object[0].TYPE",
            ),
            (
                "weights = [1, 1, 1]",
                "weights = [1, 1, 1]\n\"a b\" = 1\n\"\" = 2",
                "field epoch[0].",
            ),
            (
                "weights = [1, 1, 1]",
                "weights = [1, 1, 1]\n\"a b\" = 1",
                "field epoch[0].a b",
            ),
            (
                "weights = [1, 1, 1]",
                "weights = [1, 1]\nhue = 1",
                "field epoch[0].weights",
            ),
            ("[[object]]", "[[zoo]]\na = 1\n[[object]]", "field zoo"),
        ],
    );
}
