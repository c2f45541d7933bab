//! Words that ask something.

use crate::reading::{check_checks, check_loads, check_runs};
use qc_words::{Errand, asked_by};

#[test]
fn checks(rt: HostRuntime) {
    check_checks(
        &rt,
        rt.alloc(),
        &[
            ("check @one", "@one"),
            ("check @three", "@three"),
            ("check a.toml", "a.toml"),
            ("check check", "check"),
            ("check =", "="),
            ("check a-b", "a-b"),
            ("check a=b", "a=b"),
            ("check ä", "ä"),
        ],
    );
}

#[test]
fn runs_without_options(rt: HostRuntime) {
    check_runs(
        &rt,
        rt.alloc(),
        &[
            ("run @one s", "@one", "s", 1, None),
            ("run a a", "a", "a", 1, None),
            ("run run check", "run", "check", 1, None),
            ("run workers dir", "workers", "dir", 1, None),
            ("run 1 +1", "1", "+1", 1, None),
        ],
    );
}

#[test]
fn options_stand_anywhere_behind_the_command(rt: HostRuntime) {
    check_runs(
        &rt,
        rt.alloc(),
        &[
            ("run a b --workers 4", "a", "b", 4, None),
            ("run a --workers 4 b", "a", "b", 4, None),
            ("run --workers 4 a b", "a", "b", 4, None),
            ("run a b --workers=4", "a", "b", 4, None),
            ("run a --workers=4 b", "a", "b", 4, None),
            ("run --workers=4 a b", "a", "b", 4, None),
            ("run a b --dir d", "a", "b", 1, Some("d")),
            ("run a --dir d b", "a", "b", 1, Some("d")),
            ("run --dir d a b", "a", "b", 1, Some("d")),
            ("run a b --dir=d", "a", "b", 1, Some("d")),
            ("run a --dir=d b", "a", "b", 1, Some("d")),
            ("run --dir=d a b", "a", "b", 1, Some("d")),
            ("run --dir d a b --workers 4", "a", "b", 4, Some("d")),
            ("run --dir d --workers 4 a b", "a", "b", 4, Some("d")),
            ("run --workers 4 --dir d a b", "a", "b", 4, Some("d")),
            ("run --dir=d --workers=4 a b", "a", "b", 4, Some("d")),
            ("run a --dir d --workers=4 b", "a", "b", 4, Some("d")),
            ("run --workers=4 a --dir d b", "a", "b", 4, Some("d")),
            ("run a --workers 4 b --dir=run", "a", "b", 4, Some("run")),
            ("run a b --dir=d --workers 4", "a", "b", 4, Some("d")),
        ],
    );
}

#[test]
fn values_of_options(rt: HostRuntime) {
    check_runs(
        &rt,
        rt.alloc(),
        &[
            ("run a b --workers 1", "a", "b", 1, None),
            ("run a b --workers=1", "a", "b", 1, None),
            ("run a b --workers 8", "a", "b", 8, None),
            ("run a b --workers=8", "a", "b", 8, None),
            ("run a b --workers 00008", "a", "b", 8, None),
            ("run a b --dir=d=e", "a", "b", 1, Some("d=e")),
            ("run a b --dir==", "a", "b", 1, Some("=")),
            ("run a b --dir d=e", "a", "b", 1, Some("d=e")),
            ("run a b --dir workers", "a", "b", 1, Some("workers")),
            (
                "run a b --dir=d--workers=2",
                "a",
                "b",
                1,
                Some("d--workers=2"),
            ),
            ("run a b --dir=d-", "a", "b", 1, Some("d-")),
            ("run a b --dir /tmp/ü", "a", "b", 1, Some("/tmp/ü")),
        ],
    );
}

#[test]
fn loads(rt: HostRuntime) {
    check_loads(
        &rt,
        rt.alloc(),
        &[
            ("load 1 0", 1, 0, 1),
            ("load 500 65536", 500, 65_536, 1),
            ("load 00500 00000", 500, 0, 1),
            ("load 4 7 --workers 8", 4, 7, 8),
            ("load 4 --workers=8 7", 4, 7, 8),
            ("load --workers 8 00004 7", 4, 7, 8),
            ("load 007 07 --workers=00001", 7, 7, 1),
        ],
    );
}

#[test]
fn words_may_have_spaces(rt: HostRuntime) {
    let words = ["run", "a b", " ", "--dir= d"];
    let want = Errand::Run {
        decl: "a b",
        script: " ",
        workers: 1,
        dir: Some(" d"),
    };
    assert!(rt; asked_by(rt.alloc(), &words) == Ok(want));
}
