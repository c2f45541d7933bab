//! Words that ask nothing.

use crate::reading::check_refused;
use qc_words::{WordsFault, asked_by};

#[test]
fn no_words(rt: HostRuntime) {
    assert!(rt; asked_by(rt.alloc(), &[]) == Err(WordsFault::Usage));
}

#[test]
fn commands(rt: HostRuntime) {
    check_refused(
        &rt,
        rt.alloc(),
        &[
            "",
            " run a b",
            "help",
            "-h",
            "--help",
            "--version",
            "--",
            "-- run a b",
            "--workers 1 run a b",
            "Run a b",
            "RUN a b",
            "ru a b",
            "runs a b",
            "upgrade a b",
            "a run b",
        ],
    );
}

#[test]
fn missing_and_extra_words(rt: HostRuntime) {
    check_refused(
        &rt,
        rt.alloc(),
        &[
            "check",
            "check a b",
            "run",
            "run @one",
            "run a b c",
            "run --dir d a",
            "run a --workers 2",
            "run a b --workers 2 c",
            "load",
            "load 1",
            "load 1 2 3",
            "load 1 --workers 2",
        ],
    );
}

#[test]
fn empty_words(rt: HostRuntime) {
    check_refused(
        &rt,
        rt.alloc(),
        &[
            "check ",
            "check a ",
            "check  a",
            "run  b",
            "run a ",
            "run a b ",
            "run a b --dir ",
            "run a b --workers ",
            "run a b --workers  2",
            "load 1 ",
        ],
    );
}

#[test]
fn words_that_begin_with_a_dash(rt: HostRuntime) {
    check_refused(
        &rt,
        rt.alloc(),
        &[
            "check -",
            "check -a",
            "check --",
            "check -- a",
            "run a -",
            "run a -b",
            "run -a b",
            "run -- a b",
            "run a -- b",
            "run a b --",
            "run a b ---",
            "run a b -h",
            "run a b --help",
            "run a b -V",
            "run a b --version",
            "run -h",
            "run --help",
            "run help",
            "load -1 7",
            "load 1 -7",
            "load 1 -- 7",
        ],
    );
}

#[test]
fn names_of_options(rt: HostRuntime) {
    check_refused(
        &rt,
        rt.alloc(),
        &[
            "run a b --w 1",
            "run a b --worker 1",
            "run a b --worker=1",
            "run a b --workerss 1",
            "run a b --Workers 1",
            "run a b --WORKERS=1",
            "run a b -workers 1",
            "run a b -w1",
            "run a b ---workers 1",
            "run a b --di d",
            "run a b -d d",
            "run a b --=1",
            "run a b --= d",
            "run a b --DECL=c",
            "run --DECL a b",
            "run a b --dird",
            "run a b --dir:d",
            "check a --workers 1",
            "check a --workers=1",
            "check a --dir d",
            "check --dir=d a",
            "load 4 7 --dir d",
            "load 4 7 --dir=d",
        ],
    );
}

#[test]
fn options_without_a_value(rt: HostRuntime) {
    check_refused(
        &rt,
        rt.alloc(),
        &[
            "run a b --workers",
            "run a b --workers=",
            "run --workers= a b",
            "run a b --dir",
            "run a b --dir=",
            "run --dir= a b",
            "run a b --dir -",
            "run a b --dir -d",
            "run a b --dir=-",
            "run a b --dir=-d",
            "run a b --dir=--",
            "run a b --dir --",
            "run a b --dir --workers 1",
            "run a b --dir --workers=1",
            "run a b --workers --dir d",
            "run a --dir b",
            "load 4 7 --workers",
            "load 4 7 --workers=",
        ],
    );
}

#[test]
fn options_that_are_given_twice(rt: HostRuntime) {
    check_refused(
        &rt,
        rt.alloc(),
        &[
            "run a b --workers 1 --workers 1",
            "run a b --workers=1 --workers 1",
            "run a b --workers 1 --workers=1",
            "run --workers=1 a b --workers=1",
            "run a b --dir d --dir d",
            "run a b --dir=d --dir e",
            "run --dir d a --dir=d b",
            "run a b --dir d --workers 1 --dir d",
            "load --workers 1 4 7 --workers 1",
        ],
    );
}

#[test]
fn numbers(rt: HostRuntime) {
    check_refused(
        &rt,
        rt.alloc(),
        &[
            "run a b --workers 0",
            "run a b --workers=0",
            "run a b --workers 9",
            "run a b --workers=9",
            "run a b --workers 00009",
            "run a b --workers 000001",
            "run a b --workers 257",
            "run a b --workers +1",
            "run a b --workers -1",
            "run a b --workers=-1",
            "run a b --workers 1.0",
            "run a b --workers 0x1",
            "run a b --workers one",
            "run a b --workers ١",
            "load 0 7",
            "load 501 7",
            "load 99999 7",
            "load 000001 7",
            "load +4 7",
            "load 4a 7",
            "load a 7",
            "load 4. 7",
            "load 4 65537",
            "load 4 99999",
            "load 4 000007",
            "load 4 0065536",
            "load 4 +7",
            "load 4 7_0",
            "load 4 7 --workers 0",
            "load 4 7 --workers 9",
            "load 4 7 --workers=000001",
        ],
    );
}
