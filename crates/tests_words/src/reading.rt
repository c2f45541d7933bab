//! Reading the words of a line, and what is to come of them.

use qc_words::{Errand, WordsFault, asked_by};
use std::alloc::Global;
use std::process::Abort;

/// Whether the words of a line, which stand with one space between them, are
/// read as what is wanted. Want of memory never is.
pub(crate) fn is_read_as(alloc: Global, line: &str, want: Result<Errand<'_>, WordsFault>) -> bool {
    let mut words = Vec::new(alloc);
    for word in line.split(' ') {
        if words.push(word).is_err() {
            return false;
        }
    }
    asked_by(alloc, &words) == want
}

/// Each line asks whether the declaration of this name is accepted.
pub(crate) fn check_checks(rt: &impl Abort, alloc: Global, rows: &[(&str, &str)]) {
    for (line, decl) in rows {
        let want = Errand::Check { decl };
        assert!(rt; is_read_as(alloc, line, Ok(want)), "at {line}");
    }
}

/// A line, and the declaration, the script, the number of workers and the folder
/// of the run that it asks.
pub(crate) type Run<'a> = (&'a str, &'a str, &'a str, u8, Option<&'a str>);

/// Each line asks this run.
pub(crate) fn check_runs(rt: &impl Abort, alloc: Global, rows: &[Run<'_>]) {
    for (line, decl, script, workers, dir) in rows {
        let want = Errand::Run {
            decl,
            script,
            workers: *workers,
            dir: *dir,
        };
        assert!(rt; is_read_as(alloc, line, Ok(want)), "at {line}");
    }
}

/// Each line asks the load of so many transactions from this seed by so many
/// workers.
pub(crate) fn check_loads(rt: &impl Abort, alloc: Global, rows: &[(&str, u32, u32, u8)]) {
    for (line, count, seed, workers) in rows {
        let want = Errand::Load {
            count: *count,
            seed: *seed,
            workers: *workers,
        };
        assert!(rt; is_read_as(alloc, line, Ok(want)), "at {line}");
    }
}

/// Each line is refused.
pub(crate) fn check_refused(rt: &impl Abort, alloc: Global, lines: &[&str]) {
    for line in lines {
        assert!(rt;
            is_read_as(alloc, line, Err(WordsFault::Usage)),
            "at {line}"
        );
    }
}
