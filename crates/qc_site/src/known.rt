//! The lines that a site knows: those that its epoch began with, and its log.

ghost use Rattle.std.specs.Prelude.{◌≡◌, IfOk, unwrap_or};
ghost use Rattle.qc_entry.specs.Log.{union};
ghost use Rattle.qc_site.specs.Site.{fresh, known, learned};

use crate::Site;
use qc_entry::Log;
use qc_list::OutOfMemory;

impl Site {
    /// All lines that it knows, in memory of their own.
    pub(crate) fn known(&self) -> Result<Log, OutOfMemory>
        ensures { IfOk result (λ l. l ≡ known self.now) }
    {
        both(&self.began, &self.log)
    }

    /// Those of these lines that it didn't know.
    pub(crate) fn fresh(&self, lines: &Log) -> Result<Log, OutOfMemory>
        ensures { IfOk result (λ l. l ≡ fresh self.now lines.now) }
    {
        lines.without(&self.began)?.without(&self.log)
    }

    /// The log with the lines that it learns, or `None` where these bring
    /// nothing.
    pub(crate) fn learned(&self, lines: &Log) -> Result<Option<Log>, OutOfMemory>
        ensures { IfOk result (λ all. unwrap_or all self.now.log ≡ learned self.now lines.now) }
    {
        if self.began.lines().is_empty() {
            return self.log.union(lines);
        }
        self.log.union(&lines.without(&self.began)?)
    }
}

/// The lines of two logs, in memory of their own.
pub(crate) fn both(first: &Log, second: &Log) -> Result<Log, OutOfMemory>
    ensures { IfOk result (λ l. l ≡ union first.now second.now) }
{
    match first.union(second)? {
        Some(all) => Ok(all),
        None => first.copy(),
    }
}
