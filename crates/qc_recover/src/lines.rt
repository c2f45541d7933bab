//! Lines that records give, in order and each once, however they come.

ghost use Rattle.std.specs.Prelude.{◌≡◌, IfOk, OnOk, IsTrue, []};
ghost use Rattle.qc_entry.specs.Line.{IsAscending};
ghost use Rattle.qc_entry.specs.Log.{union};
ghost use Rattle.qc_list.specs.Members.{In};

use qc_entry::{Line, Log};
use qc_list::OutOfMemory;
use std::alloc::Global;
use std::marker::Model;

/// Lines, seen as the log of them. They are kept as they come, and are sorted
/// once: a log that is merged with each record's lines would be copied as often
/// as a line belongs between its own.
#[derive(Drop)]
pub struct LineSet {
    lines: Vec<Line>,
}

impl Model for LineSet {
    ghost use Rattle.std.specs.Prelude.{List};
    ghost use Rattle.qc_entry.specs.declared.line.Line.{Line};
    ghost use Rattle.qc_recover.specs.Gathered.{log_of};

    ghost Value = { List Line };

    ghost view = { λ l. log_of l.lines.items };
}

impl LineSet {
    /// No line. It takes no memory.
    pub fn new(alloc: Global) -> LineSet
        ensures { result ≡ [] }
    {
        LineSet {
            lines: Vec::new(alloc),
        }
    }

    /// Adds the lines of a log.
    pub fn join(&mut self, lines: &[Line]) -> Result<(), OutOfMemory>
        requires { IsAscending lines.now }
        ensures { OnOk result (self.new ≡ union self.old lines.now) }
    {
        self.lines.extend_from_slice(lines)?;
        Ok(())
    }

    /// The log of the lines. As they are sorted, each belongs behind those
    /// before it, or is the last of them.
    pub fn into_log(self, alloc: Global) -> Result<Log, OutOfMemory>
        ensures { IfOk result (λ log. log ≡ self) }
    {
        let LineSet { lines } = self;
        let mut lines = lines;
        lines.sort()?;
        let mut log = Log::new(alloc)?;
        'lines: for line in lines.as_slice() {
            if !is_last(&log, line) {
                log.add(*line)?;
            }
        }
        Ok(log)
    }
}

/// Whether a line is the last one of a log.
fn is_last(log: &Log, line: &Line) -> bool
    ensures { IsTrue result → In line.now log.now }
{
    match log.lines().last() {
        Some(last) => last.compare(line).is_eq(),
        None => false,
    }
}
