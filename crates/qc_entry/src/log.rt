//! Logs: sorted lists of distinct lines.

ghost use Rattle.std.specs.Prelude.{◌≡◌, ◌∷◌, [], OnOk, OnErr, IfOk, unwrap_or};
ghost use Rattle.qc_entry.specs.Line.{IsAscending};
ghost use Rattle.qc_entry.specs.Log.{log_of, union, of_object, since_stamp, without};

use crate::Line;
use crate::slices::{all_are_of, ascend, behind, both, later, merged, of_one, rest_of};
use qc_list::OutOfMemory;
use qc_stamp::Stamp;
use std::alloc::Global;
use std::marker::Model;

/// A sorted list of distinct lines.
#[derive(Drop)]
pub struct Log {
    lines: Vec<Line>,
}

impl Model for Log {
    ghost use Rattle.std.specs.Prelude.{List};
    ghost use Rattle.qc_entry.specs.declared.line.Line.{Line};

    ghost Value = { List Line };

    ghost use Rattle.qc_entry.specs.Line.{IsAscending};

    ghost view = { λ l. l.lines.items };

    ghost invariant = { λ l. IsAscending l.lines.items };
}

impl Log {
    /// The empty log.
    pub fn new(alloc: Global) -> Result<Log, OutOfMemory>
        ensures { IfOk result (λ l. l ≡ []) }
    {
        Ok(Log {
            lines: Vec::new(alloc),
        })
    }

    /// The log of lines in any order, each once: these where they ascend, as most
    /// that arrive do, or else those of either half, merged.
    pub fn of_lines(alloc: Global, lines: &[Line]) -> Result<Log, OutOfMemory>
        ensures { IfOk result (λ l. l ≡ log_of lines.now) }
    {
        if ascend(lines) {
            return Ok(Log {
                lines: Vec::from_slice(alloc, lines)?,
            });
        }
        let (front, rest) = lines.split_at(lines.len() / 2);
        let mut log = Log::of_lines(alloc, front)?;
        log.merge(&Log::of_lines(alloc, rest)?)?;
        Ok(log)
    }

    /// The lines, in order.
    pub fn lines(&self) -> &[Line]
        ensures value { result.now ≡ self.now }
        ensures ascending { IsAscending self.now }
    {
        self.lines.as_slice()
    }

    /// The same log, in memory of its own.
    pub fn copy(&self) -> Result<Log, OutOfMemory>
        ensures { IfOk result (λ l. l ≡ self.now) }
    {
        Ok(Log {
            lines: Vec::from_slice(*self.lines.allocator(), self.lines.as_slice())?,
        })
    }

    /// Adds the lines of another log, each once. After want of memory the log
    /// is as it was.
    pub fn merge(&mut self, other: &Log) -> Result<(), OutOfMemory>
        ensures ok { OnOk result (self.new ≡ union self.old other.now) }
        ensures err { OnErr result (self.new ≡ self.old) }
    {
        self.join(other.lines())
    }

    /// Adds the lines of another log to this one and to a second, each once: to
    /// both, or after want of memory to neither.
    pub fn merge_both(&mut self, second: &mut Log, other: &Log) -> Result<(), OutOfMemory>
        ensures ok { OnOk result ((self.new ≡ union self.old other.now) × (second.new ≡ union second.old other.now)) }
        ensures err { OnErr result ((self.new ≡ self.old) × (second.new ≡ second.old)) }
    {
        let count = self.lines.len();
        let Some(rest) = behind(self.lines.as_slice(), other.lines()) else {
            return self.merge_apart(second, other);
        };
        self.lines.extend_from_slice(rest)?;
        let second = second.merge(other);
        if second.is_err() {
            self.lines.truncate(count);
        }
        second
    }

    /// The same by a copy of this log, where lines belong between its own.
    fn merge_apart(&mut self, second: &mut Log, other: &Log) -> Result<(), OutOfMemory>
        ensures ok { OnOk result ((self.new ≡ union self.old other.now) × (second.new ≡ union second.old other.now)) }
        ensures err { OnErr result ((self.new ≡ self.old) × (second.new ≡ second.old)) }
    {
        let all = merged(
            *self.lines.allocator(),
            self.lines.as_slice(),
            other.lines(),
        )?;
        second.merge(other)?;
        self.lines = all;
        Ok(())
    }

    /// The lines of both logs in memory of their own, or `None` where this log
    /// begins with the other, which then brings nothing.
    pub fn union(&self, other: &Log) -> Result<Option<Log>, OutOfMemory>
        ensures { IfOk result (λ all. unwrap_or all self.now ≡ union self.now other.now) }
    {
        let alloc = *self.lines.allocator();
        let lines = match behind(self.lines.as_slice(), other.lines()) {
            Some([]) => return Ok(None),
            Some(rest) => both(alloc, self.lines.as_slice(), rest)?,
            None => merged(alloc, self.lines.as_slice(), other.lines())?,
        };
        Ok(Some(Log { lines }))
    }

    /// Adds a line, unless the log has it. After want of memory the log is as
    /// it was.
    pub fn add(&mut self, line: Line) -> Result<(), OutOfMemory>
        ensures ok { OnOk result (self.new ≡ union self.old (line ∷ [])) }
        ensures err { OnErr result (self.new ≡ self.old) }
    {
        self.join(&[line])
    }

    /// Adds sorted lines: behind the others where all that are new belong
    /// there.
    fn join(&mut self, lines: &[Line]) -> Result<(), OutOfMemory>
        requires { IsAscending lines.now }
        ensures ok { OnOk result (self.new ≡ union self.old lines.now) }
        ensures err { OnErr result (self.new ≡ self.old) }
    {
        match behind(self.lines.as_slice(), lines) {
            Some(rest) => self.lines.extend_from_slice(rest)?,
            None => self.lines = merged(*self.lines.allocator(), self.lines.as_slice(), lines)?,
        }
        Ok(())
    }

    /// The lines with a stamp greater than this one.
    pub fn since(&self, stamp: Stamp) -> Result<Log, OutOfMemory>
        ensures { IfOk result (λ l. l ≡ since_stamp self.now stamp) }
    {
        Ok(Log {
            lines: later(*self.lines.allocator(), self.lines.as_slice(), stamp)?,
        })
    }

    /// The lines of one object. Where all are of it they are copied whole, and
    /// not line by line.
    pub fn of(&self, object: u8) -> Result<Log, OutOfMemory>
        ensures { IfOk result (λ l. l ≡ of_object self.now object) }
    {
        if all_are_of(self.lines.as_slice(), object) {
            return self.copy();
        }
        Ok(Log {
            lines: of_one(*self.lines.allocator(), self.lines.as_slice(), object)?,
        })
    }

    /// The lines that aren't in the other log.
    pub fn without(&self, other: &Log) -> Result<Log, OutOfMemory>
        ensures { IfOk result (λ l. l ≡ without self.now other.now) }
    {
        Ok(Log {
            lines: rest_of(
                *self.lines.allocator(),
                self.lines.as_slice(),
                other.lines(),
            )?,
        })
    }
}
