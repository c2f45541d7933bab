//! The lines that a site knows: those that its epoch began with, and those that
//! it learned since.

ghost use Rattle.std.specs.Prelude.{◌≡◌, OnOk, IfOk};
ghost use Rattle.qc_entry.specs.Log.{union};
ghost use Rattle.qc_promise.specs.SiteLogs.{begun_with_lines, learning, no_lines};

use qc_entry::Log;
use qc_list::OutOfMemory;
use std::alloc::Global;
use std::marker::Model;

/// Lines, seen as the promise tells them.
#[derive(Drop)]
pub(crate) struct Known {
    began: Log,
    since: Log,
}

impl Model for Known {
    ghost use Rattle.qc_promise.specs.SiteLogs.{Lines};

    ghost Value = { Lines };

    ghost view = { λ k. record { began = k.began; since = k.since } };
}

impl Known {
    /// No lines.
    pub(crate) fn new(alloc: Global) -> Result<Known, OutOfMemory>
        ensures { IfOk result (λ k. k ≡ no_lines) }
    {
        Ok(Known {
            began: Log::new(alloc)?,
            since: Log::new(alloc)?,
        })
    }

    /// Begins another epoch, with these lines.
    pub(crate) fn begin(&mut self, alloc: Global, lines: &Log) -> Result<(), OutOfMemory>
        ensures { OnOk result (self.new ≡ begun_with_lines lines.now) }
    {
        self.began = lines.copy()?;
        self.since = Log::new(alloc)?;
        Ok(())
    }

    /// Learns lines: those that the epoch didn't begin with come to those
    /// since.
    pub(crate) fn learn(&mut self, lines: &Log) -> Result<(), OutOfMemory>
        ensures { OnOk result (self.new ≡ learning self.old lines.now) }
    {
        let others = lines.without(&self.began)?;
        self.since.merge(&others)
    }

    /// Adds lines to those since, as they are.
    pub(crate) fn add(&mut self, lines: &Log) -> Result<(), OutOfMemory>
        ensures { OnOk result (self.new ≡ record self.old { since = union self.old.since lines.now }) }
    {
        self.since.merge(lines)
    }

    /// All of them.
    pub(crate) fn into_log(self) -> Result<Log, OutOfMemory>
        ensures { IfOk result (λ log. log ≡ union self.began self.since) }
    {
        let Known { began, since } = self;
        let mut log = began;
        log.merge(&since)?;
        Ok(log)
    }
}
