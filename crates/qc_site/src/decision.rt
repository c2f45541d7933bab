//! How a site learns that a transaction ended.

ghost use Rattle.std.specs.Prelude.{◌≡◌, ◌++◌, IfOk, OnErr, OnOk};
ghost use Rattle.qc_entry.specs.Log.{union, without};
ghost use Rattle.qc_site.specs.Promise.{dropped, finishes, joins, lines_of, prepared_of, records_done};
ghost use Rattle.qc_entry.specs.Line.{stamped};

use crate::Site;
use qc_entry::{Line, Log, OwnLine};
use qc_list::{List, OutOfMemory};
use qc_msg::{Appended, Outcome, Record, Turn};
use qc_stamp::{Stamp, TxId};
use std::alloc::Global;

impl Site {
    /// Finishes a transaction by its verdict; one that is active stays.
    pub(crate) fn finish(
        &mut self,
        alloc: Global,
        tx: TxId,
        verdict: Outcome,
    ) -> Result<Turn, OutOfMemory>
        ensures ok { IfOk result (λ turn. finishes self.old tx verdict ≡ record { site = self.new; turn = turn }) }
        ensures err { OnErr result (self.new ≡ self.old) }
    {
        match verdict {
            Outcome::Committed { stamp } => self.commit(alloc, tx, stamp),
            Outcome::Aborted => {
                self.forget(tx);
                Ok(Turn::quiet(alloc))
            }
            Outcome::Active => Ok(Turn::quiet(alloc)),
        }
    }

    /// Finishes a transaction that committed: what was promised of it is
    /// learned, and this is written.
    fn commit(&mut self, alloc: Global, tx: TxId, stamp: Stamp) -> Result<Turn, OutOfMemory>
        ensures ok { IfOk result (λ turn. joins self.old tx stamp (prepared_of self.old.prepared tx)
            ≡ record { site = self.new; turn = turn }) }
        ensures err { OnErr result (self.new ≡ self.old) }
    {
        let Some(promise) = self.prepared.of(tx) else {
            self.forget(tx);
            return Ok(Turn::quiet(alloc));
        };
        let lines = lines_of(alloc, stamp, tx, promise.own.items())?.without(&self.began)?;
        self.learn_both(&lines)?;
        self.forget(tx);
        Ok(records_done(alloc, tx, stamp))
    }

    /// Learns lines that its epoch didn't begin with, and that its records will
    /// give.
    fn learn_both(&mut self, lines: &Log) -> Result<(), OutOfMemory>
        ensures ok { OnOk result (self.new ≡ record self.old {
          log = union self.old.log lines.now;
          recorded = union self.old.recorded lines.now;
          arrived = self.old.arrived ++ without lines.now self.old.log;
        }) }
        ensures err { OnErr result (self.new ≡ self.old) }
    {
        let fresh = lines.without(&self.log)?;
        let count = self.arrived.count();
        self.arrived.join(fresh.lines())?;
        let both = self.recorded.merge_both(&mut self.log, lines);
        if both.is_err() {
            self.arrived.truncate(count);
        }
        both
    }

    /// Drops all that is held and promised of a transaction. It takes no
    /// memory.
    fn forget(&mut self, tx: TxId)
        ensures { self.new ≡ dropped self.old tx }
    {
        self.held.drop_tx(tx);
        self.prepared.remove(tx);
    }
}

/// The turn that writes only that the transaction is done.
fn records_done(alloc: Global, tx: TxId, stamp: Stamp) -> Turn
    ensures { result ≡ records_done tx stamp }
{
    Turn {
        write: Some(Record::Done {
            tx,
            clock: stamp.clock,
        }),
        sends: List::new(alloc),
        told: None,
        failed_sends: List::new(alloc),
        failed_told: None,
        append: Appended::Done,
    }
}

/// The own lines as lines with this stamp.
pub fn lines_of(alloc: Global, stamp: Stamp, tx: TxId, own: &[OwnLine]) -> Result<Log, OutOfMemory>
    ensures { IfOk result (λ l. l ≡ lines_of stamp tx own.now) }
{
    let mut lines = Log::new(alloc)?;
    'own: for line in own {
        lines.add(stamped(stamp, tx, line))?;
    }
    Ok(lines)
}

/// An own line as the line of a committed transaction.
fn stamped(stamp: Stamp, tx: TxId, line: &OwnLine) -> Line
    ensures { result ≡ stamped stamp tx line.now }
{
    Line {
        stamp,
        tx,
        op: line.op,
        object: line.object,
        event: line.event,
    }
}
