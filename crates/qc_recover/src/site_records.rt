//! What a site's records give, one after another.

ghost use Rattle.std.specs.Prelude.{◌≡◌, ◌<◌, ◌-◌, ◌^◌, IfOk, OnOk};
ghost use Rattle.qc_msg.specs.declared.record.Record.TheVariants.{Done, Install, Prepare};
ghost use Rattle.qc_recover.specs.Sites.{done_lines, keeps, nothing_kept, with_promise};

use crate::lines::LineSet;
use qc_entry::{Log, Prepared};
use qc_list::OutOfMemory;
use qc_msg::{EpochStart, FIRST_EPOCH, Record};
use qc_site::{Promises, latest, lines_of};
use qc_stamp::{Clock, FIRST_LIFE, Stamp, TxId};
use std::alloc::Global;
use std::marker::Model;

/// What a site's records give, as far as they were read.
#[derive(Drop)]
pub(crate) struct SiteRecords {
    /// 1 more than the records of a rise and of a closed epoch.
    pub(crate) life: u32,
    /// The epoch of the last Install, or the first.
    pub(crate) epoch: u8,
    /// The epoch of the last Close after it.
    pub(crate) closed_for: Option<u8>,
    /// The lines of the last Install.
    pub(crate) began: Log,
    /// What later Prepares and what is done give beside them.
    pub(crate) lines: LineSet,
    /// The last Prepare of each transaction after the last Install.
    pub(crate) prepares: Promises,
    /// Those of them with no Done since.
    pub(crate) promises: Promises,
    /// The greatest clock in the records.
    pub(crate) clock: Clock,
}

impl Model for SiteRecords {
    ghost use Rattle.qc_recover.specs.Sites.{Kept};

    ghost Value = { Kept };

    ghost view = { λ k. record {
      life = k.life;
      epoch = k.epoch;
      closed_for = k.closed_for;
      began = k.began;
      lines = k.lines;
      prepares = k.prepares;
      promises = k.promises;
      clock = k.clock.value;
    } };
}

impl SiteRecords {
    /// What no record gives.
    pub(crate) fn new(alloc: Global) -> Result<SiteRecords, OutOfMemory>
        ensures { IfOk result (λ k. k ≡ nothing_kept) }
    {
        Ok(SiteRecords {
            life: FIRST_LIFE,
            epoch: FIRST_EPOCH,
            closed_for: None,
            began: Log::new(alloc)?,
            lines: LineSet::new(alloc),
            prepares: Promises::new(alloc),
            promises: Promises::new(alloc),
            clock: Clock { value: 0 },
        })
    }

    /// Keeps what one record more gives.
    pub(crate) fn keep(&mut self, alloc: Global, rec: &Record) -> Result<(), OutOfMemory>
        requires { self.old.life < 2 ^ 32 - 1 }
        ensures { OnOk result (self.new ≡ keeps self.old rec.now) }
    {
        match rec {
            Record::Life => self.life += 1,
            Record::Prepare(promise) => self.prepare(promise)?,
            Record::Done { tx, clock } => self.finish(alloc, *tx, *clock)?,
            Record::Close { epoch } => {
                self.life += 1;
                self.closed_for = Some(*epoch);
            }
            Record::Install(start) => self.install(alloc, start)?,
            Record::Commit(_) | Record::Decide(_) => {}
        }
        Ok(())
    }

    /// A promise was made, with the lines that no earlier record gives.
    fn prepare(&mut self, promise: &Prepared) -> Result<(), OutOfMemory>
        ensures { OnOk result (self.new ≡ keeps self.old (Prepare promise.now)) }
    {
        self.lines.join(promise.lines.lines())?;
        put(&mut self.prepares, promise)?;
        put(&mut self.promises, promise)?;
        self.clock = latest(self.clock, promise.lines.lines());
        Ok(())
    }

    /// A transaction committed with this clock: the own lines of its last
    /// Prepare are lines now, but for those that the epoch began with, and its
    /// promise goes.
    fn finish(&mut self, alloc: Global, tx: TxId, clock: u64) -> Result<(), OutOfMemory>
        ensures { OnOk result (self.new ≡ keeps self.old (Done tx clock)) }
    {
        let lines = done_lines(alloc, &self.prepares, tx, clock)?.without(&self.began)?;
        self.lines.join(lines.lines())?;
        self.promises.remove(tx);
        self.clock.pass(clock);
        Ok(())
    }

    /// An epoch began, with this clock and these lines, and without promises.
    fn install(&mut self, alloc: Global, start: &EpochStart) -> Result<(), OutOfMemory>
        ensures { OnOk result (self.new ≡ keeps self.old (Install start.now)) }
    {
        self.epoch = start.epoch;
        self.closed_for = None;
        self.began = start.lines.copy()?;
        self.lines = LineSet::new(alloc);
        self.prepares = Promises::new(alloc);
        self.promises = Promises::new(alloc);
        self.clock = latest(self.clock, start.lines.lines());
        self.clock.pass(start.clock);
        Ok(())
    }
}

/// The own lines of the last Prepare of a transaction that committed with this
/// clock, if there is one.
fn done_lines(alloc: Global, prepares: &Promises, tx: TxId, clock: u64) -> Result<Log, OutOfMemory>
    ensures { IfOk result (λ lines. lines ≡ done_lines prepares.now tx clock) }
{
    let stamp = Stamp {
        clock,
        client: tx.client,
    };
    match prepares.of(tx) {
        Some(promise) => lines_of(alloc, stamp, tx, promise.own.items()),
        None => Log::new(alloc),
    }
}

/// Puts a promise last, in the place of another one of its transaction.
fn put(promises: &mut Promises, promise: &Prepared) -> Result<(), OutOfMemory>
    ensures { OnOk result (promises.new ≡ with_promise promises.old promise.now) }
{
    promises.remove(promise.tx);
    promises.add(promise.copy()?)
}
