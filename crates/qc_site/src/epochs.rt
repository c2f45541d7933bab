//! How a site closes its epoch for the next one, and begins another.

ghost use Rattle.std.specs.Prelude.{◌≡◌, ◌<◌, ◌-◌, ◌^◌, IfOk, OnErr, OnOk, nat_le};
ghost use Rattle.qc_decl.specs.Limits.{most_record_bytes};
ghost use Rattle.qc_msg.specs.Lengths.{epoch_length};
ghost use Rattle.qc_msg.specs.declared.record.Record.TheVariants as records;
ghost use Rattle.qc_site.specs.Epochs.{closed, closes, held_by, installed, installs, promises_in_order, shut_answer};
ghost use Rattle.qc_site.specs.Site.{recording};

use crate::asker::Asker;
use crate::{Promises, Site};
use qc_decl::MOST_RECORD_BYTES;
use qc_entry::{Arrivals, Log};
use qc_list::{List, OutOfMemory};
use qc_lock::Locks;
use qc_msg::{Answer, EpochStart, PreparedList, Record, Snapshot, Turn};
use std::alloc::Global;

impl Site {
    /// Closes the site's epoch for the next one, and tells what it knows, holds
    /// promised, and its clock. A site that has closed for it tells that again.
    pub(crate) fn close(
        &mut self,
        alloc: Global,
        asker: Asker,
        epoch: u8,
    ) -> Result<Turn, OutOfMemory>
        requires { self.old.life < 2 ^ 32 - 1 }
        ensures ok { IfOk result (λ turn. closes self.old asker.from asker.number epoch
            ≡ record { site = self.new; turn = turn }) }
        ensures err { OnErr result (self.new ≡ self.old) }
    {
        if self.epoch.saturating_add(1) < epoch {
            return asker.answered(alloc, Answer::Behind { epoch: self.epoch });
        }
        if epoch <= self.epoch {
            return asker.answered(alloc, Answer::Closed { epoch: self.epoch });
        }
        if self.closed_for == Some(epoch) {
            return asker.answered(alloc, self.shut(alloc)?);
        }
        self.close_for(alloc, asker, epoch)
    }

    /// Closes: a new life begins, in which it holds what it has promised.
    fn close_for(&mut self, alloc: Global, asker: Asker, epoch: u8) -> Result<Turn, OutOfMemory>
        requires { self.old.life < 2 ^ 32 - 1 }
        ensures ok { IfOk result (λ turn. turn
            ≡ recording asker.from asker.number (records.Close epoch) (shut_answer (closed self.old epoch))) }
        ensures site { IfOk result (λ turn. self.new ≡ closed self.old epoch) }
        ensures err { OnErr result (self.new ≡ self.old) }
    {
        let held = held_by(alloc, &self.prepared)?;
        let turn = asker.recording(alloc, Record::Close { epoch }, self.shut(alloc)?)?;
        self.life += 1;
        self.closed_for = Some(epoch);
        self.held = held;
        Ok(turn)
    }

    /// What a closed site tells.
    fn shut(&self, alloc: Global) -> Result<Answer, OutOfMemory>
        ensures { IfOk result (λ answer. answer ≡ shut_answer self.now) }
    {
        Ok(Answer::Shut(Snapshot {
            clock: self.clock.value,
            log: self.known()?,
            prepared: promises_in_order(alloc, &self.prepared)?,
        }))
    }

    /// Begins an epoch with these lines, and with nothing held or promised, where
    /// it is a later one and its record isn't too long.
    pub(crate) fn install(
        &mut self,
        alloc: Global,
        asker: Asker,
        start: &EpochStart,
    ) -> Result<Turn, OutOfMemory>
        ensures ok { IfOk result (λ turn. installs self.old asker.from asker.number start.now.epoch start.now.clock
            start.now.lines ≡ record { site = self.new; turn = turn }) }
        ensures err { OnErr result (self.new ≡ self.old) }
    {
        if start.epoch <= self.epoch {
            return asker.answered(alloc, Answer::Installed);
        }
        if !fits(&start.lines) {
            return asker.answered(alloc, Answer::Behind { epoch: self.epoch });
        }
        let written = Record::Install(start.copy()?);
        let turn = asker.recording(alloc, written, Answer::Installed)?;
        self.begin(alloc, start)?;
        Ok(turn)
    }

    /// Begins an epoch.
    fn begin(&mut self, alloc: Global, start: &EpochStart) -> Result<(), OutOfMemory>
        ensures ok { OnOk result (self.new
            ≡ installed self.old start.now.epoch start.now.clock start.now.lines) }
        ensures err { OnErr result (self.new ≡ self.old) }
    {
        let began = start.lines.copy()?;
        let log = Log::new(alloc)?;
        let recorded = Log::new(alloc)?;
        let mut arrived = Arrivals::new(alloc);
        arrived.join(start.lines.lines())?;
        self.epoch = start.epoch;
        self.closed_for = None;
        self.began = began;
        self.log = log;
        self.recorded = recorded;
        self.arrived = arrived;
        self.held = Locks::new(alloc);
        self.prepared = Promises::new(alloc);
        self.clock.pass(start.clock);
        Ok(())
    }
}

/// What the promised transactions hold.
pub fn held_by(alloc: Global, promises: &Promises) -> Result<Locks, OutOfMemory>
    ensures { IfOk result (λ held. held ≡ held_by promises.now) }
{
    let mut held = Locks::new(alloc);
    'promises: for promise in promises.iter() {
        held.hold(promise)?;
    }
    Ok(held)
}

/// The promises by the order of their transactions, in memory of their own.
fn promises_in_order(alloc: Global, promises: &Promises) -> Result<PreparedList, OutOfMemory>
    ensures { IfOk result (λ list. list ≡ promises_in_order promises.now) }
{
    let mut list = List::new(alloc);
    'transactions: for tx in promises.transactions() {
        if let Some(promise) = promises.of(*tx) {
            list.push(promise.copy()?)?;
        }
    }
    Ok(list)
}

/// Whether the record of an Install with these lines fits a journal's record.
fn fits(lines: &Log) -> bool
    ensures { result ≡ nat_le (epoch_length lines.now) most_record_bytes }
{
    let length = lines.lines().len().saturating_mul(20);
    length.saturating_add(14) <= MOST_RECORD_BYTES
}
