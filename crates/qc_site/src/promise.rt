//! What a site promises, and when (presumed abort).

ghost use Rattle.std.specs.Prelude.{◌≡◌, ◌<◌, ◌+◌, ◌*◌, IfOk, OnErr, OnOk, None, nat_le, IsTrue, length};
ghost use Rattle.qc_decl.specs.Limits.{most_clients, most_record_bytes};
ghost use Rattle.qc_msg.specs.declared.message.Answer.TheVariants.{Yes};
ghost use Rattle.qc_site.specs.Promise.{is_prepared, prepare_length, prepared_of, prepares};
ghost use Rattle.qc_site.specs.Promise.{promise_of, promised, promises};

use crate::Site;
use crate::asker::Asker;
use qc_decl::MOST_RECORD_BYTES;
use qc_entry::{Owns, Prepared, Reads};
use qc_list::OutOfMemory;
use qc_msg::{Answer, Record, Turn};
use qc_stamp::TxId;
use std::alloc::Global;

impl Site {
    /// Promises to keep what the transaction holds, where it holds something
    /// that fits a record. A promise stands.
    pub(crate) fn prepare(
        &mut self,
        alloc: Global,
        asker: Asker,
        tx: TxId,
    ) -> Result<Turn, OutOfMemory>
        requires { tx.client < most_clients }
        ensures ok { IfOk result (λ turn. prepares self.old asker.from asker.number tx
            ≡ record { site = self.new; turn = turn }) }
        ensures err { OnErr result (self.new ≡ self.old) }
    {
        if !self.held.holds(tx) {
            return asker.answered(alloc, Answer::Stale);
        }
        if self.prepared.of(tx).is_some() {
            return asker.answered(alloc, self.yes());
        }
        let promise = self.promise_of(alloc, tx)?;
        if !fits(&promise) {
            return asker.answered(alloc, Answer::Stale);
        }
        self.promise(alloc, asker, promise)
    }

    /// What the site would promise: all that the transaction holds, and the
    /// lines that no record gives yet.
    fn promise_of(&self, alloc: Global, tx: TxId) -> Result<Prepared, OutOfMemory>
        ensures { IfOk result (λ p. p ≡ promise_of self.now tx) }
    {
        Ok(Prepared {
            tx,
            epoch: self.epoch,
            locks: Reads::from_slice(alloc, self.held.locks_of(tx))?,
            own: Owns::from_slice(alloc, self.held.own_of(tx))?,
            lines: self.log.without(&self.recorded)?,
        })
    }

    /// The vote for a promise that stands.
    fn yes(&self) -> Answer
        ensures { result ≡ Yes self.now.clock }
    {
        Answer::Yes {
            clock: self.clock.value,
        }
    }

    /// Makes the promise: its record, then the vote. Where the record can't be
    /// written, that is told.
    fn promise(
        &mut self,
        alloc: Global,
        asker: Asker,
        promise: Prepared,
    ) -> Result<Turn, OutOfMemory>
        requires first { prepared_of self.old.prepared promise.tx ≡ None }
        requires client { promise.tx.client < most_clients }
        requires fits { IsTrue (nat_le (prepare_length promise) most_record_bytes) }
        ensures ok { IfOk result (λ turn. promises self.old asker.from asker.number promise
            ≡ record { site = self.new; turn = turn }) }
        ensures err { OnErr result (self.new ≡ self.old) }
    {
        let written = Record::Prepare(promise.copy()?);
        let turn = asker.recording(alloc, written, self.yes())?;
        self.keep(promise)?;
        Ok(turn)
    }

    /// Keeps the first promise of a transaction, whose record gives its lines.
    fn keep(&mut self, promise: Prepared) -> Result<(), OutOfMemory>
        requires first { prepared_of self.old.prepared promise.tx ≡ None }
        requires client { promise.tx.client < most_clients }
        ensures ok { OnOk result (self.new ≡ promised self.old promise) }
        ensures err { OnErr result (self.new ≡ self.old) }
    {
        let recorded = self.recorded.union(&promise.lines)?;
        self.prepared.add(promise)?;
        if let Some(recorded) = recorded {
            self.recorded = recorded;
        }
        Ok(())
    }
}

/// Whether the promise's record fits a journal's record.
fn fits(promise: &Prepared) -> bool
    ensures { result ≡ nat_le (prepare_length promise.now) most_record_bytes }
{
    let locks = promise.locks.items().len().saturating_mul(2);
    let own = promise.own.items().len().saturating_mul(3);
    let lines = promise.lines.lines().len().saturating_mul(20);
    let length = locks.saturating_add(own).saturating_add(lines);
    length.saturating_add(18) <= MOST_RECORD_BYTES
}
