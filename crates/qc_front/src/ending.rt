//! How transactions begin, and are given up.

ghost use Rattle.std.specs.Prelude.{◌≡◌, None, ◌-◌, ◌^◌, ◌<◌, IfOk, OnErr};
ghost use Rattle.qc_front.specs.Conduct.{commits};
ghost use Rattle.qc_front.specs.Front.{aborts, begins, ended, moved, next_tx, turned};
ghost use Rattle.qc_msg.specs.Begun.{decisions};
ghost use Rattle.qc_msg.specs.Turns.{ending};

use crate::doing::Doing;
use crate::front::Front;
use crate::transaction::Transaction;
use qc_decl::Declaration;
use qc_list::OutOfMemory;
use qc_msg::{AbortCause, Begun, Outcome, Reply, Turn};
use qc_stamp::TxId;
use std::alloc::Global;

impl Front {
    /// Begins a transaction, where none is begun.
    pub(crate) fn begin(&mut self, alloc: Global, decl: &Declaration) -> Result<Turn, OutOfMemory>
        requires { self.old.count < 2 ^ 32 - 1 }
        ensures ok { IfOk result (λ turn. begins decl.now self.old self.old.transaction ≡ moved self.new turn) }
        ensures err { OnErr result (self.new ≡ self.old) }
    {
        if let Some(transaction) = &self.transaction {
            let tx = transaction.begun.tx;
            return Ok(Turn::telling(alloc, Reply::Already { tx }));
        }
        let tx = self.next_tx();
        self.transaction = Some(Transaction::fresh(alloc, decl, tx, self.epoch)?);
        self.count = tx.number;
        Ok(Turn::telling(alloc, Reply::Began { tx }))
    }

    /// The name of the next transaction.
    fn next_tx(&self) -> TxId
        requires { self.now.count < 2 ^ 32 - 1 }
        ensures { result ≡ next_tx self.now }
    {
        TxId {
            client: self.client,
            life: self.life,
            number: self.count + 1,
        }
    }

    /// Gives up a transaction that can't commit any more; every other commit is
    /// not the front end's.
    pub(crate) fn commit(&mut self, alloc: Global) -> Result<Turn, OutOfMemory>
        ensures ok { IfOk result (λ turn. commits self.old self.old.transaction ≡ moved self.new turn) }
        ensures err { OnErr result (self.new ≡ self.old) }
    {
        let Some(transaction) = &self.transaction else {
            return Ok(Turn::telling(alloc, Reply::NoTransaction));
        };
        if !transaction.begun.doomed {
            return Ok(Turn::quiet(alloc));
        }
        let why = AbortCause::Doomed;
        let turn = giving_up(alloc, &transaction.begun, Reply::Aborted { why })?;
        self.rest();
        Ok(turn)
    }

    /// Gives the begun transaction up.
    pub(crate) fn abort(&mut self, alloc: Global) -> Result<Turn, OutOfMemory>
        ensures ok { IfOk result (λ turn. aborts self.old self.old.transaction ≡ moved self.new turn) }
        ensures err { OnErr result (self.new ≡ self.old) }
    {
        let Some(transaction) = &self.transaction else {
            return Ok(Turn::telling(alloc, Reply::NoTransaction));
        };
        let turn = giving_up(alloc, &transaction.begun, Reply::Dropped)?;
        self.rest();
        Ok(turn)
    }

    /// The transaction has ended elsewhere, with this clock and this known
    /// epoch. It takes no memory.
    pub fn end(&mut self, clock: u64, epoch: u8)
        ensures { self.new ≡ ended self.old clock epoch }
    {
        self.clock.pass(clock);
        self.epoch = self.epoch.max(epoch);
        self.rest();
    }

    /// No transaction is begun any more, and nothing is waited for.
    fn rest(&mut self)
        ensures { self.new ≡ turned self.old None Doing.Idle }
    {
        self.transaction = None;
        self.doing = Doing::Idle;
    }
}

/// The turn that tells each site that the transaction asked that it is given
/// up, and then the reply.
fn giving_up(alloc: Global, begun: &Begun, reply: Reply) -> Result<Turn, OutOfMemory>
    ensures { IfOk result (λ turn. turn ≡ ending (decisions begun.now Outcome.Aborted) reply) }
{
    let sends = begun.decisions(alloc, Outcome::Aborted)?;
    Ok(Turn::ending(alloc, sends, reply))
}
