//! The transactions that hold something at a site. The set keeps them in order:
//! no choice of names makes it slow.

ghost use Rattle.std.specs.Prelude.{◌≡◌, [], List, OnOk, length};
ghost use Rattle.qc_stamp.specs.declared.stamp.TxId.{TxId};
ghost use Rattle.qc_text.specs.Holders.{IsSetOf, with_holder, without_holder};

use qc_list::OutOfMemory;
use qc_stamp::TxId;
use std::alloc::Global;
use std::collections::BTreeSet;
use std::marker::Model;

/// Transactions, seen as the list of them in their order.
#[derive(Drop)]
pub(crate) struct Holders {
    txs: BTreeSet<TxId>,
}

impl Model for Holders {
    ghost use Rattle.std.specs.Prelude.{List};
    ghost use Rattle.qc_stamp.specs.declared.stamp.TxId.{TxId};

    ghost Value = { List TxId };

    ghost view = { λ h. h.txs.keys };
}

impl Holders {
    /// No transaction.
    pub(crate) fn new(alloc: Global) -> Holders
        ensures { IsSetOf [] result }
    {
        Holders {
            txs: BTreeSet::new(alloc),
        }
    }

    /// Adds a transaction, unless it is there.
    pub(crate) fn add(&mut self, tx: TxId) -> Result<(), OutOfMemory>
        ensures { OnOk result ((txs : List TxId) → IsSetOf txs self.old
            → IsSetOf (with_holder txs tx) self.new) }
    {
        let _is_new = self.txs.insert(tx)?;
        Ok(())
    }

    /// Drops a transaction.
    pub(crate) fn remove(&mut self, tx: TxId)
        ensures { (txs : List TxId) → IsSetOf txs self.old
            → IsSetOf (without_holder txs tx) self.new }
    {
        let _was_there = self.txs.remove(&tx);
    }

    /// Drops all.
    pub(crate) fn clear(&mut self)
        ensures { IsSetOf [] self.new }
    {
        self.txs.clear();
    }

    /// How many there are.
    pub(crate) fn count(&self) -> u64
        ensures { (txs : List TxId) → IsSetOf txs self.now → result ≡ length txs }
    {
        self.txs.len() as u64
    }
}
