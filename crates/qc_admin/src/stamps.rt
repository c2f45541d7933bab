//! The stamps of promised transactions that committed.

ghost use Rattle.std.specs.Prelude.{◌≡◌, None, OnOk, if◌then◌else◌};
ghost use Rattle.qc_stamp.specs.Order.{same_tx};
ghost use Rattle.qc_stamp.specs.declared.stamp.TxId.{TxId as Tx};
ghost use Rattle.qc_admin.specs.Merging.{stamp_at};

use qc_list::OutOfMemory;
use qc_stamp::{Stamp, TxId};
use std::alloc::Global;
use std::collections::BTreeMap;

/// A stamp, or none, for each transaction.
#[derive(Drop)]
pub(crate) struct Stamps {
    stamps: BTreeMap<TxId, Option<Stamp>>,
}

impl Stamps {
    /// No stamp. It takes no memory.
    pub(crate) fn new(alloc: Global) -> Stamps
        ensures { (tx : Tx) → stamp_at result tx ≡ None }
    {
        Stamps {
            stamps: BTreeMap::new(alloc),
        }
    }

    /// A transaction has this stamp, or none, whatever it had before.
    pub(crate) fn put(&mut self, tx: TxId, stamp: Option<Stamp>) -> Result<(), OutOfMemory>
        ensures { OnOk result ((t : Tx) → stamp_at self.new t
            ≡ (if same_tx tx t then stamp else stamp_at self.old t)) }
    {
        let _before = self.stamps.insert(tx, stamp)?;
        Ok(())
    }

    /// The stamp of a transaction.
    pub(crate) fn of(&self, tx: TxId) -> Option<Stamp>
        ensures { result ≡ stamp_at self.now tx }
    {
        match self.stamps.get(&tx) {
            Some(stamp) => *stamp,
            None => None,
        }
    }
}
