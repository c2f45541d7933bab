//! The last Prepare of each transaction, as a site's records are walked forward.
//! The map keeps its keys in order: no choice of names makes it slow.

ghost use Rattle.std.specs.Prelude.{◌≡◌, ◌++◌, ◌∷◌, [], List, OnOk, option_map};
ghost use Rattle.qc_msg.specs.declared.record.Record.{Record as Written};
ghost use Rattle.qc_promise.specs.SiteRecords.{last_prepare};
ghost use Rattle.qc_text.specs.Prepares.{AreLast};

use qc_entry::Prepared;
use qc_list::OutOfMemory;
use qc_msg::Record;
use qc_stamp::TxId;
use std::alloc::Global;
use std::collections::BTreeMap;

/// The last Prepare of each transaction, by its name.
#[derive(Drop)]
pub(crate) struct Prepares<'a> {
    last: BTreeMap<TxId, &'a Prepared>,
}

impl<'a> Prepares<'a> {
    /// Those before the first record.
    pub(crate) fn new(alloc: Global) -> Prepares<'a>
        ensures { AreLast result [] }
    {
        Prepares {
            last: BTreeMap::new(alloc),
        }
    }

    /// Takes the next record: an Install leaves none of those before it.
    pub(crate) fn take(&mut self, written: &'a Record) -> Result<(), OutOfMemory>
        ensures { OnOk result ((before : List Written) → AreLast self.old before
            → AreLast self.new (before ++ written.now ∷ [])) }
    {
        match written {
            Record::Prepare(prepared) => {
                let _before = self.last.insert(prepared.tx, prepared)?;
            }
            Record::Install(_) => self.last.clear(),
            Record::Life
            | Record::Done { .. }
            | Record::Close { .. }
            | Record::Commit(_)
            | Record::Decide(_) => {}
        }
        Ok(())
    }

    /// The last Prepare of a transaction.
    pub(crate) fn of(&self, tx: TxId) -> Option<&'a Prepared>
        ensures { (before : List Written) → AreLast self.now before
            → option_map (λ p. p.now) result ≡ last_prepare tx before }
    {
        self.last.get(&tx).copied()
    }
}
