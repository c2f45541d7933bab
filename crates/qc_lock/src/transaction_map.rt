//! What transactions have, one each, in the order in which they came to have it.
//! Each stands under a number, and each transaction knows its number: to find one
//! or to take one out takes steps down two trees, however many stand.

ghost use Rattle.std.specs.Prelude.{◌≡◌, ◌++◌, ◌∷◌, [], None, Some, length, IfOk, MatchOption, OnErr, OnOk};
ghost use Rattle.std.specs.Prelude.{is_some};
ghost use Rattle.std.specs.List.Sorted.{IsStrictlySortedBy};
ghost use Rattle.std.specs.Map.Iter.{ShowsInOrder, deref};
ghost use Rattle.std.specs.Ordering.{eq_by_cmp};
ghost use Rattle.std.specs.Set.{is_member};
ghost use Rattle.qc_lock.specs.TransactionMap.{IsOneForEach, one_of, put_one, without_one};
ghost use Rattle.qc_stamp.specs.Order.{tx_cmp};
ghost use Rattle.qc_stamp.specs.declared.stamp.TxId.{TxId};

use qc_entry::Prepared;
use qc_list::OutOfMemory;
use qc_stamp::TxId;
use std::alloc::{AllocError, Global};
use std::collections::BTreeMap;
use std::collections::btree_map::{Keys, Values};
use std::marker::Model;

/// What is of one transaction.
pub trait OfTransaction {
    ghost tx_of: { Self → TxId };

    /// The transaction that it is of.
    fn tx(&self) -> TxId
        ensures { result ≡ tx_of self.now };
}

impl OfTransaction for Prepared {
    ghost tx_of = { λ p. p.tx };

    fn tx(&self) -> TxId {
        self.tx
    }
}

/// What transactions have, at most one of each, seen as the list of them in their
/// order.
#[derive(Drop)]
pub struct TransactionMap<T: OfTransaction> {
    entries: BTreeMap<u64, T>,
    numbers: BTreeMap<TxId, u64>,
    next: u64,
}

impl<T: OfTransaction> Model for TransactionMap<T> {
    ghost use Rattle.std.specs.Prelude.{List};
    ghost use Rattle.std.specs.BTreeMap.{values};
    ghost use Rattle.qc_lock.specs.TransactionMap.{AreNumbered};

    ghost Value = { List T };

    ghost view = { λ n. values n.entries };

    ghost invariant = { λ n. AreNumbered T.tx_of n.entries n.numbers n.next };
}

impl<T: OfTransaction + Drop> TransactionMap<T> {
    /// None. It takes no memory.
    pub fn new(alloc: Global) -> TransactionMap<T>
        ensures { result ≡ [] }
    {
        TransactionMap {
            entries: BTreeMap::new(alloc),
            numbers: BTreeMap::new(alloc),
            next: 0,
        }
    }

    /// How many there are.
    pub fn len(&self) -> usize
        ensures { result ≡ length self.now }
    {
        self.entries.len()
    }

    /// That of a transaction, if there is one.
    pub fn of(&self, tx: TxId) -> Option<&T>
        ensures { MatchOption result (one_of T.tx_of self.now tx ≡ None)
            (λ one. one_of T.tx_of self.now tx ≡ Some one.now) }
    {
        let number = self.numbers.get(&tx)?;
        self.entries.get(number)
    }

    /// All, in their order.
    pub fn iter(&self) -> Values<'_, u64, T>
        ensures rest { result ≡ self.now }
        ensures runs { ShowsInOrder (deref {X = T}) }
    {
        self.entries.values()
    }

    /// The transactions, ascending, each once.
    pub fn transactions(&self) -> Keys<'_, TxId, u64>
        ensures ascending { IsStrictlySortedBy tx_cmp result }
        ensures just { (tx : TxId) → is_member (eq_by_cmp tx_cmp) result tx ≡ is_some (one_of T.tx_of self.now tx) }
        ensures single { IsOneForEach T.tx_of self.now }
        ensures runs { ShowsInOrder (deref {X = TxId}) }
    {
        self.numbers.keys()
    }

    /// Puts one in the place of its transaction's, which it gives back, or last
    /// where there is none.
    pub fn put(&mut self, one: T) -> Result<Option<T>, OutOfMemory>
        ensures ok { OnOk result (self.new ≡ put_one T.tx_of self.old one) }
        ensures before { IfOk result (λ before. before ≡ one_of T.tx_of self.old (T.tx_of one)) }
        ensures err { OnErr result (self.new ≡ self.old) }
    {
        match self.numbers.get(&one.tx()).copied() {
            Some(number) => Ok(self.entries.insert(number, one)?),
            None => {
                self.add(one)?;
                Ok(None)
            }
        }
    }

    /// Puts the first one of a transaction last. The last number is never given.
    pub fn add(&mut self, one: T) -> Result<(), OutOfMemory>
        requires { one_of T.tx_of self.old (T.tx_of one) ≡ None }
        ensures ok { OnOk result (self.new ≡ self.old ++ one ∷ []) }
        ensures err { OnErr result (self.new ≡ self.old) }
    {
        let tx = one.tx();
        let number = self.next;
        let next = number.checked_add(1).ok_or(AllocError)?;
        let _before = self.numbers.insert(tx, number)?;
        match self.entries.insert(number, one) {
            Ok(_nothing) => {
                self.next = next;
                Ok(())
            }
            Err(_refused) => {
                let _number = self.numbers.remove(&tx);
                Err(AllocError)
            }
        }
    }

    /// Takes that of a transaction out, and gives it. It takes no memory.
    pub fn remove(&mut self, tx: TxId) -> Option<T>
        ensures one { result ≡ one_of T.tx_of self.old tx }
        ensures after { self.new ≡ without_one T.tx_of self.old tx }
    {
        let number = self.numbers.remove(&tx)?;
        self.entries.remove(&number)
    }
}
