//! Stamps and the names of transactions.

ghost use Rattle.std.specs.Prelude.{◌≡◌};
ghost use Rattle.qc_stamp.specs.Order.{stamp_cmp, tx_cmp};

use std::cmp::Ordering;

/// The life of an actor that has never fallen.
pub const FIRST_LIFE: u32 = 1;

/// A commit's stamp. Stamps are ordered by clock, then by the client's number.
#[derive(Clone, Copy, Debug, PartialEq, Eq, PartialOrd, Ord)]
pub struct Stamp {
    /// The clock's value as the transaction committed, from 1.
    pub clock: u64,
    /// The number of the client that chose it, from 0.
    pub client: u8,
}

/// A transaction's name. Names are ordered by client, life, number.
#[derive(Clone, Copy, Debug, PartialEq, Eq, PartialOrd, Ord)]
pub struct TxId {
    /// The number of the transaction's client, from 0.
    pub client: u8,
    /// The client's life in which it began, from 1.
    pub life: u32,
    /// Its number in that life, from 1.
    pub number: u32,
}

impl Stamp {
    /// The order of two stamps: by clock, then by client (Lamport 1978).
    pub fn compare(&self, other: &Stamp) -> Ordering
        ensures { result ≡ stamp_cmp self.now other.now }
    {
        self.cmp(other)
    }
}

impl TxId {
    /// The order of two transactions: by client, life, number.
    pub fn compare(&self, other: &TxId) -> Ordering
        ensures { result ≡ tx_cmp self.now other.now }
    {
        self.cmp(other)
    }
}
