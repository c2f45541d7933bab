//! Laws of the orders, each the contract of a function with nothing to do.

ghost use Rattle.qc_stamp.specs.Order.{IsOrder, stamp_cmp, tx_cmp};

/// Stamps are totally ordered, and different stamps are told apart.
pub fn stamps_are_ordered()
    ensures { IsOrder stamp_cmp }
{}

/// Transactions are totally ordered, and different ones are told apart.
pub fn transactions_are_ordered()
    ensures { IsOrder tx_cmp }
{}
