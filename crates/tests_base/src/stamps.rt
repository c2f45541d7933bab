//! The orders of stamps and of transactions' names, and clocks.

use qc_stamp::{Clock, Stamp, TxId};
use std::cmp::Ordering;

/// A low one's order to a high one, the other way round, and to itself.
const ORDERS: [Ordering; 3] = [Ordering::Less, Ordering::Greater, Ordering::Equal];

fn stamp(clock: u64, client: u8) -> Stamp {
    Stamp { clock, client }
}

#[test]
fn stamps_are_ordered_by_clock_then_client(rt: HostRuntime) {
    for (low, high) in [((1, 0), (1, 1)), ((1, 1), (2, 0)), ((1, 0), (2, 0))] {
        let (a, b) = (stamp(low.0, low.1), stamp(high.0, high.1));
        let orders = [a.compare(&b), b.compare(&a), a.compare(&a)];
        assert!(rt; orders == ORDERS, "at {a:?} and {b:?}");
    }
}

fn tx(client: u8, life: u32, number: u32) -> TxId {
    TxId {
        client,
        life,
        number,
    }
}

#[test]
fn names_are_ordered_by_client_life_number(rt: HostRuntime) {
    for (low, high) in [
        ((0, 1, 2), (0, 2, 1)),
        ((0, 2, 1), (1, 1, 1)),
        ((0, 1, 1), (0, 1, 2)),
    ] {
        let (a, b) = (tx(low.0, low.1, low.2), tx(high.0, high.1, high.2));
        let orders = [a.compare(&b), b.compare(&a), a.compare(&a)];
        assert!(rt; orders == ORDERS, "at {a:?} and {b:?}");
    }
}

#[test]
fn clocks_never_fall(rt: HostRuntime) {
    let mut clock = Clock { value: 3 };
    clock.pass(2);
    clock.pass(5);
    clock.pass(4);
    assert_eq!(rt; clock.value, 5);
    assert!(rt; clock.value < 6);
    assert_eq!(rt; clock.next(), 6);
}
