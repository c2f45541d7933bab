//! Locks of two objects whose invocation 0 depends on the events 2 and 3.

use qc_entry::{Log, OwnLine, Owns, Prepared, ReadLock, Reads};
use qc_list::OutOfMemory;
use qc_lock::{Clash, LockFault, Locks};
use qc_stamp::TxId;
use qc_table::{Kind, Pair, Relation, Table, TableFault};
use std::alloc::Global;
use std::process::Abort;
use std::test::Fail;

fn tx(client: u8) -> TxId {
    TxId {
        client,
        life: 1,
        number: 1,
    }
}

fn line(op: u8, object: u8, event: u8) -> OwnLine {
    OwnLine { op, object, event }
}

fn kind(alloc: Global) -> Result<Kind, TableFault> {
    let relation = Relation::new(&[Pair { inv: 0, event: 2 }, Pair { inv: 0, event: 3 }]);
    let table = Table::new(alloc, 1, 1, 1, 0, &[])?;
    Ok(Kind { table, relation })
}

/// What a client asks for.
#[derive(Clone, Copy)]
enum Ask {
    /// A read for an invocation.
    Read(u8),
    /// An append of the event of an operation, by both numbers.
    Append(u8, u8),
}

/// A client, an object, what it asks for, and who is in the way: the holder,
/// the invocation, the event.
type Asked = (u8, u8, Ask, Option<(u8, u8, u8)>);

fn answer(locks: &mut Locks, kind: &Kind, asked: Asked) -> Result<(), LockFault> {
    let (client, object, ask, _) = asked;
    match ask {
        Ask::Read(inv) => locks.try_read(kind, tx(client), object, inv),
        Ask::Append(op, event) => locks.try_append(kind, tx(client), &[line(op, object, event)]),
    }
}

fn want(asked: Asked) -> Result<(), LockFault> {
    match asked.3 {
        Some((client, inv, event)) => Err(LockFault::Conflict(Clash {
            holder: tx(client),
            inv,
            event,
        })),
        None => Ok(()),
    }
}

/// Each answer is the one that is wanted.
fn check_answers(rt: &impl Abort, locks: &mut Locks, kind: &Kind, rows: &[Asked]) {
    for (place, asked) in rows.iter().enumerate() {
        assert_eq!(rt; answer(locks, kind, *asked), want(*asked), "at {place}");
    }
}

const ASKED: [Asked; 11] = [
    (2, 0, Ask::Read(0), None),
    (1, 0, Ask::Read(1), None),
    (1, 0, Ask::Read(0), None),
    (1, 0, Ask::Read(0), None),
    (3, 0, Ask::Append(1, 3), Some((1, 0, 3))),
    (1, 0, Ask::Append(1, 2), Some((2, 0, 2))),
    (3, 0, Ask::Append(1, 1), None),
    (3, 1, Ask::Append(1, 2), None),
    (3, 1, Ask::Append(2, 3), None),
    (1, 1, Ask::Read(0), Some((3, 0, 2))),
    (3, 1, Ask::Read(0), None),
];

/// What is held in the end: each lock once, in order, and the last own line of
/// each operation.
#[test]
fn conflicts_are_refused(rt: HostRuntime) -> Result<(), Fail> {
    let kind = kind(rt.alloc())?;
    let mut locks = Locks::new(rt.alloc());
    check_answers(&rt, &mut locks, &kind, &ASKED);
    assert_eq!(rt; locks.try_append(&kind, tx(1), &[]), Ok(()));
    let held = [
        ReadLock { object: 0, inv: 0 },
        ReadLock { object: 0, inv: 1 },
    ];
    assert_eq!(rt; locks.locks_of(tx(1)), held.as_slice());
    let own = [line(1, 1, 2), line(2, 1, 3)];
    assert_eq!(rt; locks.own_of(tx(3)), own.as_slice());
    Ok(())
}

/// The client 0's transaction, which read for the invocation 0 of the object 0
/// and appended the event 2.
fn prepared(alloc: Global) -> Result<Prepared, OutOfMemory> {
    Ok(Prepared {
        tx: tx(0),
        epoch: 1,
        locks: Reads::from_slice(alloc, &[ReadLock { object: 0, inv: 0 }])?,
        own: Owns::from_slice(alloc, &[line(1, 0, 2)])?,
        lines: Log::new(alloc)?,
    })
}

fn hold(alloc: Global, locks: &mut Locks) -> Result<(), OutOfMemory> {
    locks.hold(&prepared(alloc)?)
}

#[test]
fn transactions_come_and_go(rt: HostRuntime) -> Result<(), Fail> {
    let kind = kind(rt.alloc())?;
    let mut locks = Locks::new(rt.alloc());
    hold(rt.alloc(), &mut locks)?;
    assert!(rt; locks.holds(tx(0)) && !locks.holds(tx(1)));
    let refused = [
        (1, 0, Ask::Read(0), Some((0, 0, 2))),
        (1, 0, Ask::Append(1, 3), Some((0, 0, 3))),
    ];
    check_answers(&rt, &mut locks, &kind, &refused);
    locks.drop_tx(tx(0));
    assert!(rt; !locks.holds(tx(0)));
    check_answers(&rt, &mut locks, &kind, &[(1, 0, Ask::Append(1, 3), None)]);
    Ok(())
}

/// Who holds what, as entries change: a transaction that stands first among the
/// holders itself, own lines of the same operation with another event or in
/// another object, one of two lines of an event that goes, and one that is left
/// behind by its other line.
const CHANGED: [Asked; 16] = [
    (1, 0, Ask::Append(1, 2), None),
    (2, 0, Ask::Append(1, 2), None),
    (3, 0, Ask::Append(1, 3), None),
    (1, 0, Ask::Read(0), Some((2, 0, 2))),
    (2, 0, Ask::Append(1, 1), None),
    (1, 0, Ask::Read(0), Some((3, 0, 3))),
    (3, 1, Ask::Append(1, 3), None),
    (1, 0, Ask::Read(0), None),
    (4, 1, Ask::Read(0), Some((3, 0, 3))),
    (1, 0, Ask::Append(2, 2), None),
    (1, 0, Ask::Append(1, 3), None),
    (1, 0, Ask::Append(1, 1), None),
    (4, 0, Ask::Read(0), Some((1, 0, 2))),
    (1, 0, Ask::Append(2, 1), None),
    (4, 0, Ask::Read(0), None),
    (2, 0, Ask::Append(2, 3), Some((1, 0, 3))),
];

#[test]
fn clashes_follow_what_is_held(rt: HostRuntime) -> Result<(), Fail> {
    let kind = kind(rt.alloc())?;
    let mut locks = Locks::new(rt.alloc());
    check_answers(&rt, &mut locks, &kind, &CHANGED);
    assert_eq!(rt; locks.holders(), 4);
    Ok(())
}

/// Of many that hold the same, some go in the middle: the first of those that
/// stay is in the way.
#[test]
fn holders_go_in_the_middle(rt: HostRuntime) -> Result<(), Fail> {
    let kind = kind(rt.alloc())?;
    let mut locks = Locks::new(rt.alloc());
    for client in 0..40 {
        locks.try_append(&kind, tx(client), &[line(1, 0, 2)])?;
    }
    for client in 1..20 {
        locks.drop_tx(tx(client));
    }
    locks.drop_tx(tx(17));
    assert_eq!(rt; locks.holders(), 21);
    check_answers(
        &rt,
        &mut locks,
        &kind,
        &[(0, 0, Ask::Read(0), Some((20, 0, 2)))],
    );
    locks.drop_tx(tx(20));
    let later = [
        (0, 0, Ask::Read(0), Some((21, 0, 2))),
        (50, 0, Ask::Read(0), Some((0, 0, 2))),
        (5, 0, Ask::Append(1, 2), None),
        (0, 0, Ask::Read(0), Some((5, 0, 2))),
    ];
    check_answers(&rt, &mut locks, &kind, &later);
    assert!(rt; !locks.holds(tx(20)) && locks.holds(tx(5)));
    Ok(())
}
