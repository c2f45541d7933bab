//! Logs and records, on the happy path.

use qc_entry::{Arrivals, Commit, Line, Log, Mark, Op, Ops, Owns, Prepared, Reads, Told};
use qc_list::OutOfMemory;
use qc_stamp::{Stamp, TxId};
use std::alloc::Global;

fn tx(client: u8) -> TxId {
    TxId {
        client,
        life: 1,
        number: 1,
    }
}

fn line(clock: u64, client: u8, object: u8) -> Line {
    Line {
        stamp: Stamp { clock, client },
        tx: tx(client),
        op: 1,
        object,
        event: 0,
    }
}

/// Three lines, in their order; the first and the third are of one object.
fn lines() -> [Line; 3] {
    [line(1, 0, 0), line(1, 1, 1), line(2, 1, 0)]
}

/// The log that these lines make, one after another.
fn log(alloc: Global, lines: &[Line]) -> Result<Log, OutOfMemory> {
    let mut log = Log::new(alloc)?;
    for line in lines {
        log.add(*line)?;
    }
    Ok(log)
}

/// Whether a log was made, of these lines.
fn has(log: Result<Log, OutOfMemory>, lines: &[Line]) -> bool {
    match log {
        Ok(log) => log.lines() == lines,
        Err(_) => false,
    }
}

/// The log of the first lines with those of the other one.
fn merged(alloc: Global, lines: &[Line], other: &Log) -> Result<Log, OutOfMemory> {
    let mut log = log(alloc, lines)?;
    log.merge(other)?;
    Ok(log)
}

/// The lines of the first log that the other one hasn't.
fn rest(alloc: Global, lines: &[Line], other: &Log) -> Result<Log, OutOfMemory> {
    let log = log(alloc, lines)?;
    log.without(other)
}

/// The log of these lines, after another's were added to it and to the first.
fn joined(alloc: Global, first: &mut Log, lines: &[Line], other: &Log) -> Result<Log, OutOfMemory> {
    let mut second = log(alloc, lines)?;
    first.merge_both(&mut second, other)?;
    Ok(second)
}

/// The union of these lines' log with another.
fn united(alloc: Global, lines: &[Line], other: &Log) -> Result<Log, OutOfMemory> {
    let log = log(alloc, lines)?;
    let all = log.union(other)?;
    Ok(all.unwrap_or(log))
}

/// The first and the second line, added in another order and one of them twice,
/// and the second and the third with that log, and without it.
#[test]
fn logs_are_sorted_with_each_line_once(rt: HostRuntime) {
    let [first, second, third] = lines();
    let Ok(log) = log(rt.alloc(), &[second, first, second]) else {
        panic!(&rt; "no log");
    };
    assert!(rt; log.lines() == [first, second].as_slice());
    let others = [second, third];
    assert!(rt; has(merged(rt.alloc(), &others, &log), &[first, second, third]));
    assert!(rt; has(rest(rt.alloc(), &others, &log), &[third]));
}

/// Lines in any order, some of them twice.
#[test]
fn lines_in_any_order_make_a_log(rt: HostRuntime) {
    let [first, second, third] = lines();
    assert!(rt; has(Log::of_lines(rt.alloc(), &[]), &[]));
    assert!(rt; has(Log::of_lines(rt.alloc(), &[second]), &[second]));
    let mixed = [third, second, first, third, second];
    assert!(rt; has(Log::of_lines(rt.alloc(), &mixed), &[first, second, third]));
}

/// What is told of an object to who has a mark, in life 3 and epoch 2: how many
/// lines came, and these.
fn tells(
    alloc: Global,
    arrivals: &mut Arrivals,
    object: u8,
    mark: Mark,
    wanted: (u64, &[Line]),
) -> bool {
    let Ok(Told { count, log }) = arrivals.tell(alloc, 3, 2, object, mark) else {
        return false;
    };
    count == wanted.0 && log.lines() == wanted.1
}

/// Lines come in another order than theirs, and some go again. The mark counts
/// those of its object.
#[test]
fn lines_are_told_from_a_mark_on(rt: HostRuntime) -> Result<(), OutOfMemory> {
    let [first, second, third] = lines();
    let mut arrivals = Arrivals::new(rt.alloc());
    assert!(rt; tells(rt.alloc(), &mut arrivals, 0, Mark::NONE, (0, &[])));
    arrivals.join(&[third, second])?;
    arrivals.join(&[first])?;
    assert_eq!(rt; arrivals.count(), 3);
    let mark = |count| Mark {
        life: 3,
        epoch: 2,
        count,
    };
    assert!(rt;
        tells(
            rt.alloc(),
            &mut arrivals,
            0,
            Mark::NONE,
            (2, &[first, third])
        )
    );
    assert!(rt; tells(rt.alloc(), &mut arrivals, 0, mark(1), (2, &[first])));
    assert!(rt; tells(rt.alloc(), &mut arrivals, 0, mark(2), (2, &[])));
    assert!(rt;
        tells(
            rt.alloc(),
            &mut arrivals,
            0,
            mark(u64::MAX),
            (2, &[first, third])
        )
    );
    assert!(rt; tells(rt.alloc(), &mut arrivals, 1, mark(0), (1, &[second])));
    assert!(rt; tells(rt.alloc(), &mut arrivals, 255, mark(0), (0, &[])));
    arrivals.truncate(2);
    assert!(rt; tells(rt.alloc(), &mut arrivals, 0, mark(0), (1, &[third])));
    arrivals.join(&[first])?;
    assert!(rt; tells(rt.alloc(), &mut arrivals, 0, mark(1), (2, &[first])));
    Ok(())
}

/// Lines that belong behind those of one log and between those of the other.
#[test]
fn lines_join_two_logs_at_once(rt: HostRuntime) {
    let [first, second, third] = lines();
    let Ok(other) = log(rt.alloc(), &[second]) else {
        panic!(&rt; "no other");
    };
    assert!(rt;
        has(
            united(rt.alloc(), &[first, third], &other),
            &[first, second, third]
        )
    );
    let Ok(mut one) = log(rt.alloc(), &[first]) else {
        panic!(&rt; "no log");
    };
    assert!(rt;
        has(
            joined(rt.alloc(), &mut one, &[first, third], &other),
            &[first, second, third]
        )
    );
    assert!(rt; one.lines() == [first, second].as_slice());
    assert!(rt;
        has(
            joined(rt.alloc(), &mut one, &[third], &other),
            &[second, third]
        )
    );
    assert!(rt; one.lines() == [first, second].as_slice());
}

#[test]
fn parts_of_logs(rt: HostRuntime) {
    let [first, second, third] = lines();
    let Ok(log) = log(rt.alloc(), &[first, second, third]) else {
        panic!(&rt; "no log");
    };
    assert!(rt; has(log.copy(), &[first, second, third]));
    assert!(rt; has(log.since(first.stamp), &[second, third]));
    assert!(rt; has(log.of(0), &[first, third]));
}

/// Whether a commit of this operation has it, copied.
fn is_copied(alloc: Global, op: Op) -> Result<bool, OutOfMemory> {
    let ops = Ops::from_slice(alloc, &[op])?;
    let commit = Commit {
        stamp: Stamp {
            clock: 1,
            client: 0,
        },
        tx: tx(0),
        ops,
    };
    let copy = commit.copy()?;
    Ok(copy.ops.items() == [op].as_slice())
}

/// The epoch of a record that holds nothing, copied.
fn copied_epoch(alloc: Global) -> Result<u8, OutOfMemory> {
    let lines = Log::new(alloc)?;
    let prepared = Prepared {
        tx: tx(0),
        epoch: 1,
        locks: Reads::new(alloc),
        own: Owns::new(alloc),
        lines,
    };
    prepared.copy().map(|copy| copy.epoch)
}

#[test]
fn records_are_copied(rt: HostRuntime) {
    let op = Op {
        object: 0,
        inv: 1,
        resp: Some(2),
    };
    assert!(rt; is_copied(rt.alloc(), op) == Ok(true));
    assert!(rt; copied_epoch(rt.alloc()) == Ok(1));
}
