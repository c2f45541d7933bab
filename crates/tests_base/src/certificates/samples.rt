//! Certificates that were worked out by hand.
//!
//! The faults of wrong ones are worked out from the rules. Where one triple is
//! left out of a list, the first one that leads to it is at fault, by the
//! first event that does; where a pair is left out of a relation, the first
//! triple that leaves out no more than the events of such pairs, and whose
//! states differ for that invocation.

use super::{check_type, fault, kind, left_out, taken, unequal};
use qc_cert::{CertFault, Triple};
use std::alloc::{AllocError, Global};
use std::process::Abort;

/// One triple for each two states, in their order, that leaves out these.
fn grid(alloc: Global, states: u8, outs: &[u64]) -> Result<Vec<Triple>, AllocError> {
    let mut triples = Vec::new(alloc);
    for (number, out) in (0..u8::MAX).zip(outs.iter()) {
        triples.push(Triple {
            view: number.checked_div(states).unwrap_or(0),
            log: number.checked_rem(states).unwrap_or(0),
            out: *out,
        })?;
    }
    Ok(triples)
}

/// The items but the one at this place.
fn without<T: Copy + Drop>(alloc: Global, items: &[T], place: usize) -> Result<Vec<T>, AllocError> {
    let mut rest = Vec::new(alloc);
    for (k, item) in items.iter().enumerate() {
        if k != place {
            rest.push(*item)?;
        }
    }
    Ok(rest)
}

/// A flag: TAS answers whether it was set, and sets it; Reset answers ok. Its
/// events are TAS:0, TAS:1 and Reset:ok. A test that misses a Reset takes a
/// flag that isn't set for one that is.
#[test]
fn flags(rt: HostRuntime) {
    let rows = [(0, 0, 0, 1), (1, 0, 1, 1), (0, 1, 2, 0), (1, 1, 2, 0)];
    let triples = [(0, 0, 0), (0, 1, 1), (1, 1, 0), (1, 0, 4)];
    let all: &[(u8, u8)] = &[(0, 0), (0, 2)];
    let few: &[(u8, u8)] = &[(0, 0)];
    for (pairs, want) in [(all, None), (few, unequal(3, 0, 0))] {
        check_type(
            &rt,
            rt.alloc(),
            (2, 2, 3),
            &rows,
            pairs,
            &[(&triples, want)],
        );
    }
}

/// A slot for one item: Put answers ok where it is empty, and Get answers item
/// where it is full. Each depends on both events.
#[test]
fn slots(rt: HostRuntime) {
    let rows = [(0, 0, 0, 1), (1, 1, 1, 0)];
    let pairs = [(0, 0), (0, 1), (1, 0), (1, 1)];
    let triples = [(0, 0, 0), (1, 1, 0), (0, 1, 1), (1, 0, 2)];
    check_type(
        &rt,
        rt.alloc(),
        (2, 2, 2),
        &rows,
        &pairs,
        &[(&triples, None)],
    );
}

/// A type with a certificate and what is wrong without a part of either.
#[derive(Drop)]
struct Sample<'a> {
    counts: (u8, u8, u8),
    rows: &'a [(u8, u8, u8, u8)],
    pairs: &'a [(u8, u8)],
    /// What the triple of each two states leaves out, in their order.
    outs: &'a [u64],
    /// The place of a triple, and what is wrong without it.
    triples: [(usize, Option<CertFault>); 3],
    /// The place of a pair, and what is wrong without it.
    pair: (usize, Option<CertFault>),
}

/// What is wrong with these triples, by these pairs.
fn fault_by(
    alloc: Global,
    sample: &Sample,
    pairs: &[(u8, u8)],
    triples: &[Triple],
) -> Result<Option<CertFault>, &'static str> {
    let kind = kind(alloc, sample.counts, sample.rows, pairs).ok_or("no type")?;
    fault(alloc, &kind, triples)
}

/// What is wrong without the triple at this place.
fn fault_without_triple(
    alloc: Global,
    sample: &Sample,
    whole: &[Triple],
    place: usize,
) -> Result<Option<CertFault>, &'static str> {
    match without(alloc, whole, place) {
        Ok(triples) => fault_by(alloc, sample, sample.pairs, &triples),
        Err(_) => Err("no memory"),
    }
}

/// What is wrong without the pair at this place.
fn fault_without_pair(
    alloc: Global,
    sample: &Sample,
    whole: &[Triple],
    place: usize,
) -> Result<Option<CertFault>, &'static str> {
    match without(alloc, sample.pairs, place) {
        Ok(pairs) => fault_by(alloc, sample, &pairs, whole),
        Err(_) => Err("no memory"),
    }
}

/// The certificate is accepted, and without any of these parts refused.
fn check_parts(rt: &impl Abort, alloc: Global, sample: &Sample, whole: &[Triple]) {
    assert!(rt; fault_by(alloc, sample, sample.pairs, whole) == Ok(None));
    for (place, want) in sample.triples {
        let found = fault_without_triple(alloc, sample, whole, place);
        assert!(rt; found == Ok(want), "without triple {place}");
    }
    let (place, want) = sample.pair;
    let found = fault_without_pair(alloc, sample, whole, place);
    assert!(rt; found == Ok(want), "without pair {place}");
}

fn try_sample(rt: &impl Abort, alloc: Global, sample: &Sample) {
    let Ok(whole) = grid(alloc, sample.counts.0, sample.outs) else {
        panic!(rt; "no memory");
    };
    check_parts(rt, alloc, sample, &whole);
}

/// A queue for two items a and b: its states are empty, a, b, aa, ab, ba and
/// bb, its invocations put a, put b, and take, and its events put a, put b,
/// take a and take b. All of them depend on all, since a put is legal where
/// there is room.
#[test]
fn queues(rt: HostRuntime) {
    let sample = Sample {
        counts: (7, 3, 3),
        rows: &[
            (0, 0, 0, 1),
            (0, 1, 0, 2),
            (1, 0, 0, 3),
            (1, 1, 0, 4),
            (1, 2, 1, 0),
            (2, 0, 0, 5),
            (2, 1, 0, 6),
            (2, 2, 2, 0),
            (3, 2, 1, 1),
            (4, 2, 1, 2),
            (5, 2, 2, 1),
            (6, 2, 2, 2),
        ],
        pairs: &[
            (0, 0),
            (0, 1),
            (0, 2),
            (0, 3),
            (1, 0),
            (1, 1),
            (1, 2),
            (1, 3),
            (2, 0),
            (2, 1),
            (2, 2),
            (2, 3),
        ],
        outs: &[
            0, 1, 2, 1, 3, 3, 2, 4, 0, 6, 1, 2, 7, 6, 8, 9, 0, 9, 11, 1, 2, 4, 4, 6, 0, 6, 7, 6,
            12, 13, 4, 13, 0, 5, 6, 12, 8, 14, 9, 10, 0, 14, 8, 9, 8, 9, 11, 9, 0,
        ],
        triples: [
            (0, Some(CertFault::NoStart)),
            (19, left_out(16, 0)),
            (48, taken(16, 1)),
        ],
        pair: (11, unequal(14, 2, 2)),
    };
    try_sample(&rt, rt.alloc(), &sample);
}

/// A counter from 0 to 3: inc and dec answer ok, or no where they can't, and
/// read answers the count. Its events are inc ok, dec no, read 0, dec ok, read
/// 1, read 2, inc no and read 3.
#[test]
fn counters(rt: HostRuntime) {
    let sample = Sample {
        counts: (4, 3, 6),
        rows: &[
            (0, 0, 0, 1),
            (0, 1, 1, 0),
            (0, 2, 2, 0),
            (1, 0, 0, 2),
            (1, 1, 0, 0),
            (1, 2, 3, 1),
            (2, 0, 0, 3),
            (2, 1, 0, 1),
            (2, 2, 4, 2),
            (3, 0, 1, 3),
            (3, 1, 0, 2),
            (3, 2, 5, 3),
        ],
        pairs: &[(0, 0), (0, 3), (1, 0), (1, 3), (2, 0), (2, 3)],
        outs: &[0, 1, 1, 1, 8, 0, 1, 1, 8, 8, 0, 1, 8, 8, 8, 0],
        triples: [
            (0, Some(CertFault::NoStart)),
            (12, left_out(12, 3)),
            (15, taken(10, 0)),
        ],
        pair: (5, unequal(4, 2, 2)),
    };
    try_sample(&rt, rt.alloc(), &sample);
}

/// A set of two items: its states are empty, a, b and both, its invocations
/// add a, add b, drop a, drop b, has a and has b, its responses ok, yes and
/// no. Its events are the four with ok, and has a no, has b no, has a yes and
/// has b yes. Only has depends on anything: on what adds or drops its item.
#[test]
fn sets(rt: HostRuntime) {
    let sample = Sample {
        counts: (4, 6, 3),
        rows: &[
            (0, 0, 0, 1),
            (0, 1, 0, 2),
            (0, 2, 0, 0),
            (0, 3, 0, 0),
            (0, 4, 2, 0),
            (0, 5, 2, 0),
            (1, 0, 0, 1),
            (1, 1, 0, 3),
            (1, 2, 0, 0),
            (1, 3, 0, 1),
            (1, 4, 1, 1),
            (1, 5, 2, 1),
            (2, 0, 0, 3),
            (2, 1, 0, 2),
            (2, 2, 0, 2),
            (2, 3, 0, 0),
            (2, 4, 2, 2),
            (2, 5, 1, 2),
            (3, 0, 0, 3),
            (3, 1, 0, 3),
            (3, 2, 0, 2),
            (3, 3, 0, 1),
            (3, 4, 1, 3),
            (3, 5, 1, 3),
        ],
        pairs: &[(4, 0), (4, 2), (5, 1), (5, 3)],
        outs: &[0, 1, 2, 3, 4, 0, 6, 2, 8, 9, 0, 1, 12, 8, 4, 0],
        triples: [
            (0, Some(CertFault::NoStart)),
            (3, left_out(1, 1)),
            (11, taken(1, 1)),
        ],
        pair: (3, unequal(8, 5, 1)),
    };
    try_sample(&rt, rt.alloc(), &sample);
}
