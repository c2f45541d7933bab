//! Certificates of six types, and wrong ones of each.

mod registers;
mod samples;

use qc_cert::{CertFault, MOST_TRIPLES, Triple, check};
use qc_table::{Kind, Pair, Relation, Row, Table};
use std::alloc::{AllocError, Global};
use std::process::Abort;

/// The most rows of a type here.
const MOST_ROWS: usize = 100;

/// A type with this many states, invocations and responses, which starts in
/// state 0. A row is a state, an invocation, a response and the state after; a
/// pair is an invocation and an event on which it depends.
fn kind(
    alloc: Global,
    counts: (u8, u8, u8),
    rows: &[(u8, u8, u8, u8)],
    pairs: &[(u8, u8)],
) -> Option<Kind> {
    let relation = relation(alloc, pairs)?;
    let rows = rows_of(alloc, rows).ok()?;
    let table = table(alloc, counts, &rows)?;
    Some(Kind { table, relation })
}

/// The table of these rows.
fn table(alloc: Global, (states, invs, resps): (u8, u8, u8), rows: &[Row]) -> Option<Table> {
    if !(1..=64).contains(&states) || !(1..=32).contains(&invs) || !(1..=32).contains(&resps) {
        return None;
    }
    if rows.len() > MOST_ROWS {
        return None;
    }
    Table::new(alloc, states, invs, resps, 0, rows).ok()
}

/// These rows.
fn rows_of(alloc: Global, rows: &[(u8, u8, u8, u8)]) -> Result<Vec<Row>, AllocError> {
    let row = |(state, inv, resp, next)| Row {
        state,
        inv,
        resp,
        next,
    };
    rows.iter().copied().map(row).collect(alloc)
}

/// The relation of these pairs.
fn relation(alloc: Global, pairs: &[(u8, u8)]) -> Option<Relation> {
    let pair = |(inv, event)| Pair { inv, event };
    let pairs: Vec<Pair> = pairs.iter().copied().map(pair).collect(alloc).ok()?;
    if !pairs.iter().all(|pair| pair.inv < 32 && pair.event < 64) {
        return None;
    }
    Some(Relation::new(&pairs))
}

/// What `check` finds wrong with a list, or the word that it isn't one of the
/// type's states.
fn fault(alloc: Global, kind: &Kind, list: &[Triple]) -> Result<Option<CertFault>, &'static str> {
    let states = kind.table.states();
    if list.len() > MOST_TRIPLES {
        return Err("too many triples");
    }
    if !list
        .iter()
        .all(|triple| triple.view < states && triple.log < states)
    {
        return Err("a triple of other states");
    }
    Ok(check(alloc, kind, list).err())
}

/// These triples: the view's state, the log's state, the events left out.
fn list(alloc: Global, triples: &[(u8, u8, u64)]) -> Result<Vec<Triple>, AllocError> {
    let triple = |(view, log, out)| Triple { view, log, out };
    triples.iter().copied().map(triple).collect(alloc)
}

/// What is wrong with these triples.
fn found(
    alloc: Global,
    kind: &Kind,
    triples: &[(u8, u8, u64)],
) -> Result<Option<CertFault>, &'static str> {
    match list(alloc, triples) {
        Ok(list) => fault(alloc, kind, &list),
        Err(_) => Err("no memory"),
    }
}

/// Triples of a type, and what is wrong with them.
type Case<'a> = (&'a [(u8, u8, u64)], Option<CertFault>);

/// The type of these counts, rows and pairs, and what is wrong with lists.
fn check_type(
    rt: &impl Abort,
    alloc: Global,
    counts: (u8, u8, u8),
    rows: &[(u8, u8, u8, u8)],
    pairs: &[(u8, u8)],
    cases: &[Case],
) {
    let Some(kind) = kind(alloc, counts, rows, pairs) else {
        panic!(rt; "no type");
    };
    for (triples, want) in cases {
        assert!(rt; found(alloc, &kind, triples) == Ok(*want), "{triples:?}");
    }
}

fn left_out(triple: u32, event: u8) -> Option<CertFault> {
    Some(CertFault::Uncovered {
        triple,
        event,
        taken: false,
    })
}

fn taken(triple: u32, event: u8) -> Option<CertFault> {
    Some(CertFault::Uncovered {
        triple,
        event,
        taken: true,
    })
}

fn unequal(triple: u32, inv: u8, resp: u8) -> Option<CertFault> {
    Some(CertFault::Unequal { triple, inv, resp })
}
