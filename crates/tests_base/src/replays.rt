//! Replays over `@one`, with and without a fault.

use qc_decl::{Declaration, built_in};
use qc_entry::{Commit, Op};
use qc_list::{List, OutOfMemory};
use qc_stamp::{Stamp, TxId};
use std::alloc::Global;
use std::test::Fail;
use theory_onecopy::replay;

const STAMP: Stamp = Stamp {
    clock: 1,
    client: 0,
};

const TX: TxId = TxId {
    client: 0,
    life: 1,
    number: 1,
};

/// The states after these operations, in one transaction.
fn states(alloc: Global, decl: &Declaration, asked: &[Op]) -> Result<Option<Vec<u8>>, OutOfMemory> {
    let ops = List::from_slice(alloc, asked)?;
    let commit = Commit {
        stamp: STAMP,
        tx: TX,
        ops,
    };
    replay(alloc, decl, &[commit])
}

/// Whether the one object is in this state, or, at `None`, a step is missing.
fn is_in(states: &Option<Vec<u8>>, want: Option<u8>) -> bool {
    match (states, want) {
        (Some(states), Some(state)) => states.as_slice() == [state].as_slice(),
        (None, None) => true,
        (Some(_), None) | (None, Some(_)) => false,
    }
}

const WRITE_1: Op = Op {
    object: 0,
    inv: 2,
    resp: Some(2),
};

const READ_1: Op = Op {
    object: 0,
    inv: 0,
    resp: Some(1),
};

const READ_WITHOUT_RESPONSE: Op = Op {
    object: 0,
    inv: 0,
    resp: None,
};

const UNDECLARED: Op = Op {
    object: 1,
    inv: 0,
    resp: Some(0),
};

const UNDECLARED_WITHOUT_RESPONSE: Op = Op {
    object: 1,
    inv: 0,
    resp: None,
};

/// Operations, and the state that they end in. An object that isn't declared
/// has no row.
const ROWS: [(&[Op], Option<u8>); 5] = [
    (&[WRITE_1, READ_1], Some(1)),
    (&[READ_1], None),
    (&[READ_WITHOUT_RESPONSE], None),
    (&[UNDECLARED_WITHOUT_RESPONSE], Some(0)),
    (&[UNDECLARED], None),
];

/// The first row that is replayed otherwise.
fn first_wrong(alloc: Global, decl: &Declaration) -> Result<Option<usize>, OutOfMemory> {
    for (place, (asked, want)) in ROWS.iter().enumerate() {
        if !is_in(&states(alloc, decl, asked)?, *want) {
            return Ok(Some(place));
        }
    }
    Ok(None)
}

#[test]
fn replays_end_in_a_state_or_miss_a_step(rt: HostRuntime) -> Result<(), Fail> {
    let decl = built_in(rt.alloc(), "@one")?.ok_or("no @one")?;
    assert!(rt; first_wrong(rt.alloc(), &decl) == Ok(None));
    Ok(())
}
