//! A register, a flag, a slot, a type that may choose, rows that are no table,
//! and relations.

ghost use Rattle.std.specs.Prelude.{◌≡◌, ◌≤◌};

use qc_list::OutOfMemory;
use qc_table::{Event, Pair, Relation, Row, Table, TableFault};
use std::alloc::Global;
use std::process::Abort;

pub(crate) fn row(state: u8, inv: u8, resp: u8, next: u8) -> Row
    ensures { result ≡ record { state = state; inv = inv; resp = resp; next = next } }
{
    Row {
        state,
        inv,
        resp,
        next,
    }
}

/// A state, an invocation, the number of the event of its lowest response, and
/// its responses, bit k for response k.
type Answer = (u8, u8, Option<u8>, u32);

/// A state, an event, and the state after it.
type Step = (u8, u8, Option<u8>);

/// The table was made, and these are its steps and answers.
fn check_table(
    rt: &impl Abort,
    table: Result<Table, TableFault>,
    steps: &[Step],
    answers: &[Answer],
) {
    let Ok(table) = table else {
        panic!(rt; "no table");
    };
    for (state, event, next) in steps {
        assert!(rt;
            table.step(*state, *event) == *next,
            "in {state} by {event}"
        );
    }
    for (state, inv, first, responses) in answers {
        let answer = (table.first(*state, *inv), table.responses(*state, *inv));
        assert!(rt; answer == (*first, *responses), "in {state} at {inv}");
    }
}

/// The register: invocations R, W0 and W1, responses 0, 1 and ok.
pub(crate) fn register(alloc: Global) -> Result<Table, TableFault> {
    let rows = [
        row(0, 0, 0, 0),
        row(1, 0, 1, 1),
        row(0, 1, 2, 0),
        row(1, 1, 2, 0),
        row(0, 2, 2, 1),
        row(1, 2, 2, 1),
    ];
    Table::new(alloc, 2, 3, 3, 0, &rows)
}

fn check_counts(rt: &impl Abort, table: Result<Table, TableFault>) {
    let Ok(table) = table else {
        panic!(rt; "no table");
    };
    let events = [
        Event { inv: 0, resp: 0 },
        Event { inv: 0, resp: 1 },
        Event { inv: 1, resp: 2 },
        Event { inv: 2, resp: 2 },
    ];
    assert!(rt; table.events() == events.as_slice());
    let counts = [table.states(), table.invs(), table.resps(), table.start()];
    assert!(rt; counts == [2, 3, 3, 0]);
}

#[test]
fn registers_read_what_was_written(rt: HostRuntime) {
    check_counts(&rt, register(rt.alloc()));
    check_table(
        &rt,
        register(rt.alloc()),
        &[
            (0, 0, Some(0)),
            (1, 1, Some(1)),
            (1, 2, Some(0)),
            (0, 3, Some(1)),
            (0, 1, None),
            (0, 4, None),
        ],
        &[
            (0, 0, Some(0), 1),
            (1, 0, Some(1), 2),
            (0, 1, Some(2), 4),
            (0, 2, Some(3), 4),
            (2, 0, None, 0),
            (0, 3, None, 0),
        ],
    );
}

/// The flag: invocations TAS and Reset, responses 0, 1 and ok. Its events are
/// TAS:0, TAS:1 and Reset:ok.
pub(crate) fn flag(alloc: Global) -> Result<Table, TableFault> {
    let rows = [
        row(0, 0, 0, 1),
        row(1, 0, 1, 1),
        row(0, 1, 2, 0),
        row(1, 1, 2, 0),
    ];
    Table::new(alloc, 2, 2, 3, 0, &rows)
}

#[test]
fn flags_tell_who_was_first(rt: HostRuntime) {
    check_table(
        &rt,
        flag(rt.alloc()),
        &[
            (0, 0, Some(1)),
            (0, 1, None),
            (0, 2, Some(0)),
            (0, 3, None),
            (1, 0, None),
            (1, 1, Some(1)),
            (1, 2, Some(0)),
            (1, 3, None),
            (2, 0, None),
            (2, 1, None),
            (2, 2, None),
            (2, 3, None),
        ],
        &[
            (0, 0, Some(0), 1),
            (1, 0, Some(1), 2),
            (0, 1, Some(2), 4),
            (1, 1, Some(2), 4),
        ],
    );
}

/// The slot: states empty and full, invocations Put and Get, responses ok and
/// item. In a full slot Put has no response, and in an empty one Get has none.
#[test]
fn slots_are_empty_or_full(rt: HostRuntime) {
    let rows = [row(0, 0, 0, 1), row(1, 1, 1, 0)];
    check_table(
        &rt,
        Table::new(rt.alloc(), 2, 2, 2, 0, &rows),
        &[
            (0, 0, Some(1)),
            (0, 1, None),
            (1, 0, None),
            (1, 1, Some(0)),
            (0, 64, None),
            (0, 65, None),
            (63, 0, None),
            (255, 255, None),
        ],
        &[
            (0, 0, Some(0), 1),
            (0, 1, None, 0),
            (1, 0, None, 0),
            (1, 1, Some(1), 2),
        ],
    );
}

/// Of the responses 3 and 1 the lower one comes first, though its row is later.
#[test]
fn the_lowest_response_is_first(rt: HostRuntime) {
    let rows = [row(0, 0, 3, 0), row(0, 0, 1, 0)];
    let table = Table::new(rt.alloc(), 1, 1, 4, 0, &rows);
    check_table(&rt, table, &[], &[(0, 0, Some(1), 10)]);
}

/// What is wrong with rows of two states, invocations and responses.
fn fault(alloc: Global, rows: [Row; 4]) -> Option<TableFault> {
    Table::new(alloc, 2, 2, 2, 0, &rows).err()
}

#[test]
fn faulty_rows_are_no_table(rt: HostRuntime) {
    let good = row(0, 0, 0, 0);
    let other = row(1, 0, 0, 0);
    let unknown = TableFault::UnknownName { row: 1 };
    for (rows, want) in [
        ([good, row(2, 0, 0, 0), row(2, 0, 0, 0), other], unknown),
        ([good, row(0, 2, 0, 0), row(0, 2, 0, 0), other], unknown),
        ([good, row(0, 0, 2, 0), row(0, 0, 2, 0), other], unknown),
        ([good, row(0, 0, 0, 2), row(0, 0, 0, 2), other], unknown),
        (
            [good, other, row(0, 0, 0, 1), good],
            TableFault::DuplicateRow { row: 2 },
        ),
    ] {
        assert!(rt; fault(rt.alloc(), rows) == Some(want), "{rows:?}");
    }
}

/// What is wrong with rows of so many events.
fn fault_of_events(alloc: Global, count: u8) -> Result<Option<TableFault>, OutOfMemory> {
    let mut rows = Vec::new(alloc);
    for number in 0..count {
        rows.push(row(0, number / 32, number % 32, 0))?;
    }
    Ok(Table::new(alloc, 1, 32, 32, 0, &rows).err())
}

#[test]
fn sixty_five_events_are_too_many(rt: HostRuntime) {
    assert!(rt; fault_of_events(rt.alloc(), 64) == Ok(None));
    assert!(rt; fault_of_events(rt.alloc(), 65) == Ok(Some(TableFault::TooMany)));
}

/// What is wrong with this many rows, each of a case of its own as long as
/// there are cases: 65,536.
fn fault_of_cases(alloc: Global, count: u32) -> Result<Option<TableFault>, OutOfMemory>
    requires { count ≤ 131072 }
{
    let mut rows = Vec::new(alloc);
    for number in 0..count {
        rows.push(row(
            (number / 1024 % 64) as u8,
            (number / 32 % 32) as u8,
            (number % 32) as u8,
            0,
        ))?;
    }
    Ok(Table::new(alloc, 64, 32, 32, 0, &rows).err())
}

/// The test for repeats passes over the rows once: else this takes minutes.
#[test]
fn the_most_rows_repeat_a_case(rt: HostRuntime) {
    let repeated = TableFault::DuplicateRow { row: 65_536 };
    assert!(rt; fault_of_cases(rt.alloc(), 65_536) == Ok(Some(TableFault::TooMany)));
    assert!(rt; fault_of_cases(rt.alloc(), 131_072) == Ok(Some(repeated)));
}

fn pair(inv: u8, event: u8) -> Pair
    ensures { result ≡ record { inv = inv; event = event } }
{
    Pair { inv, event }
}

/// The relation of these pairs has them and no others.
fn check_pairs(rt: &impl Abort, relation: &Relation, pairs: &[Pair]) {
    for inv in 0..40 {
        for event in 0..72 {
            let given = pairs.contains(&pair(inv, event));
            assert!(rt; relation.depends(inv, event) == given, "{inv} on {event}");
        }
    }
}

#[test]
fn relations_have_the_pairs_given(rt: HostRuntime) {
    let pairs = [
        pair(0, 0),
        pair(31, 63),
        pair(5, 40),
        pair(31, 63),
        pair(5, 7),
        pair(31, 0),
    ];
    let relation = Relation::new(&pairs);
    check_pairs(&rt, &relation, &pairs);
    for (inv, events) in [
        (0, 1),
        (1, 0),
        (5, 0x0100_0000_0080),
        (31, 0x8000_0000_0000_0001),
        (32, 0),
        (255, 0),
    ] {
        assert!(rt; relation.depended(inv) == events, "at {inv}");
    }
    assert!(rt; !relation.depends(0, 64) && !relation.depends(31, 127));
}
