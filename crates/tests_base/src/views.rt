//! A view of a register, step by step.

use crate::register::register;
use qc_entry::{Line, Log};
use qc_list::OutOfMemory;
use qc_stamp::{Stamp, TxId};
use qc_table::Table;
use qc_view::View;
use std::alloc::Global;
use std::process::Abort;
use std::test::Fail;

/// A line of the transaction with the stamp of this clock.
fn line(clock: u64, event: u8) -> Line {
    Line {
        stamp: Stamp { clock, client: 0 },
        tx: TxId {
            client: 0,
            life: 1,
            number: 1,
        },
        op: 1,
        object: 0,
        event,
    }
}

/// W1 and then W0, though W0 is added first.
fn writes(alloc: Global) -> Result<Log, OutOfMemory> {
    let mut log = Log::new(alloc)?;
    log.add(line(2, 2))?;
    log.add(line(1, 3))?;
    Ok(log)
}

/// What a view takes.
#[derive(Clone, Copy)]
enum Step {
    /// The log's lines.
    Lines,
    /// An own event.
    Own(u8),
}

/// Each step, how many lines the view has then, its state and its answer to
/// R. The own W1 comes after all lines; no R:0 is legal after it.
const STEPS: [(Step, usize, Option<u8>, Option<u8>); 4] = [
    (Step::Own(3), 0, Some(1), Some(1)),
    (Step::Lines, 2, Some(1), Some(1)),
    (Step::Lines, 2, Some(1), Some(1)),
    (Step::Own(0), 2, None, None),
];

fn take(view: &mut View, log: &Log, step: Step) -> Result<(), OutOfMemory> {
    match step {
        Step::Lines => view.join(log),
        Step::Own(event) => view.own(event),
    }
}

/// Each step is taken, and leads to what is wanted.
fn take_steps(rt: &impl Abort, view: &mut View, table: &Table, log: &Log) {
    for (step, lines, state, answer) in STEPS {
        assert!(rt; take(view, log, step).is_ok());
        assert!(rt; view.log().lines().len() == lines);
        assert!(rt; view.state(table) == state && view.answer(table, 0) == answer);
    }
}

/// Whether a copy has the lines in their order.
fn is_copied(view: &View) -> Result<bool, OutOfMemory> {
    let copy = view.copy()?;
    Ok(copy.log().lines() == [line(1, 3), line(2, 2)].as_slice())
}

/// The view in which nothing is known, and after the steps.
fn view_all(rt: &impl Abort, alloc: Global, table: &Table, log: &Log) {
    let Ok(mut view) = View::new(alloc) else {
        panic!(rt; "no view");
    };
    assert!(rt; view.state(table) == Some(0));
    take_steps(rt, &mut view, table, log);
    assert!(rt; is_copied(&view) == Ok(true));
}

#[test]
fn registers_are_viewed(rt: HostRuntime) -> Result<(), Fail> {
    let table = register(rt.alloc())?;
    let log = writes(rt.alloc())?;
    view_all(&rt, rt.alloc(), &table, &log);
    Ok(())
}
