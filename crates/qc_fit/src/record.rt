//! Whether a record fits its actor.

ghost use Rattle.std.specs.Prelude.{◌≡◌};
ghost use Rattle.std.specs.List.{list_all};
ghost use Rattle.qc_fit.specs.Fits.{fits, is_line_fit, is_lock_fit, is_of, is_op_fit, is_own_fit, is_prepared_fit};
ghost use Rattle.qc_fit.specs.Fits.{is_start_fit};

use crate::numbers::{
    has_client, has_epoch, has_event, has_invocation, has_response, is_administrator, is_client,
    is_clock, is_site, is_this_client,
};
use qc_decl::Declaration;
use qc_entry::{Line, Log, Op, OwnLine, Prepared, ReadLock};
use qc_msg::{EpochStart, Record};

/// The number below which the records before a record stay.
const MOST_RECORDS: u32 = 2_147_483_648;

/// Whether a record, behind so many others in an actor's journal, is one that
/// this actor may have written over this declaration: it is of a kind that the
/// actor writes, its clients, epochs, objects, invocations, responses and events
/// are declared, a Commit is the actor's own, and its clocks are at most 2^61.
/// Fewer than 2^31 records stand before it. It takes no memory.
pub fn fits(decl: &Declaration, actor: u8, before: u32, rec: &Record) -> bool
    ensures { result ≡ fits decl.now actor before rec.now }
{
    before < MOST_RECORDS && is_of(decl, actor, rec)
}

/// Whether the actor writes such records, and what is in it is declared.
fn is_of(decl: &Declaration, actor: u8, rec: &Record) -> bool
    ensures { result ≡ is_of decl.now actor rec.now }
{
    match rec {
        Record::Life => {
            is_site(decl, actor) || is_client(decl, actor) || is_administrator(decl, actor)
        }
        Record::Prepare(prepared) => is_site(decl, actor) && is_prepared_fit(decl, prepared),
        Record::Done { tx, clock } => {
            is_site(decl, actor) && has_client(decl, tx.client) && is_clock(*clock)
        }
        Record::Close { epoch } => is_site(decl, actor) && has_epoch(decl, *epoch),
        Record::Install(start) => is_site(decl, actor) && is_start_fit(decl, start),
        Record::Commit(commit) => {
            is_this_client(decl, actor, commit.tx.client)
                && is_clock(commit.stamp.clock)
                && are_ops_fit(decl, commit.ops.items())
        }
        Record::Decide(start) => is_administrator(decl, actor) && is_start_fit(decl, start),
    }
}

/// Whether what is in a Prepare is declared.
fn is_prepared_fit(decl: &Declaration, prepared: &Prepared) -> bool
    ensures { result ≡ is_prepared_fit decl.now prepared.now }
{
    has_client(decl, prepared.tx.client)
        && has_epoch(decl, prepared.epoch)
        && are_locks_fit(decl, prepared.locks.items())
        && are_owns_fit(decl, prepared.own.items())
        && are_lines_fit(decl, prepared.lines.lines())
}

/// Whether what is in an Install or a Decide is declared.
fn is_start_fit(decl: &Declaration, start: &EpochStart) -> bool
    ensures { result ≡ is_start_fit decl.now start.now.epoch start.now.clock start.now.lines }
{
    has_epoch(decl, start.epoch)
        && is_clock(start.clock)
        && are_lines_fit(decl, start.lines.lines())
}

/// Whether each lock is on an invocation that its object has.
fn are_locks_fit(decl: &Declaration, locks: &[ReadLock]) -> bool
    ensures { result ≡ list_all (is_lock_fit decl.now) locks.now }
{
    locks
        .iter()
        .all(|lock| has_invocation(decl, lock.object, lock.inv))
}

/// Whether each own line is of an event that its object has.
fn are_owns_fit(decl: &Declaration, owns: &[OwnLine]) -> bool
    ensures { result ≡ list_all (is_own_fit decl.now) owns.now }
{
    owns.iter()
        .all(|own| has_event(decl, own.object, own.event))
}

/// Whether what is in each line is declared.
fn are_lines_fit(decl: &Declaration, lines: &[Line]) -> bool
    ensures { result ≡ list_all (is_line_fit decl.now) lines.now }
{
    lines.iter().all(|line| is_line_fit(decl, line))
}

/// Whether what is in a line is declared.
fn is_line_fit(decl: &Declaration, line: &Line) -> bool
    ensures { result ≡ is_line_fit decl.now line.now }
{
    is_clock(line.stamp.clock)
        && has_client(decl, line.tx.client)
        && has_event(decl, line.object, line.event)
}

/// Whether what is in each operation is declared.
fn are_ops_fit(decl: &Declaration, ops: &[Op]) -> bool
    ensures { result ≡ list_all (is_op_fit decl.now) ops.now }
{
    ops.iter().all(|op| is_op_fit(decl, op))
}

/// Whether what is in an operation is declared.
fn is_op_fit(decl: &Declaration, op: &Op) -> bool
    ensures { result ≡ is_op_fit decl.now op.now }
{
    has_invocation(decl, op.object, op.inv) && has_response(decl, op.object, op.resp)
}
