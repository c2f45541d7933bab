//! The lines that a site's records and deeds show.

ghost use Rattle.std.specs.Prelude.{◌≡◌, [], List, OnOk, IfOk, MatchOption, map};
ghost use Rattle.qc_msg.specs.Deeds.{Writes};
ghost use Rattle.qc_msg.specs.declared.record.Record.{Record as Written};
ghost use Rattle.qc_promise.specs.SiteLogs.{done_lines, learning, lines_of, recorded_from, view_by};
ghost use Rattle.qc_promise.specs.SiteLogs.{with_given, with_joined, with_written};
ghost use Rattle.qc_text.specs.Deeds.{deed_of, envelope_in};
ghost use Rattle.qc_text.specs.Lifetimes.{log_in, present};
ghost use Rattle.qc_text.specs.Prepares.{AreLast};
ghost use Rattle.qc_text.specs.Views.{view_asked};

use crate::deeds::{Deed, Letter};
use crate::grants::is_granted;
use crate::known::Known;
use crate::lifetimes::Lifetime;
use crate::prepares::Prepares;
use qc_entry::{Line, Log, OwnLine};
use qc_list::OutOfMemory;
use qc_msg::{Message, Record, Want};
use qc_stamp::{Stamp, TxId};
use std::alloc::Global;

/// The log of a site in its present life: all lines that it knows.
pub(crate) fn log_of(alloc: Global, current: &Lifetime<'_>) -> Result<Log, OutOfMemory>
    ensures { IfOk result (λ log. log ≡ log_in (present current.now)) }
{
    let mut known = Known::new(alloc)?;
    let mut prepares = Prepares::new(alloc);
    give_all(alloc, &mut known, &mut prepares, current.kept)?;
    'deeds: for place in 0..current.since.len() {
        let (deed, after) = (&current.since[place], &current.since[place + 1..]);
        join(alloc, &mut known, &prepares, deed, after)?;
        take_written(&mut prepares, deed)?;
    }
    known.into_log()
}

/// Adds the lines that the records of a rise give, and takes their Prepares.
fn give_all<'a>(
    alloc: Global,
    known: &mut Known,
    prepares: &mut Prepares<'a>,
    kept: &'a [Record],
) -> Result<(), OutOfMemory>
    requires { AreLast prepares.old [] }
    ensures given { OnOk result (known.new ≡ recorded_from known.old [] kept.now) }
    ensures last { OnOk result (AreLast prepares.new kept.now) }
{
    'records: for written in kept {
        give(alloc, known, prepares, written)?;
        prepares.take(written)?;
    }
    Ok(())
}

/// Adds the lines that a record gives; with an Install another epoch begins.
#[tactic(auto, using(crate::proofs::Recorded::learn_none))]
fn give(
    alloc: Global,
    known: &mut Known,
    prepares: &Prepares<'_>,
    written: &Record,
) -> Result<(), OutOfMemory>
    ensures { OnOk result ((before : List Written) → AreLast prepares.now before
        → known.new ≡ with_given known.old before written.now) }
{
    match written {
        Record::Prepare(prepared) => known.add(&prepared.lines),
        Record::Done { tx, clock } => join_done(alloc, known, prepares, *tx, *clock),
        Record::Install(start) => known.begin(alloc, &start.lines),
        Record::Life | Record::Close { .. } | Record::Commit(_) | Record::Decide(_) => Ok(()),
    }
}

/// Takes the record that a deed writes, if it writes one.
fn take_written<'a>(prepares: &mut Prepares<'a>, deed: &Deed<'a>) -> Result<(), OutOfMemory>
    ensures { OnOk result ((before : List Written) → AreLast prepares.old before
        → AreLast prepares.new (with_written before (deed_of deed.now))) }
{
    match deed {
        Deed::Wrote(written) => prepares.take(written),
        _ => Ok(()),
    }
}

/// Adds the lines that a deed brings, after records of which the last Prepares
/// are known, and among the deeds after it.
#[tactic(auto, using(crate::proofs::Recorded::learn_none))]
fn join(
    alloc: Global,
    known: &mut Known,
    prepares: &Prepares<'_>,
    deed: &Deed<'_>,
    after: &[Deed<'_>],
) -> Result<(), OutOfMemory>
    ensures { OnOk result ((before : List Written) → AreLast prepares.now before
        → known.new ≡ with_joined known.old before (deed_of deed.now) (map deed_of after.now)) }
{
    match deed {
        Deed::Got(letter) => join_view(known, letter, after),
        Deed::Wrote(written) => join_written(alloc, known, prepares, written),
        Deed::Called(_)
        | Deed::Lost(_)
        | Deed::Sent { .. }
        | Deed::Told(_)
        | Deed::Fell { .. }
        | Deed::Rose(_) => Ok(()),
    }
}

/// Adds the view of an Append, where it is granted.
fn join_view(known: &mut Known, letter: &Letter<'_>, after: &[Deed<'_>]) -> Result<(), OutOfMemory>
    ensures { OnOk result (known.new
        ≡ learning known.old (view_by (map deed_of after.now) (envelope_in letter.now))) }
{
    if let Some(view) = view_asked(letter.message) {
        if is_granted(after, letter.number) {
            known.learn(view)?;
        }
    }
    Ok(())
}

/// The view that an Append brings.
fn view_asked(message: &Message) -> Option<&Log>
    ensures { MatchOption result (view_asked message.now ≡ []) (λ view. view_asked message.now ≡ view.now) }
{
    match message {
        Message::Request {
            want: Want::Append { view, .. },
            ..
        } => Some(view),
        _ => None,
    }
}

/// Adds the lines that a record brings as it is written: those of a Done. With
/// an Install another epoch begins.
#[tactic(auto, using(crate::proofs::Recorded::learn_none))]
fn join_written(
    alloc: Global,
    known: &mut Known,
    prepares: &Prepares<'_>,
    written: &Record,
) -> Result<(), OutOfMemory>
    ensures { OnOk result ((before : List Written) → AreLast prepares.now before
        → known.new ≡ with_joined known.old before (Writes written.now) []) }
{
    match written {
        Record::Done { tx, clock } => join_done(alloc, known, prepares, *tx, *clock),
        Record::Install(start) => known.begin(alloc, &start.lines),
        Record::Life
        | Record::Prepare(_)
        | Record::Close { .. }
        | Record::Commit(_)
        | Record::Decide(_) => Ok(()),
    }
}

/// Adds the own lines of the last Prepare of a transaction that committed with
/// this clock.
fn join_done(
    alloc: Global,
    known: &mut Known,
    prepares: &Prepares<'_>,
    tx: TxId,
    clock: u64,
) -> Result<(), OutOfMemory>
    ensures { OnOk result ((before : List Written) → AreLast prepares.now before
        → known.new ≡ learning known.old (done_lines before (record { tx = tx; clock = clock }))) }
{
    if let Some(prepared) = prepares.of(tx) {
        let stamp = Stamp {
            clock,
            client: tx.client,
        };
        let lines = lines_of(alloc, stamp, tx, prepared.own.items())?;
        known.learn(&lines)?;
    }
    Ok(())
}

/// Own lines of a transaction as lines with this stamp.
fn lines_of(alloc: Global, stamp: Stamp, tx: TxId, own: &[OwnLine]) -> Result<Log, OutOfMemory>
    ensures { IfOk result (λ log. log ≡ lines_of stamp tx own.now) }
{
    let mut lines = Log::new(alloc)?;
    'own: for line in own {
        lines.add(Line {
            stamp,
            tx,
            op: line.op,
            object: line.object,
            event: line.event,
        })?;
    }
    Ok(lines)
}
