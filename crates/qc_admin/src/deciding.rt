//! What the next epoch begins with: the merged log, and the greatest clock.

ghost use Rattle.std.specs.Prelude.{◌≡◌, IfOk, OnOk, fold, max};
ghost use Rattle.qc_epoch.specs.Admin.{ShutSite as Told};
ghost use Rattle.qc_epoch.specs.Deciding.{decision, merged};
ghost use Rattle.qc_admin.specs.Merging.{stamp_at, with_promised_by, with_shut_by};

use crate::questions::Questions;
use crate::shut::{ShutSite, Shuts};
use crate::stamps::Stamps;
use qc_entry::{Log, Prepared};
use qc_list::OutOfMemory;
use qc_msg::EpochStart;
use qc_recover::LineSet;
use qc_site::lines_of;
use std::alloc::Global;

/// The epoch as what these sites told and these verdicts decide it.
pub(crate) fn decide(
    alloc: Global,
    epoch: u8,
    shuts: &Shuts,
    questions: &Questions,
) -> Result<EpochStart, OutOfMemory>
    ensures { IfOk result (λ d. d ≡ decision epoch shuts.now questions.now) }
{
    Ok(EpochStart {
        epoch,
        clock: questions.latest(latest(shuts)),
        lines: merged(alloc, shuts, questions)?,
    })
}

/// The greatest clock that was told.
fn latest(shuts: &Shuts) -> u64
    ensures { result ≡ fold (λ clock (s : Told). max clock s.clock) 0 shuts.now }
{
    let mut latest = 0;
    for shut in shuts.items() {
        latest = latest.max(shut.clock);
    }
    latest
}

/// The lines of all that was told, with those of what was promised and has
/// committed.
fn merged(alloc: Global, shuts: &Shuts, questions: &Questions) -> Result<Log, OutOfMemory>
    ensures { IfOk result (λ log. log ≡ merged shuts.now questions.now) }
{
    let stamps = questions.stamps(alloc)?;
    let mut lines = LineSet::new(alloc);
    'shuts: for shut in shuts.items() {
        join_shut(alloc, &mut lines, &stamps, shut)?;
    }
    lines.into_log(alloc)
}

/// Joins the lines that a site told, and those of its promises.
fn join_shut(
    alloc: Global,
    lines: &mut LineSet,
    stamps: &Stamps,
    shut: &ShutSite,
) -> Result<(), OutOfMemory>
    ensures { OnOk result (lines.new ≡ with_shut_by (stamp_at stamps.now) lines.old shut.now) }
{
    lines.join(shut.log.lines())?;
    for promise in shut.prepared.items() {
        join_promise(alloc, lines, stamps, promise)?;
    }
    Ok(())
}

/// Joins the lines of a promise, where its transaction has committed.
fn join_promise(
    alloc: Global,
    lines: &mut LineSet,
    stamps: &Stamps,
    promise: &Prepared,
) -> Result<(), OutOfMemory>
    ensures { OnOk result (lines.new ≡ with_promised_by (stamp_at stamps.now) lines.old promise.now) }
{
    if let Some(stamp) = stamps.of(promise.tx) {
        let own = lines_of(alloc, stamp, promise.tx, promise.own.items())?;
        lines.join(own.lines())?;
    }
    Ok(())
}
