//! A site of `@three`, what it takes, and what it is to do.

ghost use Rattle.std.specs.Prelude.{IfOk};
ghost use Rattle.qc_decl.specs.Accepted.{IsAccepted};

use crate::messages::{Taken, append_in, message, own, sender};
use qc_decl::{Declaration, built_in};
use qc_entry::{Line, Log, Owns};
use qc_list::OutOfMemory;
use qc_msg::{Message, Turn};
use qc_site::Site;
use qc_stamp::{Stamp, TxId};
use std::alloc::Global;
use std::process::Abort;
use tests_texts::turn_text;

/// The only object of `@three`: a register, of which R is the invocation 0 and
/// depends on the events W0:ok and W1:ok, which are 2 and 3.
pub(crate) const X: u8 = 0;

/// The invocations of the register.
pub(crate) const READ: u8 = 0;

pub(crate) const WRITE_0: u8 = 1;

/// The events of the register.
pub(crate) const READ_0: u8 = 0;

pub(crate) const WROTE_0: u8 = 2;

pub(crate) const WROTE_1: u8 = 3;

/// The first transaction of a client.
pub(crate) fn tx(client: u8) -> TxId {
    TxId {
        client,
        life: 1,
        number: 1,
    }
}

/// A line of the first operation of a client's first transaction, on x.
pub(crate) fn line(clock: u64, client: u8, event: u8) -> Line {
    Line {
        stamp: Stamp { clock, client },
        tx: tx(client),
        op: 1,
        object: X,
        event,
    }
}

/// `@three`.
pub(crate) fn three(rt: &impl Abort, alloc: Global) -> Result<Declaration, OutOfMemory>
    ensures { IfOk result IsAccepted }
{
    match built_in(alloc, "@three")? {
        Some(decl) => Ok(decl),
        None => panic!(rt; "no @three"),
    }
}

/// A site whose life isn't the last takes a message of this sender and number.
fn taken_by(
    rt: &impl Abort,
    alloc: Global,
    decl: &Declaration,
    site: &mut Site,
    envelope: (u8, u32),
    message: &Message,
) -> Result<Turn, OutOfMemory>
    requires { IsAccepted decl.now }
{
    let life = site.life();
    assert!(rt; life < u32::MAX);
    site.handle(alloc, decl, envelope.0, envelope.1, message)
}

/// What a site does for what it takes, as a text.
fn answer(
    rt: &impl Abort,
    alloc: Global,
    decl: &Declaration,
    site: &mut Site,
    number: u32,
    taken: Taken<'_>,
) -> Result<String, OutOfMemory>
    requires { IsAccepted decl.now }
{
    let message = message(alloc, taken)?;
    let turn = taken_by(rt, alloc, decl, site, (sender(taken), number), &message)?;
    turn_text(alloc, &turn)
}

/// A site does what is wanted for what it takes.
fn check_row(
    rt: &impl Abort,
    alloc: Global,
    decl: &Declaration,
    site: &mut Site,
    number: u32,
    row: (Taken<'_>, &str),
) -> Result<(), OutOfMemory>
    requires { IsAccepted decl.now }
{
    let text = answer(rt, alloc, decl, site, number, row.0)?;
    assert_eq!(rt; text.as_str(), row.1, "at message {number}");
    Ok(())
}

/// A site does what the rows say, one after another, from message number 10 on.
pub(crate) fn check_rows(
    rt: &impl Abort,
    alloc: Global,
    decl: &Declaration,
    site: &mut Site,
    rows: &[(Taken<'_>, &str)],
) -> Result<(), OutOfMemory>
    requires { IsAccepted decl.now }
{
    let mut number = 10u32;
    for row in rows {
        check_row(rt, alloc, decl, site, number, *row)?;
        number = number.saturating_add(1);
    }
    Ok(())
}

/// A site of `@three`, after it took what the rows have from message number 10
/// on, and did what they say.
fn site_after(
    rt: &impl Abort,
    alloc: Global,
    decl: &Declaration,
    rows: &[(Taken<'_>, &str)],
) -> Result<Site, OutOfMemory>
    requires { IsAccepted decl.now }
{
    let mut site = Site::new(alloc, 1)?;
    check_rows(rt, alloc, decl, &mut site, rows)?;
    Ok(site)
}

/// A new site of `@three` does what the rows say.
pub(crate) fn new_site_after(
    rt: &impl Abort,
    alloc: Global,
    rows: &[(Taken<'_>, &str)],
) -> Result<Site, OutOfMemory> {
    let decl = three(rt, alloc)?;
    site_after(rt, alloc, &decl, rows)
}

/// A new site takes what the rows have, one after another, from message number
/// 10 on, and does what they say. Then it knows so many lines, and so many
/// transactions hold something.
pub(crate) fn check_site(
    rt: &impl Abort,
    alloc: Global,
    rows: &[(Taken<'_>, &str)],
    lines: u64,
    holders: u64,
) -> Result<(), OutOfMemory> {
    let site = new_site_after(rt, alloc, rows)?;
    check_counts(rt, &site, lines, holders)
}

/// What is read off a site.
fn check_counts(rt: &impl Abort, site: &Site, lines: u64, holders: u64) -> Result<(), OutOfMemory> {
    assert_eq!(rt; (site.number(), site.life(), site.epoch()), (1, 1, 1));
    assert_eq!(rt; (site.lines()?, site.holders()), (lines, holders));
    Ok(())
}

/// A new site is asked for a promise of a transaction that holds so many locks
/// and own lines, where its log has so many lines that no record gives.
pub(crate) fn check_prepare(
    rt: &impl Abort,
    alloc: Global,
    counts: (u8, u8, u64),
    is_promised: bool,
) -> Result<(), OutOfMemory> {
    let decl = three(rt, alloc)?;
    let is_stale = is_stale(rt, alloc, &decl, counts)?;
    assert_eq!(rt; is_stale, !is_promised, "at {counts:?}");
    Ok(())
}

/// Whether a promise is refused that would have so many locks, own lines and
/// lines.
fn is_stale(
    rt: &impl Abort,
    alloc: Global,
    decl: &Declaration,
    counts: (u8, u8, u64),
) -> Result<bool, OutOfMemory>
    requires { IsAccepted decl.now }
{
    let (locks, owns, lines) = counts;
    let mut site = Site::new(alloc, 1)?;
    read_many(rt, alloc, decl, &mut site, locks)?;
    append_many(rt, alloc, decl, &mut site, owns, lines)?;
    let answer = answer(rt, alloc, decl, &mut site, 11, Taken::Prepare(0))?;
    Ok(answer.as_str() == "3: 11 stale")
}

/// The site takes so many Reads of x.
fn read_many(
    rt: &impl Abort,
    alloc: Global,
    decl: &Declaration,
    site: &mut Site,
    locks: u8,
) -> Result<(), OutOfMemory>
    requires { IsAccepted decl.now }
{
    for inv in 0..locks {
        let _granted = answer(rt, alloc, decl, site, 10, Taken::Read(0, inv))?;
    }
    Ok(())
}

/// The site takes an Append to x with so many own lines and so many lines.
fn append_many(
    rt: &impl Abort,
    alloc: Global,
    decl: &Declaration,
    site: &mut Site,
    owns: u8,
    lines: u64,
) -> Result<(), OutOfMemory>
    requires { IsAccepted decl.now }
{
    let own = many_owns(alloc, owns)?;
    let append = append_in(0, 1, many_lines(alloc, lines)?, own)?;
    let _granted = taken_by(rt, alloc, decl, site, (3, 10), &append)?;
    Ok(())
}

/// A log of so many lines.
fn many_lines(alloc: Global, lines: u64) -> Result<Log, OutOfMemory> {
    let mut log = Log::new(alloc)?;
    for clock in 0..lines {
        log.add(line(clock, 1, WROTE_1))?;
    }
    Ok(log)
}

/// So many own lines, on which nothing depends.
fn many_owns(alloc: Global, owns: u8) -> Result<Owns, OutOfMemory> {
    let mut lines = Owns::new(alloc);
    for op in 0..owns {
        lines.push(own(op, READ_0))?;
    }
    Ok(lines)
}
