//! An administrator that takes inputs, and what he is to do.

ghost use Rattle.std.specs.Prelude.{◌<◌, IfOk, OnOk};
ghost use Rattle.qc_decl.specs.Accepted.{IsAccepted};
ghost use Rattle.qc_admin.specs.Fits.{AdminFits, MessageFits};

use crate::taken::{Said, Taken, answer, are_of_clients, log, message, promises};
use qc_admin::Admin;
use qc_decl::{Declaration, built_in};
use qc_list::OutOfMemory;
use qc_msg::{Answer, Command, Message, Snapshot, Turn};
use std::alloc::Global;
use std::process::Abort;
use tests_texts::turn_text;

/// The most inputs of a test.
const MOST_INPUTS: u32 = 1000;

/// He takes a command.
fn call(
    alloc: Global,
    decl: &Declaration,
    admin: &mut Admin,
    command: Command,
) -> Result<Turn, OutOfMemory>
    requires accepted { IsAccepted decl.now }
    requires fits { AdminFits admin.old }
    ensures { OnOk result (AdminFits admin.new) }
{
    admin.command(alloc, decl, &command)
}

/// He hears a message.
fn hear(
    alloc: Global,
    decl: &Declaration,
    admin: &mut Admin,
    message: &Message,
) -> Result<Turn, OutOfMemory>
    requires accepted { IsAccepted decl.now }
    requires fits { AdminFits admin.old }
    requires message { MessageFits message.now }
    ensures { OnOk result (AdminFits admin.new) }
{
    admin.hear(alloc, decl, message)
}

/// He learns that a request is lost.
fn lose(
    alloc: Global,
    decl: &Declaration,
    admin: &mut Admin,
    number: u32,
) -> Result<Turn, OutOfMemory>
    requires accepted { IsAccepted decl.now }
    requires fits { AdminFits admin.old }
    ensures { OnOk result (AdminFits admin.new) }
{
    admin.lose(alloc, decl, number)
}

/// The messages of his last turn get the numbers from this one on.
fn number(admin: &mut Admin, first: u32)
    requires fits { AdminFits admin.old }
    requires numbers { first < 100000 }
    ensures { AdminFits admin.new }
{
    admin.sent(first);
}

/// He hears an answer.
fn hear_answer(
    alloc: Global,
    decl: &Declaration,
    admin: &mut Admin,
    to: u32,
    said: Said,
) -> Result<Turn, OutOfMemory>
    requires accepted { IsAccepted decl.now }
    requires fits { AdminFits admin.old }
    ensures { OnOk result (AdminFits admin.new) }
{
    let answer = answer(alloc, said)?;
    hear(alloc, decl, admin, &Message::Answer { to, answer })
}

/// He hears that a site has closed.
fn hear_shut(
    rt: &impl Abort,
    alloc: Global,
    decl: &Declaration,
    admin: &mut Admin,
    to: u32,
    clock: u64,
    lines: &[(u64, u8, u8)],
    rows: &[(u8, u8, u8)],
) -> Result<Turn, OutOfMemory>
    requires accepted { IsAccepted decl.now }
    requires fits { AdminFits admin.old }
    ensures { OnOk result (AdminFits admin.new) }
{
    let log = log(alloc, lines)?;
    let prepared = promises(alloc, rows)?;
    let are_of_clients = are_of_clients(prepared.items());
    assert!(rt; are_of_clients);
    let answer = Answer::Shut(Snapshot {
        clock,
        log,
        prepared,
    });
    hear(alloc, decl, admin, &Message::Answer { to, answer })
}

/// He takes an input.
fn take(
    rt: &impl Abort,
    alloc: Global,
    decl: &Declaration,
    admin: &mut Admin,
    taken: Taken<'_>,
) -> Result<Turn, OutOfMemory>
    requires accepted { IsAccepted decl.now }
    requires fits { AdminFits admin.old }
    ensures { OnOk result (AdminFits admin.new) }
{
    match taken {
        Taken::Epoch(number) => call(alloc, decl, admin, Command::Epoch { number }),
        Taken::Begin => call(alloc, decl, admin, Command::Begin),
        Taken::Do => call(alloc, decl, admin, Command::Do { object: 0, inv: 0 }),
        Taken::Commit => call(alloc, decl, admin, Command::Commit),
        Taken::Abort => call(alloc, decl, admin, Command::Abort),
        Taken::Shut(to, clock, lines, rows) => {
            hear_shut(rt, alloc, decl, admin, to, clock, lines, rows)
        }
        Taken::Answer(to, said) => hear_answer(alloc, decl, admin, to, said),
        Taken::Lost(number) => lose(alloc, decl, admin, number),
        Taken::Other(kind) => {
            let message = message(alloc, kind)?;
            hear(alloc, decl, admin, &message)
        }
    }
}

/// What he does for an input, as a text. His messages get the numbers from ten
/// times the input's place on.
fn done(
    rt: &impl Abort,
    alloc: Global,
    decl: &Declaration,
    admin: &mut Admin,
    place: u32,
    taken: Taken<'_>,
) -> Result<String, OutOfMemory>
    requires accepted { IsAccepted decl.now }
    requires fits { AdminFits admin.old }
    requires few { place < 1000 }
    ensures { OnOk result (AdminFits admin.new) }
{
    let turn = take(rt, alloc, decl, admin, taken)?;
    number(admin, 10 * place);
    turn_text(alloc, &turn)
}

/// He does what the rows say, one after another.
pub(crate) fn check_rows(
    rt: &impl Abort,
    alloc: Global,
    decl: &Declaration,
    admin: &mut Admin,
    rows: &[(Taken<'_>, &str)],
) -> Result<(), OutOfMemory>
    requires accepted { IsAccepted decl.now }
    requires fits { AdminFits admin.old }
{
    let mut place = 0u32;
    for row in rows {
        assert!(rt; place < MOST_INPUTS);
        let text = done(rt, alloc, decl, admin, place, row.0)?;
        assert_eq!(rt; text.as_str(), row.1, "at row {place}");
        place += 1;
    }
    Ok(())
}

/// A new administrator of `@three`, who is actor 6, takes what the rows have, one
/// after another, and does what they say. The sites are the actors 0 to 2, the
/// clients 3 to 5. The messages that he sends in row k, from 0, are numbered
/// from 10 k on.
pub(crate) fn check_three(
    rt: &impl Abort,
    alloc: Global,
    rows: &[(Taken<'_>, &str)],
) -> Result<(), OutOfMemory> {
    let decl = three(rt, alloc)?;
    let mut admin = Admin::new();
    check_rows(rt, alloc, &decl, &mut admin, rows)
}

/// `@three`: three sites of weight 1, where each quorum is two of them, and so is
/// what closes an epoch.
pub(crate) fn three(rt: &impl Abort, alloc: Global) -> Result<Declaration, OutOfMemory>
    ensures { IfOk result IsAccepted }
{
    match built_in(alloc, "@three")? {
        Some(decl) => Ok(decl),
        None => panic!(rt; "no @three"),
    }
}
