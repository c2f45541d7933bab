//! The section of replies.

ghost use Rattle.std.specs.Prelude.{◌≡◌, ◌++◌, [], ℕ, ◌<◌, OnOk, slice_index_or, length};
ghost use Rattle.qc_text.specs.Replies.{reply_line, reply_lines, replies_text, told_of};

use crate::asked::{commands_of, put_command};
use crate::parts::put_actor;
use crate::queues::{Queue, queues_of, take_reply};
use crate::results::put_reply;
use qc_decl::Declaration;
use qc_list::{OutOfMemory, Page};
use qc_msg::{Entry, Reply};
use qc_script::{CommandLine, Script};
use std::alloc::Global;

/// Adds the section of replies.
pub(crate) fn put_replies(
    page: &mut Page,
    alloc: Global,
    decl: &Declaration,
    script: &Script,
    entries: &[Entry],
) -> Result<(), OutOfMemory>
    ensures { OnOk result (page.new ≡ page.old ++ replies_text decl.now script.now entries.now) }
{
    let commands = commands_of(alloc, script)?;
    let mut queues = queues_of(alloc, entries)?;
    page.put("replies\n")?;
    put_lines(page, decl, entries, &commands, &mut queues)?;
    Ok(())
}

/// Adds a line for each command that has its reply: a command takes the oldest
/// reply of its actor that no earlier one took.
fn put_lines(
    page: &mut Page,
    decl: &Declaration,
    entries: &[Entry],
    commands: &[CommandLine],
    queues: &mut [Queue],
) -> Result<(), OutOfMemory>
    requires all { length queues.old ≡ 256 }
    requires told { (a : ℕ) → a < 256 → slice_index_or queues.old a [] ≡ told_of a entries.now }
    ensures { OnOk result (page.new ≡ page.old ++ reply_lines decl.now entries.now [] commands.now) }
{
    'commands: for line in commands {
        let reply = take_reply(queues, line.actor);
        put_line(page, decl, line, reply)?;
    }
    Ok(())
}

/// Adds a command's line, if it has its reply.
fn put_line(
    page: &mut Page,
    decl: &Declaration,
    line: &CommandLine,
    reply: Option<Reply>,
) -> Result<(), OutOfMemory>
    ensures { OnOk result (page.new ≡ page.old ++ reply_line decl.now line.now reply) }
{
    let Some(reply) = reply else {
        return Ok(());
    };
    put_actor(page, decl, line.actor)?;
    page.put(" ")?;
    put_command(page, decl, line.command)?;
    page.put(" ")?;
    put_reply(page, decl, line.command, reply)?;
    page.put("\n")?;
    Ok(())
}
