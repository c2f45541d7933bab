//! Turns.

use crate::message::put_message;
use crate::record::put_record;
use qc_list::OutOfMemory;
use qc_msg::{Appended, Posting, Reply, Turn};
use std::alloc::Global;

/// The text of a turn.
pub fn turn_text(alloc: Global, turn: &Turn) -> Result<String, OutOfMemory> {
    let mut text = String::new(alloc);
    if let Some(record) = &turn.write {
        text.push_str("write ")?;
        put_record(&mut text, record)?;
    }
    put_sends(&mut text, "", turn.sends.items())?;
    put_told(&mut text, "", turn.told)?;
    put_sends(&mut text, "else ", turn.failed_sends.items())?;
    put_told(&mut text, "else ", turn.failed_told)?;
    put_append(&mut text, turn.append)?;
    Ok(text)
}

/// Adds what became of the record, where it isn't done.
fn put_append(text: &mut String, append: Appended) -> Result<(), OutOfMemory> {
    match append {
        Appended::Done => Ok(()),
        Appended::Failed => begin_part(text, "failed"),
        Appended::Stopped => begin_part(text, "stopped"),
    }
}

/// Adds what stands before a part: a semicolon, but for the first one.
fn begin_part(text: &mut String, head: &str) -> Result<(), OutOfMemory> {
    if !text.is_empty() {
        text.push_str("; ")?;
    }
    text.push_str(head)
}

/// Adds messages, each with its receiver.
fn put_sends(text: &mut String, head: &str, sends: &[Posting]) -> Result<(), OutOfMemory> {
    for posting in sends {
        begin_part(text, head)?;
        write!(text, "{}: ", posting.to)?;
        put_message(text, &posting.message)?;
    }
    Ok(())
}

/// Adds a reply, if there is one, as its value is written.
fn put_told(text: &mut String, head: &str, told: Option<Reply>) -> Result<(), OutOfMemory> {
    let Some(reply) = told else {
        return Ok(());
    };
    begin_part(text, head)?;
    write!(text, "tell {reply:?}")
}
