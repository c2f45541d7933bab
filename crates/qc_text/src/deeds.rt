//! What an actor does in a history: each message that it takes is looked up by
//! its number among those sent before.

ghost use Rattle.std.specs.Prelude.{◌≡◌, ◌++◌, [], OnOk, IfOk, MatchOption, Some, None, map, option_map};
ghost use Rattle.std.specs.Prelude.{option_to_list};
ghost use Rattle.qc_msg.specs.Deeds.{deed_at, deeds, envelope_of};
ghost use Rattle.qc_text.specs.Deeds.{deed_of, deeds_at, envelope_in};

use qc_list::OutOfMemory;
use qc_msg::{Command, Entry, Fall, Message, Record, Records, Reply, Step};
use std::alloc::Global;

/// A message that was sent, as it lies in the history.
#[derive(Clone, Copy)]
pub(crate) struct Letter<'a> {
    pub(crate) number: u32,
    pub(crate) from: u8,
    pub(crate) to: u8,
    pub(crate) message: &'a Message,
}

/// What an actor does in a step, with the message or the records as they lie in
/// the history.
#[derive(Clone, Copy)]
pub(crate) enum Deed<'a> {
    /// It takes a command.
    Called(Command),
    /// It takes a message.
    Got(Letter<'a>),
    /// It learns that its request of this number is lost.
    Lost(u32),
    /// It writes a record.
    Wrote(&'a Record),
    /// It sends a message.
    Sent {
        number: u32,
        to: u8,
        message: &'a Message,
    },
    /// It tells a reply.
    Told(Reply),
    /// It falls, with the record that was being written.
    Fell {
        cause: Fall,
        pending: &'a Option<Record>,
    },
    /// It rises with what its journal gave.
    Rose(&'a Records),
}

/// The deeds of the actor with this number, in order.
pub(crate) fn deeds_of(
    alloc: Global,
    entries: &[Entry],
    number: u8,
) -> Result<Vec<Deed<'_>>, OutOfMemory>
    ensures { IfOk result (λ v. map deed_of v.items ≡ deeds number [] entries.now) }
{
    let mut sent = Vec::new(alloc);
    let mut deeds = Vec::new(alloc);
    'entries: for entry in entries {
        add_deed(&mut deeds, &sent, number, entry)?;
        add_letter(&mut sent, entry)?;
    }
    Ok(deeds)
}

/// Adds what an entry's step does, where it is one of the actor with this
/// number.
fn add_deed<'a>(
    deeds: &mut Vec<Deed<'a>>,
    sent: &[Letter<'a>],
    number: u8,
    entry: &'a Entry,
) -> Result<(), OutOfMemory>
    ensures { OnOk result (map deed_of deeds.new.items ≡ map deed_of deeds.old.items
        ++ deeds_at number (map envelope_in sent.now) entry.now) }
{
    if entry.actor != number {
        return Ok(());
    }
    if let Some(deed) = deed_at(sent, &entry.step) {
        deeds.push(deed)?;
    }
    Ok(())
}

/// What a step does, if it does anything.
fn deed_at<'a>(sent: &[Letter<'a>], step: &'a Step) -> Option<Deed<'a>>
    ensures { option_to_list (option_map deed_of result) ≡ deed_at (map envelope_in sent.now) step.now }
{
    match step {
        Step::Called(command) => Some(Deed::Called(*command)),
        Step::Got(number) => Some(Deed::Got(*sent.get(*number as usize)?)),
        Step::Lost(number) => Some(Deed::Lost(*number)),
        Step::Wrote(record) => Some(Deed::Wrote(record)),
        Step::Sent {
            number,
            to,
            message,
        } => Some(Deed::Sent {
            number: *number,
            to: *to,
            message,
        }),
        Step::Told(reply) => Some(Deed::Told(*reply)),
        Step::Fell { cause, pending } => Some(Deed::Fell {
            cause: *cause,
            pending,
        }),
        Step::Rose(records) => Some(Deed::Rose(records)),
        Step::Phase(_)
        | Step::Cut(_, _)
        | Step::Heal(_, _)
        | Step::Armed { .. }
        | Step::Damaged(_) => None,
    }
}

/// Adds the message that an entry sends, if it sends one.
fn add_letter<'a>(sent: &mut Vec<Letter<'a>>, entry: &'a Entry) -> Result<(), OutOfMemory>
    ensures { OnOk result (map envelope_in sent.new.items ≡ map envelope_in sent.old.items
        ++ option_to_list (envelope_of entry.now)) }
{
    if let Some(letter) = letter_of(entry) {
        sent.push(letter)?;
    }
    Ok(())
}

/// The message that an entry sends.
fn letter_of(entry: &Entry) -> Option<Letter<'_>>
    ensures { MatchOption result (envelope_of entry.now ≡ None) (λ l. envelope_of entry.now ≡ Some (envelope_in l)) }
{
    match &entry.step {
        Step::Sent {
            number,
            to,
            message,
        } => Some(Letter {
            number: *number,
            from: entry.actor,
            to: *to,
            message,
        }),
        _ => None,
    }
}
