//! The input that an actor takes, and inputs in full, their messages copied from
//! the log.

ghost use Rattle.std.specs.Prelude.{◌≡◌, ◌<◌, Some, IfOk, IsSome};
ghost use Rattle.qc_msg.specs.Deeds.{envelope_of, mail};
ghost use Rattle.qc_msg.specs.Steps.{step_of};
ghost use Rattle.qc_fabric.specs.Inputs.{IsInputFor, IsThere, given_by};
ghost use Rattle.qc_link.specs.Limits.{most_actors};

use crate::log::HistoryStore;
use qc_decl::Declaration;
use qc_list::OutOfMemory;
use qc_mailbox::{Mailboxes, ReadyInput, is_set};
use qc_msg::{Entry, Envelope, Input, Step};
use std::alloc::Global;

/// The input that is handed to an actor: none where a counted quantity has
/// reached its limit, its input is open, or nothing is ready for it.
pub(crate) fn input_for(
    log: &HistoryStore,
    mailboxes: &Mailboxes,
    inputs: &[bool],
    decl: &Declaration,
    actor: u8,
) -> Option<ReadyInput>
    requires { actor < most_actors }
    ensures { IsInputFor decl.now log.now.history mailboxes.now.inboxes inputs.now actor result }
{
    if log.full().is_some() || is_set(inputs, actor) {
        None
    } else {
        mailboxes.ready(decl, actor)
    }
}

/// The input in full.
pub(crate) fn given_of(
    alloc: Global,
    log: &HistoryStore,
    input: ReadyInput,
) -> Result<Input, OutOfMemory>
    requires { IsThere (mail log.now.history) input }
    ensures { IfOk result (λ given. given_by (mail log.now.history) input ≡ Some given) }
{
    match input {
        ReadyInput::Copy(number) => Ok(Input::Got(copy_of(alloc, log.sent(number))?)),
        ReadyInput::Lost(number) => Ok(Input::Lost { number }),
        ReadyInput::Command(command) => Ok(Input::Called(command)),
    }
}

/// The message that an entry sent, in memory of its own.
fn copy_of(alloc: Global, entry: &Entry) -> Result<Envelope, OutOfMemory>
    requires { IsSome (envelope_of entry.now) }
    ensures { IfOk result (λ e. envelope_of entry.now ≡ Some e) }
{
    let Step::Sent {
        number,
        to,
        message,
    } = &entry.step
    else {
        unreachable!()
    };
    Ok(Envelope {
        number: *number,
        from: entry.actor,
        to: *to,
        message: message.copy(alloc)?,
    })
}

/// The step by which an input is taken.
pub(crate) fn step_of(given: &Input) -> Step
    ensures { result ≡ step_of given.now }
{
    match given {
        Input::Called(command) => Step::Called(*command),
        Input::Got(envelope) => Step::Got(envelope.number),
        Input::Lost { number } => Step::Lost(*number),
    }
}
