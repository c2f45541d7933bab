//! What actors do for their inputs, as turns.

ghost use Rattle.std.specs.Prelude.{◌≡◌, ◌<◌, true, IfOk, IfSome, Some};
ghost use Rattle.qc_decl.specs.Actors.{actors, controller};
ghost use Rattle.qc_fabric.specs.Tells.{GoesToActors};
ghost use Rattle.qc_msg.specs.Steps.{MayEnd};
ghost use Rattle.tests_fabric.specs.Seats.{down_after};
ghost use Rattle.tests_fabric.specs.Turns.{MaySay};

use crate::calls::Says;
use qc_decl::Declaration;
use qc_list::{List, OutOfMemory};
use qc_msg::{Answer, Appended, Message, Posting, Record, Reply, Turn};
use std::alloc::Global;

/// Whether the number is that of a site or a client.
pub(crate) fn is_actor(decl: &Declaration, number: u8) -> bool
    ensures { result ≡ true → number < actors decl.now }
{
    match number.checked_sub(decl.sites) {
        Some(client) => client < decl.clients,
        None => true,
    }
}

/// Whether the number is the controller's.
pub(crate) fn is_controller(decl: &Declaration, number: u8) -> bool
    ensures { result ≡ true → number ≡ controller decl.now }
{
    match number.checked_sub(decl.sites) {
        Some(rest) => rest.checked_sub(decl.clients) == Some(1),
        None => false,
    }
}

/// The turn, or none where a receiver's number is none of an actor.
pub(crate) fn turn_of(alloc: Global, says: Says) -> Result<Option<Turn>, OutOfMemory>
    ensures receivers { IfOk result (λ turn. IfSome turn GoesToActors) }
    ensures ends { IfOk result (λ turn. IfSome turn (λ t. MayEnd t.write t.append)) }
{
    match says {
        Says::Nothing => Ok(Some(Turn::quiet(alloc))),
        Says::Asks(to) => one(alloc, to, request()),
        Says::AsksBoth(first, second) => two(alloc, first, second),
        Says::Answers(to, number) => {
            let answer = Answer::Installed;
            one(alloc, to, Message::Answer { to: number, answer })
        }
        Says::Tells => Ok(Some(Turn::telling(alloc, Reply::NoTransaction))),
        Says::Writes(append, to) => writing(alloc, Record::Close { epoch: 2 }, append, to),
    }
}

/// The turn that writes a record, of which this becomes, and asks an actor, also
/// where the record couldn't be written.
pub(crate) fn writing(
    alloc: Global,
    written: Record,
    append: Appended,
    to: u8,
) -> Result<Option<Turn>, OutOfMemory>
    ensures receivers { IfOk result (λ turn. IfSome turn GoesToActors) }
    ensures written { IfOk result (λ turn. IfSome turn (λ t. t.write ≡ Some written)) }
    ensures append { IfOk result (λ turn. IfSome turn (λ t. t.append ≡ append)) }
{
    if to >= 34 {
        return Ok(None);
    }
    Ok(Some(Turn {
        write: Some(written),
        sends: Posting::alone(alloc, to, request())?,
        told: None,
        failed_sends: Posting::alone(alloc, to, request())?,
        failed_told: Some(Reply::NoTransaction),
        append,
    }))
}

/// Whether who is down, or isn't, may post the turn.
pub(crate) fn may_say(down: bool, turn: &Turn) -> bool
    requires { MayEnd turn.now.write turn.now.append }
    ensures { result ≡ true → MaySay down turn.now }
{
    !down || (turn.write.is_none() && turn.sends.items().is_empty())
}

/// Whether an actor is down after a post, by what became of its record.
pub(crate) fn down_after(down: bool, append: Appended) -> bool
    ensures { result ≡ down_after down append }
{
    match append {
        Appended::Done => down,
        Appended::Failed | Appended::Stopped => true,
    }
}

/// A message that is answered.
fn request() -> Message {
    Message::Close { epoch: 2 }
}

/// A request to an actor.
fn asking(to: u8) -> Posting
    ensures { result.to ≡ to }
{
    Posting {
        to,
        message: request(),
    }
}

/// The turn that sends a message to an actor.
fn one(alloc: Global, to: u8, message: Message) -> Result<Option<Turn>, OutOfMemory>
    ensures receivers { IfOk result (λ turn. IfSome turn GoesToActors) }
    ensures ends { IfOk result (λ turn. IfSome turn (λ t. MayEnd t.write t.append)) }
{
    if to >= 34 {
        return Ok(None);
    }
    Ok(Some(Turn::sending_one(alloc, to, message)?))
}

/// The turn that sends a request to each of two actors.
fn two(alloc: Global, first: u8, second: u8) -> Result<Option<Turn>, OutOfMemory>
    ensures receivers { IfOk result (λ turn. IfSome turn GoesToActors) }
    ensures ends { IfOk result (λ turn. IfSome turn (λ t. MayEnd t.write t.append)) }
{
    if first >= 34 || second >= 34 {
        return Ok(None);
    }
    let mut sends = List::new(alloc);
    sends.push(asking(first))?;
    sends.push(asking(second))?;
    Ok(Some(Turn::sending(alloc, sends)))
}
