//! How an actor acts on an input that it took.

ghost use Rattle.std.specs.Prelude.{◌≡◌, IfOk, OnErr};
ghost use Rattle.qc_core.specs.Actors.{ActorFits, actor_takes, moved};
ghost use Rattle.qc_decl.specs.Accepted.{IsAccepted};
ghost use Rattle.qc_process.specs.Inputs.{IsReadable};

use qc_core::Actor;
use qc_decl::Declaration;
use qc_list::OutOfMemory;
use qc_msg::{Input, Turn};
use std::alloc::Global;

/// The actor's turn for an input. After want of memory the actor is as it was.
pub(crate) fn act(
    actor: &mut Actor,
    alloc: Global,
    decl: &Declaration,
    given: Input,
) -> Result<Turn, OutOfMemory>
    requires accepted { IsAccepted decl.now }
    requires fits { ActorFits actor.old }
    requires readable { IsReadable given }
    ensures ok { IfOk result (λ turn. actor_takes decl.now actor.old given ≡ moved actor.new turn) }
    ensures err { OnErr result (actor.new ≡ actor.old) }
{
    match given {
        Input::Called(command) => actor.call(alloc, decl, command),
        Input::Got(envelope) => {
            actor.hear(
                alloc,
                decl,
                envelope.from,
                envelope.number,
                &envelope.message,
            )
        }
        Input::Lost { number } => actor.lose(alloc, decl, number),
    }
}
