//! What a front end is to become: all that takes memory is built before
//! anything is replaced.

ghost use Rattle.std.specs.Prelude.{◌≡◌, None, Some};
ghost use Rattle.qc_front.specs.Drafts.{becomes, doomed_draft, views_of};
ghost use Rattle.qc_front.specs.Front.{moved};
ghost use Rattle.qc_msg.specs.Turns.{telling};

use crate::doing::Doing;
use crate::draft::Draft;
use crate::front::Front;
use crate::transaction::Views;
use qc_list::List;
use qc_msg::{Reply, Turn};
use std::alloc::Global;

/// What the front end's transaction becomes, what is waited for then, and the
/// turn.
#[derive(Drop)]
pub(crate) struct Next {
    /// The transaction.
    pub(crate) draft: Draft,
    /// What is waited for.
    pub(crate) doing: Doing,
    /// What is done.
    pub(crate) turn: Turn,
}

impl Next {
    /// The reply to the running `do`, after which nothing is waited for.
    pub(crate) fn telling(alloc: Global, draft: Draft, reply: Reply) -> Next
        ensures { result ≡ record { draft = draft; doing = Doing.Idle; turn = telling reply } }
    {
        Next {
            draft,
            doing: Doing::Idle,
            turn: Turn::telling(alloc, reply),
        }
    }

    /// The refusal of a `do` that was appending: the transaction can't commit
    /// any more.
    pub(crate) fn dooming(alloc: Global, mut draft: Draft, reply: Reply) -> Next
        ensures { result ≡ record { draft = doomed_draft draft; doing = Doing.Idle; turn = telling reply } }
    {
        draft.begun.doomed = true;
        Next::telling(alloc, draft, reply)
    }
}

impl Front {
    /// Becomes what was drafted, and answers the turn. It takes no memory.
    pub(crate) fn turn_to(&mut self, alloc: Global, next: Next) -> Turn
        ensures { becomes self.old next ≡ moved self.new result }
    {
        let views = self.take_views(alloc);
        let Next { draft, doing, turn } = next;
        self.transaction = Some(draft.into_transaction(views));
        self.doing = doing;
        turn
    }

    /// Takes the views out of the begun transaction, which goes.
    fn take_views(&mut self, alloc: Global) -> Views
        ensures views { result ≡ views_of self.old.transaction }
        ensures gone { self.new ≡ record self.old { transaction = None } }
    {
        match self.transaction.take() {
            Some(transaction) => transaction.views,
            None => List::new(alloc),
        }
    }
}
