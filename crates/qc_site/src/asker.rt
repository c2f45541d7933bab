//! Who asks a site something, and how it is answered.

ghost use Rattle.std.specs.Prelude.{◌≡◌, [], ◌∷◌, IfOk};
ghost use Rattle.qc_site.specs.Site.{answering, answers, recording};

use qc_list::OutOfMemory;
use qc_msg::{Answer, Appended, Message, Posting, Record, Sends, Turn};
use qc_stamp::TxId;
use std::alloc::Global;

/// The sender of a request, with the request's number.
#[derive(Clone, Copy)]
pub(crate) struct Asker {
    /// The sender's number.
    pub(crate) from: u8,
    /// The request's number.
    pub(crate) number: u32,
}

/// A transaction that asks for something by a request.
#[derive(Clone, Copy)]
pub(crate) struct Requester {
    /// Who sends the request, and its number.
    pub(crate) asker: Asker,
    /// The transaction.
    pub(crate) tx: TxId,
}

impl Asker {
    /// The list of one answer to the request.
    pub(crate) fn answering(self, alloc: Global, answer: Answer) -> Result<Sends, OutOfMemory>
        ensures { IfOk result (λ sends. sends ≡ answering self.from self.number answer ∷ []) }
    {
        let message = Message::Answer {
            to: self.number,
            answer,
        };
        Posting::alone(alloc, self.from, message)
    }

    /// The turn that writes this before it answers the request; where it can't be
    /// written, that is told.
    pub(crate) fn recording(
        self,
        alloc: Global,
        written: Record,
        answer: Answer,
    ) -> Result<Turn, OutOfMemory>
        ensures { IfOk result (λ turn. turn ≡ recording self.from self.number written answer) }
    {
        Ok(Turn {
            write: Some(written),
            sends: self.answering(alloc, answer)?,
            told: None,
            failed_sends: self.answering(alloc, Answer::Fault)?,
            failed_told: None,
            append: Appended::Done,
        })
    }

    /// The turn that only answers the request.
    pub(crate) fn answered(self, alloc: Global, answer: Answer) -> Result<Turn, OutOfMemory>
        ensures { IfOk result (λ turn. turn ≡ answers self.from self.number answer) }
    {
        Ok(Turn::sending(alloc, self.answering(alloc, answer)?))
    }
}
