//! Asks: how each transaction ended that a closed site has promised.

ghost use Rattle.std.specs.Prelude.{◌≡◌, ◌≤◌, IfOk, OnErr};
ghost use Rattle.std.specs.Option.{option_copied};
ghost use Rattle.qc_decl.specs.Accepted.{IsAccepted};
ghost use Rattle.qc_decl.specs.Limits.{most_sites};
ghost use Rattle.qc_epoch.specs.Admin.{Admin as AdminState, Doing as DoingState};
ghost use Rattle.qc_epoch.specs.Conduct.{answered_in, asks, doing, settles};
ghost use Rattle.qc_epoch.specs.Deciding.{questions_of};
ghost use Rattle.qc_admin.specs.Fits.{ShutsFit};
ghost use Rattle.qc_admin.specs.Next.{becomes};
ghost use Rattle.qc_admin.specs.Sent.{numbered};
ghost use Rattle.qc_admin.specs.Shown.{asking_of};

use crate::answers::outcome_in;
use crate::deciding::decide;
use crate::doing::Doing;
use crate::installing::install;
use crate::next::Next;
use crate::questions::Questions;
use crate::shut::{Shuts, sites_of};
use qc_decl::Declaration;
use qc_list::OutOfMemory;
use qc_msg::{Answer, Turn};
use std::alloc::Global;

/// Asks that wait for verdicts, so that an epoch can be decided.
#[derive(Drop)]
pub(crate) struct Asking {
    /// The epoch that is next.
    pub(crate) epoch: u8,
    /// What closed sites told, in asked order.
    pub(crate) shuts: Shuts,
    /// The questions about what they have promised.
    pub(crate) questions: Questions,
}

/// Asks the client of each transaction that these sites have promised, or
/// settles the epoch where there is none.
pub(crate) fn ask(
    alloc: Global,
    decl: &Declaration,
    epoch: u8,
    shuts: Shuts,
) -> Result<Next, OutOfMemory>
    requires sites { decl.now.sites ≤ most_sites }
    requires fit { ShutsFit shuts }
    ensures { IfOk result (λ next. (m : AdminState) (d : DoingState) →
        asks decl.now m epoch shuts (questions_of shuts) ≡ becomes m d next) }
{
    let questions = Questions::of(alloc, &shuts)?;
    if questions.is_empty() {
        return settle(alloc, decl, epoch, &shuts, &questions);
    }
    let sends = questions.asks(alloc, decl)?;
    Ok(Next::Runs {
        doing: Doing::Asking(Asking {
            epoch,
            shuts,
            questions,
        }),
        turn: Turn::sending(alloc, sends),
    })
}

impl Asking {
    /// Takes what came of the request of this number: its answer, or, with
    /// none, that it is lost. The first for an Ask counts, and the last that is
    /// taken settles the epoch. After want of memory the Asks are as they were.
    pub(crate) fn answer(
        &mut self,
        alloc: Global,
        decl: &Declaration,
        number: u32,
        answer: Option<&Answer>,
    ) -> Result<Next, OutOfMemory>
        ensures ok { IfOk result (λ next. (m : AdminState) →
            answered_in decl.now (doing m (asking_of self.old)) (asking_of self.old)
            number (option_copied answer.entry) ≡ becomes m (asking_of self.new) next) }
        ensures err { OnErr result (self.new ≡ self.old) }
    {
        let outcome = outcome_in(answer);
        if !self.questions.ends_with(number) {
            self.questions.take(number, outcome);
            return Ok(Next::quiet(alloc));
        }
        let mut questions = self.questions.copy()?;
        questions.take(number, outcome);
        settle(alloc, decl, self.epoch, &self.shuts, &questions)
    }

    /// The messages of the last turn were given the numbers from `first` on. It
    /// takes no memory.
    pub(crate) fn sent(&mut self, first: u32)
        ensures { asking_of self.new ≡ numbered (asking_of self.old) first }
    {
        self.questions.sent(first);
    }
}

/// Once all is taken: the first question in doubt is told, or else the epoch is
/// decided.
fn settle(
    alloc: Global,
    decl: &Declaration,
    epoch: u8,
    shuts: &Shuts,
    questions: &Questions,
) -> Result<Next, OutOfMemory>
    ensures { IfOk result (λ next. (m : AdminState) (d : DoingState) →
        settles decl.now m epoch shuts.now questions.now ≡ becomes m d next) }
{
    if let Some(reply) = questions.doubt() {
        return Ok(Next::telling(alloc, reply));
    }
    let decided = decide(alloc, epoch, shuts, questions)?;
    let closed = sites_of(alloc, shuts)?;
    install(alloc, decl, decided, closed)
}
