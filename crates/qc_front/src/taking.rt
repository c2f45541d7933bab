//! What a front end does for an answer, or a lost request. The first thing that
//! comes of an open request of the running round counts; all else is put aside.

ghost use Rattle.std.specs.Prelude.{◌≡◌, IfOk, OnErr};
ghost use Rattle.std.specs.Option.{option_copied};
ghost use Rattle.qc_decl.specs.Accepted.{IsAccepted};
ghost use Rattle.qc_front.specs.Conduct.{takes};
ghost use Rattle.qc_front.specs.Drafts.{went};
ghost use Rattle.qc_front.specs.Fits.{FrontFits};
ghost use Rattle.qc_front.specs.Front.{moved};

use crate::counting::{Noted, OpenRound};
use crate::doing::Doing;
use crate::front::Front;
use crate::next::Next;
use qc_decl::Declaration;
use qc_list::OutOfMemory;
use qc_msg::{Answer, Turn};
use std::alloc::Global;

impl Front {
    /// What the front end does for the answer to its request of this number,
    /// or where that is lost. After want of memory it is as it was.
    pub fn hear_answer(
        &mut self,
        alloc: Global,
        decl: &Declaration,
        number: u32,
        answer: Option<&Answer>,
    ) -> Result<Turn, OutOfMemory>
        requires accepted { IsAccepted decl.now }
        requires fits { FrontFits self.old }
        ensures ok { IfOk result (λ turn. takes decl.now self.old number (option_copied answer.entry)
            ≡ moved self.new turn) }
        ensures err { OnErr result (self.new ≡ self.old) }
    {
        let Some(next) = self.becomes(alloc, decl, number, answer)? else {
            return Ok(Turn::quiet(alloc));
        };
        let turn = self.turn_to(alloc, next);
        self.learn(answer);
        Ok(turn)
    }

    /// What the front end becomes, where this counts.
    fn becomes(
        &self,
        alloc: Global,
        decl: &Declaration,
        number: u32,
        answer: Option<&Answer>,
    ) -> Result<Option<Next>, OutOfMemory>
        requires accepted { IsAccepted decl.now }
        requires fits { FrontFits self.now }
        ensures { IfOk result (λ next. takes decl.now self.now number (option_copied answer.entry)
            ≡ went self.now next (option_copied answer.entry)) }
    {
        let Some(transaction) = &self.transaction else {
            return Ok(None);
        };
        match &self.doing {
            Doing::Idle => Ok(None),
            Doing::Reading {
                object,
                inv,
                calls,
                round,
            } => {
                let Some(noted) = Noted::of(calls, round, number, answer)? else {
                    return Ok(None);
                };
                let draft = transaction.read_with(*object, noted.site, answer)?;
                let Noted { calls, round, .. } = noted;
                let open = OpenRound { calls, round };
                Ok(Some(self.go_on_reading(alloc, decl, draft, *inv, open)?))
            }
            Doing::Appending {
                object,
                inv,
                event,
                calls,
                round,
            } => {
                let Some(noted) = Noted::of(calls, round, number, answer)? else {
                    return Ok(None);
                };
                let draft = transaction.appended_with(*object, noted.site, answer)?;
                let Noted { calls, round, .. } = noted;
                let open = OpenRound { calls, round };
                Ok(Some(self.go_on_appending(alloc, decl, draft, *inv, *event, open)?))
            }
        }
    }
}
