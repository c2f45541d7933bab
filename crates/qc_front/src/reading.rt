//! A `do`: a read round, as far as it has come.

ghost use Rattle.std.specs.Prelude.{◌≡◌, ◌<◌, [], Some, IfOk, OnErr, length};
ghost use Rattle.qc_decl.specs.Accepted.{IsAccepted};
ghost use Rattle.qc_decl.specs.Limits.{most_transaction_operations};
ghost use Rattle.qc_decl.specs.Lookup.{read_need_of};
ghost use Rattle.qc_front.specs.Appending.{read_want, round_for};
ghost use Rattle.qc_front.specs.Drafts.{IsDraft, answer_in_draft, asking, becomes, drafted, views_of};
ghost use Rattle.qc_front.specs.Front.{moved};
ghost use Rattle.qc_front.specs.Rounds.{answered, performs, reads};

use crate::counting::OpenRound;
use crate::doing::Doing;
use crate::draft::Draft;
use crate::front::Front;
use crate::next::Next;
use crate::transaction::Transaction;
use qc_decl::{Declaration, MOST_TRANSACTION_OPERATIONS};
use qc_entry::Mark;
use qc_list::OutOfMemory;
use qc_msg::{Calls, Half, ReadRequest, Reply, Turn, Want};
use qc_plan::Verdict;
use std::alloc::Global;

impl Front {
    /// Executes an invocation, where a transaction is begun that can commit and
    /// has room for an operation.
    pub(crate) fn perform(
        &mut self,
        alloc: Global,
        decl: &Declaration,
        object: u8,
        inv: u8,
    ) -> Result<Turn, OutOfMemory>
        requires { IsAccepted decl.now }
        ensures ok { IfOk result (λ turn. performs decl.now self.old self.old.transaction object inv
            ≡ moved self.new turn) }
        ensures err { OnErr result (self.new ≡ self.old) }
    {
        let Some(transaction) = &self.transaction else {
            return Ok(Turn::telling(alloc, Reply::NoTransaction));
        };
        if transaction.begun.doomed {
            return Ok(Turn::telling(alloc, Reply::Doomed));
        }
        if transaction.begun.ops.items().len() >= MOST_TRANSACTION_OPERATIONS {
            return Ok(Turn::telling(alloc, Reply::TooLong));
        }
        let next = self.start(alloc, decl, transaction, object, inv)?;
        Ok(self.turn_to(alloc, next))
    }

    /// Starts the read round of an invocation.
    fn start(
        &self,
        alloc: Global,
        decl: &Declaration,
        transaction: &Transaction,
        object: u8,
        inv: u8,
    ) -> Result<Next, OutOfMemory>
        requires accepted { IsAccepted decl.now }
        requires begun { self.now.transaction ≡ Some transaction.now }
        requires room { length transaction.now.begun.ops < most_transaction_operations }
        ensures { IfOk result (λ next. reads decl.now self.now transaction.now object inv []
            (round_for decl.now self.now transaction.now
            (read_need_of decl.now transaction.now.begun.epoch object inv)) ≡ becomes self.now next) }
    {
        let draft = transaction.draft(object)?;
        let need = decl.read_need(draft.begun.epoch, object, inv);
        let round = self.round_for(alloc, decl, draft.begun.epoch, need)?;
        let calls = Calls::new();
        self.go_on_reading(alloc, decl, draft, inv, OpenRound { calls, round })
    }

    /// Goes on with a read round.
    pub(crate) fn go_on_reading(
        &self,
        alloc: Global,
        decl: &Declaration,
        draft: Draft,
        inv: u8,
        open_round: OpenRound,
    ) -> Result<Next, OutOfMemory>
        requires accepted { IsAccepted decl.now }
        requires room { length draft.begun.ops < most_transaction_operations }
        requires draft { IsDraft (views_of self.now.transaction) draft }
        ensures { IfOk result (λ next. reads decl.now self.now (drafted (views_of self.now.transaction) draft)
            draft.object inv open_round.calls open_round.round ≡ becomes self.now next) }
    {
        match open_round.round.verdict() {
            Verdict::Waiting => ask_to_read(alloc, draft, inv, open_round),
            Verdict::Met => self.answer_by_view(alloc, decl, draft, inv),
            Verdict::Closed { epoch, site } => {
                Ok(Next::telling(alloc, draft, Reply::Closed { epoch, site }))
            }
            Verdict::Clash { tx, site } => {
                Ok(Next::telling(alloc, draft, Reply::Conflict { tx, site }))
            }
            Verdict::Short { got, need } => {
                let half = Half::Read;
                Ok(Next::telling(alloc, draft, Reply::Quorum { half, got, need }))
            }
        }
    }

    /// Answers by the view: an event is appended before its response is told.
    fn answer_by_view(
        &self,
        alloc: Global,
        decl: &Declaration,
        mut draft: Draft,
        inv: u8,
    ) -> Result<Next, OutOfMemory>
        requires accepted { IsAccepted decl.now }
        requires room { length draft.begun.ops < most_transaction_operations }
        requires draft { IsDraft (views_of self.now.transaction) draft }
        ensures { IfOk result (λ next. answered decl.now self.now (drafted (views_of self.now.transaction) draft)
            draft.object inv (answer_in_draft decl.now draft inv) ≡ becomes self.now next) }
    {
        let Some(event) = draft.event_for(decl, inv) else {
            draft.add_op(inv, None)?;
            return Ok(Next::telling(alloc, draft, Reply::Absent));
        };
        let need = decl.append_need(draft.begun.epoch, draft.object, event);
        let round = self.round_for(alloc, decl, draft.begun.epoch, need)?;
        let calls = Calls::new();
        self.go_on_appending(alloc, decl, draft, inv, event, OpenRound { calls, round })
    }
}

/// Asks all sites that a read round wants.
fn ask_to_read(
    alloc: Global,
    mut draft: Draft,
    inv: u8,
    open_round: OpenRound,
) -> Result<Next, OutOfMemory>
    ensures { IfOk result (λ next. next ≡ asking draft (Doing.Reading draft.object inv open_round.calls)
        (read_want draft.object inv) open_round.round) }
{
    let OpenRound { calls, mut round } = open_round;
    let object = draft.object;
    let want = Want::Read(ReadRequest {
        object,
        inv,
        mark: Mark::NONE,
    });
    let turn = draft.ask(alloc, &want, &mut round)?;
    let doing = Doing::Reading {
        object,
        inv,
        calls,
        round,
    };
    Ok(Next { draft, doing, turn })
}
