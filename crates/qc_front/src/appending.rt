//! An append round, as far as it has come, and what its requests carry: the
//! object's view and own lines (Herlihy 1986).

ghost use Rattle.std.specs.Prelude.{◌≡◌, ◌<◌, ℕ, [], IfOk, filter, length};
ghost use Rattle.qc_decl.specs.Limits.{most_transaction_operations};
ghost use Rattle.qc_front.specs.Appending.{own_appended, weighs};
ghost use Rattle.qc_front.specs.Drafts.{IsDraft, append_want_of, asking, becomes, drafted, views_of};
ghost use Rattle.qc_front.specs.Rounds.{appends, responds};

use crate::answering::response;
use crate::counting::OpenRound;
use crate::doing::Doing;
use crate::draft::Draft;
use crate::front::Front;
use crate::next::Next;
use qc_decl::Declaration;
use qc_entry::{OwnLine, Owns};
use qc_list::{List, OutOfMemory};
use qc_msg::{Half, Reply, Want};
use qc_plan::Verdict;
use std::alloc::Global;

impl Front {
    /// Goes on with an append round. Where it is refused, the transaction
    /// can't commit any more.
    pub(crate) fn go_on_appending(
        &self,
        alloc: Global,
        decl: &Declaration,
        draft: Draft,
        inv: u8,
        event: u8,
        open_round: OpenRound,
    ) -> Result<Next, OutOfMemory>
        requires room { length draft.begun.ops < most_transaction_operations }
        requires draft { IsDraft (views_of self.now.transaction) draft }
        ensures { IfOk result (λ next. appends decl.now self.now (drafted (views_of self.now.transaction) draft)
            draft.object inv event open_round.calls open_round.round ≡ becomes self.now next) }
    {
        match open_round.round.verdict() {
            Verdict::Waiting => ask_to_append(alloc, decl, draft, inv, event, open_round),
            Verdict::Met => self.respond(alloc, decl, draft, inv, event),
            Verdict::Closed { epoch, site } => {
                Ok(Next::dooming(alloc, draft, Reply::Closed { epoch, site }))
            }
            Verdict::Clash { tx, site } => {
                Ok(Next::dooming(alloc, draft, Reply::Conflict { tx, site }))
            }
            Verdict::Short { got, need } => {
                let half = Half::Append;
                Ok(Next::dooming(alloc, draft, Reply::Quorum { half, got, need }))
            }
        }
    }

    /// Records the operation with its event, and tells the response.
    fn respond(
        &self,
        alloc: Global,
        decl: &Declaration,
        mut draft: Draft,
        inv: u8,
        event: u8,
    ) -> Result<Next, OutOfMemory>
        requires room { length draft.begun.ops < most_transaction_operations }
        requires draft { IsDraft (views_of self.now.transaction) draft }
        ensures { IfOk result (λ next. responds decl.now self.now (drafted (views_of self.now.transaction) draft)
            draft.object inv event ≡ becomes self.now next) }
    {
        let resp = response(decl, draft.object, event);
        draft.add_event(inv, event, resp)?;
        Ok(Next::telling(alloc, draft, Reply::Response { resp }))
    }
}

/// Asks all sites that an append round wants.
fn ask_to_append(
    alloc: Global,
    decl: &Declaration,
    mut draft: Draft,
    inv: u8,
    event: u8,
    open_round: OpenRound,
) -> Result<Next, OutOfMemory>
    requires { length draft.begun.ops < most_transaction_operations }
    ensures { IfOk result (λ next. next ≡ asking draft (Doing.Appending draft.object inv event open_round.calls)
        (append_want_of decl.now draft event) open_round.round) }
{
    let OpenRound { calls, mut round } = open_round;
    let object = draft.object;
    let want = draft.append_want(alloc, decl, event)?;
    let turn = draft.ask(alloc, &want, &mut round)?;
    let doing = Doing::Appending {
        object,
        inv,
        event,
        calls,
        round,
    };
    Ok(Next { draft, doing, turn })
}

impl Draft {
    /// What an append of an event carries.
    fn append_want(&self, alloc: Global, decl: &Declaration, event: u8) -> Result<Want, OutOfMemory>
        requires { length self.now.begun.ops < most_transaction_operations }
        ensures { IfOk result (λ want. (site : ℕ) → want ≡ append_want_of decl.now self.now event site) }
    {
        Ok(Want::Append {
            object: self.object,
            view: self.log(alloc)?,
            own: self.own_appended(alloc, decl, event)?,
        })
    }

    /// All own lines of the object that weigh, the new one last.
    fn own_appended(
        &self,
        alloc: Global,
        decl: &Declaration,
        event: u8,
    ) -> Result<Owns, OutOfMemory>
        requires { length self.now.begun.ops < most_transaction_operations }
        ensures { IfOk result (λ own. own ≡ own_appended decl.now (drafted [] self.now) self.now.object event) }
    {
        let mut own = own_weighing(alloc, decl, self.begun.epoch, self.object, &self.own)?;
        own.push(self.next_own(event))?;
        Ok(own)
    }
}

/// The own lines of the object whose events need weight to append.
fn own_weighing(
    alloc: Global,
    decl: &Declaration,
    epoch: u8,
    object: u8,
    own: &Owns,
) -> Result<Owns, OutOfMemory>
    ensures { IfOk result (λ lines. lines ≡ filter (weighs decl.now epoch object) own.now) }
{
    let mut lines = List::new(alloc);
    for line in own.items() {
        if weighs(decl, epoch, object, line) {
            lines.push(*line)?;
        }
    }
    Ok(lines)
}

/// Whether an own line is of the object, and its event needs weight to append.
fn weighs(decl: &Declaration, epoch: u8, object: u8, line: &OwnLine) -> bool
    ensures { result ≡ weighs decl.now epoch object line.now }
{
    line.object == object && 0 < decl.append_need(epoch, object, line.event)
}
