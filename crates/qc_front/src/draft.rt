//! A transaction as it is to become: what a `do` on one object changes of it,
//! in memory of its own, so that want of memory leaves the transaction as it
//! was. The views of the other objects stay where they are.

ghost use Rattle.std.specs.Prelude.{◌≡◌, ◌<◌, [], IfOk, OnOk, length, slice_get};
ghost use Rattle.qc_decl.specs.Limits.{most_transaction_operations};
ghost use Rattle.qc_front.specs.Answering.{next_own, op_of};
ghost use Rattle.qc_front.specs.Drafts.{draft_of, drafted, event_draft, granted_draft, lived_draft, op_draft};
ghost use Rattle.qc_front.specs.Drafts.{views_with};

use crate::transaction::{Transaction, Views};
use qc_entry::{Log, Op, OwnLine, Owns};
use qc_list::{List, OutOfMemory};
use qc_msg::{Begun, with_life};
use qc_view::View;

/// What a `do` on one object changes of a transaction.
#[derive(Drop)]
pub(crate) struct Draft {
    /// The object's number.
    pub(crate) object: u8,
    /// What the transaction's commit reads of it.
    pub(crate) begun: Begun,
    /// Its own lines, of every object.
    pub(crate) own: Owns,
    /// The view of the object, or none where it isn't declared.
    pub(crate) view: Option<View>,
}

impl Transaction {
    /// The transaction as it is, for a `do` on this object.
    pub(crate) fn draft(&self, object: u8) -> Result<Draft, OutOfMemory>
        ensures { IfOk result (λ d. d ≡ draft_of self.now object) }
    {
        Ok(Draft {
            object,
            begun: self.begun.copy()?,
            own: self.own.copy()?,
            view: view_of(&self.views, object)?,
        })
    }
}

/// The view of an object, in memory of its own, or none where it isn't
/// declared.
fn view_of(views: &Views, object: u8) -> Result<Option<View>, OutOfMemory>
    ensures { IfOk result (λ v. v ≡ slice_get views.now object) }
{
    match views.items().get(object as usize) {
        Some(view) => Ok(Some(view.copy()?)),
        None => Ok(None),
    }
}

impl Draft {
    /// The transaction that it becomes, with these views of all objects. It
    /// takes no memory.
    pub(crate) fn into_transaction(self, views: Views) -> Transaction
        ensures { result ≡ drafted views self }
    {
        let Draft {
            object,
            begun,
            own,
            view,
        } = self;
        Transaction {
            begun,
            views: with_view(views, object, view),
            own,
        }
    }

    /// A site granted in this life: where it is its first grant, it becomes a
    /// participant.
    pub(crate) fn live(&mut self, site: u8, life: u32) -> Result<(), OutOfMemory>
        ensures { OnOk result (self.new ≡ lived_draft self.old site life) }
    {
        self.begun.lives = with_life(&self.begun.lives, site, life)?;
        Ok(())
    }

    /// A log that was granted to a Read joins the object's view.
    pub(crate) fn join(&mut self, log: &Log) -> Result<(), OutOfMemory>
        ensures { OnOk result (self.new ≡ granted_draft self.old log.now) }
    {
        if let Some(view) = &mut self.view {
            view.join(log)?;
        }
        Ok(())
    }

    /// One operation more, which no event answers.
    pub(crate) fn add_op(&mut self, inv: u8, resp: Option<u8>) -> Result<(), OutOfMemory>
        ensures { OnOk result (self.new ≡ op_draft self.old (op_of self.old.object inv resp)) }
    {
        self.begun.ops.push(Op {
            object: self.object,
            inv,
            resp,
        })
    }

    /// One operation more, with the event that answers it: its own line, which
    /// the object's view has too.
    pub(crate) fn add_event(&mut self, inv: u8, event: u8, resp: u8) -> Result<(), OutOfMemory>
        requires { length self.old.begun.ops < most_transaction_operations }
        ensures { OnOk result (self.new ≡ event_draft self.old inv event resp) }
    {
        let line = self.next_own(event);
        self.own.push(line)?;
        if let Some(view) = &mut self.view {
            view.own(event)?;
        }
        self.add_op(inv, Some(resp))
    }

    /// The own line of the next operation.
    pub(crate) fn next_own(&self, event: u8) -> OwnLine
        requires { length self.now.begun.ops < most_transaction_operations }
        ensures { result ≡ next_own (drafted [] self.now) self.now.object event }
    {
        OwnLine {
            op: self.begun.ops.items().len() as u8 + 1,
            object: self.object,
            event,
        }
    }
}

/// The views, where that of one object is another one.
fn with_view(views: Views, object: u8, view: Option<View>) -> Views
    ensures { result ≡ views_with views object view }
{
    let mut all = views.into_vec();
    if let Some(view) = view {
        let place = object as usize;
        if place < all.len() {
            all[place] = view;
        }
    }
    List::from_vec(all)
}
