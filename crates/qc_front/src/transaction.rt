//! The transaction that a client has begun, with what it read and wrote.

ghost use Rattle.std.specs.Prelude.{◌≡◌, IfOk, replicate};
ghost use Rattle.qc_front.specs.Front.{fresh};
ghost use Rattle.qc_view.specs.View.{empty_view};

use qc_decl::Declaration;
use qc_entry::Owns;
use qc_list::{List, OutOfMemory};
use qc_msg::Begun;
use qc_stamp::TxId;
use qc_view::View;
use std::alloc::Global;

/// A view of each declared object, by its number.
pub type Views = List<View>;

/// A transaction that hasn't ended, as its front end knows it.
#[derive(Drop)]
pub struct Transaction {
    /// What its commit reads of it.
    pub begun: Begun,
    /// For each object the lines of the grants to Reads of it that counted,
    /// and the transaction's own events there.
    pub views: Views,
    /// The own line of each recorded operation with a response, in order, also
    /// where its event needs no weight to append.
    pub own: Owns,
}

impl Transaction {
    /// The transaction of this name at its beginning, in this epoch.
    pub(crate) fn fresh(
        alloc: Global,
        decl: &Declaration,
        tx: TxId,
        epoch: u8,
    ) -> Result<Transaction, OutOfMemory>
        ensures { IfOk result (λ t. t ≡ fresh decl.now tx epoch) }
    {
        Ok(Transaction {
            begun: Begun {
                tx,
                epoch,
                ops: List::new(alloc),
                lives: List::new(alloc),
                asked: List::new(alloc),
                doomed: false,
            },
            views: empty_views(alloc, decl.objects.items().len())?,
            own: List::new(alloc),
        })
    }
}

/// So many views in which nothing is known.
fn empty_views(alloc: Global, count: usize) -> Result<Views, OutOfMemory>
    ensures { IfOk result (λ views. views ≡ replicate count empty_view) }
{
    let mut views = List::new(alloc);
    for _object in 0..count {
        views.push(View::new(alloc)?)?;
    }
    Ok(views)
}
