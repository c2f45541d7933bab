//! The questions about what closed sites have promised: each transaction once,
//! with the first site that has it.

ghost use Rattle.std.specs.Prelude.{◌≡◌, [], IfOk};
ghost use Rattle.qc_epoch.specs.Deciding.{questions_of, with_question, with_questions};

use crate::questions::{MOST_ASKS, Query, Questions};
use crate::shut::{ShutSite, Shuts};
use qc_entry::Prepared;
use qc_list::OutOfMemory;
use qc_stamp::TxId;
use std::alloc::Global;
use std::collections::BTreeSet;
use std::marker::Model;

impl Questions {
    /// The questions about what these sites told. Nothing is asked yet.
    pub(crate) fn of(alloc: Global, shuts: &Shuts) -> Result<Questions, OutOfMemory>
        ensures { IfOk result (λ q. q ≡ questions_of shuts.now) }
    {
        let mut draft = Draft::new(alloc);
        for shut in shuts.items() {
            draft = draft.join(shut)?;
        }
        Ok(draft.finish())
    }
}

/// Questions as they are gathered, with the set of their transactions.
#[derive(Drop)]
struct Draft {
    queries: Vec<Query>,
    txs: BTreeSet<TxId>,
}

impl Model for Draft {
    ghost use Rattle.std.specs.Prelude.{List};
    ghost use Rattle.qc_epoch.specs.Admin.{Question};
    ghost use Rattle.qc_admin.specs.Queries.{IsDraft, unasked};

    ghost Value = { List Question };

    ghost view = { λ d. unasked d.queries.items };

    ghost invariant = { λ d. IsDraft d.queries.items d.txs };
}

impl Draft {
    /// No question. It takes no memory.
    fn new(alloc: Global) -> Draft
        ensures { result ≡ [] }
    {
        Draft {
            queries: Vec::new(alloc),
            txs: BTreeSet::new(alloc),
        }
    }

    /// With a question about each transaction that a site has promised.
    fn join(self, shut: &ShutSite) -> Result<Draft, OutOfMemory>
        ensures { IfOk result (λ draft. draft ≡ with_questions self shut.now) }
    {
        let mut draft = self;
        for promise in shut.prepared.items() {
            draft = draft.add(shut.site, promise)?;
        }
        Ok(draft)
    }

    /// With a question about a promised transaction, unless there is one.
    fn add(self, site: u8, promise: &Prepared) -> Result<Draft, OutOfMemory>
        ensures { IfOk result (λ draft. draft ≡ with_question site self promise.now) }
    {
        let Draft { queries, txs } = self;
        let mut queries = queries;
        let mut txs = txs;
        if txs.insert(promise.tx)? {
            queries.push(Query {
                tx: promise.tx,
                site,
                taken: None,
            })?;
        }
        Ok(Draft { queries, txs })
    }

    /// The questions. It takes no memory.
    fn finish(self) -> Questions
        ensures { result ≡ self }
    {
        let Draft { queries, txs: _ } = self;
        let waiting = queries.len().min(MOST_ASKS);
        Questions {
            queries,
            first: None,
            waiting,
        }
    }
}
