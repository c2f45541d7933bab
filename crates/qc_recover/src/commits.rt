//! The commit records of a client's journal, the last one of each transaction.

ghost use Rattle.std.specs.Prelude.{◌≡◌, IfOk, OnOk, []};
ghost use Rattle.qc_recover.specs.Clients.{with_commit};

use qc_commit::Commits;
use qc_entry::Commit;
use qc_list::{List, OutOfMemory};
use std::alloc::Global;
use std::collections::BTreeSet;
use std::marker::Model;

/// Commit records, seen as the list of the last ones of their transactions.
/// They are kept as they come, and are looked through once, from the last one
/// on.
#[derive(Drop)]
pub(crate) struct LastCommits {
    commits: Vec<Commit>,
}

impl Model for LastCommits {
    ghost use Rattle.std.specs.Prelude.{List};
    ghost use Rattle.qc_entry.specs.declared.record.Commit.{Commit};
    ghost use Rattle.qc_recover.specs.Gathered.{last_of};

    ghost Value = { List Commit };

    ghost view = { λ l. last_of l.commits.items };
}

impl LastCommits {
    /// No record. It takes no memory.
    pub(crate) fn new(alloc: Global) -> LastCommits
        ensures { result ≡ [] }
    {
        LastCommits {
            commits: Vec::new(alloc),
        }
    }

    /// Adds a record, which takes the place of another one of its transaction.
    pub(crate) fn add(&mut self, commit: Commit) -> Result<(), OutOfMemory>
        ensures { OnOk result (self.new ≡ with_commit self.old commit) }
    {
        self.commits.push(commit)?;
        Ok(())
    }

    /// The list of the records.
    pub(crate) fn into_list(self, alloc: Global) -> Result<Commits, OutOfMemory>
        ensures { IfOk result (λ commits. commits ≡ self) }
    {
        let LastCommits { commits } = self;
        let mut commits = commits;
        let mut seen = BTreeSet::new(alloc);
        let mut last = Vec::new(alloc);
        'commits: while let Some(commit) = commits.pop() {
            if seen.insert(commit.tx)? {
                last.push(commit)?;
            }
        }
        last.reverse();
        Ok(List::from_vec(last))
    }
}
