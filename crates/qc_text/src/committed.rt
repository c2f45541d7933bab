//! The committed transactions of a history.

ghost use Rattle.std.specs.Prelude.{◌≡◌, IfOk, fold, map, option_to_list};
ghost use Rattle.std.specs.List.{filter_map};
ghost use Rattle.qc_msg.specs.Counts as counts;
ghost use Rattle.theory_onecopy.specs.Committed.{with_commit};
ghost use Rattle.qc_promise.specs.Committed.{commits_in, committed};
ghost use Rattle.qc_text.specs.Keys.{commit_of};

use crate::parts::is_client;
use qc_decl::Declaration;
use qc_entry::{Commit, Op};
use qc_list::{List, OutOfMemory};
use qc_msg::{Entry, Record, Step};
use qc_stamp::{Stamp, TxId};
use std::alloc::Global;
use std::collections::BTreeSet;

/// A commit record, in the order of the log: by stamp, then by transaction,
/// then by operations.
#[derive(Drop, PartialEq, Eq, PartialOrd, Ord)]
struct CommitKey {
    stamp: Stamp,
    tx: TxId,
    ops: Vec<Op>,
}

/// The distinct commit records that clients wrote, or rose with, in the log's
/// order.
pub(crate) fn committed(
    alloc: Global,
    decl: &Declaration,
    entries: &[Entry],
) -> Result<Vec<Commit>, OutOfMemory>
    ensures { IfOk result (λ v. v.items ≡ committed decl.now entries.now) }
{
    let mut keys = BTreeSet::new(alloc);
    'entries: for entry in entries {
        if is_client(decl, entry.actor) {
            keys = with_step(alloc, keys, &entry.step)?;
        }
    }
    commits_of(alloc, keys)
}

/// With the commit records that a step writes, or that a rise gives.
fn with_step(
    alloc: Global,
    keys: BTreeSet<CommitKey>,
    step: &Step,
) -> Result<BTreeSet<CommitKey>, OutOfMemory>
    ensures { IfOk result (λ k. map commit_of k.keys
        ≡ fold with_commit (map commit_of keys.keys) (commits_in step.now)) }
{
    match step {
        Step::Wrote(record) => with_record(alloc, keys, record),
        Step::Rose(kept) => with_records(alloc, keys, kept.items()),
        _ => Ok(keys),
    }
}

/// With the commit records among these.
fn with_records(
    alloc: Global,
    keys: BTreeSet<CommitKey>,
    records: &[Record],
) -> Result<BTreeSet<CommitKey>, OutOfMemory>
    ensures { IfOk result (λ k. map commit_of k.keys
        ≡ fold with_commit (map commit_of keys.keys) (filter_map counts.commit_of records.now)) }
{
    let mut all = keys;
    'records: for record in records {
        all = with_record(alloc, all, record)?;
    }
    Ok(all)
}

/// With this record, if it is a commit record.
fn with_record(
    alloc: Global,
    keys: BTreeSet<CommitKey>,
    kept: &Record,
) -> Result<BTreeSet<CommitKey>, OutOfMemory>
    ensures { IfOk result (λ k. map commit_of k.keys
        ≡ fold with_commit (map commit_of keys.keys) (option_to_list (counts.commit_of kept.now))) }
{
    let mut all = keys;
    if let Record::Commit(commit) = kept {
        let _is_new = all.insert(key_of(alloc, commit)?)?;
    }
    Ok(all)
}

/// A commit record's place in the order.
fn key_of(alloc: Global, commit: &Commit) -> Result<CommitKey, OutOfMemory>
    ensures { IfOk result (λ k. commit_of k ≡ commit.now) }
{
    Ok(CommitKey {
        stamp: commit.stamp,
        tx: commit.tx,
        ops: Vec::from_slice(alloc, commit.ops.items())?,
    })
}

/// The commit records in their order.
fn commits_of(alloc: Global, keys: BTreeSet<CommitKey>) -> Result<Vec<Commit>, OutOfMemory>
    ensures { IfOk result (λ v. v.items ≡ map commit_of keys.keys) }
{
    let mut commits = Vec::new(alloc);
    'keys: for key in keys {
        let CommitKey { stamp, tx, ops } = key;
        commits.push(Commit {
            stamp,
            tx,
            ops: List::from_vec(ops),
        })?;
    }
    Ok(commits)
}
