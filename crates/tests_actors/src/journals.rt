//! Records of a site's journal, written shortly.

ghost use Rattle.std.specs.Prelude.{◌≡◌, ◌<◌, IsTrue};
ghost use Rattle.std.specs.List.{list_all};
ghost use Rattle.qc_decl.specs.Limits.{most_clients};
ghost use Rattle.qc_entry.specs.declared.record.Prepared.{Prepared};
ghost use Rattle.qc_list.specs.Members.{In};
ghost use Rattle.qc_msg.specs.declared.record.Record.TheVariants.{Prepare};
ghost use Rattle.tests_actors.specs.Records.{is_of_client};

use crate::messages::{log, own_lines};
use crate::sites::{X, tx};
use qc_entry::{Commit, Ops, Prepared, ReadLock, Reads};
use qc_list::OutOfMemory;
use qc_msg::{EpochStart, Record, Records};
use qc_stamp::Stamp;
use std::alloc::Global;

/// A record. Its transaction is the client's first.
#[derive(Clone, Copy)]
pub(crate) enum Written<'a> {
    /// The record of a rise.
    Life,
    /// A Prepare of a client, with read locks on x, own lines, each by operation
    /// and event, and lines, each by clock, client and event.
    Prepare(u8, &'a [u8], &'a [(u8, u8)], &'a [(u64, u8, u8)]),
    /// A client's transaction is done, with a clock.
    Done(u8, u64),
    /// The epoch is closed for another one.
    Close(u8),
    /// An epoch is begun, with a clock and lines.
    Install(u8, u64, &'a [(u64, u8, u8)]),
    /// What no site writes: a Commit of a client, with a clock, and a Decide.
    Commit(u8, u64),
    Decide(u8),
}

/// The records.
pub(crate) fn records(alloc: Global, rows: &[Written<'_>]) -> Result<Records, OutOfMemory> {
    let mut records = Records::new(alloc);
    for row in rows {
        records.push(record(alloc, *row)?)?;
    }
    Ok(records)
}

/// The record.
fn record(alloc: Global, row: Written<'_>) -> Result<Record, OutOfMemory> {
    match row {
        Written::Life => Ok(Record::Life),
        Written::Prepare(client, invs, owns, lines) => prepare(alloc, client, invs, owns, lines),
        Written::Done(client, clock) => Ok(Record::Done {
            tx: tx(client),
            clock,
        }),
        Written::Close(epoch) => Ok(Record::Close { epoch }),
        Written::Install(epoch, clock, lines) => Ok(Record::Install(EpochStart {
            epoch,
            clock,
            lines: log(alloc, lines)?,
        })),
        Written::Commit(client, clock) => Ok(commit(alloc, client, clock)),
        Written::Decide(epoch) => Ok(Record::Decide(EpochStart {
            epoch,
            clock: 9,
            lines: log(alloc, &[])?,
        })),
    }
}

/// A Prepare of the first epoch.
fn prepare(
    alloc: Global,
    client: u8,
    invs: &[u8],
    owns: &[(u8, u8)],
    lines: &[(u64, u8, u8)],
) -> Result<Record, OutOfMemory> {
    Ok(Record::Prepare(Prepared {
        tx: tx(client),
        epoch: 1,
        locks: locks(alloc, invs)?,
        own: own_lines(alloc, owns)?,
        lines: log(alloc, lines)?,
    }))
}

/// Read locks on x.
pub(crate) fn locks(alloc: Global, invs: &[u8]) -> Result<Reads, OutOfMemory> {
    let mut locks = Reads::new(alloc);
    for inv in invs {
        locks.push(ReadLock {
            object: X,
            inv: *inv,
        })?;
    }
    Ok(locks)
}

/// A commit record without operations. It takes no memory.
fn commit(alloc: Global, client: u8, clock: u64) -> Record {
    Record::Commit(Commit {
        stamp: Stamp { clock, client },
        tx: tx(client),
        ops: Ops::new(alloc),
    })
}

/// Whether each Prepare is of a client that may be declared.
#[tactic(auto, using(crate::proofs::Records::of_clients))]
pub(crate) fn are_of_clients(records: &[Record]) -> bool
    ensures { IsTrue result → (p : Prepared) → In (Prepare p) records.now → p.tx.client < most_clients }
{
    all_are_of_clients(records)
}

/// The same, as a test.
fn all_are_of_clients(records: &[Record]) -> bool
    ensures { result ≡ list_all is_of_client records.now }
{
    records.iter().all(|rec| is_of_client(rec))
}

/// Whether a Prepare is of a client that may be declared.
fn is_of_client(rec: &Record) -> bool
    ensures { result ≡ is_of_client rec.now }
{
    match rec {
        Record::Prepare(promise) => promise.tx.client < 16,
        _ => true,
    }
}
