//! A client that rises from records, and what is wanted of it.

ghost use Rattle.std.specs.Prelude.{◌≡◌, ◌<◌, IfOk, length, true};
ghost use Rattle.std.specs.List.{list_all};
ghost use Rattle.qc_decl.specs.Accepted.{IsAccepted};
ghost use Rattle.tests_actors.specs.ClientJournals.{is_small};
ghost use Rattle.tests_actors.specs.Young.{IsYoung};

use crate::clients::check_rows;
use crate::declared::three;
use crate::taken::{Taken, tx};
use qc_client::Client;
use qc_decl::Declaration;
use qc_entry::{Commit, Ops};
use qc_list::OutOfMemory;
use qc_msg::{Record, Records};
use qc_recover::{RisenClient, client_of};
use qc_stamp::Stamp;
use std::alloc::Global;
use std::process::Abort;
use tests_texts::turn_text;

/// A record of client 1.
#[derive(Clone, Copy)]
pub(crate) enum Written {
    /// The record of a rise.
    Life,
    /// A Commit of its transaction of this number in its first life, with a
    /// clock, and without operations.
    Commit(u32, u64),
    /// What no client writes: a Close, a Done.
    Close,
    Done(u64),
}

/// The greatest clock of a test's record.
const MOST_TOLD: u64 = 4_294_967_296;

/// The record. It takes no memory.
pub(crate) fn record(alloc: Global, row: Written) -> Record {
    match row {
        Written::Life => Record::Life,
        Written::Commit(number, clock) => Record::Commit(Commit {
            stamp: Stamp { clock, client: 1 },
            tx: tx(1, number),
            ops: Ops::new(alloc),
        }),
        Written::Close => Record::Close { epoch: 2 },
        Written::Done(clock) => Record::Done {
            tx: tx(1, 1),
            clock,
        },
    }
}

/// The records.
fn records(alloc: Global, rows: &[Written]) -> Result<Records, OutOfMemory> {
    let mut records = Records::new(alloc);
    for row in rows {
        records.push(record(alloc, *row))?;
    }
    Ok(records)
}

/// Whether each clock is a small one.
fn are_small(records: &[Record]) -> bool
    ensures { result ≡ list_all is_small records.now }
{
    records.iter().all(|rec| is_small(rec))
}

/// Whether a Commit's clock is.
fn is_small(rec: &Record) -> bool
    ensures { result ≡ is_small rec.now }
{
    match rec {
        Record::Commit(commit) => commit.stamp.clock <= MOST_TOLD,
        _ => true,
    }
}

/// Client 1, as it rises from fewer than 10,000 records with small clocks.
pub(crate) fn risen(
    rt: &impl Abort,
    alloc: Global,
    decl: &Declaration,
    records: &[Record],
) -> Result<RisenClient, OutOfMemory>
    ensures { IfOk result (λ risen. IsYoung decl.now risen.client 0) }
{
    assert!(rt; records.len() < 10_000);
    let are_small = are_small(records);
    assert!(rt; are_small);
    rise(alloc, decl, records)
}

/// The same, where the clocks are small.
fn rise(alloc: Global, decl: &Declaration, records: &[Record]) -> Result<RisenClient, OutOfMemory>
    requires few { length records.now < 10000 }
    requires small { list_all is_small records.now ≡ true }
    ensures { IfOk result (λ risen. IsYoung decl.now risen.client 0) }
{
    let risen = client_of(alloc, 1, records)?;
    Ok(risen)
}

/// The rising turn writes the record of a rise, and does nothing else. The
/// client is given back.
pub(crate) fn check_rise(
    rt: &impl Abort,
    alloc: Global,
    decl: &Declaration,
    records: &[Record],
) -> Result<Client, OutOfMemory>
    ensures { IfOk result (λ client. IsYoung decl.now client 0) }
{
    let RisenClient { client, turn } = risen(rt, alloc, decl, records)?;
    let text = turn_text(alloc, &turn)?;
    assert_eq!(rt; text.as_str(), "write life");
    Ok(client)
}

/// Over `@three`, client 1 rises from these records, and then does what the rows
/// say.
pub(crate) fn check_risen(
    rt: &impl Abort,
    alloc: Global,
    written: &[Written],
    rows: &[(Taken<'_>, &str)],
) -> Result<(), OutOfMemory> {
    let decl = three(rt, alloc)?;
    let records = records(alloc, written)?;
    check_rising(rt, alloc, &decl, records.items(), rows)
}

/// The same over these records.
pub(crate) fn check_rising(
    rt: &impl Abort,
    alloc: Global,
    decl: &Declaration,
    records: &[Record],
    rows: &[(Taken<'_>, &str)],
) -> Result<(), OutOfMemory>
    requires { IsAccepted decl.now }
{
    let mut client = check_rise(rt, alloc, decl, records)?;
    check_rows(rt, alloc, decl, &mut client, rows)
}
