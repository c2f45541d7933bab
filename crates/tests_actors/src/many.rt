//! A site that rises from many records.

ghost use Rattle.qc_decl.specs.Accepted.{IsAccepted};

use crate::journals::locks;
use crate::messages::{Taken, log, own_lines};
use crate::rises::{check_state, risen};
use crate::sites::{READ, WROTE_0, WROTE_1, check_rows, three};
use qc_decl::Declaration;
use qc_entry::Prepared;
use qc_list::OutOfMemory;
use qc_msg::{Message, Posting, Record, Records, Turn};
use qc_recover::RisenSite;
use qc_stamp::TxId;
use std::alloc::Global;
use std::process::Abort;

/// The n-th transaction of a journal, from 1. Their order isn't that of the
/// journal.
fn nth(n: u32) -> TxId {
    TxId {
        client: (n % 3) as u8,
        life: 1,
        number: 1_001u32.saturating_sub(n),
    }
}

/// The n-th Prepare: a read lock and an own line on x, and a line with the clock
/// 10,000 - n.
fn prepare(alloc: Global, n: u32) -> Result<Record, OutOfMemory> {
    let clock = 10_000u64.saturating_sub(u64::from(n));
    Ok(Record::Prepare(Prepared {
        tx: nth(n),
        epoch: 1,
        locks: locks(alloc, &[READ])?,
        own: own_lines(alloc, &[(1, WROTE_1)])?,
        lines: log(alloc, &[(clock, 1, WROTE_0)])?,
    }))
}

/// The n-th transaction is done, with the clock of so many thousands less n.
fn done(n: u32, thousands: u64) -> Record {
    Record::Done {
        tx: nth(n),
        clock: thousands.saturating_mul(1_000).saturating_sub(u64::from(n)),
    }
}

/// 1,000 Prepares, and then, of the first 500 of them, a Done with 3,000 - n and
/// one with 4,000 - n.
fn many_records(alloc: Global) -> Result<Records, OutOfMemory> {
    let mut records = Records::new(alloc);
    for n in 1..1_001u32 {
        records.push(prepare(alloc, n)?)?;
    }
    for n in 1..501u32 {
        records.push(done(n, 3))?;
        records.push(done(n, 4))?;
    }
    Ok(records)
}

/// How many Inquiries a turn sends, each about a greater transaction than the one
/// before it; another message ends the count.
fn inquiries(turn: &Turn) -> u32 {
    let mut count = 0u32;
    let mut last = None;
    for posting in turn.sends.items() {
        let tx = asked(posting);
        if tx <= last {
            return count;
        }
        last = tx;
        count = count.saturating_add(1);
    }
    count
}

/// The transaction that an Inquiry is about.
fn asked(posting: &Posting) -> Option<TxId> {
    match posting.message {
        Message::Inquiry { tx } => Some(tx),
        _ => None,
    }
}

/// Each line of a Prepare is known once, and two for each transaction that is
/// done; the other 500 are promised.
fn check_many(
    rt: &impl Abort,
    alloc: Global,
    decl: &Declaration,
    rise: RisenSite,
) -> Result<(), OutOfMemory>
    requires { IsAccepted decl.now }
{
    let RisenSite { mut site, turn } = rise;
    assert_eq!(rt; (turn.sends.items().len(), inquiries(&turn)), (500, 500));
    check_state(rt, &site, (2, 1, 2_000, 500))?;
    check_rows(
        rt,
        alloc,
        decl,
        &mut site,
        &[(Taken::Prepare(1), "4: 10 yes 9999")],
    )
}

#[test]
fn two_thousand_records(rt: HostRuntime) -> Result<(), OutOfMemory> {
    let alloc = rt.alloc();
    let decl = three(&rt, alloc)?;
    let records = many_records(alloc)?;
    let rise = risen(&rt, alloc, &decl, records.items())?;
    check_many(&rt, alloc, &decl, rise)
}
