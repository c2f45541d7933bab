//! The transactions whose promises stand at a site and name something to be
//! held.

ghost use Rattle.std.specs.Prelude.{◌≡◌, [], List, OnOk, IfOk, fold, map};
ghost use Rattle.qc_stamp.specs.declared.stamp.TxId.{TxId};
ghost use Rattle.qc_promise.specs.SiteEnds.{is_aborted};
ghost use Rattle.qc_text.specs.Deeds.{deed_of};
ghost use Rattle.qc_text.specs.Holders.{IsSetOf, holders_with, names_some};
ghost use Rattle.qc_text.specs.Promises.{promised_at, promised_by};

use crate::deeds::Deed;
use crate::holders::Holders;
use qc_entry::Prepared;
use qc_list::OutOfMemory;
use qc_msg::{Message, Outcome, Record};
use std::alloc::Global;

/// Those after the records of a rise, and after deeds since.
pub(crate) fn promised_after(
    alloc: Global,
    kept: &[Record],
    deeds: &[Deed<'_>],
) -> Result<Holders, OutOfMemory>
    ensures { IfOk result (λ holders. IsSetOf
        (fold promised_at (fold holders_with [] kept.now) (map deed_of deeds.now)) holders) }
{
    let mut holders = promised_kept(alloc, kept)?;
    'deeds: for deed in deeds {
        take_deed(&mut holders, deed)?;
    }
    Ok(holders)
}

/// Those whose promises stand among the records of a rise.
fn promised_kept(alloc: Global, kept: &[Record]) -> Result<Holders, OutOfMemory>
    ensures { IfOk result (λ holders. IsSetOf (fold holders_with [] kept.now) holders) }
{
    let mut holders = Holders::new(alloc);
    'records: for written in kept {
        take_record(&mut holders, written)?;
    }
    Ok(holders)
}

/// Takes a record: a promise stands until a later record redeems it.
fn take_record(holders: &mut Holders, written: &Record) -> Result<(), OutOfMemory>
    ensures { OnOk result ((txs : List TxId) → IsSetOf txs holders.old
        → IsSetOf (holders_with txs written.now) holders.new) }
{
    match written {
        Record::Prepare(prepared) => {
            holders.remove(prepared.tx);
            if names_some(prepared) {
                holders.add(prepared.tx)?;
            }
        }
        Record::Done { tx, .. } => holders.remove(*tx),
        Record::Install(_) => holders.clear(),
        Record::Life | Record::Close { .. } | Record::Commit(_) | Record::Decide(_) => {}
    }
    Ok(())
}

/// Whether a promise names something to be held.
fn names_some(prepared: &Prepared) -> bool
    ensures { result ≡ names_some prepared.now }
{
    !(prepared.locks.items().is_empty() && prepared.own.items().is_empty())
}

/// Takes a deed: what it writes, and a Decision Aborted.
fn take_deed(holders: &mut Holders, deed: &Deed<'_>) -> Result<(), OutOfMemory>
    ensures { OnOk result ((txs : List TxId) → IsSetOf txs holders.old
        → IsSetOf (promised_at txs (deed_of deed.now)) holders.new) }
{
    match deed {
        Deed::Got(letter) => take_message(holders, letter.message),
        Deed::Wrote(written) => take_record(holders, written)?,
        Deed::Called(_)
        | Deed::Lost(_)
        | Deed::Sent { .. }
        | Deed::Told(_)
        | Deed::Fell { .. }
        | Deed::Rose(_) => {}
    }
    Ok(())
}

/// Drops the transaction of a Decision Aborted.
fn take_message(holders: &mut Holders, message: &Message)
    ensures { (txs : List TxId) → IsSetOf txs holders.old → IsSetOf (promised_by txs message.now) holders.new }
{
    match message {
        Message::Decision { tx, verdict } => {
            if is_aborted(*verdict) {
                holders.remove(*tx);
            }
        }
        Message::Request { .. }
        | Message::Answer { .. }
        | Message::Inquiry { .. }
        | Message::Ask { .. }
        | Message::Close { .. }
        | Message::Install(_) => {}
    }
}

/// Whether a verdict aborts its transaction.
fn is_aborted(verdict: Outcome) -> bool
    ensures { result ≡ is_aborted verdict }
{
    match verdict {
        Outcome::Aborted => true,
        Outcome::Committed { .. } | Outcome::Active => false,
    }
}
