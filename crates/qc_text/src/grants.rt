//! Which requests a site granted, and which transactions hold something by them
//! and by what was promised.

ghost use Rattle.std.specs.Prelude.{◌≡◌, List, OnOk, IfOk, length, map};
ghost use Rattle.qc_stamp.specs.declared.stamp.TxId.{TxId};
ghost use Rattle.qc_msg.specs.Readings.{is_final};
ghost use Rattle.qc_promise.specs.SiteHeld.{is_granted};
ghost use Rattle.qc_text.specs.Deeds.{deed_of};
ghost use Rattle.qc_text.specs.Holders.{IsSetOf, ends_post, holders_at, holders_by, is_holding, sends_grant};
ghost use Rattle.qc_text.specs.Lifetimes.{held_in, present};

use crate::deeds::{Deed, Letter};
use crate::holders::Holders;
use crate::holdings::holding_of;
use crate::lifetimes::Lifetime;
use crate::promises::promised_after;
use qc_list::OutOfMemory;
use qc_msg::{Answer, Message, Outcome, Want};
use std::alloc::Global;

/// Whether the request of this number is granted: one of the messages of its
/// post grants it.
pub(crate) fn is_granted(after: &[Deed<'_>], number: u32) -> bool
    ensures { result ≡ is_granted number (map deed_of after.now) }
{
    'deeds: for deed in after {
        if ends_post(deed) {
            return false;
        }
        if grants(deed, number) {
            return true;
        }
    }
    false
}

/// Whether a post ends before a deed, or with it.
fn ends_post(deed: &Deed<'_>) -> bool
    ensures { result ≡ ends_post (deed_of deed.now) }
{
    match deed {
        Deed::Called(_) | Deed::Got(_) | Deed::Lost(_) | Deed::Fell { .. } | Deed::Rose(_) => true,
        Deed::Wrote(_) | Deed::Sent { .. } | Deed::Told(_) => false,
    }
}

/// Whether a deed sends the grant of the request of this number.
fn grants(deed: &Deed<'_>, number: u32) -> bool
    ensures { result ≡ sends_grant number (deed_of deed.now) }
{
    match deed {
        Deed::Sent {
            message: Message::Answer {
                to,
                answer: Answer::Granted(_),
            },
            ..
        } => *to == number,
        _ => false,
    }
}

/// How many transactions hold something at a site in its present life.
pub(crate) fn count_holders(alloc: Global, current: &Lifetime<'_>) -> Result<u64, OutOfMemory>
    ensures { IfOk result (λ n. n ≡ length (held_in (present current.now))) }
{
    let holding = holding_of(current.since);
    let mut holders = promised_after(alloc, current.kept, holding.before)?;
    'deeds: for place in 0..holding.since.len() {
        take_deed(
            &mut holders,
            &holding.since[place],
            &holding.since[place + 1..],
        )?;
    }
    Ok(holders.count())
}

/// Takes a deed, with those after it.
fn take_deed(holders: &mut Holders, deed: &Deed<'_>, after: &[Deed<'_>]) -> Result<(), OutOfMemory>
    ensures { OnOk result ((txs : List TxId) → IsSetOf txs holders.old
        → IsSetOf (holders_at txs (deed_of deed.now) (map deed_of after.now)) holders.new) }
{
    match deed {
        Deed::Got(letter) => take_message(holders, letter, after)?,
        Deed::Called(_)
        | Deed::Lost(_)
        | Deed::Wrote(_)
        | Deed::Sent { .. }
        | Deed::Told(_)
        | Deed::Fell { .. }
        | Deed::Rose(_) => {}
    }
    Ok(())
}

/// Adds the transaction of a request that is granted and holds something, and
/// drops one that ends.
fn take_message(
    holders: &mut Holders,
    letter: &Letter<'_>,
    after: &[Deed<'_>],
) -> Result<(), OutOfMemory>
    ensures { OnOk result ((txs : List TxId) → IsSetOf txs holders.old → IsSetOf
        (holders_by txs letter.now.number letter.now.message.now (map deed_of after.now)) holders.new) }
{
    match letter.message {
        Message::Request { tx, want, .. } => {
            if is_holding(want) && is_granted(after, letter.number) {
                holders.add(*tx)?;
            }
        }
        Message::Decision { tx, verdict } => {
            if is_final(*verdict) {
                holders.remove(*tx);
            }
        }
        Message::Answer { .. }
        | Message::Inquiry { .. }
        | Message::Ask { .. }
        | Message::Close { .. }
        | Message::Install(_) => {}
    }
    Ok(())
}

/// Whether a transaction that is granted this holds something.
fn is_holding(want: &Want) -> bool
    ensures { result ≡ is_holding want.now }
{
    match want {
        Want::Read(_) => true,
        Want::Append { own, .. } => !own.items().is_empty(),
        Want::Prepare => false,
    }
}

/// Whether a verdict ends its transaction.
fn is_final(verdict: Outcome) -> bool
    ensures { result ≡ is_final verdict }
{
    match verdict {
        Outcome::Committed { .. } | Outcome::Aborted => true,
        Outcome::Active => false,
    }
}
