//! What a site's records show: its life and its epoch.

ghost use Rattle.std.specs.Prelude.{◌≡◌, ◌<◌, ◌≤◌, ◌+◌, ◌-◌, ◌^◌, fold, length};
ghost use Rattle.qc_msg.specs.Begun.{first_epoch};
ghost use Rattle.qc_promise.specs.SiteRecords.{epoch_by, life_by};
ghost use Rattle.qc_stamp.specs.Lives.{first_life};
ghost use Rattle.qc_text.specs.Deeds.{deed_of};
ghost use Rattle.qc_text.specs.Lifetimes.{epoch_in, life_in, present};
ghost use Rattle.qc_text.specs.Records.{epoch_at, life_at};

use crate::deeds::Deed;
use crate::lifetimes::Lifetime;
use qc_msg::{FIRST_EPOCH, Record};
use qc_stamp::FIRST_LIFE;

/// The number of the life that a site is in.
pub(crate) fn life_of(current: &Lifetime<'_>) -> u64
    ensures { result ≡ life_in (present current.now) }
{
    let mut life = life_kept(current.kept);
    'deeds: for deed in current.since {
        life = life_after(life, deed);
    }
    life
}

/// The life that records give.
fn life_kept(records: &[Record]) -> u64
    ensures value { result ≡ fold life_by first_life records.now }
    ensures few { result ≤ length records.now + 1 }
{
    let mut life = FIRST_LIFE as u64;
    'records: for written in records {
        life = life_with(life, written);
    }
    life
}

/// A site's life after a deed.
fn life_after(life: u64, deed: &Deed<'_>) -> u64
    requires { life < 2 ^ 64 - 1 }
    ensures { result ≡ life_at life (deed_of deed.now) }
{
    match deed {
        Deed::Wrote(written) => life_with(life, written),
        _ => life,
    }
}

/// A site's life with a record: one more with that of a rise or of a closed
/// epoch.
fn life_with(life: u64, written: &Record) -> u64
    requires { life < 2 ^ 64 - 1 }
    ensures { result ≡ life_by life written.now }
{
    match written {
        Record::Life | Record::Close { .. } => life + 1,
        _ => life,
    }
}

/// The epoch that a site is in.
pub(crate) fn epoch_of(current: &Lifetime<'_>) -> u8
    ensures { result ≡ epoch_in (present current.now) }
{
    let mut epoch = epoch_kept(current.kept);
    'deeds: for deed in current.since {
        epoch = epoch_after(epoch, deed);
    }
    epoch
}

/// The epoch that records give.
fn epoch_kept(records: &[Record]) -> u8
    ensures { result ≡ fold epoch_by first_epoch records.now }
{
    let mut epoch = FIRST_EPOCH;
    'records: for written in records {
        epoch = epoch_with(epoch, written);
    }
    epoch
}

/// A site's epoch after a deed.
fn epoch_after(epoch: u8, deed: &Deed<'_>) -> u8
    ensures { result ≡ epoch_at epoch (deed_of deed.now) }
{
    match deed {
        Deed::Wrote(written) => epoch_with(epoch, written),
        _ => epoch,
    }
}

/// A site's epoch with a record: the one that it installs, if it does.
fn epoch_with(epoch: u8, written: &Record) -> u8
    ensures { result ≡ epoch_by epoch written.now }
{
    match written {
        Record::Install(start) => start.epoch,
        _ => epoch,
    }
}
