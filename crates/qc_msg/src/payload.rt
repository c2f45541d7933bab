//! What messages and records carry of more than one field: each a record of its
//! own, so that what one of them has more has one place.

ghost use Rattle.std.specs.Prelude.{◌≡◌, ◌++◌, ◌∷◌, [], IfOk};

use qc_entry::{Log, Mark, Prepared};
use qc_list::{List, OutOfMemory};
use std::alloc::Global;

/// What a Read names.
#[derive(Clone, Copy)]
pub struct ReadRequest {
    /// The object.
    pub object: u8,
    /// The invocation.
    pub inv: u8,
    /// How much of the site's log of the object the client was told.
    pub mark: Mark,
}

/// The transactions that a site has promised to keep, in the order of its
/// promises.
pub type PreparedList = List<Prepared>;

/// What a site tells as it grants.
#[derive(Drop)]
pub struct Grant {
    /// The site's life.
    pub life: u32,
    /// The site's clock.
    pub clock: u64,
    /// Of a Read, the site's lines of the object that its mark doesn't count; of
    /// an Append none.
    pub log: Log,
    /// Of a Read, how many lines of the object joined the site's log since it rose
    /// or began its epoch, whichever came later; of an Append 0.
    pub count: u64,
}

impl Grant {
    /// The same, in memory of its own.
    pub fn copy(&self) -> Result<Grant, OutOfMemory>
        ensures { IfOk result (λ g. g ≡ self.now) }
    {
        Ok(Grant {
            life: self.life,
            clock: self.clock,
            log: self.log.copy()?,
            count: self.count,
        })
    }
}

/// What a closed site tells of itself.
#[derive(Drop)]
pub struct Snapshot {
    /// Its clock.
    pub clock: u64,
    /// Its log.
    pub log: Log,
    /// Its promises.
    pub prepared: PreparedList,
}

impl Snapshot {
    /// The same, in memory of its own.
    pub fn copy(&self, alloc: Global) -> Result<Snapshot, OutOfMemory>
        ensures { IfOk result (λ s. s ≡ self.now) }
    {
        Ok(Snapshot {
            clock: self.clock,
            log: self.log.copy()?,
            prepared: copy_prepared(alloc, &self.prepared)?,
        })
    }
}

/// What an epoch begins with.
#[derive(Drop)]
pub struct EpochStart {
    /// The epoch, from 2.
    pub epoch: u8,
    /// The clock that its sites have passed.
    pub clock: u64,
    /// The lines of its sites' logs.
    pub lines: Log,
}

impl EpochStart {
    /// The same, in memory of its own.
    pub fn copy(&self) -> Result<EpochStart, OutOfMemory>
        ensures { IfOk result (λ s. s ≡ self.now) }
    {
        Ok(EpochStart {
            epoch: self.epoch,
            clock: self.clock,
            lines: self.lines.copy()?,
        })
    }
}

/// The same promises, in memory of their own.
fn copy_prepared(alloc: Global, prepared: &PreparedList) -> Result<PreparedList, OutOfMemory>
    ensures { IfOk result (λ p. p ≡ prepared.now) }
{
    let mut copy = List::new(alloc);
    for promise in prepared.items() {
        copy.push(promise.copy()?)?;
    }
    Ok(copy)
}
