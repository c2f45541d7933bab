//! A journal is begun on an empty disk, written to, given up, and opened again.

ghost use Rattle.std.specs.Prelude.{◌≡◌, ◌≤◌, ◌<◌, ◌^◌, List, ℕ, [], ◌∷◌, ◌++◌, Err, None, Some, IfOk, IfErr, length};
ghost use Rattle.std.specs.Prelude.{◌+◌, Option, vec_capacity};
ghost use Rattle.qc_journal.specs.Calls.{JournalIsRefused};
ghost use Rattle.qc_journal.specs.Causes.{JournalRose};
ghost use Rattle.qc_journal.specs.Grammar.{Holds, IsBody, IsNoJournal};
ghost use Rattle.qc_journal.specs.Journal.{AreShort, EndsWithin, IsReserved, Rests, lists};
ghost use Rattle.qc_journal.specs.declared.fault.JournalFault.TheVariants.{Torn};
ghost use Rattle.qc_outside.specs.Fuses.{Fuse};
ghost use Rattle.qc_outside.specs.Images.{Tells, Told, as_read, settled};
ghost use Rattle.qc_outside.specs.declared.disk.ArmKind.{ArmKind};
ghost use Rattle.qc_promise.specs.DiskAccount.{DiskAccount, no_disk_account, disk_called, disk_fell};
ghost use Rattle.qc_promise.specs.Spent.{of_reading, of_record};
ghost use Rattle.qc_store.specs.Accounts.{IsAccountOf};
ghost use Rattle.qc_store.specs.Calls.{of_bodies, of_broken_opening, of_broken_record};
ghost use Rattle.qc_store.specs.Contents.{AreGiven, DiskHasJournal, DiskHolds, IsSettled, StillTells};
ghost use Rattle.qc_store.specs.declared.store.RiseFault.TheVariants as rise_fault;

use qc_journal::{Journal, JournalFault};
use qc_outside::{ArmKind, Disk, Fused};
use std::alloc::Global;

/// Why a journal wasn't opened again.
#[derive(Clone, Copy, Debug, PartialEq, Eq)]
pub enum RiseFault {
    /// The disk failed or stopped, and fell.
    Fell(ArmKind),
    /// The bytes are no journal: behind this gate no record stands.
    Torn { offset: u64 },
    /// Memory was wanting, after calls of the disk that no account shows.
    OutOfMemory,
}

/// Begins a journal on an actor's disk, with nothing armed, and gives the bodies
/// that the disk held: none where it tells and has no bytes. A refusal hands the
/// disk back.
pub fn start<D: Disk>(
    alloc: Global,
    disk: D,
) -> Result<(Journal<Fused<D>>, Vec<Vec<u8>>), (D, JournalFault)>
    ensures account { IfOk result (λ r. IsAccountOf no_disk_account (⟦<Fused<D> as Disk>⟧.fuse r.0.disk)) }
    ensures rests { IfOk result (λ r. Rests (⟦<Fused<D> as Disk>⟧.told r.0.disk) r.0.end (lists r.1.items)) }
    ensures tells { IfOk result (λ r. StillTells (D.told disk) (⟦<Fused<D> as Disk>⟧.told r.0.disk)) }
    // What it gives is what the disk held, and it is torn only where that is no journal.
    ensures opened { IfOk result (λ r. Tells (D.told disk) (⟦<Fused<D> as Disk>⟧.told r.0.disk) (λ old new.
        Holds (lists r.1.items) (as_read old.now))) }
    ensures torn { IfErr result (λ e. (offset : ℕ) → e.1 ≡ Torn offset
        → Tells (D.told disk) (D.told e.0) (λ old new. IsNoJournal offset (as_read old.now))) }
    ensures empty { IfOk result (λ r. (t : Told) → D.told disk ≡ Some t → t.now ≡ settled [] → r.1.items ≡ []) }
    ensures records { IfOk result (λ r. r.0.records ≡ length r.1.items) }
    ensures ends { IfOk result (λ r. EndsWithin r.0.end r.0.records) }
    ensures bodies { IfOk result (λ r. AreShort r.1.items) }
    // Nothing is armed yet, so what fails is the disk itself.
    ensures cause { IfErr result (λ e. JournalRose {T = Unit {0}} (D.faults disk) (D.faults e.0) (Err e.1)) }
{
    match Journal::open(alloc, Fused::new(disk)) {
        Ok((journal, bodies)) => Ok((journal, bodies)),
        Err((disk, fault)) => Err((disk.inner(), fault)),
    }
}

/// Writes a record. Where it isn't written the journal is given up, and the disk
/// falls.
pub fn write<D: Disk>(journal: Journal<D>, body: &[u8]) -> Result<Journal<D>, (D, ArmKind)>
    requires body { IsBody body.now }
    requires room { IsReserved (vec_capacity journal.frame) (D.has_room journal.disk)
        journal.end (length body.now) }
    requires fewer { journal.records < 2 ^ 32 }
    // What was written lasts.
    ensures written { IfOk result (λ j. (bodies : List (List ℕ)) → Rests (D.told journal.disk) journal.end bodies
        → Rests (D.told j.disk) j.end (bodies ++ body.now ∷ [])) }
    ensures tells { IfOk result (λ j. (bodies : List (List ℕ)) → Rests (D.told journal.disk) journal.end bodies
        → StillTells (D.told journal.disk) (D.told j.disk)) }
    ensures tells_err { IfErr result (λ e. (bodies : List (List ℕ)) → Rests (D.told journal.disk) journal.end bodies
        → StillTells (D.told journal.disk) (D.told e.0)) }
    ensures records { IfOk result (λ j. j.records ≡ journal.records + 1) }
    ensures ends { IfOk result (λ j. EndsWithin journal.end journal.records → EndsWithin j.end j.records) }
    ensures holds { IfErr result (λ e. (bodies : List (List ℕ)) → Rests (D.told journal.disk) journal.end bodies
        → DiskHolds (D.told e.0) bodies (Some body.now)) }
    ensures fell { IfErr result (λ e. IsSettled (D.told e.0)) }
    ensures account { IfOk result (λ j. (t : DiskAccount) → IsAccountOf t (D.fuse journal.disk)
        → IsAccountOf (disk_called t of_record) (D.fuse j.disk)) }
    ensures account_err { IfErr result (λ e. (t : DiskAccount) → IsAccountOf t (D.fuse journal.disk)
        → IsAccountOf (disk_fell t e.1 of_broken_record) (D.fuse e.0)) }
{
    let mut journal = journal;
    match journal.append(body) {
        Ok(()) => Ok(journal),
        Err(JournalFault::Failed) => Err((journal.fell(), ArmKind::Fail)),
        Err(JournalFault::Stopped) => Err((journal.fell(), ArmKind::Stop)),
        Err(JournalFault::Torn { .. } | JournalFault::OutOfMemory) => unreachable!(),
    }
}

/// Gives the journal up, and the disk falls.
pub fn crash<D: Disk>(journal: Journal<D>) -> D
    ensures holds { (bodies : List (List ℕ)) → Rests (D.told journal.disk) journal.end bodies
        → DiskHolds (D.told result) bodies None }
    // It stays begun.
    ensures begun { (bodies : List (List ℕ)) → Rests (D.told journal.disk) journal.end bodies
        → DiskHasJournal (D.told result) bodies }
    ensures fell { IsSettled (D.told result) }
    ensures tells { StillTells (D.told journal.disk) (D.told result) }
    ensures account { (t : DiskAccount) → IsAccountOf t (D.fuse journal.disk)
        → IsAccountOf t (D.fuse result) }
{
    journal.fell()
}

/// Opens the journal again, and gives the bodies of its records. Where the disk
/// failed or stopped it falls.
pub fn rise<D: Disk>(alloc: Global, disk: D) -> Result<(Journal<D>, Vec<Vec<u8>>), (D, RiseFault)>
    ensures rests { IfOk result (λ r. Rests (D.told r.0.disk) r.0.end (lists r.1.items)) }
    ensures records { IfOk result (λ r. r.0.records ≡ length r.1.items) }
    ensures ends { IfOk result (λ r. EndsWithin r.0.end r.0.records) }
    ensures bodies { IfOk result (λ r. AreShort r.1.items) }
    ensures tells { IfOk result (λ r. StillTells (D.told disk) (D.told r.0.disk)) }
    ensures tells_err { IfErr result (λ e. StillTells (D.told disk) (D.told e.0)) }
    // What it gives is what the disk held, whatever that is.
    ensures opened { IfOk result (λ r. Tells (D.told disk) (D.told r.0.disk) (λ old new.
        Holds (lists r.1.items) (as_read old.now))) }
    ensures broken { IfErr result (λ e. (offset : ℕ) → e.1 ≡ rise_fault.Torn offset
        → Tells (D.told disk) (D.told e.0) (λ old new. IsNoJournal offset (as_read old.now))) }
    // So it is the records, with the pending one or without it.
    ensures given { IfOk result (λ r. (bodies : List (List ℕ)) (pending : Option (List ℕ)) (t : Told)
        → D.told disk ≡ Some t → DiskHolds (D.told disk) bodies pending → AreGiven bodies pending (lists r.1.items)) }
    // A disk that tells, and holds them, is never torn.
    ensures torn { IfErr result (λ e. (offset : ℕ) (bodies : List (List ℕ)) (pending : Option (List ℕ)) (t : Told)
        → e.1 ≡ rise_fault.Torn offset → D.told disk ≡ Some t → DiskHolds (D.told disk) bodies pending → ⊥) }
    ensures holds { IfErr result (λ e. (bodies : List (List ℕ)) (pending : Option (List ℕ))
        → DiskHolds (D.told disk) bodies pending
        → DiskHolds (D.told e.0) bodies pending) }
    ensures fell { IfErr result (λ e. (kind : ArmKind) → e.1 ≡ rise_fault.Fell kind
        → IsSettled (D.told e.0)) }
    ensures account { IfOk result (λ r. (t : DiskAccount) → IsAccountOf t (D.fuse disk)
        → IsAccountOf (disk_called t (of_bodies (lists r.1.items))) (D.fuse r.0.disk)) }
    ensures account_fell { IfErr result (λ e. (t : DiskAccount) (kind : ArmKind) → e.1 ≡ rise_fault.Fell kind
        → IsAccountOf t (D.fuse disk) → IsAccountOf (disk_fell t kind of_broken_opening) (D.fuse e.0)) }
    ensures account_torn { IfErr result (λ e. (t : DiskAccount) (offset : ℕ) → e.1 ≡ rise_fault.Torn offset
        → IsAccountOf t (D.fuse disk) → IsAccountOf (disk_called t of_reading) (D.fuse e.0)) }
    // Where memory was wanting, the disk's own faults are no fewer, and no more is known of the account.
    ensures later { IfErr result (λ e. e.1 ≡ rise_fault.OutOfMemory
        → (D.fuse disk).unarmed ≤ (D.fuse e.0).unarmed) }
{
    match Journal::open(alloc, disk) {
        Ok((journal, bodies)) => Ok((journal, bodies)),
        Err((disk, fault)) => Err(refused(disk, fault)),
    }
}

/// What a refused opening left.
fn refused<D: Disk>(disk: D, fault: JournalFault) -> (D, RiseFault)
    ensures holds { (bodies : List (List ℕ)) (pending : Option (List ℕ))
        → DiskHolds (D.told disk) bodies pending
        → DiskHolds (D.told result.0) bodies pending }
    ensures tells { StillTells (D.told disk) (D.told result.0) }
    ensures torn { (offset : ℕ) → result.1 ≡ rise_fault.Torn offset → fault ≡ Torn offset }
    ensures same { (offset : ℕ) → result.1 ≡ rise_fault.Torn offset → D.told result.0 ≡ D.told disk }
    ensures fell { (kind : ArmKind) → result.1 ≡ rise_fault.Fell kind
        → IsSettled (D.told result.0) }
    ensures account_fell { (f : Fuse) (t : DiskAccount) (kind : ArmKind) → result.1 ≡ rise_fault.Fell kind
        → JournalIsRefused 0 2 1 f (D.fuse disk) fault → IsAccountOf t f
        → IsAccountOf (disk_fell t kind of_broken_opening) (D.fuse result.0) }
    ensures later { (f : Fuse) → result.1 ≡ rise_fault.OutOfMemory
        → JournalIsRefused 0 2 1 f (D.fuse disk) fault
        → f.unarmed ≤ (D.fuse result.0).unarmed }
    ensures account_torn { (f : Fuse) (t : DiskAccount) (offset : ℕ) → result.1 ≡ rise_fault.Torn offset
        → JournalIsRefused 0 2 1 f (D.fuse disk) fault → IsAccountOf t f
        → IsAccountOf (disk_called t of_reading) (D.fuse result.0) }
{
    match fault {
        JournalFault::Failed => (fallen(disk), RiseFault::Fell(ArmKind::Fail)),
        JournalFault::Stopped => (fallen(disk), RiseFault::Fell(ArmKind::Stop)),
        JournalFault::Torn { offset } => (disk, RiseFault::Torn { offset }),
        JournalFault::OutOfMemory => (disk, RiseFault::OutOfMemory),
    }
}

/// The disk, once it fell.
fn fallen<D: Disk>(disk: D) -> D
    ensures fell { IsSettled (D.told result) }
    ensures tells { StillTells (D.told disk) (D.told result) }
    ensures holds { (bodies : List (List ℕ)) (pending : Option (List ℕ))
        → DiskHolds (D.told disk) bodies pending
        → DiskHolds (D.told result) bodies pending }
    ensures account { (t : DiskAccount) → IsAccountOf t (D.fuse disk)
        → IsAccountOf t (D.fuse result) }
{
    let mut disk = disk;
    disk.fall();
    disk
}
