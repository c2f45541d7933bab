//! A store is begun on an empty disk, and gives its disk back at the end.

ghost use Rattle.std.specs.Prelude.{◌≡◌, ◌≢◌, [], ℕ, Bool, true, None, IfErr, IfOk, IsSome, List};
ghost use Rattle.qc_decl.specs.declared.declaration.Declaration.{Declaration};
ghost use Rattle.qc_msg.specs.Deeds.{own};
ghost use Rattle.qc_msg.specs.Steps.{Entry};
ghost use Rattle.qc_outside.specs.declared.disk.DiskFault.TheVariants.{OutOfMemory as DiskWants};
ghost use Rattle.qc_outside.specs.declared.rack.RackFault.TheVariants.{Failed as RackFails};
ghost use Rattle.qc_promise.specs.Kept.{journal_of};
ghost use Rattle.qc_store.specs.Contents.{DiskHasJournal};
ghost use Rattle.qc_process.specs.Opens.{IsStartRefused, not_begun};
ghost use Rattle.qc_process.specs.Stored.{IsOnDisk, IsStored, bodies_of};
ghost use Rattle.qc_process.specs.Views.{IsUp};

use crate::store::Store;
use qc_journal::JournalFault;
use qc_outside::{Disk, DiskFault, RackFault};
use qc_store::{crash, start};
use std::alloc::Global;

impl<D: Disk> Store<D> {
    /// The store of the actor of this number on its disk, which has to be empty:
    /// its journal is begun. A refusal hands the disk back.
    pub fn new(alloc: Global, actor: u8, disk: D) -> Result<Store<D>, (D, RackFault)>
        ensures up { IfOk result (λ s. IsUp s × (s.spelling ≡ None)) }
        ensures stored { IfOk result (λ s. (tells : Bool) (decl : Declaration) (a : ℕ)
            → (tells ≡ true → IsSome (D.told disk)) → IsStored tells decl a [] s) }
        ensures refused { IfErr result (λ e. IsStartRefused actor (D.told disk) (D.faults disk) (D.faults e.0) e.1) }
    {
        let mut disk = disk;
        match disk.len() {
            Ok(0) => begin(alloc, actor, disk),
            Ok(_) => Err((disk, RackFault::NotEmpty { actor })),
            Err(fault) => Err((disk, unread(actor, fault))),
        }
    }

    /// The disk, once its actor is down for good. What it counted are the faults
    /// that nothing armed made.
    pub fn into_disk(self) -> D
        ensures stored { (tells : Bool) (decl : Declaration) (a : ℕ) (h : List Entry) → IsStored tells decl a h self
            → IsOnDisk tells decl a h (D.told result) (D.faults result) }
        ensures on_disk { (tells : Bool) (decl : Declaration) (a : ℕ) (h : List Entry) → self.journal ≡ None
            → IsOnDisk tells decl a h self.told self.fuse.unarmed
            → IsOnDisk tells decl a h (D.told result) (D.faults result) }
        // A journal that was open stays begun.
        ensures begun { (tells : Bool) (decl : Declaration) (a : ℕ) (h : List Entry) → IsUp self
            → IsStored tells decl a h self
            → DiskHasJournal (D.told result) (bodies_of (journal_of (own a h)).records) }
    {
        let mut store = self;
        if let Some(journal) = store.journal.take() {
            return crash(journal).inner();
        }
        let Some(disk) = store.disk.take() else {
            unreachable!()
        };
        disk.inner()
    }
}

/// Begins a journal on a disk without bytes.
fn begin<D: Disk>(alloc: Global, actor: u8, disk: D) -> Result<Store<D>, (D, RackFault)>
    ensures up { IfOk result (λ s. IsUp s × (s.spelling ≡ None)) }
    ensures stored { IfOk result (λ s. (tells : Bool) (decl : Declaration) (a : ℕ)
        → (tells ≡ true → IsSome (D.told disk)) → IsStored tells decl a [] s) }
    ensures refused { IfErr result (λ e. IsStartRefused actor (D.told disk) (D.faults disk) (D.faults e.0) e.1) }
{
    match start(alloc, disk) {
        Ok((journal, bodies)) => {
            if bodies.is_empty() {
                Ok(Store {
                    journal: Some(journal),
                    disk: None,
                    spelling: None,
                })
            } else {
                Err((crash(journal).inner(), RackFault::NotEmpty { actor }))
            }
        }
        Err((disk, fault)) => Err((disk, unopened(actor, fault))),
    }
}

/// Why a disk's length wasn't read. It takes no memory.
fn unread(actor: u8, fault: DiskFault) -> RackFault
    requires { fault ≢ DiskWants }
    ensures { result ≡ RackFails actor }
{
    match fault {
        DiskFault::Failed | DiskFault::Stopped => RackFault::Failed { actor },
        DiskFault::OutOfMemory => unreachable!(),
    }
}

/// Why no journal was begun.
fn unopened(actor: u8, fault: JournalFault) -> RackFault
    ensures { result ≡ not_begun actor fault }
{
    match fault {
        JournalFault::Failed | JournalFault::Stopped => RackFault::Failed { actor },
        JournalFault::Torn { .. } => RackFault::NotEmpty { actor },
        JournalFault::OutOfMemory => RackFault::OutOfMemory,
    }
}
