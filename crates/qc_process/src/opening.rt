//! A store's journal is opened again.

ghost use Rattle.std.specs.Prelude.{◌≡◌, ◌∷◌, [], ℕ, Bool, List, None, IfErr, IfOk, IfSome, length};
ghost use Rattle.qc_decl.specs.declared.declaration.Declaration.{Declaration};
ghost use Rattle.qc_journal.specs.Grammar.{Holds, IsNoJournal};
ghost use Rattle.qc_journal.specs.Journal.{AreShort, lists};
ghost use Rattle.qc_msg.specs.Steps.{Entry};
ghost use Rattle.qc_msg.specs.declared.step.Step.TheVariants.{Damaged, Fell};
ghost use Rattle.qc_outside.specs.Images.{Told, as_read};
ghost use Rattle.qc_outside.specs.declared.disk.ArmKind.{ArmKind};
ghost use Rattle.qc_store.specs.declared.store.RiseFault.TheVariants as rise_fault;
ghost use Rattle.qc_process.specs.Opens.{GoesOn, StaysOnDisk};
ghost use Rattle.qc_process.specs.Stored.{IsOpened, IsStored};
ghost use Rattle.qc_process.specs.Views.{IsUp, fall_by};

use crate::store::Store;
use qc_outside::Disk;
use qc_store::{RiseFault, rise};
use std::alloc::Global;

impl<D: Disk> Store<D> {
    /// Opens the journal, and gives the bodies of its records. Where the disk
    /// failed or stopped it falls.
    pub fn open(&mut self, alloc: Global) -> Result<Vec<Vec<u8>>, RiseFault>
        requires down { self.old.journal ≡ None }
        ensures up { IfOk result (λ v. IsUp self.new) }
        ensures down { IfErr result (λ e. self.new.journal ≡ None) }
        ensures spelling { self.new.spelling ≡ None }
        ensures short { IfOk result (λ v. AreShort v.items) }
        ensures records { IfOk result (λ v. IfSome self.new.journal (λ o. o.records ≡ length v.items)) }
        ensures opened { IfOk result (λ v. (tells : Bool) (decl : Declaration) (a : ℕ) (h : List Entry)
            → IsStored tells decl a h self.old → IsOpened tells decl a h (lists v.items) self.new) }
        ensures held { IfOk result (λ v. (t : Told) → self.old.told ≡ Some t → Holds (lists v.items) (as_read t.now)) }
        ensures fell { IfErr result (λ e. (kind : ArmKind) (decl : Declaration) (a : ℕ) → e ≡ rise_fault.Fell kind
            → GoesOn decl a self.old (Fell (fall_by kind) None ∷ []) self.new) }
        ensures torn { IfErr result (λ e. (offset : ℕ) (decl : Declaration) (a : ℕ) → e ≡ rise_fault.Torn offset
            → GoesOn decl a self.old (Damaged offset ∷ []) self.new) }
        ensures no_journal { IfErr result (λ e. (offset : ℕ) (t : Told) → e ≡ rise_fault.Torn offset
            → self.old.told ≡ Some t → IsNoJournal offset (as_read t.now)) }
        ensures wanting { IfErr result (λ e. (decl : Declaration) → e ≡ rise_fault.OutOfMemory
            → StaysOnDisk decl self.old self.new) }
    {
        let Some(disk) = self.disk.take() else {
            unreachable!()
        };
        match rise(alloc, disk) {
            Ok((journal, bodies)) => {
                self.journal = Some(journal);
                Ok(bodies)
            }
            Err((disk, fault)) => {
                self.disk = Some(disk);
                Err(fault)
            }
        }
    }
}
