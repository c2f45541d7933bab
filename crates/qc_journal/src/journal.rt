//! A journal: records behind gates, and a closed gate at their end.
//!
//! 1. Behind a gate stand the length of a body and the body. A gate is open if
//!    its byte isn't 0, and the first closed one ends the journal.
//! 2. A record is written behind the closed gate, with the next closed gate, and
//!    synced. Only then is its gate opened, and synced again.
//! 3. So a stop at any moment leaves the records from before, or these with the
//!    new one.

ghost use Rattle.std.specs.Prelude.{◌≡◌, ◌≢◌, ◌≤◌, ◌<◌, ◌+◌, ◌*◌, ◌^◌, List, ℕ, [], ◌∷◌, ◌++◌, Err, length};
ghost use Rattle.std.specs.Prelude.{Some, IfOk, IfErr, OnOk, vec_capacity};
ghost use Rattle.qc_outside.specs.Images.{Tells, Since, IsImage, as_read};
ghost use Rattle.qc_outside.specs.Fuses.{KeepsArm, HasPassed};
ghost use Rattle.qc_journal.specs.Calls.{JournalBurns, JournalIsRefused, most_of_opening};
ghost use Rattle.qc_journal.specs.Causes.{JournalRose};
ghost use Rattle.qc_journal.specs.declared.fault.JournalFault.TheVariants.{Torn, OutOfMemory as JournalWants};
ghost use Rattle.qc_journal.specs.Grammar.{IsBody, IsNoJournal, Holds, HoldsWithOrWithout};
ghost use Rattle.qc_journal.specs.Journal.{AreShort, EndsWithin, IsAtRest, Rests, IsReserved, IsLeftAtOpen, lists};

use crate::JournalFault;
use crate::reading::start;
use crate::writing::{fill, lay};
use qc_list::OutOfMemory;
use qc_outside::{ArmKind, Disk, Fused};
use std::alloc::Global;

/// Records on a disk, to which more are added.
#[derive(Drop)]
pub struct Journal<D: Disk> {
    disk: D,
    /// Where the closed gate stands.
    end: u64,
    /// How many records stand before it.
    records: u64,
    /// Room for what is written behind the gate.
    frame: Vec<u8>,
}

impl<D: Disk> Journal<D> {
    /// The journal that a disk holds, and the bodies of its records in order.
    ///
    /// A disk of length 0 or 1 holds no record. A refusal hands the disk back.
    pub fn open(alloc: Global, disk: D) -> Result<(Journal<D>, Vec<Vec<u8>>), (D, JournalFault)>
        ensures opened { IfOk result (λ r. Tells (D.told disk) (D.told r.0.disk) (λ old new.
            Holds (lists r.1.items) (as_read old.now) × IsAtRest r.0.end (lists r.1.items) new)) }
        ensures records { IfOk result (λ r. r.0.records ≡ length r.1.items) }
        ensures ends { IfOk result (λ r. EndsWithin r.0.end r.0.records) }
        ensures bodies { IfOk result (λ r. AreShort r.1.items) }
        ensures torn { IfErr result (λ e. (offset : ℕ) → e.1 ≡ Torn offset
            → Tells (D.told disk) (D.told e.0) (λ old new. IsNoJournal offset (as_read old.now))) }
        // A stop at a moment of it leaves what one before it might, or no record.
        ensures moments { IfOk result (λ r. Tells (D.told disk) (D.told r.0.disk) (λ old new.
            Since (IsLeftAtOpen old.now) old new)) }
        ensures moments_err { IfErr result (λ e. Tells (D.told disk) (D.told e.0) (λ old new.
            Since (IsLeftAtOpen old.now) old new)) }
        ensures rests { IfOk result (λ r. Rests (D.told r.0.disk) r.0.end (lists r.1.items)) }
        ensures later { IfOk result (λ r. D.faults disk ≤ D.faults r.0.disk) }
        // One call counts for what is armed where the journal is read, and two where it is begun anew.
        ensures fuse { IfOk result (λ r.
            HasPassed 1 (most_of_opening (lists r.1.items)) (D.fuse disk) (D.fuse r.0.disk)) }
        ensures fuse_err { IfErr result (λ e. JournalIsRefused 0 2 1 (D.fuse disk) (D.fuse e.0) e.1) }
        ensures cause { IfErr result (λ e. JournalRose {T = Unit {0}} (D.faults disk) (D.faults e.0) (Err e.1)) }
    {
        let mut disk = disk;
        match start(alloc, &mut disk) {
            Ok((end, bodies)) => {
                let journal = Journal {
                    disk,
                    end,
                    records: bodies.len() as u64,
                    frame: Vec::new(alloc),
                };
                Ok((journal, bodies))
            }
            Err(fault) => Err((disk, fault)),
        }
    }

    /// Takes the memory for a record whose body has that length. It holds until
    /// the next `append`.
    pub fn reserve(&mut self, count: u32) -> Result<(), OutOfMemory>
        requires short { count ≤ 65536 }
        requires ends { EndsWithin self.old.end self.old.records }
        requires fewer { self.old.records < 2 ^ 32 }
        ensures room { OnOk result (IsReserved (vec_capacity self.new.frame) (D.has_room self.new.disk)
            self.new.end count) }
        ensures told { D.told self.new.disk ≡ D.told self.old.disk }
        ensures end { self.new.end ≡ self.old.end }
        ensures records { self.new.records ≡ self.old.records }
        ensures faults { D.faults self.new.disk ≡ D.faults self.old.disk }
        ensures fuse { D.fuse self.new.disk ≡ D.fuse self.old.disk }
    {
        self.frame.clear();
        self.frame.reserve(count as usize + 5)?;
        self.disk.reserve(self.end + u64::from(count) + 6)
    }

    /// Adds a record. It makes four calls of the disk and takes no memory.
    ///
    /// Where it answers `Failed` or `Stopped`, the journal is to be given up by
    /// `fell`, and opened again.
    pub fn append(&mut self, body: &[u8]) -> Result<(), JournalFault>
        requires body { IsBody body.now }
        requires room { IsReserved (vec_capacity self.old.frame) (D.has_room self.old.disk)
            self.old.end (length body.now) }
        requires fewer { self.old.records < 2 ^ 32 }
        // What was added lasts.
        ensures added { OnOk result ((bodies : List (List ℕ)) → Rests (D.told self.old.disk) self.old.end bodies
            → Rests (D.told self.new.disk) self.new.end (bodies ++ body.now ∷ [])) }
        // A stop at any moment leaves the bodies from before, with the new one or without.
        ensures moments { (bodies : List (List ℕ)) → Rests (D.told self.old.disk) self.old.end bodies
            → Tells (D.told self.old.disk) (D.told self.new.disk) (λ old new.
            Since (HoldsWithOrWithout bodies body.now) old new) }
        ensures records { OnOk result (self.new.records ≡ self.old.records + 1) }
        ensures ends { OnOk result (EndsWithin self.old.end self.old.records
            → EndsWithin self.new.end self.new.records) }
        ensures memory { result ≢ Err JournalWants }
        ensures whole { (offset : ℕ) → result ≢ Err (Torn offset) }
        ensures cause { JournalRose (D.faults self.old.disk) (D.faults self.new.disk) result }
        // Each of its four calls counts for what is armed.
        ensures fuse { JournalBurns 1 4 4 (D.fuse self.old.disk) (D.fuse self.new.disk) result }
    {
        fill(&mut self.frame, body)?;
        lay(&mut self.disk, self.end, &self.frame, body)?;
        self.end += 5 + body.len() as u64;
        self.records += 1;
        Ok(())
    }

    /// How many records it has.
    pub fn records(&self) -> u64
        ensures { result ≡ self.now.records }
    {
        self.records
    }

    /// Where its closed gate stands.
    pub fn end(&self) -> u64
        ensures { result ≡ self.now.end }
    {
        self.end
    }

    /// Stops the disk and hands it back.
    pub fn fell(self) -> D
        ensures moments { Tells (D.told self.disk) (D.told result) (λ old new. Since (IsImage old.now) old new) }
        ensures fell { Tells (D.told self.disk) (D.told result) (λ old new. new.now.writes ≡ []) }
        ensures later { D.faults self.disk ≤ D.faults result }
        ensures fuse { KeepsArm (D.fuse self.disk) (D.fuse result) }
    {
        let mut disk = self.disk;
        disk.fall();
        disk
    }
}

impl<D: Disk> Journal<Fused<D>> {
    /// Arms a fault on the disk's write or sync of that number from now on.
    pub fn arm(&mut self, kind: ArmKind, at: u32)
        ensures armed { self.new.disk.arm.armed ≡ Some (kind, at) }
        ensures inner { self.new.disk.inner ≡ self.old.disk.inner }
        ensures frame { self.new.frame ≡ self.old.frame }
        ensures told { ⟦<Fused<D> as Disk>⟧.told self.new.disk ≡ ⟦<Fused<D> as Disk>⟧.told self.old.disk }
        ensures faults { ⟦<Fused<D> as Disk>⟧.faults self.new.disk ≡ ⟦<Fused<D> as Disk>⟧.faults self.old.disk }
        ensures fuse { ⟦<Fused<D> as Disk>⟧.fuse self.new.disk
            ≡ record { armed = Some (kind, at); unarmed = (⟦<Fused<D> as Disk>⟧.fuse self.old.disk).unarmed } }
        ensures end { self.new.end ≡ self.old.end }
        ensures records { self.new.records ≡ self.old.records }
    {
        self.disk.arm(kind, at);
    }
}
