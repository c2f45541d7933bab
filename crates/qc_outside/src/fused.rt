//! A disk on which one fault may be armed.
//!
//! 1. Without an arm it is the disk inside.
//! 2. An arm counts the writes and syncs from then on. At its number the call
//!    isn't passed on, the count of faults rises, and the arm is used up.

ghost use Rattle.std.specs.Prelude.{◌≡◌, ◌≢◌, ◌≤◌, ◌+◌, ℕ, suc, Some, None, Err, [], length, OnOk};
ghost use Rattle.qc_outside.specs.Arms.{Acts, armed_after, acting, acted_after};
ghost use Rattle.qc_outside.specs.Disk.{DiskRose};
ghost use Rattle.qc_outside.specs.Fuses.{Burns};
ghost use Rattle.qc_outside.specs.Images.{Tells, Since, IsImage, as_read, wrote, settled};
ghost use Rattle.qc_outside.specs.declared.disk.DiskFault.TheVariants.{Stopped as DiskStops, OutOfMemory as DiskWants};

use crate::{ArmKind, Disk, DiskFault};
use qc_list::OutOfMemory;

/// A fault that is armed on a call to come, and how many have acted.
#[derive(Drop)]
struct Arm {
    armed: Option<(ArmKind, u32)>,
    acted: u64,
}

impl Arm {
    /// Which fault acts in this call.
    fn burn(&mut self) -> Option<ArmKind>
        ensures acts { result ≡ acting self.old.armed }
        ensures left { self.new.armed ≡ armed_after self.old.armed }
        ensures acted { self.new.acted ≡ acted_after result self.old.acted }
        ensures later { self.old.acted ≤ self.new.acted }
    {
        let (kind, left) = self.armed?;
        if left > 1 {
            self.armed = Some((kind, left - 1));
            return None;
        }
        self.armed = None;
        self.acted = self.acted.saturating_add(1);
        Some(kind)
    }
}

/// A disk, with a fault that may be armed on one of its calls to come.
#[derive(Drop)]
pub struct Fused<D: Disk> {
    inner: D,
    arm: Arm,
}

impl<D: Disk> Fused<D> {
    /// The disk, with nothing armed.
    pub fn new(inner: D) -> Fused<D>
        ensures told { ⟦<Fused<D> as Disk>⟧.told result ≡ D.told inner }
        ensures faults { ⟦<Fused<D> as Disk>⟧.faults result ≡ D.faults inner }
        ensures none { result.arm.armed ≡ None }
        ensures fuse { ⟦<Fused<D> as Disk>⟧.fuse result ≡ record { armed = None; unarmed = D.faults inner } }
    {
        Fused {
            inner,
            arm: Arm {
                armed: None,
                acted: 0,
            },
        }
    }

    /// Hands the disk back.
    pub fn inner(self) -> D
        ensures told { D.told result ≡ ⟦<Fused<D> as Disk>⟧.told self }
        ensures same { result ≡ self.inner }
        ensures fuse { D.faults result ≡ (⟦<Fused<D> as Disk>⟧.fuse self).unarmed }
    {
        self.inner
    }

    /// Arms a fault on the call of that number, from 1, among the writes and
    /// syncs from now on. It takes the place of one that was armed before.
    pub fn arm(&mut self, kind: ArmKind, at: u32)
        ensures armed { self.new.arm.armed ≡ Some (kind, at) }
        ensures inner { self.new.inner ≡ self.old.inner }
        ensures told { ⟦<Fused<D> as Disk>⟧.told self.new ≡ ⟦<Fused<D> as Disk>⟧.told self.old }
        ensures faults { ⟦<Fused<D> as Disk>⟧.faults self.new ≡ ⟦<Fused<D> as Disk>⟧.faults self.old }
        ensures fuse { ⟦<Fused<D> as Disk>⟧.fuse self.new
            ≡ record { armed = Some (kind, at); unarmed = (⟦<Fused<D> as Disk>⟧.fuse self.old).unarmed } }
    {
        self.arm.armed = Some((kind, at));
    }
}

impl<D: Disk> Disk for Fused<D> {
    ghost faults = { λ d. D.faults d.inner + d.arm.acted };

    ghost told = { λ d. D.told d.inner };

    ghost has_room = { λ d. D.has_room d.inner };

    ghost fuse = { λ d. record { armed = d.arm.armed; unarmed = D.faults d.inner } };

    fn len(&mut self) -> Result<u64, DiskFault> {
        self.inner.len()
    }

    fn read(&mut self, at: u64, count: u32) -> Result<Vec<u8>, DiskFault> {
        self.inner.read(at, count)
    }

    fn reserve(&mut self, end: u64) -> Result<(), OutOfMemory> {
        self.inner.reserve(end)
    }

    fn write_at(&mut self, at: u64, bytes: &[u8]) -> Result<(), DiskFault>
        ensures acts { Acts (acting self.old.arm.armed) result (D.told self.old.inner) (D.told self.new.inner) }
        ensures armed { self.new.arm.armed ≡ armed_after self.old.arm.armed }
        ensures acted { self.new.arm.acted ≡ acted_after (acting self.old.arm.armed) self.old.arm.acted }
        ensures written { OnOk result (Tells (D.told self.old.inner) (D.told self.new.inner) (λ old new.
            new.now ≡ wrote old.now (record { at = at; bytes = bytes.now }))) }
        ensures moments { Tells (D.told self.old.inner) (D.told self.new.inner) (λ old new.
            Since (IsImage (wrote old.now (record { at = at; bytes = bytes.now }))) old new) }
        ensures fell { result ≡ Err DiskStops
            → Tells (D.told self.old.inner) (D.told self.new.inner) (λ old new. new.now.writes ≡ []) }
        ensures memory { (n end : ℕ) → D.has_room self.old.inner (suc n) end → at + length bytes.now ≤ end
            → result ≢ Err DiskWants }
        ensures wanting { result ≡ Err DiskWants → D.told self.new.inner ≡ D.told self.old.inner }
        ensures room { OnOk result ((n end : ℕ) → D.has_room self.old.inner (suc n) end
            → at + length bytes.now ≤ end → D.has_room self.new.inner n end) }
        ensures cause { DiskRose (D.faults self.old.inner + self.old.arm.acted)
            (D.faults self.new.inner + self.new.arm.acted) result }
        ensures fuse { Burns (record { armed = self.old.arm.armed; unarmed = D.faults self.old.inner })
            (record { armed = self.new.arm.armed; unarmed = D.faults self.new.inner }) result }
    {
        match self.arm.burn() {
            None => self.inner.write_at(at, bytes),
            Some(ArmKind::Fail) => Err(DiskFault::Failed),
            Some(ArmKind::Stop) => {
                self.inner.fall();
                Err(DiskFault::Stopped)
            }
        }
    }

    fn sync(&mut self) -> Result<(), DiskFault>
        ensures acts { Acts (acting self.old.arm.armed) result (D.told self.old.inner) (D.told self.new.inner) }
        ensures armed { self.new.arm.armed ≡ armed_after self.old.arm.armed }
        ensures acted { self.new.arm.acted ≡ acted_after (acting self.old.arm.armed) self.old.arm.acted }
        ensures lasting { OnOk result (Tells (D.told self.old.inner) (D.told self.new.inner) (λ old new.
            new.now ≡ settled (as_read old.now))) }
        ensures moments { Tells (D.told self.old.inner) (D.told self.new.inner) (λ old new.
            Since (IsImage old.now) old new) }
        ensures fell { result ≡ Err DiskStops
            → Tells (D.told self.old.inner) (D.told self.new.inner) (λ old new. new.now.writes ≡ []) }
        ensures room { OnOk result ((n end : ℕ) → D.has_room self.old.inner n end → D.has_room self.new.inner n end) }
        ensures cause { DiskRose (D.faults self.old.inner + self.old.arm.acted)
            (D.faults self.new.inner + self.new.arm.acted) result }
        ensures fuse { Burns (record { armed = self.old.arm.armed; unarmed = D.faults self.old.inner })
            (record { armed = self.new.arm.armed; unarmed = D.faults self.new.inner }) result }
        ensures memory { result ≢ Err DiskWants }
    {
        match self.arm.burn() {
            None => self.inner.sync(),
            Some(ArmKind::Fail) => Err(DiskFault::Failed),
            Some(ArmKind::Stop) => {
                self.inner.fall();
                Err(DiskFault::Stopped)
            }
        }
    }

    fn fall(&mut self) {
        self.inner.fall();
    }
}
