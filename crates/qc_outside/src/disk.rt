//! Disks, which keep an actor's records.
//!
//! 1. Between two syncs a written range, and all past the old end, may hold any
//!    bytes after a stop; elsewhere the bytes stay.
//! 2. After a sync that succeeded, a stop leaves what a read gives.
//! 3. A call's clause on moments speaks of each moment since the call began.

ghost use Rattle.std.specs.Prelude.{◌≡◌, ◌≢◌, ◌≤◌, ◌+◌, ℕ, suc, Some, Err, [], length, take, drop, IfOk, OnOk};
ghost use Rattle.qc_outside.specs.Disk.{DiskRose};
ghost use Rattle.qc_outside.specs.Fuses.{Burns, KeepsArm, BurnsNothing};
ghost use Rattle.qc_outside.specs.Images.{Told, Tells, Since, IsImage, as_read, wrote, settled};
ghost use Rattle.qc_outside.specs.declared.disk.DiskFault.TheVariants.{Stopped as DiskStops, OutOfMemory as DiskWants};

use qc_list::OutOfMemory;

/// Why a disk did less than it was told.
#[derive(Clone, Copy, Debug, PartialEq, Eq)]
pub enum DiskFault {
    /// The disk failed, and its count of faults rose.
    Failed,
    /// The disk fell in this call, and its count of faults rose.
    Stopped,
    /// Memory was wanting.
    OutOfMemory,
}

impl From<OutOfMemory> for DiskFault {
    ghost from_gives = { λ _ e. e ≡ DiskWants };

    fn from(_error: OutOfMemory) -> DiskFault {
        DiskFault::OutOfMemory
    }
}

/// What a fault that is armed on a disk does when it acts.
#[derive(Clone, Copy, Debug, PartialEq, Eq)]
pub enum ArmKind {
    /// The call fails, and the disk stays.
    Fail,
    /// The disk falls in the call.
    Stop,
}

/// Bytes that outlast their writer, with a count of the disk's faults.
///
/// What a disk holds is known where it tells. A disk that tells still tells
/// after each call, and one that doesn't never begins to. The count never
/// falls, and stands where memory was wanting.
pub trait Disk: Send + Drop {
    ghost use Rattle.std.specs.Prelude.{ℕ, Option};
    ghost use Rattle.qc_outside.specs.Fuses.{Fuse};
    ghost use Rattle.qc_outside.specs.Images.{Told};

    // How many calls failed or stopped so far, or more.
    ghost faults: { Self → ℕ };

    // What it holds and held, where it tells.
    ghost told: { Self → Option Told };

    // What is armed on it, and how many faults came that weren't, or more.
    ghost fuse: { Self → Fuse };

    // There is memory for so many writes that each end at or before a place.
    ghost has_room: { Self → ℕ → ℕ → Type 0 };

    /// How many bytes the disk holds. It takes no memory.
    fn len(&mut self) -> Result<u64, DiskFault>
        ensures len { IfOk result (λ n. (t : Told) → told self.old ≡ Some t → n ≡ length (as_read t.now)) }
        ensures same { told self.new ≡ told self.old }
        ensures room { (n end : ℕ) → has_room self.old n end → has_room self.new n end }
        ensures cause { DiskRose (faults self.old) (faults self.new) result }
        ensures fuse { BurnsNothing (fuse self.old) (fuse self.new) result }
        ensures memory { result ≢ Err DiskWants };

    /// The `count` bytes from `at` on, or fewer where the disk ends.
    fn read(&mut self, at: u64, count: u32) -> Result<Vec<u8>, DiskFault>
        ensures bounded { IfOk result (λ v. length v.items ≤ count) }
        ensures bytes { IfOk result (λ v. (t : Told) → told self.old ≡ Some t
            → v.items ≡ take count (drop at (as_read t.now))) }
        ensures same { told self.new ≡ told self.old }
        ensures room { (n end : ℕ) → has_room self.old n end → has_room self.new n end }
        ensures cause { DiskRose (faults self.old) (faults self.new) result }
        ensures fuse { BurnsNothing (fuse self.old) (fuse self.new) result };

    /// Takes the memory for two writes that end at or before `end`.
    fn reserve(&mut self, end: u64) -> Result<(), OutOfMemory>
        ensures same { told self.new ≡ told self.old }
        ensures room { OnOk result (has_room self.new 2 end) }
        ensures faults { faults self.new ≡ faults self.old }
        ensures fuse { fuse self.new ≡ fuse self.old };

    /// Writes the bytes from `at` on. They last once `sync` has answered `Ok`.
    /// A gap before them reads as zeros.
    fn write_at(&mut self, at: u64, bytes: &[u8]) -> Result<(), DiskFault>
        ensures written { OnOk result (Tells (told self.old) (told self.new) (λ old new.
            new.now ≡ wrote old.now (record { at = at; bytes = bytes.now }))) }
        // A stop at a moment of the call leaves what one after it may leave.
        ensures moments { Tells (told self.old) (told self.new) (λ old new.
            Since (IsImage (wrote old.now (record { at = at; bytes = bytes.now }))) old new) }
        ensures fell { result ≡ Err DiskStops
            → Tells (told self.old) (told self.new) (λ old new. new.now.writes ≡ []) }
        ensures memory { (n end : ℕ) → has_room self.old (suc n) end → at + length bytes.now ≤ end
            → result ≢ Err DiskWants }
        ensures wanting { result ≡ Err DiskWants → told self.new ≡ told self.old }
        ensures room { OnOk result ((n end : ℕ) → has_room self.old (suc n) end → at + length bytes.now ≤ end
            → has_room self.new n end) }
        ensures cause { DiskRose (faults self.old) (faults self.new) result }
        ensures fuse { Burns (fuse self.old) (fuse self.new) result };

    /// Makes what was written last. It takes no memory.
    fn sync(&mut self) -> Result<(), DiskFault>
        ensures lasting { OnOk result (Tells (told self.old) (told self.new) (λ old new.
            new.now ≡ settled (as_read old.now))) }
        ensures moments { Tells (told self.old) (told self.new) (λ old new. Since (IsImage old.now) old new) }
        ensures fell { result ≡ Err DiskStops
            → Tells (told self.old) (told self.new) (λ old new. new.now.writes ≡ []) }
        ensures room { OnOk result ((n end : ℕ) → has_room self.old n end → has_room self.new n end) }
        ensures cause { DiskRose (faults self.old) (faults self.new) result }
        ensures fuse { Burns (fuse self.old) (fuse self.new) result }
        ensures memory { result ≢ Err DiskWants };

    /// Stops the disk, as a loss of power does: it now holds one of the images
    /// that a stop might leave, and nothing is pending.
    fn fall(&mut self)
        ensures moments { Tells (told self.old) (told self.new) (λ old new. Since (IsImage old.now) old new) }
        ensures fell { Tells (told self.old) (told self.new) (λ old new. new.now.writes ≡ []) }
        ensures later { faults self.old ≤ faults self.new }
        ensures fuse { KeepsArm (fuse self.old) (fuse self.new) };
}
