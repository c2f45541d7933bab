//! Racks, which hand out disks.
//!
//! 1. A rack has a place for each folder and actor, and one more for each actor
//!    without a folder.
//! 2. A disk is handed out only for a place without bytes. When it comes back,
//!    the place holds what it reads as.

ghost use Rattle.std.specs.Prelude.{◌≡◌, Some, [], IfOk, IfErr, IsSome, option_copied};
ghost use Rattle.qc_outside.specs.Images.{Told, settled};
ghost use Rattle.qc_outside.specs.Disk.{RackRose, IsKept, NamesActor};
ghost use Rattle.qc_outside.specs.Places.{IsHandedOut, IsPutBack};
ghost use Rattle.qc_outside.specs.declared.rack.RackFault.TheVariants.{OutOfMemory as RackWants};

use crate::Disk;
use qc_list::OutOfMemory;

/// Why a rack gave no disk for an actor.
#[derive(Clone, Copy, Debug, PartialEq, Eq)]
pub enum RackFault {
    /// The actor's place already holds bytes.
    NotEmpty {
        /// The actor's number.
        actor: u8,
    },
    /// The rack failed, and its count of faults rose.
    Failed {
        /// The number of the actor whose disk was wanted.
        actor: u8,
    },
    /// Memory was wanting.
    OutOfMemory,
}

impl From<OutOfMemory> for RackFault {
    ghost from_gives = { λ _ e. e ≡ RackWants };

    fn from(_error: OutOfMemory) -> RackFault {
        RackFault::OutOfMemory
    }
}

/// Disks, one at a place for each folder and actor, with a count of the rack's
/// faults. No folder counts as one folder more.
///
/// What the places hold is known where the rack tells. A rack that tells still
/// tells after each call, and hands out disks that tell.
pub trait Rack {
    /// The disks that the rack hands out.
    type D: Disk;

    ghost use Rattle.std.specs.Prelude.{ℕ, Option};
    ghost use Rattle.qc_outside.specs.Places.{Places};

    // How many calls failed so far, on the disks that came back too, or more.
    ghost faults: { Self → ℕ };

    // What its places hold, where it tells.
    ghost places: { Self → Option Places };

    /// An empty disk for an actor, whose count of faults is 0.
    ///
    /// `NotEmpty` and `Failed` name the actor. `NotEmpty` comes exactly where
    /// the place holds bytes, and `Failed` only where the count rose. The count
    /// never falls, and stands where memory was wanting.
    fn disk(&mut self, dir: Option<&str>, actor: u8) -> Result<Self::D, RackFault>
        ensures fresh { IfOk result (λ d. Self.D.faults d ≡ 0) }
        ensures empty { IfOk result (λ d. (t : Told) → Self.D.told d ≡ Some t → t.now ≡ settled []) }
        ensures tells { IfOk result (λ d. IsSome (places self.old) → IsSome (Self.D.told d)) }
        ensures handed { IsHandedOut (places self.old) (record { folder = option_copied dir.entry; actor = actor })
            result (places self.new) }
        ensures named { IfErr result (NamesActor actor) }
        ensures cause { RackRose (faults self.old) (faults self.new) result };

    /// Takes an actor's disk back. It takes no memory.
    ///
    /// The place then holds the disk's bytes, if a disk was handed out for it.
    /// The rack's count rises by at least the disk's, and stands where the
    /// disk's is 0.
    fn keep(&mut self, dir: Option<&str>, actor: u8, disk: Self::D)
        ensures put { IsPutBack (places self.old) (record { folder = option_copied dir.entry; actor = actor })
            (Self.D.told disk) (places self.new) }
        ensures kept { IsKept (faults self.old) (Self.D.faults disk) (faults self.new) };
}
