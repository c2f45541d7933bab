//! The outside, as traits: a shelf of files, a sink for text, disks on a rack,
//! and a gate that a worker passes.
//!
//! 1. Each trait states what its calls mean where an implementation tells what
//!    it holds. Who cannot know what the outside holds, as a real file, tells
//!    nothing.
//! 2. A disk that tells says for each moment which images a stop then may leave.
//!    `specs/Images.antt` is all that is assumed of disks.
//! 3. A count of faults never falls, and a call answers `Failed` or `Stopped`
//!    only where the count rose, or had come to the most that 64 bits hold. So a
//!    run's fault is the outside's own.
//! 4. Where memory was wanting a count stands, and a shelf, a sink and a disk are
//!    as they were.
//! 5. Each call of a disk says what it makes of what is armed on it, and whether
//!    a fault was the arm's or the disk's own.
//!
//! Fakes in memory stand beside the traits: tests and laws on whole calls use
//! them. `qc_top` takes one of each, `qc_report` words their faults, and the
//! program brings the real ones.
#![tactic(auto)]

mod calls;
mod disk;
mod empty_rack;
mod fused;
mod gate;
mod mem_disk;
mod mem_rack;
mod mem_shelf;
mod mem_sink;
mod rack;
mod rot_disk;
mod rot_rack;
mod shelf;
mod sink;
mod tear;

pub use disk::{ArmKind, Disk, DiskFault};
pub use empty_rack::{EmptyDisk, EmptyRack};
pub use fused::Fused;
pub use gate::{Gate, OpenGate};
pub use mem_disk::MemDisk;
pub use mem_rack::MemRack;
pub use mem_shelf::MemShelf;
pub use mem_sink::MemSink;
pub use rack::{Rack, RackFault};
pub use rot_disk::RotDisk;
pub use rot_rack::{RotRack, RotRackDisk};
pub use shelf::{Shelf, ShelfFault};
pub use sink::{Sink, SinkFault};
pub use tear::Tear;
