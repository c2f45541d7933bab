//! Disks and racks, each through its trait.

use qc_outside::{
    ArmKind, Disk, DiskFault, EmptyRack, Fused, MemDisk, MemRack, Rack, RackFault, Tear,
};
use std::alloc::Global;
use std::test::Fail;

/// Makes room for a byte, writes it at the head, and syncs.
fn write_first<D: Disk>(disk: &mut D, byte: u8) -> Result<(), DiskFault> {
    disk.reserve(1)?;
    disk.write_at(0, &[byte])?;
    disk.sync()
}

/// Writes a byte to an actor's disk, and gives the disk back.
fn write_once<R: Rack>(rack: &mut R, actor: u8) -> Result<Result<(), DiskFault>, RackFault> {
    let mut disk = rack.disk(None, actor)?;
    let answer = write_first(&mut disk, 7);
    rack.keep(None, actor, disk);
    Ok(answer)
}

#[test]
fn empty_disk_refuses_a_write(rt: HostRuntime) {
    let mut rack = EmptyRack::new(rt.alloc());
    assert_eq!(rt; write_once(&mut rack, 1), Ok(Err(DiskFault::Failed)));
}

#[test]
fn rack_refuses_a_place_with_bytes(rt: HostRuntime) -> Result<(), Fail> {
    let mut rack = MemRack::new(rt.alloc(), Tear::Nothing)?;
    for (actor, answer) in [
        (1, Ok(Ok(()))),
        (2, Ok(Ok(()))),
        (1, Err(RackFault::NotEmpty { actor: 1 })),
    ] {
        assert_eq!(rt; write_once(&mut rack, actor), answer);
    }
    Ok(())
}

/// A disk with a byte that was synced and a byte that wasn't.
fn disk_with_two<D: Disk>(mut disk: D) -> Result<D, DiskFault> {
    write_first(&mut disk, 7)?;
    disk.write_at(1, &[8])?;
    Ok(disk)
}

/// Whether a fall leaves these bytes of such a disk.
fn falls_to<D: Disk>(disk: D, left: &[u8]) -> Result<bool, DiskFault> {
    let mut disk = disk_with_two(disk)?;
    disk.fall();
    Ok(disk.read(0, 3)?.as_slice() == left)
}

/// What a sync answers of such a disk, and whether these bytes are then read.
fn syncs_to<D: Disk>(
    disk: D,
    kind: ArmKind,
    left: &[u8],
) -> Result<(Result<(), DiskFault>, bool), DiskFault> {
    let mut disk = Fused::new(disk_with_two(disk)?);
    disk.arm(kind, 1);
    let answer = disk.sync();
    Ok((answer, disk.read(0, 3)?.as_slice() == left))
}

/// The disk that a new rack gives, or none for want of memory.
fn racked(alloc: Global, tear: Tear) -> Result<MemDisk, RackFault> {
    MemRack::new(alloc, tear)?.disk(Some("d"), 1)
}

const STOPPED: Result<(Result<(), DiskFault>, bool), DiskFault> = Ok((
    Err(DiskFault::Stopped),
    true,
));

/// The byte that wasn't synced is undone, kept, or another.
#[test]
fn fall_tears_what_was_not_synced(rt: HostRuntime) -> Result<(), Fail> {
    for (tear, left) in [
        (Tear::Nothing, &[7][..]),
        (Tear::All, &[7, 8][..]),
        (Tear::Fill(9), &[7, 9][..]),
    ] {
        let alloc = rt.alloc();
        assert_eq!(rt; falls_to(MemDisk::new(alloc, tear)?, left), Ok(true));
        assert_eq!(rt; falls_to(racked(alloc, tear)?, left), Ok(true));
        assert_eq!(rt;
            syncs_to(MemDisk::new(alloc, tear)?, ArmKind::Stop, left),
            STOPPED
        );
    }
    Ok(())
}
