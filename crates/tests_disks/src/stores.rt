//! Stores in memory, through falls and rises of their actors.

use crate::stops::is_long;
use qc_journal::{Journal, JournalFault};
use qc_outside::{ArmKind, Fused, MemDisk, Tear};
use qc_store::{RiseFault, crash, rise, start, write};
use std::alloc::Global;
use std::test::Fail;

/// A store without records, on which this fault is armed.
fn begin(alloc: Global, kind: ArmKind, at: u32) -> Result<Journal<Fused<MemDisk>>, JournalFault> {
    match start(alloc, MemDisk::new(alloc, Tear::Nothing)?) {
        Ok((journal, _none)) => {
            let mut journal = journal;
            journal.arm(kind, at);
            Ok(journal)
        }
        Err((_disk, fault)) => Err(fault),
    }
}

/// Writes records of a byte each until one isn't written, and then stops the
/// disk. Tells how many were written, and what broke the next one off.
fn write_all(
    journal: Journal<Fused<MemDisk>>,
    bytes: &[u8],
) -> Result<(Fused<MemDisk>, usize, Option<ArmKind>), JournalFault> {
    let mut journal = journal;
    for (written, byte) in bytes.iter().enumerate() {
        if is_long(&journal) {
            return Err(JournalFault::Torn { offset: 0 });
        }
        journal.reserve(1)?;
        match write(journal, &[*byte]) {
            Ok(more) => journal = more,
            Err((disk, kind)) => return Ok((disk, written, Some(kind))),
        }
    }
    Ok((crash(journal), bytes.len(), None))
}

/// How many records a store rises with, or why it doesn't; and its disk, fallen.
fn risen(alloc: Global, disk: Fused<MemDisk>) -> (Fused<MemDisk>, Result<usize, RiseFault>) {
    match rise(alloc, disk) {
        Ok((journal, bodies)) => (crash(journal), Ok(bodies.len())),
        Err((disk, fault)) => (disk, Err(fault)),
    }
}

/// Three records on a store with this arm, and two rises: how many records were
/// written, what broke one off, and what the rises gave.
fn lived(
    alloc: Global,
    kind: ArmKind,
    at: u32,
) -> Result<
    (
        usize,
        Option<ArmKind>,
        Result<usize, RiseFault>,
        Result<usize, RiseFault>,
    ),
    JournalFault,
> {
    let journal = begin(alloc, kind, at)?;
    let (disk, written, broken) = write_all(journal, &[7, 8, 9])?;
    let (disk, first) = risen(alloc, disk);
    let (_disk, second) = risen(alloc, disk);
    Ok((written, broken, first, second))
}

/// Twelve calls for three records, and one for each rise.
#[test]
fn an_arm_acts_in_its_call(rt: HostRuntime) -> Result<(), Fail> {
    for kind in [ArmKind::Fail, ArmKind::Stop] {
        for at in 1..13 {
            let written = ((at - 1) / 4) as usize;
            assert_eq!(rt;
                lived(rt.alloc(), kind, at)?,
                (written, Some(kind), Ok(written), Ok(written))
            );
        }
        assert_eq!(rt;
            lived(rt.alloc(), kind, 13)?,
            (3, None, Err(RiseFault::Fell(kind)), Ok(3))
        );
        assert_eq!(rt;
            lived(rt.alloc(), kind, 14)?,
            (3, None, Ok(3), Err(RiseFault::Fell(kind)))
        );
        assert_eq!(rt; lived(rt.alloc(), kind, 15)?, (3, None, Ok(3), Ok(3)));
    }
    Ok(())
}
