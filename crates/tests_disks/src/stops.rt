//! A stop in each call that a journal makes of its disk, with each tear.
//!
//! 1. A new journal takes two calls to open: the first gate is written and
//!    synced. Each record takes four: it is written behind the closed gate and
//!    synced, and then its gate is written and synced. To open a journal that has
//!    a gate takes one call, a sync.
//! 2. A stop leaves the records that were acknowledged, and no other, but in the
//!    last call of an append. There the byte 1 was written to the gate and not
//!    synced: the gate holds what the tear leaves of that byte, and any byte but
//!    0 opens it.

ghost use Rattle.std.specs.Prelude.{◌≡◌, ◌<◌, ◌^◌, false};
ghost use Rattle.qc_journal.specs.Journal.{EndsWithin};

use qc_journal::{Journal, JournalFault};
use qc_outside::{ArmKind, Disk, Fused, MemDisk, Tear};
use std::alloc::Global;
use std::test::Fail;

/// Each tear, and whether it leaves a gate open that was opened and not synced.
const TEARS: [(Tear, bool); 6] = [
    (Tear::Nothing, false),
    (Tear::All, true),
    (Tear::Fill(0), false),
    (Tear::Fill(1), true),
    (Tear::Fill(9), true),
    (Tear::Fill(255), true),
];

/// Bodies of three records: short and longer ones, of bytes that close gates or
/// open them, and some that read as records or as a part of one.
const SHAPES: [[&[u8]; 3]; 8] = [
    [&[7], &[7, 7], &[7, 7, 7]],
    [&[0], &[0, 0, 0, 0, 0, 0], &[0, 0]],
    [&[1], &[1, 1, 1, 1, 1], &[1, 1]],
    [
        &[255, 255, 255, 255],
        &[255],
        &[255, 255, 255, 255, 255, 255],
    ],
    [&[0, 0, 0, 1, 7, 0], &[1, 0, 0, 0, 1, 7, 0], &[0, 0, 0, 2]],
    [&[1, 0, 0, 0, 1], &[0, 1, 0, 0, 0, 1], &[1, 0, 0, 0]],
    [&[5; 40], &[6], &[1; 40]],
    [&[2], &[0; 60], &[3]],
];

/// Adds a record of 1 to 65,536 bytes to a journal of at most 9,999.
pub(crate) fn add<D: Disk>(journal: &mut Journal<D>, body: &[u8]) -> Result<(), JournalFault> {
    let count = body.len();
    if count == 0 || count > 65_536 || is_long(journal) {
        return Err(JournalFault::Torn { offset: 0 });
    }
    journal.reserve(count as u32)?;
    journal.append(body)
}

/// Whether a journal has more than 9,999 records, or one that is too long.
pub(crate) fn is_long<D: Disk>(journal: &Journal<D>) -> bool
    ensures short { result ≡ false → (journal.now.records < 2 ^ 32) × EndsWithin journal.now.end journal.now.records }
{
    let records = journal.records();
    records > 9999 || journal.end() > 65_541 * records
}

/// Adds records until the disk fails, and stops it. Tells how many were
/// acknowledged.
fn add_all<D: Disk>(journal: Journal<D>, bodies: &[&[u8]]) -> Result<(D, usize), JournalFault> {
    let mut journal = journal;
    for (added, body) in bodies.iter().enumerate() {
        match add(&mut journal, body) {
            Ok(()) => {}
            Err(JournalFault::Failed | JournalFault::Stopped) => return Ok((journal.fell(), added)),
            Err(fault) => return Err(fault),
        }
    }
    Ok((journal.fell(), bodies.len()))
}

/// Opens a journal and adds these records. Tells how many were acknowledged.
fn begin<D: Disk>(alloc: Global, disk: D, bodies: &[&[u8]]) -> Result<(D, usize), JournalFault> {
    match Journal::open(alloc, disk) {
        Ok((journal, _none)) => add_all(journal, bodies),
        Err((disk, JournalFault::Failed | JournalFault::Stopped)) => Ok((disk, 0)),
        Err((_disk, fault)) => Err(fault),
    }
}

/// Opens a journal of a disk on which one more call at most fails.
pub(crate) fn read<D: Disk>(alloc: Global, disk: D) -> Result<Vec<Vec<u8>>, JournalFault> {
    let disk = match Journal::open(alloc, disk) {
        Ok((_journal, bodies)) => return Ok(bodies),
        Err((disk, JournalFault::Failed | JournalFault::Stopped)) => disk,
        Err((_disk, fault)) => return Err(fault),
    };
    match Journal::open(alloc, disk) {
        Ok((_journal, bodies)) => Ok(bodies),
        Err((_disk, fault)) => Err(fault),
    }
}

/// How many bodies were read, if they are the first of these.
fn first_of(read: &[Vec<u8>], bodies: &[&[u8]]) -> Option<usize> {
    if read.len() <= bodies.len() && read.iter().zip(bodies).all(|(a, b)| a.as_slice() == *b) {
        Some(read.len())
    } else {
        None
    }
}

/// Opens a journal on a new disk of which that call fails, from 1, adds records,
/// and reads again what is left. Tells how many were acknowledged, and how many
/// stand.
fn left_by(
    alloc: Global,
    tear: Tear,
    kind: ArmKind,
    at: u32,
    bodies: &[&[u8]],
) -> Result<(usize, Option<usize>), JournalFault> {
    let mut disk = Fused::new(MemDisk::new(alloc, tear)?);
    disk.arm(kind, at);
    let (disk, added) = begin(alloc, disk, bodies)?;
    let read = read(alloc, disk)?;
    Ok((added, first_of(&read, bodies)))
}

/// What that has to be, of three records.
fn wanted(at: u32, opens: bool) -> (usize, Option<usize>) {
    let passed = at.clamp(3, 15) - 3;
    let added = (passed / 4) as usize;
    let is_last = passed % 4 == 3;
    (added, Some(added + usize::from(is_last && opens)))
}

/// Sixteen calls: two to open, twelve for three records, one to open again, and
/// one that isn't made.
#[test]
fn stop_leaves_whole_records(rt: HostRuntime) -> Result<(), Fail> {
    for (tear, opens) in TEARS {
        for bodies in SHAPES {
            for at in 1..17 {
                for kind in [ArmKind::Fail, ArmKind::Stop] {
                    let left = left_by(rt.alloc(), tear, kind, at, &bodies)?;
                    assert_eq!(rt; left, wanted(at, opens));
                }
            }
        }
    }
    Ok(())
}

/// Adds bodies to a new journal and reads it again. Tells how many were
/// acknowledged, and how many stand.
fn kept(alloc: Global, bodies: &[&[u8]]) -> Result<(usize, Option<usize>), JournalFault> {
    let (disk, added) = begin(alloc, MemDisk::new(alloc, Tear::Nothing)?, bodies)?;
    let read = read(alloc, disk)?;
    Ok((added, first_of(&read, bodies)))
}

/// The longest body between shortest ones, a hundred of the longest, and a
/// thousand of the shortest.
#[test]
fn greatest_journals_are_kept(rt: HostRuntime) -> Result<(), Fail> {
    let alloc = rt.alloc();
    let longest = vec![in alloc; 3; 65_536]?;
    let longest = longest.as_slice();
    assert_eq!(rt; kept(alloc, &[&[1], longest, &[2]]), Ok((3, Some(3))));
    assert_eq!(rt; kept(alloc, &[longest; 100]), Ok((100, Some(100))));
    assert_eq!(rt; kept(alloc, &[&[7][..]; 1000]), Ok((1000, Some(1000))));
    Ok(())
}
