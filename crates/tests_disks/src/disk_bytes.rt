//! The bytes of journals: how records are laid, and what is refused of bytes that
//! were cut or changed, with its place.
//!
//! The answers come from the grammar. A gate that isn't 0 is open, and behind it
//! have to stand a length from 1 to 65,536, as many bytes, and the next gate.

use crate::stops::{add, read};
use qc_journal::{Journal, JournalFault};
use qc_outside::{Disk, MemDisk, Tear};
use std::alloc::Global;
use std::test::Fail;

/// A site's promise of a transaction with one lock and one line of its own, and
/// that it is done, each record behind its open gate.
const SITE: [u8; 52] = [
    1, 0, 0, 0, 23, 2, 0, 0, 0, 0, 1, 0, 0, 0, 1, 1, 0, 1, 0, 0, 1, 1, 0, 3, 0, 0, 0, 0, //
    1, 0, 0, 0, 18, 3, 0, 0, 0, 0, 1, 0, 0, 0, 1, 0, 0, 0, 0, 0, 0, 0, 1, //
    0,
];

/// A client's record of a commit: a write, and a read of what it wrote.
const CLIENT: [u8; 31] = [
    1, 0, 0, 0, 25, 6, 0, 0, 0, 0, 1, 0, 0, 0, 1, 0, 0, 0, 0, 0, 0, 0, 1, 2, 0, 2, 2, 0, 0, 1, //
    0,
];

/// The bytes of a journal to which these records were added, after a fall.
fn laid<D: Disk>(alloc: Global, disk: D, bodies: &[&[u8]]) -> Result<Vec<u8>, JournalFault> {
    let (mut journal, _none) = match Journal::open(alloc, disk) {
        Ok(opened) => opened,
        Err((_disk, fault)) => return Err(fault),
    };
    for body in bodies {
        add(&mut journal, body)?;
    }
    Ok(journal.fell().read(0, 100)?)
}

#[test]
fn records_are_laid_byte_for_byte(rt: HostRuntime) -> Result<(), Fail> {
    let alloc = rt.alloc();
    let bytes = laid(
        alloc,
        MemDisk::new(alloc, Tear::Nothing)?,
        &[&SITE[5..28], &SITE[33..51]],
    )?;
    assert_eq!(rt; bytes.as_slice(), SITE.as_slice());
    let bytes = laid(
        alloc,
        MemDisk::new(alloc, Tear::Nothing)?,
        &[&CLIENT[5..30]],
    )?;
    assert_eq!(rt; bytes.as_slice(), CLIENT.as_slice());
    Ok(())
}

/// How many records bytes hold, or at which gate they are torn.
fn count(alloc: Global, bytes: &[u8]) -> Result<Result<usize, u64>, JournalFault> {
    let mut disk = MemDisk::new(alloc, Tear::All)?;
    disk.write_at(0, bytes)?;
    match read(alloc, disk) {
        Ok(bodies) => Ok(Ok(bodies.len())),
        Err(JournalFault::Torn { offset }) => Ok(Err(offset)),
        Err(fault) => Err(fault),
    }
}

/// The first so many bytes of them.
fn cut(bytes: &[u8], len: usize) -> &[u8] {
    &bytes[..len.min(bytes.len())]
}

/// Which lengths are refused at which gate.
#[test]
fn cut_journal_is_refused_at_its_gate(rt: HostRuntime) -> Result<(), Fail> {
    for (bytes, shortest, longest, answer) in [
        (&SITE[..], 0, 1, Ok(0)),
        (&SITE[..], 2, 28, Err(0)),
        (&SITE[..], 29, 51, Err(28)),
        (&SITE[..], 52, 52, Ok(2)),
        (&CLIENT[..], 0, 1, Ok(0)),
        (&CLIENT[..], 2, 30, Err(0)),
        (&CLIENT[..], 31, 31, Ok(1)),
    ] {
        for len in shortest..=longest {
            assert_eq!(rt; count(rt.alloc(), cut(bytes, len))?, answer);
        }
    }
    Ok(())
}

/// First and last place, lowest and highest value, and what is answered where a
/// byte there is changed to such a value.
///
/// A length that is changed to one in range leads to another byte, which is then
/// a gate. The bytes of bodies are no gates.
const CHANGES: [(usize, usize, u8, u8, Result<usize, u64>); 17] = [
    // The gates.
    (0, 0, 0, 0, Ok(0)),
    (0, 0, 1, 255, Ok(2)),
    (28, 28, 0, 0, Ok(1)),
    (28, 28, 1, 255, Ok(2)),
    (51, 51, 0, 0, Ok(2)),
    (51, 51, 1, 255, Err(51)),
    // The lengths: above the most, 0, or more than what follows.
    (1, 3, 1, 255, Err(0)),
    (4, 4, 0, 0, Err(0)),
    (4, 4, 47, 255, Err(0)),
    (29, 31, 1, 255, Err(28)),
    (32, 32, 0, 0, Err(28)),
    (32, 32, 19, 255, Err(28)),
    // Shorter ones: to a closed gate in the body, to an open one with a record
    // behind it, and to one with none.
    (4, 4, 1, 4, Ok(1)),
    (4, 4, 5, 5, Ok(2)),
    (4, 4, 9, 9, Err(14)),
    // The bodies.
    (5, 27, 0, 255, Ok(2)),
    (33, 50, 0, 255, Ok(2)),
];

/// The site's journal with another byte there.
fn changed(at: usize, value: u8) -> [u8; 52] {
    let mut bytes = SITE;
    if let Some(byte) = bytes.get_mut(at) {
        *byte = value;
    }
    bytes
}

#[test]
fn changed_byte_is_refused_at_its_gate(rt: HostRuntime) -> Result<(), Fail> {
    for (first, last, lowest, highest, answer) in CHANGES {
        for at in first..=last {
            for value in lowest..=highest {
                assert_eq!(rt; count(rt.alloc(), &changed(at, value))?, answer);
            }
        }
    }
    Ok(())
}
