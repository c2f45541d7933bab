//! Records of the greatest length that a journal takes, 65,536 bytes, or a line
//! less, with all locks and own lines that there can be.

use crate::bytes::{Reading, told};
use std::alloc::AllocError;
use std::test::*;

/// An Install of epoch 2, up to its lines, and a Decide.
const INSTALL: [u8; 10] = [5, 2, 0, 0, 0, 0, 0, 0, 255, 255];

const DECIDE: [u8; 10] = [7, 2, 0, 0, 0, 0, 0, 0, 255, 255];

/// A Prepare of the last client's first transaction, up to the 512 locks.
const PREPARE: [u8; 13] = [2, 15, 0, 0, 0, 1, 0, 0, 0, 1, 8, 2, 0];

/// A Commit of that transaction, with 16 operations without a response.
const COMMIT: [u8; 67] = [
    6, 15, 0, 0, 0, 1, 0, 0, 0, 1, 64, 0, 0, 0, 0, 0, 0, 0, 16, 0, 0, 255, 1, 1, 255, 2, 2, 255, 3,
    3, 255, 4, 4, 255, 5, 5, 255, 6, 6, 255, 7, 7, 255, 8, 8, 255, 9, 9, 255, 10, 10, 255, 11, 11,
    255, 12, 12, 255, 13, 13, 255, 14, 14, 255, 15, 31, 255,
];

/// Adds the locks of 32 invocations on each of 16 objects.
fn push_locks(bytes: &mut Vec<u8>) -> Result<(), AllocError> {
    for lock in 0_u16..512 {
        bytes.extend_from_slice(&[(lock / 32) as u8, (lock % 32) as u8])?;
    }
    Ok(())
}

/// Adds the count of 16 own lines, and these.
fn push_own(bytes: &mut Vec<u8>) -> Result<(), AllocError> {
    bytes.push(16)?;
    for op in 1_u8..=16 {
        bytes.extend_from_slice(&[op, op - 1, 63])?;
    }
    Ok(())
}

/// Adds a line of the last client's first transaction with that clock.
fn push_line(bytes: &mut Vec<u8>, clock: u16) -> Result<(), AllocError> {
    let [high, low] = clock.to_be_bytes();
    bytes.extend_from_slice(&[
        0, 0, 0, 0, 0, 0, high, low, 15, 0, 0, 0, 1, 0, 0, 0, 1, 16, 15, 63,
    ])
}

/// Adds the count of so many lines, and these.
fn push_lines(bytes: &mut Vec<u8>, count: u16) -> Result<(), AllocError> {
    bytes.extend_from_slice(&u32::from(count).to_be_bytes())?;
    for clock in 1..=count {
        push_line(bytes, clock)?;
    }
    Ok(())
}

/// How long a record is that has so many lines behind its head, and what becomes
/// of it.
fn longest(rt: HostRuntime, head: &[u8], lines: u16) -> Result<(usize, Reading), AllocError> {
    let mut bytes = head.to_vec(rt.alloc())?;
    push_lines(&mut bytes, lines)?;
    Ok((bytes.len(), told(rt, &bytes)))
}

/// The same of the longest Prepare.
fn longest_prepare(rt: HostRuntime) -> Result<(usize, Reading), AllocError> {
    let mut bytes = PREPARE.to_vec(rt.alloc())?;
    push_locks(&mut bytes)?;
    push_own(&mut bytes)?;
    push_lines(&mut bytes, 3222)?;
    Ok((bytes.len(), told(rt, &bytes)))
}

#[test]
fn longest_of_each_kind(rt: HostRuntime) {
    assert_eq!(rt; longest(rt, &INSTALL, 3276), Ok((65_534, Reading::Taken)));
    assert_eq!(rt; longest(rt, &DECIDE, 3276), Ok((65_534, Reading::Taken)));
    assert_eq!(rt; longest_prepare(rt), Ok((65_530, Reading::Taken)));
    assert_eq!(rt; told(rt, &COMMIT), Reading::Taken);
}
