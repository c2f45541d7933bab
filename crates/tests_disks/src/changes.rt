//! Records of which one byte is changed.

use crate::bytes::Reading::{self, Taken, Torn, Unknown};
use crate::bytes::{CLOSE, COMMIT, INSTALL, LIFE, PREPARE, told};

/// From which byte to which, and from which value to which, a change is told
/// so. The rows of a record have each value of each byte once.
type Change = (usize, usize, u8, u8, Reading);

const OF_LIFE: [Change; 4] = [
    (0, 0, 0, 0, Unknown),
    (0, 0, 1, 1, Taken),
    (0, 0, 2, 7, Torn(1)),
    (0, 0, 8, 255, Unknown),
];

const OF_CLOSE: [Change; 9] = [
    (0, 0, 0, 0, Unknown),
    (0, 0, 1, 1, Torn(1)),
    (0, 0, 2, 3, Torn(2)),
    (0, 0, 4, 4, Taken),
    (0, 0, 5, 7, Torn(2)),
    (0, 0, 8, 255, Unknown),
    (1, 1, 0, 0, Torn(1)),
    (1, 1, 1, 8, Taken),
    (1, 1, 9, 255, Torn(1)),
];

/// A kind, a client, a life, a number, a clock, a count, two operations.
const OF_COMMIT: [Change; 40] = [
    (0, 0, 0, 0, Unknown),
    (0, 0, 1, 1, Torn(1)),
    (0, 0, 2, 2, Torn(10)),
    (0, 0, 3, 3, Torn(18)),
    (0, 0, 4, 5, Torn(1)),
    (0, 0, 6, 6, Taken),
    (0, 0, 7, 7, Torn(1)),
    (0, 0, 8, 255, Unknown),
    (1, 1, 0, 15, Taken),
    (1, 1, 16, 255, Torn(1)),
    (2, 4, 0, 255, Taken),
    (5, 5, 0, 0, Torn(2)),
    (5, 5, 1, 255, Taken),
    (6, 8, 0, 255, Taken),
    (9, 9, 0, 0, Torn(6)),
    (9, 9, 1, 255, Taken),
    (10, 10, 0, 63, Taken),
    (10, 10, 64, 255, Torn(10)),
    (11, 16, 0, 255, Taken),
    (17, 17, 0, 0, Torn(10)),
    (17, 17, 1, 255, Taken),
    (18, 18, 0, 0, Torn(19)),
    (18, 18, 1, 1, Torn(22)),
    (18, 18, 2, 2, Taken),
    (18, 18, 3, 16, Torn(25)),
    (18, 18, 17, 255, Torn(18)),
    (19, 19, 0, 15, Taken),
    (19, 19, 16, 255, Torn(19)),
    (20, 20, 0, 31, Taken),
    (20, 20, 32, 255, Torn(20)),
    (21, 21, 0, 31, Taken),
    (21, 21, 32, 254, Torn(21)),
    (21, 21, 255, 255, Taken),
    (22, 22, 0, 15, Taken),
    (22, 22, 16, 255, Torn(22)),
    (23, 23, 0, 31, Taken),
    (23, 23, 32, 255, Torn(23)),
    (24, 24, 0, 31, Taken),
    (24, 24, 32, 254, Torn(24)),
    (24, 24, 255, 255, Taken),
];

/// A kind, a client, a life, a number, an epoch, a count of locks, a lock, a
/// count of own lines, an own line, a count of lines.
const OF_PREPARE: [Change; 42] = [
    (0, 0, 0, 0, Unknown),
    (0, 0, 1, 1, Torn(1)),
    (0, 0, 2, 2, Taken),
    (0, 0, 3, 3, Torn(18)),
    (0, 0, 4, 5, Torn(1)),
    (0, 0, 6, 6, Torn(23)),
    (0, 0, 7, 7, Torn(1)),
    (0, 0, 8, 255, Unknown),
    (1, 1, 0, 15, Taken),
    (1, 1, 16, 255, Torn(1)),
    (2, 4, 0, 255, Taken),
    (5, 5, 0, 0, Torn(2)),
    (5, 5, 1, 255, Taken),
    (6, 8, 0, 255, Taken),
    (9, 9, 0, 0, Torn(6)),
    (9, 9, 1, 255, Taken),
    (10, 10, 0, 0, Torn(10)),
    (10, 10, 1, 8, Taken),
    (10, 10, 9, 255, Torn(10)),
    (11, 11, 0, 0, Taken),
    (11, 11, 1, 255, Torn(17)),
    (12, 12, 0, 0, Torn(23)),
    (12, 12, 1, 1, Taken),
    (12, 12, 2, 2, Torn(23)),
    (12, 12, 3, 255, Torn(17)),
    (13, 13, 0, 15, Taken),
    (13, 13, 16, 255, Torn(13)),
    (14, 14, 0, 31, Taken),
    (14, 14, 32, 255, Torn(14)),
    (15, 15, 0, 0, Torn(23)),
    (15, 15, 1, 1, Taken),
    (15, 15, 2, 16, Torn(19)),
    (15, 15, 17, 255, Torn(15)),
    (16, 16, 0, 0, Torn(16)),
    (16, 16, 1, 16, Taken),
    (16, 16, 17, 255, Torn(16)),
    (17, 17, 0, 15, Taken),
    (17, 17, 16, 255, Torn(17)),
    (18, 18, 0, 63, Taken),
    (18, 18, 64, 255, Torn(18)),
    (19, 22, 0, 0, Taken),
    (19, 22, 1, 255, Torn(23)),
];

/// A kind, an epoch, a clock, a count, and a line: its clock, client, life,
/// number, operation, object, event.
const OF_INSTALL: [Change; 38] = [
    (0, 0, 0, 0, Unknown),
    (0, 0, 1, 1, Torn(1)),
    (0, 0, 2, 4, Torn(2)),
    (0, 0, 5, 5, Taken),
    (0, 0, 6, 6, Torn(2)),
    (0, 0, 7, 7, Taken),
    (0, 0, 8, 255, Unknown),
    (1, 1, 0, 0, Torn(1)),
    (1, 1, 1, 8, Taken),
    (1, 1, 9, 255, Torn(1)),
    (2, 2, 0, 63, Taken),
    (2, 2, 64, 255, Torn(2)),
    (3, 9, 0, 255, Taken),
    (10, 12, 0, 0, Taken),
    (10, 12, 1, 255, Torn(34)),
    (13, 13, 0, 0, Torn(14)),
    (13, 13, 1, 1, Taken),
    (13, 13, 2, 255, Torn(34)),
    (14, 14, 0, 63, Taken),
    (14, 14, 64, 255, Torn(14)),
    (15, 20, 0, 255, Taken),
    (21, 21, 0, 0, Torn(14)),
    (21, 21, 1, 255, Taken),
    (22, 22, 0, 15, Taken),
    (22, 22, 16, 255, Torn(22)),
    (23, 25, 0, 255, Taken),
    (26, 26, 0, 0, Torn(23)),
    (26, 26, 1, 255, Taken),
    (27, 29, 0, 255, Taken),
    (30, 30, 0, 0, Torn(27)),
    (30, 30, 1, 255, Taken),
    (31, 31, 0, 0, Torn(31)),
    (31, 31, 1, 16, Taken),
    (31, 31, 17, 255, Torn(31)),
    (32, 32, 0, 15, Taken),
    (32, 32, 16, 255, Torn(32)),
    (33, 33, 0, 63, Taken),
    (33, 33, 64, 255, Torn(33)),
];

/// What becomes of at most 40 bytes of which one has another value.
fn told_with(rt: HostRuntime, bytes: &[u8], at: usize, value: u8) -> Reading {
    let mut changed = [0u8; 40];
    if bytes.len() > 40 || at >= 40 {
        return Reading::Other;
    }
    for (place, byte) in bytes.iter().enumerate() {
        changed[place] = *byte;
    }
    changed[at] = value;
    let (front, _) = changed.split_at(bytes.len());
    told(rt, front)
}

/// The first place and value, of both ends of each row, that isn't told so.
fn wrong(rt: HostRuntime, bytes: &[u8], changes: &[Change]) -> Option<(usize, u8)> {
    for (first, last, low, high, due) in changes {
        for at in *first..=*last {
            if told_with(rt, bytes, at, *low) != *due {
                return Some((at, *low));
            }
            if told_with(rt, bytes, at, *high) != *due {
                return Some((at, *high));
            }
        }
    }
    None
}

#[test]
fn one_byte(rt: HostRuntime) {
    assert_eq!(rt; wrong(rt, &LIFE, &OF_LIFE), None);
    assert_eq!(rt; wrong(rt, &CLOSE, &OF_CLOSE), None);
    assert_eq!(rt; wrong(rt, &COMMIT, &OF_COMMIT), None);
    assert_eq!(rt; wrong(rt, &PREPARE, &OF_PREPARE), None);
    assert_eq!(rt; wrong(rt, &INSTALL, &OF_INSTALL), None);
}
