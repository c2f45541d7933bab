//! Which of the vectors fit which actors of `@three`: the sites 0 to 2, the
//! clients 3 to 5, the administrator 6; the controller is 7.

use crate::bytes::{CLOSE, COMMIT, DECIDE, DONE, INSTALL, LIFE, PREPARE};
use qc_decl::{Declaration, built_in};
use qc_fit::fits;
use qc_record::read_bytes;
use std::test::*;

const NOBODY: [bool; 8] = [false; 8];

const SITES: [bool; 8] = [true, true, true, false, false, false, false, false];

const RISING: [bool; 8] = [true, true, true, true, true, true, true, false];

const CLIENT_0: [bool; 8] = [false, false, false, true, false, false, false, false];

const CLIENT_1: [bool; 8] = [false, false, false, false, true, false, false, false];

const ADMINISTRATOR: [bool; 8] = [false, false, false, false, false, false, true, false];

/// The Commit of another client, of an operation without a response.
const OTHER: [u8; 22] = [
    6, 1, 0, 0, 0, 1, 0, 0, 0, 1, 0, 0, 0, 0, 0, 0, 0, 1, 1, 0, 2, 255,
];

/// The same with an object that isn't declared.
const UNDECLARED: [u8; 22] = [
    6, 1, 0, 0, 0, 1, 0, 0, 0, 1, 0, 0, 0, 0, 0, 0, 0, 1, 1, 1, 2, 255,
];

/// Whom the record of these bytes fits, behind so many others.
fn fitting(rt: HostRuntime, decl: &Declaration, bytes: &[u8], before: u32) -> [bool; 8] {
    let mut fitting = NOBODY;
    if bytes.len() > 64 {
        return fitting;
    }
    let Some(rec) = read_bytes(rt.alloc(), bytes).ok() else {
        return fitting;
    };
    for (actor, fit) in fitting.iter_mut().enumerate() {
        *fit = fits(decl, actor as u8, before, &rec);
    }
    fitting
}

const ROWS: [(&[u8], [bool; 8]); 10] = [
    (&LIFE, RISING),
    (&PREPARE, SITES),
    (&DONE, SITES),
    // Epochs 8 and 2 aren't declared.
    (&CLOSE, NOBODY),
    (&[4, 1], SITES),
    (&INSTALL, NOBODY),
    (&COMMIT, CLIENT_0),
    (&OTHER, CLIENT_1),
    (&UNDECLARED, NOBODY),
    (&DECIDE, ADMINISTRATOR),
];

#[test]
fn over_three(rt: HostRuntime) -> Result<(), Fail> {
    let decl = built_in(rt.alloc(), "@three")?.ok_or("a declaration")?;
    for (bytes, due) in ROWS {
        assert_eq!(rt; fitting(rt, &decl, bytes, 0), due);
        assert_eq!(rt; fitting(rt, &decl, bytes, 2_147_483_647), due);
        assert_eq!(rt; fitting(rt, &decl, bytes, 2_147_483_648), NOBODY);
    }
    Ok(())
}
