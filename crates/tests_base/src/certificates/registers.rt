//! Certificates of a register, wrong ones, and lists that repeat triples.
//!
//! The faults are worked out from the rules, in their order: the first triple
//! at fault, and its first event or response that is.

use super::{Case, check_type, left_out, taken, unequal};
use qc_cert::CertFault;
use std::alloc::Global;
use std::process::Abort;

/// A register over 0 and 1: invocations R, W0 and W1, responses 0, 1 and ok.
/// Its events are R:0, R:1, W0:ok and W1:ok.
const REGISTER_ROWS: [(u8, u8, u8, u8); 6] = [
    (0, 0, 0, 0),
    (1, 0, 1, 1),
    (0, 1, 2, 0),
    (1, 1, 2, 0),
    (0, 2, 2, 1),
    (1, 2, 2, 1),
];

/// R depends on what is written.
const REGISTER_PAIRS: [(u8, u8); 2] = [(0, 2), (0, 3)];

fn check_register(rt: &impl Abort, alloc: Global, pairs: &[(u8, u8)], cases: &[Case]) {
    check_type(rt, alloc, (2, 3, 3), &REGISTER_ROWS, pairs, cases);
}

/// Parts of the certificate; and where a triple leaves out more: it covers none
/// that leaves out less, not the start, nor what follows from it by W1:ok, left
/// out or taken.
#[test]
fn registers(rt: HostRuntime) {
    check_register(
        &rt,
        rt.alloc(),
        &REGISTER_PAIRS,
        &[
            (&[(0, 0, 0), (0, 1, 8), (1, 1, 0), (1, 0, 4)], None),
            (&[], Some(CertFault::NoStart)),
            (&[(0, 0, 0)], left_out(0, 3)),
            (&[(0, 0, 0), (0, 1, 8)], taken(0, 3)),
            (&[(0, 0, 0), (0, 1, 8), (1, 1, 0)], left_out(2, 2)),
            (
                &[(0, 0, 4), (0, 1, 8), (1, 1, 0), (1, 0, 4)],
                Some(CertFault::NoStart),
            ),
            (
                &[(0, 0, 0), (0, 1, 12), (1, 1, 0), (1, 0, 4)],
                left_out(0, 3),
            ),
            (&[(0, 0, 0), (0, 1, 8), (1, 1, 1), (1, 0, 4)], taken(0, 3)),
        ],
    );
}

/// The order of a triple's faults, where nothing depends on anything: in the
/// first list R is unequal too, and in the third the second triple is.
#[test]
fn faults_in_their_order(rt: HostRuntime) {
    check_register(
        &rt,
        rt.alloc(),
        &[],
        &[
            (&[(1, 0, 0), (0, 0, 0), (0, 1, 0)], left_out(0, 3)),
            (&[(0, 0, 0), (0, 1, 0), (1, 1, 0)], unequal(1, 0, 0)),
            (&[(0, 0, 0), (0, 1, 0), (1, 0, 0)], taken(0, 3)),
            (&[(0, 1, 0), (0, 0, 0), (1, 0, 0)], unequal(0, 0, 0)),
        ],
    );
}

/// A list may repeat its triples. A fault is told of the first of equal ones,
/// by its place among all. The third list's last triple has the states of one
/// before it and the fourth's repeats what one before it leaves out: neither
/// is a repetition.
#[test]
fn repetitions(rt: HostRuntime) {
    check_register(
        &rt,
        rt.alloc(),
        &REGISTER_PAIRS,
        &[
            (
                &[
                    (0, 0, 0),
                    (0, 0, 0),
                    (0, 1, 8),
                    (1, 1, 0),
                    (0, 1, 8),
                    (1, 0, 4),
                    (1, 0, 4),
                ],
                None,
            ),
            (&[(0, 0, 0), (0, 0, 0), (0, 0, 0)], left_out(0, 3)),
            (
                &[(0, 0, 0), (0, 1, 8), (1, 1, 0), (1, 0, 4), (0, 1, 0)],
                unequal(4, 0, 0),
            ),
            (&[(0, 0, 0), (0, 1, 8), (1, 1, 0)], left_out(2, 2)),
            (
                &[
                    (0, 0, 0),
                    (0, 1, 8),
                    (0, 0, 0),
                    (0, 1, 8),
                    (1, 1, 0),
                    (1, 1, 0),
                ],
                left_out(4, 2),
            ),
        ],
    );
}
