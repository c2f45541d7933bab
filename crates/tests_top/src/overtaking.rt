//! Two workers serve two sites at once: a client takes the answer of one while the
//! other still works on its request.

use crate::calls::call_by;
use qc_outside::Gate;
use std::sync::Wait;
use std::sync::atomic::{AtomicU64, Ordering};
use std::test::Fail;
use std::thread::{Threads, yield_now};

/// The numbers of the first two sites and of the first client.
const S0: u8 = 0;

const S1: u8 = 1;

const C0: u8 = 3;

/// Holds the first turn of `s0` until it is called for `c0` after a turn of `s1`.
#[derive(Drop)]
struct Overtaking {
    answered: AtomicU64,
    overtaken: AtomicU64,
    held: AtomicU64,
    let_go: AtomicU64,
}

impl Overtaking {
    /// Nobody has come yet.
    fn new() -> Overtaking {
        Overtaking {
            answered: AtomicU64::new(0),
            overtaken: AtomicU64::new(0),
            held: AtomicU64::new(0),
            let_go: AtomicU64::new(0),
        }
    }

    /// Waits for the client. It asks no more than 10,000,000 times.
    fn hold(&self) {
        for _ in 0..10_000_000u32 {
            if self.overtaken.load(Ordering::SeqCst) == 1 {
                self.let_go.store(1, Ordering::SeqCst);
                return;
            }
            yield_now();
        }
    }

    /// Whether the first turn of `s0` was held, and let go in time.
    fn was_seen(&self) -> bool {
        self.let_go.load(Ordering::SeqCst) == 1
    }
}

impl Gate for Overtaking {
    fn at<T: Threads + Wait + Sync>(&self, _rt: &T, actor: u8, _taken: u64) {
        if actor == S1 {
            self.answered.store(1, Ordering::SeqCst);
        }
        if actor == C0 && self.answered.load(Ordering::SeqCst) == 1 {
            self.overtaken.store(1, Ordering::SeqCst);
        }
        if actor == S0 && self.held.fetch_add(1, Ordering::SeqCst) == 0 {
            self.hold();
        }
    }
}

/// A worker holds `s0`'s first request, and the other one serves `s1` and the
/// client meanwhile. The text is that of any run of the script.
#[test]
fn a_site_is_overtaken(rt: HostRuntime) -> Result<(), Fail> {
    let gate = Overtaking::new();
    let words = ["run", "@three", "s", "--workers", "2"];
    let files = [("s", "phase\nc0 begin\nc0 do x W1\nc0 do x R\nc0 commit\n")];
    let (ended, taken) = call_by(&rt, rt.alloc(), &words, &files, &gate)?;
    assert_eq!(rt; ended.status, 0);
    assert!(rt; gate.was_seen());
    let text =
        "replies\nc0 begin 0.1.1\nc0 x W1 ok\nc0 x R 1\nc0 commit 1.0\nlog\n1.0 0.1.1 x W1 ok, x R 1\nstates\n\
         x 1\nsites\ns0 life 1 epoch 1 lines 1 held 0\ns1 life 1 epoch 1 lines 1 held 0\n\
         s2 life 1 epoch 1 lines 0 held 0\n";
    assert_eq!(rt; taken.as_slice(), text.as_bytes());
    Ok(())
}
