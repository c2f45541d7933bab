//! A gate at which two actors meet.

use qc_outside::Gate;
use std::sync::Wait;
use std::sync::atomic::{AtomicU64, Ordering};
use std::thread::{Threads, yield_now};

/// Holds each of two actors back, with its input open, until the other stands
/// there too.
#[derive(Drop)]
pub struct Meeting {
    first: u8,
    second: u8,
    inside: AtomicU64,
    met: AtomicU64,
}

impl Meeting {
    /// Nobody has come yet.
    pub fn new(first: u8, second: u8) -> Meeting {
        Meeting {
            first,
            second,
            inside: AtomicU64::new(0),
            met: AtomicU64::new(0),
        }
    }

    /// Whether both stood there at once.
    pub fn met(&self) -> bool {
        self.met.load(Ordering::SeqCst) == 1
    }

    /// Whether the other came. It asks no more than 10,000,000 times.
    fn wait(&self) -> bool {
        for _ in 0..10_000_000u32 {
            if self.inside.load(Ordering::SeqCst) == 2 {
                self.met.store(1, Ordering::SeqCst);
                return true;
            }
            yield_now();
        }
        false
    }
}

impl Gate for Meeting {
    fn at<T: Threads + Wait + Sync>(&self, _rt: &T, actor: u8, _taken: u64) {
        if self.met() || (actor != self.first && actor != self.second) {
            return;
        }
        self.inside.fetch_add(1, Ordering::SeqCst);
        if !self.wait() {
            self.inside.fetch_sub(1, Ordering::SeqCst);
        }
    }
}
