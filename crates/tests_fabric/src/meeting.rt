//! A gate at which threads wait for each other.

use std::sync::atomic::{AtomicU64, Ordering};
use std::thread::yield_now;

/// How often a thread asks at most whether others have come.
const MOST_POLLS: u32 = 10_000_000;

/// How often it asks whether another comes that is to wait.
const POLLS: u32 = 100_000;

/// Counts how often threads have come.
#[derive(Drop)]
pub(crate) struct Meeting {
    came: AtomicU64,
}

impl Meeting {
    /// Nobody has come yet.
    pub(crate) fn new() -> Meeting {
        Meeting {
            came: AtomicU64::new(0),
        }
    }

    /// A thread comes.
    pub(crate) fn come(&self) {
        self.came.fetch_add(1, Ordering::SeqCst);
    }

    /// A thread comes, and waits until threads have come so often. Whether they
    /// have.
    pub(crate) fn meet(&self, count: u64) -> bool {
        self.come();
        self.waited(count)
    }

    /// Waits until threads have come so often. Whether they have.
    pub(crate) fn waited(&self, count: u64) -> bool {
        self.reaches(count, MOST_POLLS)
    }

    /// Whether threads come so often within a while.
    pub(crate) fn soon(&self, count: u64) -> bool {
        self.reaches(count, POLLS)
    }

    /// Whether threads have come so often before it was asked for so many times.
    fn reaches(&self, count: u64, polls: u32) -> bool {
        for _ in 0..polls {
            if self.came.load(Ordering::SeqCst) >= count {
                return true;
            }
            yield_now();
        }
        false
    }
}
