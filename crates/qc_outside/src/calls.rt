//! The calls of a fake, some of which are to fail.

ghost use Rattle.std.specs.Prelude.{◌≡◌, ◌≤◌};
ghost use Rattle.qc_outside.specs.Calls.{no_calls, is_next_failing, after_fault, after_call};

use std::marker::Model;

/// Which calls are to fail, how many were made, and how many did fail.
///
/// Both counts stay at the most that 64 bits hold.
#[derive(Drop)]
pub(crate) struct Calls {
    fail: Vec<u32>,
    made: u64,
    faults: u64,
}

impl Model for Calls {
    ghost use Rattle.qc_outside.specs.Calls.{CallsMade};

    ghost Value = { CallsMade };

    ghost view = { λ c. record { fail = c.fail.items; made = c.made; faults = c.faults } };
}

impl Calls {
    /// No call yet. `fail` lists those that are to fail, counted from 1.
    pub(crate) fn new(fail: Vec<u32>) -> Calls
        ensures { result ≡ no_calls fail.items }
    {
        Calls {
            fail,
            made: 0,
            faults: 0,
        }
    }

    /// Whether the next call is to fail.
    pub(crate) fn is_next_failing(&self) -> bool
        ensures { result ≡ is_next_failing self.now }
    {
        let number = self.made.saturating_add(1);
        self.fail.iter().any(|call| u64::from(*call) == number)
    }

    /// Counts a call that failed.
    pub(crate) fn count_fault(&mut self)
        ensures fault { self.new ≡ after_fault self.old }
        ensures later { self.old.faults ≤ self.new.faults }
    {
        self.made = self.made.saturating_add(1);
        self.faults = self.faults.saturating_add(1);
    }

    /// Counts a call that did not fail.
    pub(crate) fn count_call(&mut self)
        ensures { self.new ≡ after_call self.old }
    {
        self.made = self.made.saturating_add(1);
    }
}
