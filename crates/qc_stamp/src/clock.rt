//! A Lamport clock.

ghost use Rattle.std.specs.Prelude.{◌≡◌, ◌+◌, ◌^◌, ◌<◌, max};

/// A Lamport clock: it passes what its owner learns of, and the next stamp's
/// clock is one more (Lamport 1978).
#[derive(Clone, Copy, Debug, PartialEq, Eq)]
pub struct Clock {
    /// The greatest clock that the owner has learned of, at first 0.
    pub value: u64,
}

impl Clock {
    /// Makes the value the greater of the two.
    pub fn pass(&mut self, other: u64)
        ensures { self.new.value ≡ max self.old.value other }
    {
        self.value = self.value.max(other);
    }

    /// The clock of the next stamp: one more than the value.
    pub fn next(&self) -> u64
        requires { self.now.value < 2 ^ 63 }
        ensures { result ≡ self.now.value + 1 }
    {
        self.value + 1
    }
}
