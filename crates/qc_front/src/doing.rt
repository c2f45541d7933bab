//! What the running command waits for.

ghost use Rattle.std.specs.Prelude.{◌≡◌};
ghost use Rattle.qc_front.specs.Going.{is_idle};

use qc_msg::Calls;
use qc_plan::Round;

/// What the running `do` waits for: a round, with its open requests.
#[derive(Drop)]
pub enum Doing {
    /// Nothing.
    Idle,
    /// Grants to Reads for an invocation of an object.
    Reading {
        object: u8,
        inv: u8,
        calls: Calls,
        round: Round,
    },
    /// Grants to Appends of this event, with which the view answered the
    /// invocation.
    Appending {
        object: u8,
        inv: u8,
        event: u8,
        calls: Calls,
        round: Round,
    },
}

impl Doing {
    /// Whether nothing is waited for.
    pub fn is_idle(&self) -> bool
        ensures { result ≡ is_idle self.now }
    {
        matches!(self, Doing::Idle)
    }
}
