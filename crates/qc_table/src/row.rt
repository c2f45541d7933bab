//! A row of a table, and its event.

ghost use Rattle.std.specs.Prelude.{◌≡◌};
ghost use Rattle.qc_table.specs.Rules.{event_of};

/// A row of a table: in `state`, the invocation `inv` may answer `resp`, and
/// leads to the state `next`.
#[derive(Clone, Copy, PartialEq, Eq, Debug)]
pub struct Row {
    /// The state before, below the table's count of states.
    pub state: u8,
    /// The invocation, below the table's count of invocations.
    pub inv: u8,
    /// The response, below the table's count of responses.
    pub resp: u8,
    /// The state after, below the table's count of states.
    pub next: u8,
}

/// An invocation with its response.
#[derive(Clone, Copy, PartialEq, Eq, Hash, Debug)]
pub struct Event {
    /// The invocation.
    pub inv: u8,
    /// The response.
    pub resp: u8,
}

impl Row {
    /// The row's event.
    pub(crate) fn event(&self) -> Event
        ensures { result ≡ event_of self.now }
    {
        Event {
            inv: self.inv,
            resp: self.resp,
        }
    }
}
