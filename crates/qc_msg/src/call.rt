//! The open requests of a running round, by their numbers.

ghost use Rattle.std.specs.Prelude.{◌≡◌, ◌<◌, ◌≤◌, ◌==◌, [], length};
ghost use Rattle.qc_msg.specs.Calls.{site_called, with_call, without_call};

use std::marker::Model;

/// A request of the running round that nothing was taken for yet.
#[derive(Clone, Copy, Debug, PartialEq, Eq)]
pub struct Call {
    /// The request's number.
    pub number: u32,
    /// The site that was asked.
    pub site: u8,
}

/// The most requests that are open at once: a round asks each site once, and
/// there are at most 16.
pub const MOST_CALLS: usize = 16;

/// Open requests, in the order of their sending, at most 16. They take no
/// memory, so that a request's number can be kept where none is left.
#[derive(Drop)]
pub struct Calls {
    /// The open requests; of the other slots nothing is read.
    slots: [Call; MOST_CALLS],
    /// How many are open.
    count: usize,
}

impl Model for Calls {
    ghost use Rattle.std.specs.Prelude.{List, ◌≤◌, take};
    ghost use Rattle.qc_msg.specs.declared.call.Call.{Call};

    ghost Value = { List Call };

    ghost view = { λ c. take c.count c.slots };

    ghost invariant = { λ c. c.count ≤ 16 };
}

impl Calls {
    /// No request is open.
    pub fn new() -> Calls
        ensures { result ≡ [] }
    {
        Calls {
            slots: [Call { number: 0, site: 0 }; MOST_CALLS],
            count: 0,
        }
    }

    /// The open requests.
    pub fn items(&self) -> &[Call]
        ensures value { result.now ≡ self.now }
        ensures few { length self.now ≤ 16 }
    {
        &self.slots[..self.count]
    }

    /// Whether no request is open.
    pub fn is_empty(&self) -> bool
        ensures { result ≡ (length self.now == 0) }
    {
        self.items().is_empty()
    }

    /// The site that was asked by the open request of this number, if there is
    /// one.
    pub fn site_called(&self, number: u32) -> Option<u8>
        ensures { result ≡ site_called self.now number }
    {
        let call = self.items().iter().find(|call| call.number == number)?;
        Some(call.site)
    }

    /// The other open requests.
    pub fn without_call(&self, number: u32) -> Calls
        ensures { result ≡ without_call self.now number }
    {
        let mut rest = Calls::new();
        'calls: for call in self.items() {
            if call.number != number {
                rest.add(call.number, call.site);
            }
        }
        rest
    }

    /// A request to a site was sent under this number.
    pub fn add(&mut self, number: u32, site: u8)
        requires { length self.old < 16 }
        ensures { self.new ≡ with_call self.old number site }
    {
        self.slots[self.count] = Call { number, site };
        self.count += 1;
    }
}
