//! Which cases some rows have: a state with an invocation and a response.

ghost use Rattle.std.specs.Prelude.{◌≡◌, not, IfOk};
ghost use Rattle.qc_table.specs.Cases.{IsSmall, has_case, with_case, no_cases};

use crate::limits::{MOST_INVOCATIONS, MOST_STATES};
use crate::row::Row;
use qc_list::OutOfMemory;
use std::alloc::Global;
use std::marker::Model;

/// A set of cases.
#[derive(Drop)]
pub(crate) struct Cases {
    /// For each state and each invocation of it the responses, bit k for
    /// response k.
    responses: Vec<u32>,
}

impl Model for Cases {
    ghost use Rattle.std.specs.Prelude.{List, ℕ, length, ◌≡◌, ◌*◌};
    ghost use Rattle.qc_table.specs.Limits.{most_states, most_invocations};

    ghost Value = { List ℕ };

    ghost view = { λ c. c.responses.items };

    ghost invariant = { λ c. length c.responses.items ≡ most_states * most_invocations };
}

impl Cases {
    /// No case.
    pub(crate) fn new(alloc: Global) -> Result<Cases, OutOfMemory>
        ensures { IfOk result (λ cases. cases ≡ no_cases) }
    {
        Ok(Cases {
            responses: vec![in alloc; 0; MOST_STATES * MOST_INVOCATIONS]?,
        })
    }

    /// Adds a row's case, and answers whether it was missing.
    pub(crate) fn insert(&mut self, row: &Row) -> bool
        requires { IsSmall row.now }
        ensures missing { result ≡ not (has_case self.old row.now) }
        ensures added { self.new ≡ with_case self.old row.now }
    {
        let place = row.state as usize * MOST_INVOCATIONS + row.inv as usize;
        let responses = self.responses[place];
        self.responses[place] = responses | 1 << row.resp;
        (responses >> row.resp) & 1 == 0
    }
}
