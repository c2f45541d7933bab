//! What the view of an object answers an invocation with.

ghost use Rattle.std.specs.Prelude.{◌≡◌, [], IfOk, option_map, slice_get, unwrap_or};
ghost use Rattle.qc_front.specs.Answering.{answer_of, view_log};
ghost use Rattle.qc_decl.specs.Lookup.{resp_of};
ghost use Rattle.qc_front.specs.Drafts.{answer_in_draft, log_in_draft};
ghost use Rattle.qc_table.specs.declared.row.Event.{Event};
ghost use Rattle.qc_table.specs.Rules.{events_of};

use crate::draft::Draft;
use qc_decl::Declaration;
use qc_entry::Log;
use qc_list::OutOfMemory;
use qc_table::Table;
use std::alloc::Global;

impl Draft {
    /// The event with the invocation's first response that is legal after the
    /// object's view, or none where there is no such response or no such
    /// object.
    pub(crate) fn event_for(&self, decl: &Declaration, inv: u8) -> Option<u8>
        ensures { result ≡ answer_in_draft decl.now self.now inv }
    {
        let table = decl.table(self.object)?;
        self.view.as_ref()?.answer(table, inv)
    }

    /// The lines of the object's view.
    pub(crate) fn log(&self, alloc: Global) -> Result<Log, OutOfMemory>
        ensures { IfOk result (λ log. log ≡ log_in_draft self.now) }
    {
        match &self.view {
            Some(view) => view.log().copy(),
            None => Log::new(alloc),
        }
    }
}

/// The response of an event of an object, or 0 where there is none.
pub(crate) fn response(decl: &Declaration, object: u8, event: u8) -> u8
    ensures { result ≡ resp_of decl.now object event }
{
    match decl.table(object) {
        Some(table) => response_in(table, event),
        None => 0,
    }
}

/// The response of an event of a table, or 0 where there is no such event.
fn response_in(table: &Table, event: u8) -> u8
    ensures { result ≡ unwrap_or (option_map (λ (e : Event). e.resp) (slice_get (events_of table.now.rows) event)) 0 }
{
    match table.events().get(event as usize) {
        Some(event) => event.resp,
        None => 0,
    }
}
