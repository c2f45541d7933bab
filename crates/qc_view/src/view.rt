//! A view, and what it answers.

ghost use Rattle.std.specs.Prelude.{◌≡◌, IfOk, OnErr, OnOk, map};
ghost use Rattle.qc_entry.specs.declared.line.Line.{Line};
ghost use Rattle.qc_table.specs.Run.{after, next_state, reached, step_of};
ghost use Rattle.qc_view.specs.View.{empty_view, with_log, with_own, state_in, answer_in};

use qc_entry::{Line, Log};
use qc_list::{List, OutOfMemory};
use qc_table::Table;
use std::alloc::Global;

/// What is known of one object.
#[derive(Drop)]
pub struct View {
    /// The object's committed lines, as far as they are known.
    log: Log,
    /// The numbers of the own events, in the order of the operations.
    own: List<u8>,
}

impl View {
    /// The view in which nothing is known.
    pub fn new(alloc: Global) -> Result<View, OutOfMemory>
        ensures { IfOk result (λ v. v ≡ empty_view) }
    {
        Ok(View {
            log: Log::new(alloc)?,
            own: List::new(alloc),
        })
    }

    /// The same view, in memory of its own.
    pub fn copy(&self) -> Result<View, OutOfMemory>
        ensures { IfOk result (λ v. v ≡ self.now) }
    {
        Ok(View {
            log: self.log.copy()?,
            own: self.own.copy()?,
        })
    }

    /// The lines that are known.
    pub fn log(&self) -> &Log
        ensures { result.now ≡ self.now.log }
    {
        &self.log
    }

    /// Joins a log of the object's lines, each once. After want of memory the
    /// view is as it was.
    pub fn join(&mut self, log: &Log) -> Result<(), OutOfMemory>
        ensures ok { OnOk result (self.new ≡ with_log self.old log.now) }
        ensures err { OnErr result (self.new ≡ self.old) }
    {
        self.log.merge(log)
    }

    /// Adds the event of an own operation, by its number, behind the others.
    /// After want of memory the view is as it was.
    pub fn own(&mut self, event: u8) -> Result<(), OutOfMemory>
        ensures ok { OnOk result (self.new ≡ with_own self.old event) }
        ensures err { OnErr result (self.new ≡ self.old) }
    {
        self.own.push(event)
    }

    /// The object's state after the lines and then the own events, from the
    /// start state, or `None` where the table lacks a step. It walks them all.
    pub fn state(&self, table: &Table) -> Option<u8>
        ensures { result ≡ state_in table.now self.now }
    {
        own_state(
            table,
            committed_state(table, self.log.lines()),
            self.own.items(),
        )
    }

    /// The number of the event with the invocation's lowest response that is
    /// legal after the view, or `None` where there is no state or no such
    /// response. It walks all lines.
    pub fn answer(&self, table: &Table, inv: u8) -> Option<u8>
        ensures { result ≡ answer_in table.now self.now inv }
    {
        table.first(self.state(table)?, inv)
    }
}

/// The state after committed lines.
fn committed_state(table: &Table, lines: &[Line]) -> Option<u8>
    ensures { result ≡ after (step_of table.now.rows) table.now.start (map (λ (l : Line). l.event) lines.now) }
{
    let mut state = Some(table.start());
    for line in lines {
        state = next_state(table, state, line.event);
    }
    state
}

/// The state after own events.
fn own_state(table: &Table, from: Option<u8>, own: &[u8]) -> Option<u8>
    ensures { result ≡ reached (step_of table.now.rows) from own.now }
{
    let mut state = from;
    for event in own {
        state = next_state(table, state, *event);
    }
    state
}

/// The state after one event more; no state stays no state.
fn next_state(table: &Table, state: Option<u8>, event: u8) -> Option<u8>
    ensures { result ≡ next_state (step_of table.now.rows) state event }
{
    table.step(state?, event)
}
