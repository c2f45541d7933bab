//! A sink in memory.

ghost use Rattle.std.specs.Prelude.{◌≡◌, ◌↔◌, [], IfOk, IsTrue, OnErr, IsErrOf};
ghost use Rattle.qc_outside.specs.Sink.{IsWritten, SinkRose};
ghost use Rattle.qc_outside.specs.Calls.{is_next_failing, no_calls};
ghost use Rattle.qc_outside.specs.Fakes.{sink_calls_after};

use crate::calls::Calls;
use crate::{Sink, SinkFault};
use qc_list::OutOfMemory;
use std::alloc::Global;
use std::marker::Model;

/// A sink that keeps what it takes, some of whose calls are to fail.
#[derive(Drop)]
pub struct MemSink {
    bytes: Vec<u8>,
    calls: Calls,
}

impl Model for MemSink {
    ghost use Rattle.qc_outside.specs.Fakes.{SinkInMemory};

    ghost Value = { SinkInMemory };

    ghost view = { λ s. record { bytes = s.bytes.items; calls = s.calls } };
}

impl MemSink {
    /// A sink that took nothing yet. `fail` lists the calls that are to fail,
    /// from 1; such a call takes nothing.
    pub fn new(alloc: Global, fail: Vec<u32>) -> Result<MemSink, OutOfMemory>
        ensures bytes { IfOk result (λ s. s.bytes ≡ []) }
        ensures calls { IfOk result (λ s. s.calls ≡ no_calls fail.items) }
    {
        Ok(MemSink {
            bytes: Vec::new(alloc),
            calls: Calls::new(fail),
        })
    }

    /// The bytes taken so far.
    pub fn taken(&self) -> &[u8]
        ensures { result.now ≡ self.now.bytes }
    {
        self.bytes.as_slice()
    }
}

impl Sink for MemSink {
    ghost use Rattle.std.specs.Prelude.{Some};

    ghost taken = { λ s. Some s.bytes };

    ghost faults = { λ s. s.calls.faults };

    fn write(&mut self, piece: &[u8]) -> Result<(), SinkFault>
        ensures content { IsWritten (Some self.old.bytes) piece.now result (Some self.new.bytes) }
        ensures cause { SinkRose self.old.calls.faults self.new.calls.faults result }
        ensures nothing { OnErr result (self.new.bytes ≡ self.old.bytes) }
        ensures failing { IsErrOf result SinkFault.Failed ↔ IsTrue (is_next_failing self.old.calls) }
        ensures counted { self.new.calls ≡ sink_calls_after result self.old.calls }
    {
        if self.calls.is_next_failing() {
            self.calls.count_fault();
            return Err(SinkFault::Failed);
        }
        self.bytes.extend_from_slice(piece)?;
        self.calls.count_call();
        Ok(())
    }
}
