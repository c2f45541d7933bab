//! What a call prints.

ghost use Rattle.std.specs.Prelude.{◌≡◌, IfOk};
ghost use Rattle.qc_outside.specs.Causes.{Rose};
ghost use Rattle.qc_report.specs.Declarations.{accepted_text_of};
ghost use Rattle.qc_top.specs.Top.{IsNoShelf, IsTold, PrintsBetween, output_of};

use crate::work::Output;
use qc_decl::Declaration;
use qc_list::OutOfMemory;
use qc_msg::History;
use qc_outside::{Sink, SinkFault};
use qc_report::{Cause, accepted_text};
use qc_script::Script;
use qc_text::{summary, text};
use std::alloc::Global;

/// Says that a declaration is accepted.
pub(crate) fn tell<K: Sink>(alloc: Global, decl: &Declaration, sink: &mut K) -> Cause
    ensures told { IsTold result }
    ensures text { PrintsBetween (accepted_text_of decl.now) (K.taken sink.old) result (K.taken sink.new) }
    ensures shelf { IsNoShelf result }
    ensures sink { result ≡ Cause.Sink → Rose (K.faults sink.old) (K.faults sink.new) }
{
    match accepted_text(alloc, decl) {
        Ok(text) => write(text.as_slice(), sink),
        Err(_) => Cause::OutOfMemory,
    }
}

/// Writes what is to be printed of a run to the sink, once it is whole.
pub(crate) fn print<K: Sink>(
    alloc: Global,
    decl: &Declaration,
    script: &Script,
    history: &History,
    output: Output,
    sink: &mut K,
) -> Cause
    ensures told { IsTold result }
    ensures text { PrintsBetween (output_of output decl.now script.now history.now)
        (K.taken sink.old) result (K.taken sink.new) }
    ensures shelf { IsNoShelf result }
    ensures sink { result ≡ Cause.Sink → Rose (K.faults sink.old) (K.faults sink.new) }
{
    match output_text(alloc, decl, script, history, output) {
        Ok(text) => write(text.as_slice(), sink),
        Err(_) => Cause::OutOfMemory,
    }
}

/// What is to be printed of a run.
fn output_text(
    alloc: Global,
    decl: &Declaration,
    script: &Script,
    history: &History,
    output: Output,
) -> Result<Vec<u8>, OutOfMemory>
    ensures { IfOk result (λ v. v.items ≡ output_of output decl.now script.now history.now) }
{
    match output {
        Output::Text => text(alloc, decl, script, history),
        Output::Summary { count, seed } => summary(alloc, decl, count, seed, history),
    }
}

/// Writes a text that is whole to the sink.
fn write<K: Sink>(text: &[u8], sink: &mut K) -> Cause
    ensures told { IsTold result }
    ensures text { PrintsBetween text.now (K.taken sink.old) result (K.taken sink.new) }
    ensures shelf { IsNoShelf result }
    ensures sink { result ≡ Cause.Sink → Rose (K.faults sink.old) (K.faults sink.new) }
{
    match sink.write(text) {
        Ok(()) => Cause::Done,
        Err(SinkFault::Failed) => Cause::Sink,
        Err(SinkFault::OutOfMemory) => Cause::OutOfMemory,
    }
}
