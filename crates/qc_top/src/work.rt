//! What a call has to do, by its words and what the shelf answered.

ghost use Rattle.std.specs.Prelude.{◌≡◌, ◌≤◌, false, IfErr, IfOk, Err, Ok, length};
ghost use Rattle.std.specs.Option.{option_map_or};
ghost use Rattle.qc_decl.specs.Accepted.{IsAccepted};
ghost use Rattle.qc_decl.specs.Named.{IsNamed};
ghost use Rattle.qc_decl.specs.One.{built_in_of, three};
ghost use Rattle.qc_script.specs.Grammar.{script_of};
ghost use Rattle.qc_top.specs.Answers.{IsShort, most_script_bytes};
ghost use Rattle.qc_top.specs.Source.{GivesSource, IsKnown, spelled_by};
ghost use Rattle.qc_top.specs.Work.{Gives, IsRefusal, accept_work, and_then, bytes_of, cause_of_shelf, load_work};
ghost use Rattle.qc_top.specs.Work.{run_of, script_work, spelled_in, unless_a_line_is, unless_refused, work_of};
ghost use Rattle.qc_words.specs.Askable.{IsAskable};
ghost use Rattle.qc_words.specs.Asked.{asked_in};
ghost use Rattle.qc_words.specs.Limits.{greatest_seed, most_transactions};

use crate::answers::{Answer, Answers, is_built_in};
use qc_accept::{DeclFault, accept};
use qc_decl::{Declaration, built_in};
use qc_gen::load_script;
use qc_list::List;
use qc_outside::ShelfFault;
use qc_report::Cause;
use qc_script::{Script, ScriptFault, read_script};
use qc_words::Errand;
use std::alloc::Global;

/// What a call has to do.
#[derive(Drop)]
pub enum Work {
    /// To say that this declaration is accepted.
    Accept(Declaration),
    /// To run this script over this declaration, and to print this of it.
    Run(Declaration, Script, Output),
}

/// What is to be printed of a run.
#[derive(Clone, Copy)]
pub enum Output {
    /// Its text.
    Text,
    /// Its summary, as the load of so many transactions from this seed.
    Summary {
        /// How many transactions.
        count: u32,
        /// The seed.
        seed: u32,
    },
}

/// Where a declaration stands.
#[derive(Drop)]
pub(crate) enum Source {
    /// It is built in.
    BuiltIn(Declaration),
    /// These bytes of a file are to spell it.
    Bytes(List<u8>),
}

/// What a call has to do by what its words ask, or the cause for which it has
/// nothing to do. A file that wasn't given comes before what the files hold.
pub(crate) fn work_for(alloc: Global, asked: Errand<'_>, answers: Answers) -> Result<Work, Cause>
    requires askable { IsAskable (asked_in asked) }
    requires short { IsShort answers.script }
    ensures work { Gives (work_of (asked_in asked.entry) answers) result }
    ensures refusal { IfErr result IsRefusal }
{
    let Answers { decl, script } = answers;
    match asked {
        Errand::Check { decl: name } => accept_at(alloc, name, decl),
        Errand::Run { decl: name, .. } => run_at(alloc, name, decl, script),
        Errand::Load { count, seed, .. } => load_work(alloc, count, seed),
    }
}

/// To say that the declaration of this name is accepted.
fn accept_at(alloc: Global, name: &str, answer: Answer) -> Result<Work, Cause>
    ensures work { Gives (and_then accept_work (spelled_in name.now answer)) result }
    ensures refusal { IfErr result IsRefusal }
{
    let source = source_at(alloc, name, answer)?;
    Ok(Work::Accept(declaration(alloc, source)?))
}

/// The run of the script that was given, over the declaration of this name.
fn run_at(alloc: Global, name: &str, answer: Answer, script: Answer) -> Result<Work, Cause>
    requires short { IsShort script }
    ensures work { Gives (and_then (script_work script) (spelled_in name.now answer)) result }
    ensures refusal { IfErr result IsRefusal }
{
    let source = source_at(alloc, name, answer)?;
    script_work(alloc, source, script)
}

/// The run of a load of so many transactions from this seed, over `@three`.
fn load_work(alloc: Global, count: u32, seed: u32) -> Result<Work, Cause>
    requires few { count ≤ most_transactions }
    requires within { seed ≤ greatest_seed }
    ensures work { Gives (Ok (load_work count seed)) result }
    ensures refusal { IfErr result IsRefusal }
{
    let decl = three(alloc)?;
    let Ok(text) = load_script(alloc, count, seed) else {
        return Err(Cause::OutOfMemory);
    };
    let script = script_in(alloc, &decl, text.as_slice())?;
    Ok(Work::Run(decl, script, Output::Summary { count, seed }))
}

/// The declaration `@three`.
fn three(alloc: Global) -> Result<Declaration, Cause>
    ensures three { Gives (Ok three) result }
    ensures accepted { IfOk result IsAccepted }
    ensures named { IfOk result IsNamed }
    ensures refusal { IfErr result IsRefusal }
{
    match built_in(alloc, "@three") {
        Ok(Some(decl)) => Ok(decl),
        Ok(None) => unreachable!(),
        Err(_) => Err(Cause::OutOfMemory),
    }
}

/// Where the declaration of this name stands. A name that begins with `@` is no
/// file's; an unknown one of them is missing as a file is.
fn source_at(alloc: Global, name: &str, answer: Answer) -> Result<Source, Cause>
    ensures source { GivesSource (spelled_in name.now answer) result }
    ensures known { IfOk result IsKnown }
    ensures refusal { IfErr result IsRefusal }
{
    if is_built_in(name) {
        return built_in_source(alloc, name);
    }
    Ok(Source::Bytes(bytes_of(false, answer)?))
}

/// The built-in declaration of this name.
fn built_in_source(alloc: Global, name: &str) -> Result<Source, Cause>
    ensures source { GivesSource (option_map_or (λ d. Ok (Ok d)) (built_in_of name.now)
        (Err (Cause.Shelf false ShelfFault.Missing))) result }
    ensures known { IfOk result IsKnown }
    ensures refusal { IfErr result IsRefusal }
{
    match built_in(alloc, name) {
        Ok(Some(decl)) => Ok(Source::BuiltIn(decl)),
        Ok(None) => Err(Cause::Shelf {
            script: false,
            fault: ShelfFault::Missing,
        }),
        Err(_) => Err(Cause::OutOfMemory),
    }
}

/// The bytes of a file, a script's or a declaration's.
fn bytes_of(script: bool, answer: Answer) -> Result<List<u8>, Cause>
    ensures bytes { result ≡ bytes_of script answer }
    ensures refusal { IfErr result IsRefusal }
{
    match answer {
        Ok(bytes) => Ok(bytes),
        Err(fault) => Err(shelf_cause(script, fault)),
    }
}

/// The cause of a file that wasn't given. Want of memory is no fault of the
/// shelf.
fn shelf_cause(script: bool, fault: ShelfFault) -> Cause
    ensures cause { result ≡ cause_of_shelf script fault }
    ensures refusal { IsRefusal result }
{
    match fault {
        ShelfFault::OutOfMemory => Cause::OutOfMemory,
        ShelfFault::Missing | ShelfFault::TooLong | ShelfFault::Failed => {
            Cause::Shelf { script, fault }
        }
    }
}

/// The declaration that stands there, unless it is refused.
fn declaration(alloc: Global, source: Source) -> Result<Declaration, Cause>
    requires { IsKnown source }
    ensures declaration { Gives (unless_refused (spelled_by source)) result }
    ensures accepted { IfOk result IsAccepted }
    ensures named { IfOk result IsNamed }
    ensures refusal { IfErr result IsRefusal }
{
    match source {
        Source::BuiltIn(decl) => Ok(decl),
        Source::Bytes(bytes) => match accept(alloc, bytes.items()) {
            Ok(decl) => Ok(decl),
            Err(DeclFault::OutOfMemory) => Err(Cause::OutOfMemory),
            Err(fault) => Err(Cause::Declaration(fault)),
        },
    }
}

/// The run of the script that was given, over the declaration that stands
/// there.
fn script_work(alloc: Global, source: Source, answer: Answer) -> Result<Work, Cause>
    requires known { IsKnown source }
    requires short { IsShort answer }
    ensures work { Gives (script_work answer (spelled_by source)) result }
    ensures refusal { IfErr result IsRefusal }
{
    let bytes = bytes_of(true, answer)?;
    let decl = declaration(alloc, source)?;
    run_of(alloc, decl, bytes.items())
}

/// The run of the script that these bytes spell.
fn run_of(alloc: Global, decl: Declaration, bytes: &[u8]) -> Result<Work, Cause>
    requires accepted { IsAccepted decl }
    requires named { IsNamed decl }
    requires short { length bytes.now ≤ most_script_bytes }
    ensures work { Gives (run_of decl bytes.now) result }
    ensures refusal { IfErr result IsRefusal }
{
    let script = script_in(alloc, &decl, bytes)?;
    Ok(Work::Run(decl, script, Output::Text))
}

/// The script that these bytes spell, unless a line of it is refused.
fn script_in(alloc: Global, decl: &Declaration, bytes: &[u8]) -> Result<Script, Cause>
    requires accepted { IsAccepted decl.now }
    requires named { IsNamed decl.now }
    requires short { length bytes.now ≤ most_script_bytes }
    ensures script { Gives (unless_a_line_is (script_of decl.now bytes.now)) result }
    ensures refusal { IfErr result IsRefusal }
{
    match read_script(alloc, bytes, decl) {
        Ok(script) => Ok(script),
        Err(ScriptFault::Line { number, kind }) => {
            Err(Cause::Script(ScriptFault::Line { number, kind }))
        }
        Err(ScriptFault::OutOfMemory) => Err(Cause::OutOfMemory),
    }
}
