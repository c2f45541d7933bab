//! What is printed of the run of a load.

ghost use Rattle.std.specs.Prelude.{◌≡◌, ◌++◌, IfOk, OnOk, codes, count_by};
ghost use Rattle.qc_text.specs.Summary.{greatest_stamp, has_response, is_answered, is_asked, is_one, is_write};
ghost use Rattle.qc_text.specs.Summary.{last_line, load_line, number_line, operations_text, ops_of, summary_of};
ghost use Rattle.qc_text.specs.Summary.{tells_aborted};

use crate::committed::committed;
use crate::names::{invocation_name, response_name};
use crate::piece::{Piece, put_all};
use qc_decl::Declaration;
use qc_entry::{Commit, Op};
use qc_list::{OutOfMemory, Page};
use qc_msg::{Entry, History, Reply, Step};
use qc_stamp::Stamp;
use std::alloc::Global;

/// What is printed of the run of the load of this count and seed over its
/// declaration: how many transactions committed, and how many were told aborted;
/// how many operations of those that committed have a response, how many of
/// these are writes, and how many reads of a 1; and the greatest stamp. The only
/// error is want of memory.
pub fn summary(
    alloc: Global,
    decl: &Declaration,
    count: u32,
    seed: u32,
    history: &History,
) -> Result<Vec<u8>, OutOfMemory>
    ensures { IfOk result (λ v. v.items ≡ summary_of decl.now count seed history.now) }
{
    let entries = history.items();
    let commits = committed(alloc, decl, entries)?;
    let ops = ops_of(alloc, &commits)?;
    let mut page = Page::new(alloc);
    put_load(&mut page, count, seed)?;
    put_number(&mut page, "committed ", commits.len())?;
    put_number(&mut page, "aborted ", aborted(entries))?;
    put_operations(&mut page, decl, &ops)?;
    put_last(&mut page, greatest_stamp(&commits))?;
    Ok(page.into_bytes())
}

/// Adds how many operations have a response, how many of these are writes, and
/// how many reads of a 1.
fn put_operations(page: &mut Page, decl: &Declaration, ops: &[Op]) -> Result<(), OutOfMemory>
    ensures { OnOk result (page.new ≡ page.old ++ operations_text decl.now ops.now) }
{
    put_number(page, "operations ", responses(ops))?;
    put_number(page, "writes ", writes(decl, ops))?;
    put_number(page, "ones ", ones(decl, ops))?;
    Ok(())
}

/// Adds what was asked.
fn put_load(page: &mut Page, count: u32, seed: u32) -> Result<(), OutOfMemory>
    ensures { OnOk result (page.new ≡ page.old ++ load_line count seed) }
{
    put_all(
        page,
        &[
            Piece::Words("load "),
            Piece::Number(count as u64),
            Piece::Words(" "),
            Piece::Number(seed as u64),
            Piece::Words("\n"),
        ],
    )
}

/// Adds a line of a word and a number.
fn put_number(page: &mut Page, word: &str, number: usize) -> Result<(), OutOfMemory>
    ensures { OnOk result (page.new ≡ page.old ++ number_line word.now number) }
{
    put_all(
        page,
        &[
            Piece::Words(word),
            Piece::Number(number as u64),
            Piece::Words("\n"),
        ],
    )
}

/// How many transactions were told aborted.
fn aborted(entries: &[Entry]) -> usize
    ensures { result ≡ count_by tells_aborted entries.now }
{
    let mut count = 0;
    'entries: for entry in entries {
        if tells_aborted(entry) {
            count += 1;
        }
    }
    count
}

/// Whether an actor tells that a transaction aborted.
fn tells_aborted(entry: &Entry) -> bool
    ensures { result ≡ tells_aborted entry.now }
{
    matches!(&entry.step, Step::Told(Reply::Aborted { .. }))
}

/// The operations of transactions.
fn ops_of(alloc: Global, commits: &[Commit]) -> Result<Vec<Op>, OutOfMemory>
    ensures { IfOk result (λ v. v.items ≡ ops_of commits.now) }
{
    let mut ops = Vec::new(alloc);
    'commits: for commit in commits {
        ops.extend_from_slice(commit.ops.items())?;
    }
    Ok(ops)
}

/// How many operations have a response.
fn responses(ops: &[Op]) -> usize
    ensures { result ≡ count_by has_response ops.now }
{
    ops.iter().filter(|op| op.resp.is_some()).count()
}

/// How many operations are writes.
fn writes(decl: &Declaration, ops: &[Op]) -> usize
    ensures { result ≡ count_by (is_write decl.now) ops.now }
{
    ops.iter().filter(|op| is_write(decl, op)).count()
}

/// How many operations are reads of a 1.
fn ones(decl: &Declaration, ops: &[Op]) -> usize
    ensures { result ≡ count_by (is_one decl.now) ops.now }
{
    ops.iter().filter(|op| is_one(decl, op)).count()
}

/// Whether an operation wrote a bit.
fn is_write(decl: &Declaration, op: &Op) -> bool
    ensures { result ≡ is_write decl.now op.now }
{
    op.resp.is_some() && (is_asked(decl, "W0", op) || is_asked(decl, "W1", op))
}

/// Whether an operation read a 1.
fn is_one(decl: &Declaration, op: &Op) -> bool
    ensures { result ≡ is_one decl.now op.now }
{
    is_asked(decl, "R", op) && is_answered(decl, "1", op)
}

/// Whether an operation's invocation has this name.
fn is_asked(decl: &Declaration, name: &str, op: &Op) -> bool
    ensures { result ≡ is_asked decl.now name.now op.now }
{
    invocation_name(decl, op.object as usize, op.inv) == name
}

/// Whether an operation has a response of this name.
fn is_answered(decl: &Declaration, name: &str, op: &Op) -> bool
    ensures { result ≡ is_answered decl.now name.now op.now }
{
    match op.resp {
        Some(resp) => response_name(decl, op.object as usize, resp) == name,
        None => false,
    }
}

/// The greatest stamp of transactions.
fn greatest_stamp(commits: &[Commit]) -> Option<Stamp>
    ensures { result ≡ greatest_stamp commits.now }
{
    let mut greatest: Option<Stamp> = None;
    'commits: for commit in commits {
        greatest = match greatest {
            Some(stamp) => Some(stamp.max(commit.stamp)),
            None => Some(commit.stamp),
        };
    }
    greatest
}

/// Adds the greatest stamp, and `-` where there is none.
fn put_last(page: &mut Page, greatest: Option<Stamp>) -> Result<(), OutOfMemory>
    ensures { OnOk result (page.new ≡ page.old ++ last_line greatest) }
{
    match greatest {
        Some(stamp) => put_all(
            page,
            &[
                Piece::Words("last "),
                Piece::Stamp(stamp),
                Piece::Words("\n"),
            ],
        ),
        None => page.put("last -\n"),
    }
}
