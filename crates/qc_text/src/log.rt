//! The section of the log.

ghost use Rattle.std.specs.Prelude.{◌≡◌, ◌++◌, OnOk, codes};
ghost use Rattle.qc_text.specs.Log.{outcome_text, op_text, ops_text, commit_line, log_text};

use crate::names::{invocation_name, object_name, response_name};
use crate::piece::{Piece, put_all};
use qc_decl::Declaration;
use qc_entry::{Commit, Op};
use qc_list::{OutOfMemory, Page};

/// Adds the section of the log.
pub(crate) fn put_log(
    page: &mut Page,
    decl: &Declaration,
    commits: &[Commit],
) -> Result<(), OutOfMemory>
    ensures { OnOk result (page.new ≡ page.old ++ log_text decl.now commits.now) }
{
    page.put("log\n")?;
    'commits: for commit in commits {
        put_commit(page, decl, commit)?;
    }
    Ok(())
}

/// Adds a transaction's line.
fn put_commit(page: &mut Page, decl: &Declaration, commit: &Commit) -> Result<(), OutOfMemory>
    ensures { OnOk result (page.new ≡ page.old ++ commit_line decl.now commit.now) }
{
    put_all(
        page,
        &[
            Piece::Stamp(commit.stamp),
            Piece::Words(" "),
            Piece::Transaction(commit.tx),
        ],
    )?;
    put_ops(page, decl, commit.ops.items())?;
    page.put("\n")?;
    Ok(())
}

/// Adds operations: a space before the first, a comma before each other one.
fn put_ops(page: &mut Page, decl: &Declaration, ops: &[Op]) -> Result<(), OutOfMemory>
    ensures { OnOk result (page.new ≡ page.old ++ ops_text decl.now (codes " ") ops.now) }
{
    let mut before = " ";
    'ops: for op in ops {
        put_op(page, before, decl, op)?;
        before = ", ";
    }
    Ok(())
}

/// Adds some words and an operation.
fn put_op<'a>(
    page: &mut Page,
    before: &'a str,
    decl: &'a Declaration,
    op: &Op,
) -> Result<(), OutOfMemory>
    ensures { OnOk result (page.new ≡ page.old ++ op_text decl.now before.now op.now) }
{
    put_all(
        page,
        &[
            Piece::Words(before),
            Piece::Words(object_name(decl, op.object as usize)),
            Piece::Words(" "),
            Piece::Words(invocation_name(decl, op.object as usize, op.inv)),
            Piece::Words(" "),
            Piece::Words(outcome_text(decl, op)),
        ],
    )
}

/// The name of an operation's response.
fn outcome_text<'a>(decl: &'a Declaration, op: &Op) -> &'a str
    ensures { result.now ≡ outcome_text decl.now op.now.object op.now.resp }
{
    match op.resp {
        Some(resp) => response_name(decl, op.object as usize, resp),
        None => "absent",
    }
}
