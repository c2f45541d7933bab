//! The summaries of histories.

use qc_decl::built_in;
use qc_entry::{Commit, Op};
use qc_list::{List, Marked, OutOfMemory};
use qc_msg::{AbortCause, Entry, History, Record, Reply, Step};
use qc_stamp::{Stamp, TxId};
use qc_text::summary;
use std::alloc::Global;

/// The register's invocations, and the response of a write.
const READ: u8 = 0;

const WRITE_0: u8 = 1;

const WRITE_1: u8 = 2;

const OK: u8 = 2;

/// A commit record: the actor that writes it, its stamp's clock, the client and
/// the number of its transaction, and its operations, as invocations with
/// responses.
type Row<'a> = (u8, u64, (u8, u32), &'a [(u8, Option<u8>)]);

/// The entry by which an actor writes a commit record.
fn written(alloc: Global, row: &Row<'_>) -> Result<Entry, OutOfMemory> {
    let (actor, clock, (client, number), asked) = *row;
    let mut ops = List::new(alloc);
    for (inv, resp) in asked {
        ops.push(Op {
            object: 0,
            inv: *inv,
            resp: *resp,
        })?;
    }
    Ok(Marked {
        actor,
        step: Step::Wrote(Record::Commit(Commit {
            stamp: Stamp { clock, client },
            tx: TxId {
                client,
                life: 1,
                number,
            },
            ops,
        })),
    })
}

/// The history in which commit records are written, and c0 then has these
/// replies.
fn history_of(alloc: Global, rows: &[Row<'_>], replies: &[Reply]) -> Result<History, OutOfMemory> {
    let mut history = List::new(alloc);
    for row in rows {
        history.push(written(alloc, row)?)?;
    }
    for reply in replies {
        history.push(Marked {
            actor: 3,
            step: Step::Told(*reply),
        })?;
    }
    Ok(history)
}

/// Whether the summary of the load of this count and seed over `@three`, with
/// that history, is this text.
fn is_summary(
    alloc: Global,
    load: (u32, u32),
    rows: &[Row<'_>],
    replies: &[Reply],
    want: &str,
) -> bool {
    let Ok(Some(decl)) = built_in(alloc, "@three") else {
        return false;
    };
    let Ok(history) = history_of(alloc, rows, replies) else {
        return false;
    };
    match summary(alloc, &decl, load.0, load.1, &history) {
        Ok(text) => text.as_slice() == want.as_bytes(),
        Err(_) => false,
    }
}

/// What the four transactions of a load leave.
#[test]
fn a_load_is_summed_up(rt: HostRuntime) {
    assert!(rt;
        is_summary(
            rt.alloc(),
            (4, 7),
            &[
                (3, 1, (0, 1), &[(WRITE_1, Some(OK)), (READ, Some(1))]),
                (4, 2, (1, 1), &[(WRITE_1, Some(OK)), (READ, Some(1))]),
                (5, 3, (2, 1), &[(WRITE_0, Some(OK)), (READ, Some(0))]),
                (3, 4, (0, 2), &[(WRITE_1, Some(OK)), (READ, Some(1))]),
            ],
            &[],
            "load 4 7\ncommitted 4\naborted 0\noperations 8\nwrites 4\nones 3\nlast 4.0\n",
        )
    );
}

/// A site's record doesn't count, nor does one that is written again, nor an
/// operation without a response. Of one clock, the greater client's stamp is
/// greater. Only a transaction that was to commit is told aborted.
#[test]
fn what_committed_is_counted(rt: HostRuntime) {
    assert!(rt;
        is_summary(
            rt.alloc(),
            (500, 65_536),
            &[
                (3, 2, (0, 1), &[(WRITE_0, Some(OK)), (WRITE_1, None)]),
                (4, 2, (1, 1), &[(READ, Some(1)), (READ, Some(0))]),
                (5, 1, (2, 1), &[]),
                (4, 2, (1, 1), &[(READ, Some(1)), (READ, Some(0))]),
                (0, 9, (2, 2), &[(WRITE_1, Some(OK))]),
            ],
            &[
                Reply::Aborted {
                    why: AbortCause::Doomed
                },
                Reply::Dropped
            ],
            "load 500 65536\ncommitted 3\naborted 1\noperations 3\nwrites 1\nones 1\nlast 2.1\n",
        )
    );
}

#[test]
fn nothing_committed(rt: HostRuntime) {
    assert!(rt;
        is_summary(
            rt.alloc(),
            (1, 0),
            &[],
            &[Reply::Aborted {
                why: AbortCause::Forgot { site: 0 }
            }],
            "load 1 0\ncommitted 0\naborted 1\noperations 0\nwrites 0\nones 0\nlast -\n",
        )
    );
}
