//! Whole runs, each a story: its script and the text that it prints. What they want comes from a model that was
//! written apart; each stands with its story in the folder of its name in `examples/`.

use crate::calls::prints;
use std::alloc::Global;
use std::process::Abort;
use std::sync::Wait;
use std::thread::Threads;

const THREE_SITES_SCRIPT: &str =
    "phase\nc0 begin\nc0 do x W1\nc0 do x R\nc0 commit\nphase\nc1 begin\nc1 do x R\nc1 commit\n";

const THREE_SITES_TEXT: &str = "\
replies
c0 begin 0.1.1
c0 x W1 ok
c0 x R 1
c0 commit 1.0
c1 begin 1.1.1
c1 x R 1
c1 commit 2.1
log
1.0 0.1.1 x W1 ok, x R 1
2.1 1.1.1 x R 1
states
x 1
sites
s0 life 1 epoch 1 lines 1 held 0
s1 life 1 epoch 1 lines 1 held 0
s2 life 1 epoch 1 lines 0 held 0
";

const CONFLICT_AND_WAIT_SCRIPT: &str =
    "phase\nc0 begin\nc0 do x W1\nphase\nc1 begin\nc1 do x R\nphase\nc0 commit\nphase\nc1 do x R\nc1 commit\n";

const CONFLICT_AND_WAIT_TEXT: &str = "\
replies
c0 begin 0.1.1
c0 x W1 ok
c1 begin 1.1.1
c1 x R ! conflict 0.1.1 s1
c0 commit 1.0
c1 x R 1
c1 commit 2.1
log
1.0 0.1.1 x W1 ok
2.1 1.1.1 x R 1
states
x 1
sites
s0 life 1 epoch 1 lines 1 held 0
s1 life 1 epoch 1 lines 1 held 0
s2 life 1 epoch 1 lines 0 held 0
";

const READER_HOLDS_ITS_LOCK_SCRIPT: &str =
    "phase\nc0 begin\nc0 do x R\nphase\nc1 begin\nc1 do x W1\nc1 commit\nphase\nc0 commit\n";

const READER_HOLDS_ITS_LOCK_TEXT: &str = "\
replies
c0 begin 0.1.1
c0 x R 0
c1 begin 1.1.1
c1 x W1 ! conflict 0.1.1 s1
c1 commit ! doomed
c0 commit 1.0
log
1.0 0.1.1 x R 0
states
x 0
sites
s0 life 1 epoch 1 lines 0 held 0
s1 life 1 epoch 1 lines 0 held 0
s2 life 1 epoch 1 lines 0 held 0
";

const BLIND_WRITES_SCRIPT: &str = "\
phase
c0 begin
c0 do x W0
phase
c1 begin
c1 do x W1
phase
c0 commit
phase
c1 commit
phase
c0 begin
c0 do x R
c0 commit
";

const BLIND_WRITES_TEXT: &str = "\
replies
c0 begin 0.1.1
c0 x W0 ok
c1 begin 1.1.1
c1 x W1 ok
c0 commit 1.0
c1 commit 2.1
c0 begin 0.1.2
c0 x R 1
c0 commit 3.0
log
1.0 0.1.1 x W0 ok
2.1 1.1.1 x W1 ok
3.0 0.1.2 x R 1
states
x 1
sites
s0 life 1 epoch 1 lines 1 held 0
s1 life 1 epoch 1 lines 2 held 0
s2 life 1 epoch 1 lines 1 held 0
";

const BLIND_WRITES_TURNED_ROUND_SCRIPT: &str = "\
phase
c0 begin
c0 do x W0
phase
c1 begin
c1 do x W1
phase
c1 commit
phase
c0 commit
phase
c0 begin
c0 do x R
c0 commit
";

const BLIND_WRITES_TURNED_ROUND_TEXT: &str = "\
replies
c0 begin 0.1.1
c0 x W0 ok
c1 begin 1.1.1
c1 x W1 ok
c1 commit 1.1
c0 commit 2.0
c0 begin 0.1.2
c0 x R 0
c0 commit 3.0
log
1.1 1.1.1 x W1 ok
2.0 0.1.1 x W0 ok
3.0 0.1.2 x R 0
states
x 0
sites
s0 life 1 epoch 1 lines 1 held 0
s1 life 1 epoch 1 lines 2 held 0
s2 life 1 epoch 1 lines 1 held 0
";

/// The script's run over three sites prints this text, by one worker and by
/// four.
pub(crate) fn tells<T: Threads + Wait + Sync + Abort>(
    rt: &T,
    alloc: Global,
    script: &str,
    text: &str,
) {
    let files = [("s", script)];
    prints(rt, alloc, &["run", "@three", "s"], &files, text);
    let four = ["run", "@three", "s", "--workers", "4"];
    prints(rt, alloc, &four, &files, text);
}

/// Two clients and more over three sites: who waits for whom, and in which order they commit.
#[test]
fn clients_in_conflict_and_at_peace(rt: HostRuntime) {
    let rows = [
        (THREE_SITES_SCRIPT, THREE_SITES_TEXT),
        (CONFLICT_AND_WAIT_SCRIPT, CONFLICT_AND_WAIT_TEXT),
        (READER_HOLDS_ITS_LOCK_SCRIPT, READER_HOLDS_ITS_LOCK_TEXT),
        (BLIND_WRITES_SCRIPT, BLIND_WRITES_TEXT),
        (
            BLIND_WRITES_TURNED_ROUND_SCRIPT,
            BLIND_WRITES_TURNED_ROUND_TEXT,
        ),
    ];
    for (script, text) in rows {
        tells(&rt, rt.alloc(), script, text);
    }
}
