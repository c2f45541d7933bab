//! Whole runs over links that lose messages, each a story, as in `stories.rt`.

use crate::stories::tells;

const LOST_QUORUM_SCRIPT: &str =
    "phase\ncut c1 s0\ncut c1 s1\nc1 begin\nc1 do x R\nphase\nheal c1 s0\nheal c1 s1\nc1 do x R\nc1 commit\n";

const LOST_QUORUM_TEXT: &str = "\
replies
c1 begin 1.1.1
c1 x R ! quorum read 1 of 2
c1 x R 0
c1 commit 1.1
log
1.1 1.1.1 x R 0
states
x 0
sites
s0 life 1 epoch 1 lines 0 held 0
s1 life 1 epoch 1 lines 0 held 0
s2 life 1 epoch 1 lines 0 held 0
";

const LOST_VOTE_SCRIPT: &str =
    "link s1 c0 2 drop\nphase\nc0 begin\nc0 do x W1\nc0 commit\nphase\nc0 begin\nc0 do x W1\nc0 commit\n";

const LOST_VOTE_TEXT: &str = "\
replies
c0 begin 0.1.1
c0 x W1 ok
c0 commit ! no answer s1
c0 begin 0.1.2
c0 x W1 ok
c0 commit 1.0
log
1.0 0.1.2 x W1 ok
states
x 1
sites
s0 life 1 epoch 1 lines 1 held 0
s1 life 1 epoch 1 lines 1 held 0
s2 life 1 epoch 1 lines 0 held 0
";

const LOST_DECISIONS_SCRIPT: &str = "\
link c0 s0 3 drop
link c0 s1 3 drop
phase
c0 begin
c0 do x W1
c0 commit
phase
c1 begin
c1 do x R
phase
c1 do x R
c1 commit
";

const LOST_DECISIONS_TEXT: &str = "\
replies
c0 begin 0.1.1
c0 x W1 ok
c0 commit 1.0
c1 begin 1.1.1
c1 x R ! conflict 0.1.1 s1
c1 x R 1
c1 commit 2.1
log
1.0 0.1.1 x W1 ok
2.1 1.1.1 x R 1
states
x 1
sites
s0 life 1 epoch 1 lines 0 held 1
s1 life 1 epoch 1 lines 1 held 0
s2 life 1 epoch 1 lines 0 held 0
";

const STRAY_LINE_SCRIPT: &str = "\
link c0 s1 1 late
phase
c0 begin
c0 do x W1
c0 commit
phase
c1 begin
c1 do x R
phase
c1 do x R
c1 commit
";

const STRAY_LINE_TEXT: &str = "\
replies
c0 begin 0.1.1
c0 x W1 ok
c0 commit 1.0
c1 begin 1.1.1
c1 x R ! conflict 0.1.1 s1
c1 x R 1
c1 commit 2.1
log
1.0 0.1.1 x W1 ok
2.1 1.1.1 x R 1
states
x 1
sites
s0 life 1 epoch 1 lines 1 held 0
s1 life 1 epoch 1 lines 0 held 0
s2 life 1 epoch 1 lines 1 held 0
";

const DOUBLED_MESSAGES_SCRIPT: &str =
    "link * * * twice\nphase\nc0 begin\nc0 do x W1\nc0 do x R\nc0 commit\n";

const DOUBLED_MESSAGES_TEXT: &str = "\
replies
c0 begin 0.1.1
c0 x W1 ok
c0 x R 1
c0 commit 1.0
log
1.0 0.1.1 x W1 ok, x R 1
states
x 1
sites
s0 life 1 epoch 1 lines 1 held 0
s1 life 1 epoch 1 lines 1 held 0
s2 life 1 epoch 1 lines 0 held 0
";

/// Links that drop, double and delay messages, and are cut.
#[test]
fn networks_that_lose(rt: HostRuntime) {
    let rows = [
        (LOST_QUORUM_SCRIPT, LOST_QUORUM_TEXT),
        (LOST_VOTE_SCRIPT, LOST_VOTE_TEXT),
        (LOST_DECISIONS_SCRIPT, LOST_DECISIONS_TEXT),
        (STRAY_LINE_SCRIPT, STRAY_LINE_TEXT),
        (DOUBLED_MESSAGES_SCRIPT, DOUBLED_MESSAGES_TEXT),
    ];
    for (script, text) in rows {
        tells(&rt, rt.alloc(), script, text);
    }
}
