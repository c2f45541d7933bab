//! Whole runs in which sites and clients fall: each a story, with its script and the text that it prints. What they
//! want comes from a model that was written apart; each stands with its story in the folder of its name in
//! `examples/`.

use crate::stories::tells;

const SITE_DOWN_SCRIPT: &str = "\
phase
c0 begin
c0 do x W1
c0 commit
phase
crash s0
crash c2
c1 begin
c1 do x R
c1 commit
c2 begin
phase
crash s1
c1 begin
c1 do x R
";

const SITE_DOWN_TEXT: &str = "\
replies
c0 begin 0.1.1
c0 x W1 ok
c0 commit 1.0
c1 begin 1.1.1
c1 x R 1
c1 commit 2.1
c2 begin ! down
c1 begin 1.1.2
c1 x R ! quorum read 1 of 2
log
1.0 0.1.1 x W1 ok
2.1 1.1.1 x R 1
states
x 1
sites
s0 down
s1 down
s2 life 1 epoch 1 lines 0 held 1
";

const RESTARTED_SITE_SCRIPT: &str = "\
link c0 s1 1 again
phase
c0 begin
c0 do x W1
phase
crash s1
restart s1
c0 commit
";

const RESTARTED_SITE_TEXT: &str = "\
replies
c0 begin 0.1.1
c0 x W1 ok
c0 commit ! restarted s1 1 2
log
states
x 0
sites
s0 life 1 epoch 1 lines 0 held 0
s1 life 2 epoch 1 lines 0 held 0
s2 life 1 epoch 1 lines 0 held 0
";

const FAILED_DISK_SCRIPT: &str = "\
phase
fail s1 at 2
c0 begin
c0 do x W1
c0 commit
phase
restart s1
c0 begin
c0 do x W1
c0 commit
";

const FAILED_DISK_TEXT: &str = "\
replies
c0 begin 0.1.1
c0 x W1 ok
c0 commit ! fault s1
c0 begin 0.1.2
c0 x W1 ok
c0 commit 1.0
log
1.0 0.1.2 x W1 ok
states
x 1
sites
s0 life 1 epoch 1 lines 1 held 0
s1 life 2 epoch 1 lines 1 held 0
s2 life 1 epoch 1 lines 0 held 0
";

const CLIENT_IN_DOUBT_SCRIPT: &str = "\
phase
stop c0 at 3
c0 begin
c0 do x W1
c0 commit
phase
restart c0
c1 begin
c1 do x R
phase
c1 do x R
c1 commit
";

/// The client fell with nothing of its commit record on its disk, and its transaction didn't commit.
pub(crate) const CLIENT_IN_DOUBT_TEXT: &str = "\
replies
c0 begin 0.1.1
c0 x W1 ok
c0 commit ?
c1 begin 1.1.1
c1 x R ! conflict 0.1.1 s1
c1 x R 0
c1 commit 1.1
log
1.1 1.1.1 x R 0
states
x 0
sites
s0 life 1 epoch 1 lines 0 held 1
s1 life 1 epoch 1 lines 0 held 0
s2 life 1 epoch 1 lines 0 held 0
";

const CLIENT_THAT_IS_DOWN_SCRIPT: &str = "\
phase
c0 begin
c0 do x W1
phase
crash c0
c0 commit
c0 begin
phase
restart c0
c0 begin
c0 do x R
phase
c0 do x R
c0 commit
";

const CLIENT_THAT_IS_DOWN_TEXT: &str = "\
replies
c0 begin 0.1.1
c0 x W1 ok
c0 commit ! down
c0 begin ! down
c0 begin 0.2.1
c0 x R ! conflict 0.1.1 s0
c0 x R 0
c0 commit 1.0
log
1.0 0.2.1 x R 0
states
x 0
sites
s0 life 1 epoch 1 lines 0 held 0
s1 life 1 epoch 1 lines 0 held 0
s2 life 1 epoch 1 lines 0 held 0
";

const DECISIONS_FROM_THE_JOURNAL_SCRIPT: &str = "\
link c0 s0 3 drop
link c0 s1 3 drop
phase
c0 begin
c0 do x W1
c0 commit
phase
crash c0
restart c0
c1 begin
c1 do x R
phase
c1 do x R
c1 commit
";

const DECISIONS_FROM_THE_JOURNAL_TEXT: &str = "\
replies
c0 begin 0.1.1
c0 x W1 ok
c0 commit 1.0
c1 begin 1.1.1
c1 x R ! conflict 0.1.1 s1
c1 x R 1
c1 commit 2.1
log
1.0 0.1.1 x W1 ok
2.1 1.1.1 x R 1
states
x 1
sites
s0 life 1 epoch 1 lines 0 held 1
s1 life 1 epoch 1 lines 1 held 0
s2 life 1 epoch 1 lines 0 held 0
";

/// Sites and clients that fall, and rise with what their disks kept.
#[test]
fn sites_and_clients_that_fall(rt: HostRuntime) {
    let rows = [
        (SITE_DOWN_SCRIPT, SITE_DOWN_TEXT),
        (RESTARTED_SITE_SCRIPT, RESTARTED_SITE_TEXT),
        (FAILED_DISK_SCRIPT, FAILED_DISK_TEXT),
        (CLIENT_IN_DOUBT_SCRIPT, CLIENT_IN_DOUBT_TEXT),
        (CLIENT_THAT_IS_DOWN_SCRIPT, CLIENT_THAT_IS_DOWN_TEXT),
        (
            DECISIONS_FROM_THE_JOURNAL_SCRIPT,
            DECISIONS_FROM_THE_JOURNAL_TEXT,
        ),
    ];
    for (script, text) in rows {
        tells(&rt, rt.alloc(), script, text);
    }
}
