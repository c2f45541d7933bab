//! Whole runs at the edges of a transaction, each a story, as in `stories.rt`.

use crate::stories::tells;

const BEGIN_TWICE_SCRIPT: &str = "phase\nc0 begin\nc0 begin\nc0 abort\nc0 commit\nc0 do x R\n";

const BEGIN_TWICE_TEXT: &str = "\
replies
c0 begin 0.1.1
c0 begin ! already 0.1.1
c0 abort ok
c0 commit ! no transaction
c0 x R ! no transaction
log
states
x 0
sites
s0 life 1 epoch 1 lines 0 held 0
s1 life 1 epoch 1 lines 0 held 0
s2 life 1 epoch 1 lines 0 held 0
";

const SEVENTEEN_OPERATIONS_SCRIPT: &str = "\
phase
c0 begin
c0 do x R
c0 do x R
c0 do x R
c0 do x R
c0 do x R
c0 do x R
c0 do x R
c0 do x R
c0 do x R
c0 do x R
c0 do x R
c0 do x R
c0 do x R
c0 do x R
c0 do x R
c0 do x R
c0 do x R
";

const SEVENTEEN_OPERATIONS_TEXT: &str = "\
replies
c0 begin 0.1.1
c0 x R 0
c0 x R 0
c0 x R 0
c0 x R 0
c0 x R 0
c0 x R 0
c0 x R 0
c0 x R 0
c0 x R 0
c0 x R 0
c0 x R 0
c0 x R 0
c0 x R 0
c0 x R 0
c0 x R 0
c0 x R 0
c0 x R ! too long
log
states
x 0
sites
s0 life 1 epoch 1 lines 0 held 1
s1 life 1 epoch 1 lines 0 held 1
s2 life 1 epoch 1 lines 0 held 0
";

const COMMIT_OF_NOTHING_SCRIPT: &str = "phase\nc0 begin\nc0 commit\n";

const COMMIT_OF_NOTHING_TEXT: &str = "\
replies
c0 begin 0.1.1
c0 commit 1.0
log
1.0 0.1.1
states
x 0
sites
s0 life 1 epoch 1 lines 0 held 0
s1 life 1 epoch 1 lines 0 held 0
s2 life 1 epoch 1 lines 0 held 0
";

const EMPTY_SCRIPT_SCRIPT: &str = "";

const EMPTY_SCRIPT_TEXT: &str = "\
replies
log
states
x 0
sites
s0 life 1 epoch 1 lines 0 held 0
s1 life 1 epoch 1 lines 0 held 0
s2 life 1 epoch 1 lines 0 held 0
";

/// The first and the last commands of a transaction, and a script without one.
#[test]
fn edges_of_a_transaction(rt: HostRuntime) {
    let rows = [
        (BEGIN_TWICE_SCRIPT, BEGIN_TWICE_TEXT),
        (SEVENTEEN_OPERATIONS_SCRIPT, SEVENTEEN_OPERATIONS_TEXT),
        (COMMIT_OF_NOTHING_SCRIPT, COMMIT_OF_NOTHING_TEXT),
        (EMPTY_SCRIPT_SCRIPT, EMPTY_SCRIPT_TEXT),
    ];
    for (script, text) in rows {
        tells(&rt, rt.alloc(), script, text);
    }
}
