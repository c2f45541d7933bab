//! Whole runs over declarations of files, each a story. What they want comes from a model that was written apart;
//! each but that of a failed vote stands with its story in the folder of its name in `examples/`.

use crate::calls::prints;

const ABSENT_AND_ITEM_DECLARATION: &str = "\
sites = 3
clients = 3

[[type]]
name = \"slot\"
states = [\"empty\", \"full\"]
start = \"empty\"
invocations = [\"Put\", \"Get\"]
responses = [\"ok\", \"item\"]
rows = [\"empty Put ok full\", \"full Get item empty\"]
depends = [\"Put Put:ok\", \"Put Get:item\", \"Get Put:ok\", \"Get Get:item\"]
triples = [\"empty empty -\", \"full full -\", \"empty full Put:ok\", \"full empty Get:item\"]

[[object]]
name = \"q\"
type = \"slot\"

[[epoch]]
weights = [1, 1, 1]
initial = [\"q Put 2\", \"q Get 2\"]
final = [\"q Put:ok 2\", \"q Get:item 2\"]
";

const ABSENT_AND_ITEM_SCRIPT: &str =
    "phase\nc0 begin\nc0 do q Get\nc0 do q Put\nc0 do q Get\nc0 commit\n";

const ABSENT_AND_ITEM_TEXT: &str = "\
replies
c0 begin 0.1.1
c0 q Get ! absent
c0 q Put ok
c0 q Get item
c0 commit 1.0
log
1.0 0.1.1 q Get absent, q Put ok, q Get item
states
q empty
sites
s0 life 1 epoch 1 lines 2 held 0
s1 life 1 epoch 1 lines 2 held 0
s2 life 1 epoch 1 lines 0 held 0
";

const FAILED_VOTE_SCRIPT: &str = "phase\nfail s1 at 2\nc0 begin\nc0 do q Put\nc0 commit\n";

const FAILED_VOTE_TEXT: &str = "\
replies
c0 begin 0.1.1
c0 q Put ok
c0 commit ! fault s1
log
states
q empty
sites
s0 life 1 epoch 1 lines 0 held 0
s1 down
s2 life 1 epoch 1 lines 0 held 0
";

const LATE_STAMP_DECLARATION: &str = "\
sites = 3
clients = 3

[[type]]
name = \"register\"
states = [\"0\", \"1\"]
start = \"0\"
invocations = [\"R\", \"W0\", \"W1\"]
responses = [\"0\", \"1\", \"ok\"]
rows = [\"0 R 0 0\", \"1 R 1 1\", \"0 W0 ok 0\", \"1 W0 ok 0\", \"0 W1 ok 1\", \"1 W1 ok 1\"]
depends = [\"R W0:ok\", \"R W1:ok\"]
triples = [\"0 0 -\", \"0 1 W1:ok\", \"1 1 -\", \"1 0 W0:ok\"]

[[object]]
name = \"x\"
type = \"register\"

[[epoch]]
weights = [1, 1, 1]
initial = [\"x R 3\"]
final = [\"x W0:ok 1\", \"x W1:ok 1\"]
";

const LATE_STAMP_SCRIPT: &str = "\
phase
c1 begin
c1 do x W1
c1 commit
phase
c1 begin
c1 do x W1
c1 commit
phase
c0 begin
c0 do x W0
c0 commit
phase
c0 begin
c0 do x R
c0 commit
";

const LATE_STAMP_TEXT: &str = "\
replies
c1 begin 1.1.1
c1 x W1 ok
c1 commit 1.1
c1 begin 1.1.2
c1 x W1 ok
c1 commit 2.1
c0 begin 0.1.1
c0 x W0 ok
c0 commit 1.0
c0 begin 0.1.2
c0 x R 1
c0 commit 3.0
log
1.0 0.1.1 x W0 ok
1.1 1.1.1 x W1 ok
2.1 1.1.2 x W1 ok
3.0 0.1.2 x R 1
states
x 1
sites
s0 life 1 epoch 1 lines 1 held 0
s1 life 1 epoch 1 lines 2 held 0
s2 life 1 epoch 1 lines 0 held 0
";

const TWO_OBJECTS_DECLARATION: &str = "\
sites = 1
clients = 1

[[type]]
name = \"flag\"
states = [\"free\", \"taken\"]
start = \"free\"
invocations = [\"TAS\", \"Reset\"]
responses = [\"0\", \"1\", \"ok\"]
rows = [\"free TAS 0 taken\", \"taken TAS 1 taken\", \"free Reset ok free\", \"taken Reset ok free\"]
depends = [\"TAS TAS:0\", \"TAS Reset:ok\"]
triples = [\"free free -\", \"free taken TAS:0\", \"taken taken -\", \"taken free Reset:ok\"]

[[type]]
name = \"queue\"
states = [\"0\", \"1\", \"2\"]
start = \"0\"
invocations = [\"Enq\", \"Deq\"]
responses = [\"ok\", \"full\", \"item\", \"none\"]
rows = [\"0 Enq ok 1\", \"1 Enq ok 2\", \"2 Enq full 2\", \"0 Deq none 0\", \"1 Deq item 0\", \"2 Deq item 1\"]
depends = [\"Deq Enq:ok\", \"Deq Deq:item\", \"Enq Enq:ok\", \"Enq Deq:item\"]
triples = [
    \"0 0 -\", \"0 1 Enq:ok\", \"1 1 -\", \"0 2 Enq:ok\", \"1 2 Enq:ok\",
    \"1 0 Deq:item\", \"2 2 -\", \"2 1 Deq:item\", \"2 0 Deq:item\",
]

[[object]]
name = \"lock\"
type = \"flag\"

[[object]]
name = \"jobs\"
type = \"queue\"

[[epoch]]
weights = [1]
initial = [\"lock TAS 1\", \"jobs Enq 1\", \"jobs Deq 1\"]
final = [\"lock TAS:0 1\", \"lock Reset:ok 1\", \"jobs Enq:ok 1\", \"jobs Deq:item 1\"]
";

const TWO_OBJECTS_SCRIPT: &str = "\
phase
c0 begin
c0 do lock TAS
c0 do jobs Enq
c0 commit
phase
c0 begin
c0 do jobs Enq
c0 do lock TAS
c0 abort
phase
c0 begin
c0 do jobs Deq
c0 do jobs Deq
c0 do lock Reset
c0 commit
";

const TWO_OBJECTS_TEXT: &str = "\
replies
c0 begin 0.1.1
c0 lock TAS 0
c0 jobs Enq ok
c0 commit 1.0
c0 begin 0.1.2
c0 jobs Enq ok
c0 lock TAS 1
c0 abort ok
c0 begin 0.1.3
c0 jobs Deq item
c0 jobs Deq none
c0 lock Reset ok
c0 commit 2.0
log
1.0 0.1.1 lock TAS 0, jobs Enq ok
2.0 0.1.3 jobs Deq item, jobs Deq none, lock Reset ok
states
lock free
jobs 0
sites
s0 life 1 epoch 1 lines 4 held 0
";

const ONE_DO_DECLARATION: &str = "\
sites = 3
clients = 2

[[type]]
name = \"flag\"
states = [\"0\", \"1\"]
start = \"0\"
invocations = [\"TAS\", \"Reset\"]
responses = [\"0\", \"1\", \"ok\"]
rows = [\"0 TAS 0 1\", \"1 TAS 1 1\", \"0 Reset ok 0\", \"1 Reset ok 0\"]
depends = [\"TAS TAS:0\", \"TAS Reset:ok\"]
triples = [\"0 0 -\", \"0 1 TAS:0\", \"1 1 -\", \"1 0 Reset:ok\"]

[[object]]
name = \"f\"
type = \"flag\"

[[epoch]]
weights = [1, 1, 1]
initial = [\"f TAS 2\"]
final = [\"f TAS:0 2\", \"f Reset:ok 2\"]
";

const ONE_DO_SCRIPT: &str = "link c0 s1 1 drop\nphase\nc0 begin\nc0 do f TAS\nc0 commit\n";

const ONE_DO_TEXT: &str = "\
replies
c0 begin 0.1.1
c0 f TAS 0
c0 commit 1.0
log
1.0 0.1.1 f TAS 0
states
f 1
sites
s0 life 1 epoch 1 lines 1 held 0
s1 life 1 epoch 1 lines 1 held 0
s2 life 1 epoch 1 lines 0 held 0
";

/// Two objects, a slot that is empty, a disk that fails at a vote, a fast write that a slow reader passes, and one
/// operation that loses a request.
#[test]
fn runs_over_declarations_of_files(rt: HostRuntime) {
    let rows = [
        (
            ABSENT_AND_ITEM_DECLARATION,
            ABSENT_AND_ITEM_SCRIPT,
            ABSENT_AND_ITEM_TEXT,
        ),
        (
            ABSENT_AND_ITEM_DECLARATION,
            FAILED_VOTE_SCRIPT,
            FAILED_VOTE_TEXT,
        ),
        (LATE_STAMP_DECLARATION, LATE_STAMP_SCRIPT, LATE_STAMP_TEXT),
        (
            TWO_OBJECTS_DECLARATION,
            TWO_OBJECTS_SCRIPT,
            TWO_OBJECTS_TEXT,
        ),
        (ONE_DO_DECLARATION, ONE_DO_SCRIPT, ONE_DO_TEXT),
    ];
    for (decl, script, text) in rows {
        let files = [("d", decl), ("s", script)];
        prints(&rt, rt.alloc(), &["run", "d", "s"], &files, text);
    }
}
