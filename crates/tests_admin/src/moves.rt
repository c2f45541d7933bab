//! How the sites are moved to the next epoch.

use crate::admins::check_three;
use crate::taken::{Said, Taken, WROTE_0, WROTE_1};
use qc_list::OutOfMemory;

/// What the next epoch begins with in the tests below: the line that a site told,
/// and those of what was promised and has committed.
const DECIDED: &str = "write decide 2; \
     0: install 2 clock 9 [3.2 2.1.1 1 0 2, 9.0 0.1.1 1 0 3, 9.0 0.1.1 2 0 2]; \
     1: install 2 clock 9 [3.2 2.1.1 1 0 2, 9.0 0.1.1 1 0 3, 9.0 0.1.1 2 0 2]; \
     2: install 2 clock 9 [3.2 2.1.1 1 0 2, 9.0 0.1.1 1 0 3, 9.0 0.1.1 2 0 2]; \
     else tell Fault";

const INSTALLED: &str = "0: install 2 clock 9 [3.2 2.1.1 1 0 2, 9.0 0.1.1 1 0 3, 9.0 0.1.1 2 0 2]; \
     1: install 2 clock 9 [3.2 2.1.1 1 0 2, 9.0 0.1.1 1 0 3, 9.0 0.1.1 2 0 2]; \
     2: install 2 clock 9 [3.2 2.1.1 1 0 2, 9.0 0.1.1 1 0 3, 9.0 0.1.1 2 0 2]";

/// Two of three sites close; site 0, whose answer comes last, has promised two
/// transactions, and site 1 one of them with another own line. Each client is
/// asked once, by site and then as the site told; each promise of what has
/// committed gives its lines, and the stamp's clock counts. Who has installed is
/// told once each Install is answered or lost. The same epoch is then installed
/// again.
#[test]
fn an_epoch_is_decided(rt: HostRuntime) -> Result<(), OutOfMemory> {
    check_three(
        &rt,
        rt.alloc(),
        &[
            (Taken::Epoch(2), "0: close 2; 1: close 2"),
            (
                Taken::Shut(1, 5, &[(3, 2, WROTE_0)], &[(0, 2, WROTE_0)]),
                "",
            ),
            (
                Taken::Shut(0, 7, &[], &[(1, 1, WROTE_0), (0, 1, WROTE_1)]),
                "4: ask 1.1.1; 3: ask 0.1.1",
            ),
            (Taken::Answer(21, Said::Committed(0, 9)), ""),
            (Taken::Answer(20, Said::Aborted), DECIDED),
            (Taken::Answer(41, Said::Installed), ""),
            (Taken::Lost(40), ""),
            (
                Taken::Answer(42, Said::Behind),
                "tell Moved { closed: 3, installed: 2 }",
            ),
            (Taken::Epoch(2), INSTALLED),
            (Taken::Answer(82, Said::Installed), ""),
            (Taken::Answer(80, Said::Installed), ""),
            (
                Taken::Answer(81, Said::Installed),
                "tell Moved { closed: 0, installed: 7 }",
            ),
            (Taken::Epoch(4), "tell Order { current: 2 }"),
            (Taken::Epoch(1), "tell Order { current: 2 }"),
            (Taken::Epoch(0), "tell Order { current: 2 }"),
        ],
    )
}

/// Where a site doesn't close, the next one is asked. Nobody is asked where
/// nothing is promised: the epoch is decided at once, with the greatest clock.
/// Lines that two sites told stand once.
#[test]
fn nothing_is_promised(rt: HostRuntime) -> Result<(), OutOfMemory> {
    check_three(
        &rt,
        rt.alloc(),
        &[
            (Taken::Epoch(2), "0: close 2; 1: close 2"),
            (Taken::Answer(0, Said::Fault), ""),
            (
                Taken::Shut(1, 8, &[(3, 2, WROTE_0), (4, 1, WROTE_1)], &[]),
                "2: close 2",
            ),
            (
                Taken::Shut(20, 6, &[(2, 0, WROTE_1), (3, 2, WROTE_0)], &[]),
                "write decide 2; \
                 0: install 2 clock 8 [2.0 0.1.1 1 0 3, 3.2 2.1.1 1 0 2, 4.1 1.1.1 1 0 3]; \
                 1: install 2 clock 8 [2.0 0.1.1 1 0 3, 3.2 2.1.1 1 0 2, 4.1 1.1.1 1 0 3]; \
                 2: install 2 clock 8 [2.0 0.1.1 1 0 3, 3.2 2.1.1 1 0 2, 4.1 1.1.1 1 0 3]; \
                 else tell Fault",
            ),
            (Taken::Lost(32), ""),
            (Taken::Lost(31), ""),
            (Taken::Lost(30), "tell Moved { closed: 6, installed: 0 }"),
        ],
    )
}
