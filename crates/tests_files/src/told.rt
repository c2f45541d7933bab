//! What is told of a script that isn't read: a line, and status 3.

use qc_report::{Cause, cause_text};
use qc_script::{LineKind, ScriptFault};
use std::test::Fail;

#[test]
fn refused_lines_are_told(rt: HostRuntime) -> Result<(), Fail> {
    for (number, kind, want) in [
        (1, LineKind::Words, "quorum: script: line 1: words\n"),
        (20, LineKind::Name, "quorum: script: line 20: name\n"),
        (
            349_525,
            LineKind::Number,
            "quorum: script: line 349525: number\n",
        ),
        (
            1_048_577,
            LineKind::Place,
            "quorum: script: line 1048577: place\n",
        ),
    ] {
        let cause = Cause::Script(ScriptFault::Line { number, kind });
        assert_eq!(rt; cause.status(), 3, "at {want}");
        let text = cause_text(rt.alloc(), &cause)?;
        assert_eq!(rt; text.as_slice(), want.as_bytes(), "at {want}");
    }
    Ok(())
}

/// Want of memory is told as of any other call.
#[test]
fn want_of_memory_is_told(rt: HostRuntime) -> Result<(), Fail> {
    let cause = Cause::Script(ScriptFault::OutOfMemory);
    assert_eq!(rt; cause.status(), 8);
    let text = cause_text(rt.alloc(), &cause)?;
    assert_eq!(rt; text.as_slice(), b"quorum: out of memory\n".as_slice());
    Ok(())
}
