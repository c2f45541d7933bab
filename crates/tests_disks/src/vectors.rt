//! Bytes from outside, which are read as records and written again, and their
//! cuts.

use crate::bytes::{CLOSE, COMMIT, DECIDE, DONE, INSTALL, LIFE, PREPARE, Reading, told};
use qc_msg::Record;
use qc_record::read_bytes;
use std::test::*;

const VECTORS: [&[u8]; 7] = [&LIFE, &PREPARE, &DONE, &CLOSE, &INSTALL, &COMMIT, &DECIDE];

#[test]
fn written_again(rt: HostRuntime) {
    for bytes in VECTORS {
        assert_eq!(rt; told(rt, bytes), Reading::Taken);
    }
}

#[test]
fn each_cut(rt: HostRuntime) {
    for bytes in VECTORS {
        for (end, _) in bytes.iter().enumerate() {
            let (front, _) = bytes.split_at(end);
            assert_eq!(rt; told(rt, front), Reading::Torn(end as u32));
        }
    }
}

#[test]
fn fields_of_a_commit(rt: HostRuntime) -> Result<(), Fail> {
    let Some(Record::Commit(commit)) = read_bytes(rt.alloc(), &COMMIT).ok() else {
        return Err("a commit".into());
    };
    assert_eq!(rt; commit.stamp.clock, 1);
    assert_eq!(rt; commit.tx.number, 1);
    assert_eq!(rt; commit.ops.items().len(), 2);
    Ok(())
}
