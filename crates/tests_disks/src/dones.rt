//! A Done with any value in any of its bytes, beside a rule that reads its
//! numbers by the standard library.

use crate::bytes::DONE;
use qc_msg::Record;
use qc_record::{RecordFault, read_bytes};
use qc_stamp::TxId;

/// The transaction and the clock, or the place of the fault.
type Read = Result<(TxId, u64), u32>;

/// What the bytes behind the kind are to be read as.
fn due(b: &[u8; 18]) -> Read {
    let tx = TxId {
        client: b[1],
        life: u32::from_be_bytes([b[2], b[3], b[4], b[5]]),
        number: u32::from_be_bytes([b[6], b[7], b[8], b[9]]),
    };
    let clock = u64::from_be_bytes([b[10], b[11], b[12], b[13], b[14], b[15], b[16], b[17]]);
    if tx.client > 15 {
        return Err(1);
    }
    if tx.life == 0 {
        return Err(2);
    }
    if tx.number == 0 {
        return Err(6);
    }
    if clock == 0 || clock > 4_611_686_018_427_387_904 {
        return Err(10);
    }
    Ok((tx, clock))
}

/// What they are read as; `u32::MAX` is no place.
fn read(rt: HostRuntime, bytes: &[u8; 18]) -> Read {
    match read_bytes(rt.alloc(), bytes) {
        Ok(Record::Done { tx, clock }) => Ok((tx, clock)),
        Err(RecordFault::Torn { offset }) => Err(offset),
        _ => Err(u32::MAX),
    }
}

#[test]
fn any_byte(rt: HostRuntime) {
    for at in 1..18 {
        for value in 0..=255 {
            let mut bytes = DONE;
            bytes[at] = value;
            assert_eq!(rt; read(rt, &bytes), due(&bytes));
        }
    }
}
