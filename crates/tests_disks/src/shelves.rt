//! A shelf and a sink, each through its trait.

use qc_list::OutOfMemory;
use qc_outside::{MemShelf, MemSink, Shelf, ShelfFault, Sink, SinkFault};
use std::alloc::Global;
use std::test::Fail;

/// A shelf of a file `a` of five bytes and an empty file `b`.
fn shelf_of_two(alloc: Global, fail: &[u32]) -> Result<MemShelf, OutOfMemory> {
    let mut files = Vec::new(alloc);
    files.push((b"a".to_vec(alloc)?, b"alpha".to_vec(alloc)?))?;
    files.push((b"b".to_vec(alloc)?, Vec::new(alloc)))?;
    MemShelf::new(alloc, files, fail.to_vec(alloc)?)
}

/// Whether the file has these bytes.
fn has<S: Shelf>(shelf: &mut S, name: &str, limit: u32, bytes: &[u8]) -> Result<bool, ShelfFault> {
    Ok(shelf.take(name, limit)?.as_slice() == bytes)
}

#[test]
fn shelf_gives_its_files(rt: HostRuntime) -> Result<(), Fail> {
    let mut shelf = shelf_of_two(rt.alloc(), &[5])?;
    for (name, limit, bytes, answer) in [
        ("a", 5, "alpha", Ok(true)),
        ("a", 4, "alph", Err(ShelfFault::TooLong)),
        ("b", 0, "", Ok(true)),
        ("ab", 9, "", Err(ShelfFault::Missing)),
        // The call that is to fail, and the next one.
        ("a", 5, "alpha", Err(ShelfFault::Failed)),
        ("a", 5, "alpha", Ok(true)),
    ] {
        assert_eq!(rt; has(&mut shelf, name, limit, bytes.as_bytes()), answer);
    }
    Ok(())
}

/// What a sink answers to a piece.
fn write<S: Sink>(sink: &mut S, piece: &[u8]) -> Result<(), SinkFault> {
    sink.write(piece)
}

#[test]
fn sink_keeps_what_it_takes(rt: HostRuntime) -> Result<(), Fail> {
    let alloc = rt.alloc();
    let mut sink = MemSink::new(alloc, vec![in alloc; 2]?)?;
    for (piece, answer, taken) in [
        ("ab", Ok(()), "ab"),
        ("c", Err(SinkFault::Failed), "ab"),
        ("d", Ok(()), "abd"),
    ] {
        assert_eq!(rt; write(&mut sink, piece.as_bytes()), answer);
        assert_eq!(rt; sink.taken(), taken.as_bytes());
    }
    Ok(())
}
