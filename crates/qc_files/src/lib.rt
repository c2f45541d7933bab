//! The real outside: the files of the system and its standard output.
//!
//! 1. A shelf of files keeps what it handed over: after each call its list has one
//!    entry more, with that name, that limit and just the answer that was given.
//! 2. What is given is no longer than its limit. What a reader holds is read to its
//!    limit and one byte further, so a longer file is told as too long, and a fault
//!    is told by the kind of the system's error alone.
//! 3. A sink keeps what its writer took, by the counts that the writer gave: the
//!    whole piece where a write is told as done, and a front of it where it failed.
//!    For each writer that tells what it holds this is just what it holds more.
//! 4. Where a call is told as failed its count of faults rose, or had come to the
//!    most that 64 bits hold. Want of memory, a file that isn't there and one that
//!    is too long leave the count; a sink wants no memory.
//! 5. A rack gives each actor a file of a folder, or a disk in memory without one, and
//!    tells nothing of what they hold. Where it tells a file as failed its count rose,
//!    to which it adds the failed calls of each disk that comes back.
//! 6. What is kept of files that are read and of the output is for proofs alone: it
//!    takes no memory. The system's files and standard output tell no proof what they
//!    hold. So no clause says that a file is opened, that it keeps what was synced, or
//!    that what standard output took is what a terminal shows; the program's stored run
//!    and its end-to-end checks show that.
//!
//! The program hands them to the top call. They stand apart from it, since a
//! check of the program reads the code of all crates.
#![tactic(auto)]

mod file_disk;
mod file_rack;
mod file_shelf;
mod handed;
mod out_sink;
mod taken;
mod whole_file;

pub use file_disk::FileDisk;
pub use file_rack::FileRack;
pub use file_shelf::FileShelf;
pub use out_sink::OutSink;
