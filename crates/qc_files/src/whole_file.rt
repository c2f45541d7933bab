//! A file of the system that is to hold all that was written to it.

use std::alloc::Global;
use std::fs::OpenFile;
use std::io::{self, ErrorKind, Read, Seek, SeekFrom, Write};

/// A file, and where the last of what was written to it ends. Where the file is found
/// shorter as it is written or read, as another process may make it, the call fails:
/// what is missing would else read as a journal of fewer records.
#[derive(Drop)]
pub(crate) struct WholeFile<F: Drop> {
    file: F,
    end: u64,
}

impl<F: Read + Write + Seek + OpenFile + Drop> WholeFile<F> {
    /// A file to which nothing was written yet.
    pub(crate) fn new(file: F) -> WholeFile<F> {
        WholeFile { file, end: 0 }
    }

    /// How many bytes it holds. Its end is sought, since a system may make a write
    /// that follows a question for its metadata dearer to sync.
    pub(crate) fn len(&mut self) -> io::Result<u64> {
        let len = self.file.seek(SeekFrom::End(0))?;
        if len < self.end {
            return Err(ErrorKind::UnexpectedEof.into());
        }
        Ok(len)
    }

    /// At most `count` bytes of it from `at` on.
    pub(crate) fn read(&mut self, alloc: Global, at: u64, count: u32) -> io::Result<Vec<u8>> {
        self.len()?;
        let mut bytes = Vec::new(alloc);
        self.file.seek(SeekFrom::Start(at))?;
        Read::by_ref(&mut self.file)
            .take(u64::from(count))
            .read_to_end(&mut bytes)?;
        Ok(bytes)
    }

    /// Writes bytes into it from `at` on.
    pub(crate) fn write(&mut self, at: u64, bytes: &[u8]) -> io::Result<()> {
        self.len()?;
        self.file.seek(SeekFrom::Start(at))?;
        self.file.write_all(bytes)?;
        self.end = self.end.max(at.saturating_add(bytes.len() as u64));
        Ok(())
    }

    /// Has the system keep what was written.
    pub(crate) fn sync(&self) -> io::Result<()> {
        self.file.sync_all()
    }
}
