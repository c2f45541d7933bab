//! A shelf in memory.

ghost use Rattle.std.specs.Prelude.{◌≡◌, ◌↔◌, IfOk, IsTrue, IsErrOf, MatchResult, option_copied, map, option_map};
ghost use Rattle.qc_outside.specs.Shelf.{IsTaken, IsRefused, ShelfRose, file_named, contents};
ghost use Rattle.qc_outside.specs.Calls.{is_next_failing, no_calls};
ghost use Rattle.qc_outside.specs.Fakes.{shelf_calls_after};

use crate::calls::Calls;
use crate::{Shelf, ShelfFault};
use qc_list::OutOfMemory;
use std::alloc::Global;
use std::marker::Model;

/// A shelf of given files, some of whose calls are to fail.
#[derive(Drop)]
pub struct MemShelf {
    alloc: Global,
    files: Vec<(Vec<u8>, Vec<u8>)>,
    calls: Calls,
}

impl Model for MemShelf {
    ghost use Rattle.qc_outside.specs.Shelf.{contents};
    ghost use Rattle.qc_outside.specs.Fakes.{ShelfInMemory};

    ghost Value = { ShelfInMemory };

    ghost view = { λ s. record { files = contents s.files.items; calls = s.calls } };
}

impl MemShelf {
    /// A shelf of these files, each a name and its bytes; of two with one name
    /// the first counts. `fail` lists the calls that are to fail, from 1.
    pub fn new(
        alloc: Global,
        files: Vec<(Vec<u8>, Vec<u8>)>,
        fail: Vec<u32>,
    ) -> Result<MemShelf, OutOfMemory>
        ensures files { IfOk result (λ s. s.files ≡ contents files.items) }
        ensures calls { IfOk result (λ s. s.calls ≡ no_calls fail.items) }
    {
        Ok(MemShelf {
            alloc,
            files,
            calls: Calls::new(fail),
        })
    }
}

/// The bytes of the first file of this name.
fn file_named<'a>(files: &'a [(Vec<u8>, Vec<u8>)], name: &str) -> Option<&'a [u8]>
    ensures { option_copied result ≡ file_named name.now (contents files.now) }
{
    for file in files {
        if file.0.as_slice() == name.as_bytes() {
            return Some(file.1.as_slice());
        }
    }
    None
}

impl Shelf for MemShelf {
    ghost use Rattle.std.specs.Prelude.{Some};

    ghost files = { λ s. Some s.files };

    ghost faults = { λ s. s.calls.faults };

    fn take(&mut self, name: &str, limit: u32) -> Result<Vec<u8>, ShelfFault>
        ensures same { self.new.files ≡ self.old.files }
        ensures content { MatchResult result
            (λ v. IsTaken (Some self.old.files) name.now limit v.items)
            (λ e. IsRefused (Some self.old.files) name.now limit e) }
        ensures cause { ShelfRose self.old.calls.faults self.new.calls.faults result }
        ensures failing { IsErrOf result ShelfFault.Failed ↔ IsTrue (is_next_failing self.old.calls) }
        ensures counted { self.new.calls ≡ shelf_calls_after result self.old.calls }
    {
        if self.calls.is_next_failing() {
            self.calls.count_fault();
            return Err(ShelfFault::Failed);
        }
        let Some(bytes) = file_named(self.files.as_slice(), name) else {
            self.calls.count_call();
            return Err(ShelfFault::Missing);
        };
        if bytes.len() > limit as usize {
            self.calls.count_call();
            return Err(ShelfFault::TooLong);
        }
        let copy = Vec::from_slice(self.alloc, bytes)?;
        self.calls.count_call();
        Ok(copy)
    }
}
