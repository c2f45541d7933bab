//! A text that grows at its end.

ghost use Rattle.std.specs.Prelude.{◌≡◌, [], ◌++◌, OnOk};
ghost use Rattle.qc_list.specs.Pages.{joined};

use crate::OutOfMemory;
use std::alloc::Global;
use std::marker::Model;

/// A text, seen as its bytes. After want of memory a part of what was to be
/// added may stand in it.
#[derive(Drop)]
pub struct Page {
    bytes: Vec<u8>,
}

impl Model for Page {
    ghost use Rattle.std.specs.Prelude.{List, ℕ};

    ghost Value = { List ℕ };

    ghost view = { λ p. p.bytes.items };
}

impl Page {
    /// The empty text.
    pub fn new(alloc: Global) -> Page
        ensures { result ≡ [] }
    {
        Page {
            bytes: Vec::new(alloc),
        }
    }

    /// Adds a piece.
    pub fn put(&mut self, piece: &str) -> Result<(), OutOfMemory>
        ensures { OnOk result (self.new ≡ self.old ++ piece.now) }
    {
        self.bytes.extend_from_slice(piece.as_bytes())
    }

    /// Adds pieces, one after another.
    pub fn put_all(&mut self, pieces: &[&str]) -> Result<(), OutOfMemory>
        ensures { OnOk result (self.new ≡ self.old ++ joined pieces.now) }
    {
        'pieces: for piece in pieces {
            self.put(piece)?;
        }
        Ok(())
    }

    /// The bytes.
    pub fn into_bytes(self) -> Vec<u8>
        ensures { result.items ≡ self }
    {
        let Page { bytes } = self;
        bytes
    }
}
