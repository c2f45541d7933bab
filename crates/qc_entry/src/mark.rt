//! Marks: how much of a site's log of an object a client was told.

ghost use Rattle.std.specs.Prelude.{◌≡◌};
ghost use Rattle.qc_entry.specs.Marks.{is_current};

/// A place in the order in which lines of an object joined a site's log: those
/// before it were told.
#[derive(Clone, Copy, Debug, PartialEq, Eq)]
pub struct Mark {
    /// The site's life, or 0 where nothing was told.
    pub life: u32,
    /// The epoch in which it told them.
    pub epoch: u8,
    /// The number of lines of the object that had joined since the site rose or
    /// began the epoch, whichever came later.
    pub count: u64,
}

impl Mark {
    /// The mark of who was told nothing: no site is in life 0.
    pub const NONE: Mark = Mark {
        life: 0,
        epoch: 0,
        count: 0,
    };

    /// Whether it is of this life and epoch, and of no more lines than these.
    pub(crate) fn is_current(self, life: u32, epoch: u8, count: u64) -> bool
        ensures { result ≡ is_current life epoch count self }
    {
        self.life == life && self.epoch == epoch && self.count <= count
    }
}
