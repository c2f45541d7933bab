//! What is wrong with the rows of a table.

ghost use Rattle.std.specs.Prelude.{◌≡◌};
ghost use Rattle.qc_table.specs.declared.fault.TableFault.TheVariants.{OutOfMemory};

use qc_list::OutOfMemory;

/// Why rows are no table.
#[derive(Clone, Copy, PartialEq, Eq, Debug)]
pub enum TableFault {
    /// The row of this number, from 0, is the first that names a state, an
    /// invocation or a response past its count.
    UnknownName { row: u32 },
    /// The row of this number, from 0, is the first that repeats the state,
    /// the invocation and the response of an earlier row.
    DuplicateRow { row: u32 },
    /// The rows have more distinct events than the limit.
    TooMany,
    /// Memory ran out.
    OutOfMemory,
}

impl From<OutOfMemory> for TableFault {
    ghost from_gives = { λ _ e. e ≡ OutOfMemory };

    fn from(_: OutOfMemory) -> TableFault {
        TableFault::OutOfMemory
    }
}
