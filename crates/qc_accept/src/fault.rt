//! What is wrong with a declaration.

ghost use Rattle.std.specs.Prelude.{◌≡◌};
ghost use Rattle.qc_accept.specs.declared.fault.DeclFault.TheVariants as decl_fault;
ghost use Rattle.qc_accept.specs.declared.fault.Wrong.TheVariants as wrong;

use qc_cert::CertFault;
use qc_decl::Names;
use qc_list::{OutOfMemory, Path};
use qc_plan::PlanFault;
use qc_table::TableFault;

/// Why a declaration is refused. A cause is told in the order of these
/// variants, and `names` are the names that its text has, in the text's order,
/// an event's as `INV:RESP`. No cause but `OutOfMemory` holds an `OutOfMemory`.
#[derive(Drop)]
pub enum DeclFault {
    /// The bytes are no TOML document.
    NotToml,
    /// This field is missing or isn't of its form. The path of an unknown key
    /// has the key as it was given.
    Field {
        path: Path,
    },
    /// The rows of the type of this number, from 0, are no table.
    Table {
        kind: u8,
        fault: TableFault,
        names: Names,
    },
    /// The triples of the type of this number, from 0, don't show its relation
    /// exact.
    Cert {
        kind: u8,
        fault: CertFault,
        names: Names,
    },
    /// The plan of this epoch, from 1, isn't admitted.
    Plan {
        epoch: u8,
        fault: PlanFault,
        names: Names,
    },
    /// Memory ran out.
    OutOfMemory,
}

impl From<OutOfMemory> for DeclFault {
    ghost from_gives = { λ _ e. e ≡ decl_fault.OutOfMemory };

    fn from(_: OutOfMemory) -> DeclFault {
        DeclFault::OutOfMemory
    }
}

/// Why a field's value isn't read. Who reads a field makes a `DeclFault` of
/// it, with the field's path.
#[derive(Clone, Copy, PartialEq, Eq, Debug)]
pub(crate) enum Wrong {
    /// The value isn't of the field's form.
    Form,
    /// Memory ran out.
    OutOfMemory,
}

impl From<OutOfMemory> for Wrong {
    ghost from_gives = { λ _ e. e ≡ wrong.OutOfMemory };

    fn from(_: OutOfMemory) -> Wrong {
        Wrong::OutOfMemory
    }
}
