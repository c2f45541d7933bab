//! Names by their numbers.

ghost use Rattle.std.specs.Prelude.{◌≡◌};
ghost use Rattle.qc_decl.specs.Names.{name_at};

use crate::declaration::Names;

/// The name with this number, and no byte where there is none.
pub fn name_at(names: &Names, place: usize) -> &str
    ensures { result.now ≡ name_at names.now place }
{
    match names.items().get(place) {
        Some(name) => name.text(),
        None => "",
    }
}
