//! Names that a declaration gives.

ghost use Rattle.std.specs.Prelude.{◌≡◌, None, Some, MatchOption};
ghost use Rattle.qc_text.specs.Names.{names_of, object_name, invocation_name, response_name, state_name};

use qc_decl::{Declaration, KindNames, name_at};

/// The names of an object's type.
fn names_of(decl: &Declaration, object: usize) -> Option<&KindNames>
    ensures { MatchOption result (names_of decl.now object ≡ None) (λ n. names_of decl.now object ≡ Some n.now) }
{
    let kind = *decl.objects.items().get(object)?;
    decl.kind_names.items().get(kind as usize)
}

/// An object's name.
pub(crate) fn object_name(decl: &Declaration, object: usize) -> &str
    ensures { result.now ≡ object_name decl.now object }
{
    name_at(&decl.object_names, object)
}

/// An invocation's name, by the object's type.
pub(crate) fn invocation_name(decl: &Declaration, object: usize, inv: u8) -> &str
    ensures { result.now ≡ invocation_name decl.now object inv }
{
    match names_of(decl, object) {
        Some(names) => name_at(&names.invs, inv as usize),
        None => "",
    }
}

/// A response's name, by the object's type.
pub(crate) fn response_name(decl: &Declaration, object: usize, resp: u8) -> &str
    ensures { result.now ≡ response_name decl.now object resp }
{
    match names_of(decl, object) {
        Some(names) => name_at(&names.resps, resp as usize),
        None => "",
    }
}

/// A state's name, by the object's type.
pub(crate) fn state_name(decl: &Declaration, object: usize, state: u8) -> &str
    ensures { result.now ≡ state_name decl.now object state }
{
    match names_of(decl, object) {
        Some(names) => name_at(&names.states, state as usize),
        None => "",
    }
}
