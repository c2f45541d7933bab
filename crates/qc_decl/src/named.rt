//! What the names of a declaration stand for.

ghost use Rattle.std.specs.Prelude.{◌≡◌, ◌≤◌, ◌<◌, ◌↔◌, length, IfSome, IsNone, None, Some};
ghost use Rattle.qc_decl.specs.Named.{IsNamed, place_of, object_named, names_of, inv_named};

use crate::declaration::{Declaration, KindNames, Names};

impl Declaration {
    /// The number of the object of this name, or `None` where none has it.
    pub fn object_named(&self, name: &[u8]) -> Option<u8>
        requires { IsNamed self.now }
        ensures { result ≡ object_named self.now name.now }
    {
        number_of(&self.object_names, name)
    }

    /// The number of the invocation of this name that the object's type has,
    /// or `None` where it has none, or there is no such object.
    pub fn inv_named(&self, object: u8, name: &[u8]) -> Option<u8>
        requires { IsNamed self.now }
        ensures { result ≡ inv_named self.now object name.now }
    {
        let names = self.names_of(object)?;
        number_of(&names.invs, name)
    }

    /// The names of an object's type and of its parts, or `None` where there is
    /// no such object.
    pub fn names_of(&self, object: u8) -> Option<&KindNames>
        ensures some { IfSome result (λ n. names_of self.now object ≡ Some n.now) }
        ensures none { IsNone result ↔ (names_of self.now object ≡ None) }
    {
        let kind = *self.objects.items().get(object as usize)?;
        self.kind_names.items().get(kind as usize)
    }
}

/// The number of a name.
fn number_of(names: &Names, name: &[u8]) -> Option<u8>
    requires { length names.now ≤ 256 }
    ensures { result ≡ place_of names.now name.now }
{
    let place = place(names, name)?;
    Some(place as u8)
}

/// The place of a name.
fn place(names: &Names, name: &[u8]) -> Option<usize>
    ensures place { result ≡ place_of names.now name.now }
    ensures within { IfSome result (λ place. place < length names.now) }
{
    names
        .items()
        .iter()
        .position(|other| name == other.text().as_bytes())
}
