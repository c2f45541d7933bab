//! The objects of a declaration.

ghost use Rattle.std.specs.Prelude.{◌≡◌, ◌<◌, ◌≤◌, length, option_map};
ghost use Rattle.toml.specs.View.{view};
ghost use Rattle.qc_decl.specs.Limits.{most_objects};
ghost use Rattle.qc_accept.specs.Answers.{IsAnswer};
ghost use Rattle.qc_accept.specs.Objects.{kind_of, objects_of, with_fields, with_object};
ghost use Rattle.qc_accept.specs.Views.{names_in, objects_in, path_in, table_in, type_in, types_in};

use crate::fault::DeclFault;
use crate::fields::Fields;
use crate::kinds::{self, TypeRead, Types};
use crate::names::Index;
use qc_decl::{MOST_OBJECTS, Objects};
use qc_list::List;
use std::alloc::Global;
use toml::Value;

/// The keys of an object.
const KEYS: [&str; 2] = ["name", "type"];

/// The objects as they were read: the number of each one's type, and their
/// names.
#[derive(Drop)]
pub(crate) struct ObjectsRead<'a> {
    pub(crate) names: Index<'a>,
    pub(crate) kinds: Objects,
}

/// Reads the objects.
pub(crate) fn read_objects<'a>(
    root: &Fields<'a>,
    types: &Types<'_>,
) -> Result<ObjectsRead<'a>, DeclFault>
    requires { length (names_in types.now.names) ≤ 256 }
    ensures { IsAnswer objects_in result (objects_of (path_in root.now) (table_in root.now) (types_in types.now)) }
{
    let items = root.items("object", 1, MOST_OBJECTS)?;
    let mut objects = ObjectsRead {
        names: Index::new(root.alloc),
        kinds: List::new(root.alloc),
    };
    for item in items {
        add_object(root.alloc, &mut objects, &types.names, item)?;
    }
    Ok(objects)
}

/// Reads one object more.
fn add_object<'a>(
    alloc: Global,
    objects: &mut ObjectsRead<'a>,
    types: &Index<'_>,
    item: &'a Value,
) -> Result<(), DeclFault>
    requires types { length (names_in types.now) ≤ 256 }
    requires names { length (names_in objects.old.names) < most_objects }
    ensures { IsAnswer (λ _. objects_in objects.new) result (with_object (names_in types.now)
        (objects_in objects.old) (view item.now)) }
{
    let fields = Fields::of_item(alloc, "object", objects.names.count(), item)?;
    objects.add(&fields, types)
}

impl<'a> ObjectsRead<'a> {
    /// Adds the object of a table.
    fn add(&mut self, fields: &Fields<'a>, types: &Index<'_>) -> Result<(), DeclFault>
        requires { length (names_in types.now) ≤ 256 }
        ensures { IsAnswer (λ _. objects_in self.new) result (with_fields (names_in types.now)
            (objects_in self.old) (path_in fields.now) (table_in fields.now)) }
    {
        let name = fields.required("name")?;
        let added = self.names.add(name);
        fields.told("name", added)?;
        let name_of_kind = fields.required("type")?;
        let read = kinds::name_among(types, name_of_kind);
        let kind = fields.told("type", read)?;
        self.kinds.push(kind)?;
        fields.no_others(&KEYS)
    }
}

impl ObjectsRead<'_> {
    /// The type of an object.
    pub(crate) fn kind<'t, 'a>(&self, types: &'t Types<'a>, object: u8) -> Option<&'t TypeRead<'a>>
        ensures { option_map (λ t. type_in t.now) result ≡ kind_of (types_in types.now) (objects_in self.now) object }
    {
        let kind = *self.kinds.items().get(object as usize)?;
        types.list.get(kind as usize)
    }
}
