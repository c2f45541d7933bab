//! Accepting a declaration.

ghost use Rattle.std.specs.Prelude.{◌≡◌, ◌≤◌, length, IfOk};
ghost use Rattle.toml.specs.View.{table_view};
ghost use Rattle.qc_accept.specs.Accept.{accepted, document_of, draft, draft_of, lists_of};
ghost use Rattle.qc_decl.specs.Accepted.{IsAccepted};
ghost use Rattle.qc_accept.specs.Answers.{IsAnswer};
ghost use Rattle.qc_decl.specs.Named.{IsNamed};
ghost use Rattle.qc_accept.specs.Views.{draft_in, objects_in, path_in, table_in, types_in};
ghost use Rattle.qc_decl.specs.Limits.{most_sites};

use crate::epochs::{self, Store};
use crate::fault::DeclFault;
use crate::fields::Fields;
use crate::kinds::{self, Types};
use crate::objects::{self, ObjectsRead};
use crate::{checks, sorting};
use qc_cert::Triple;
use qc_decl::{Declaration, MOST_CLIENTS, MOST_SITES, Plans};
use qc_list::{List, OutOfMemory};
use std::alloc::Global;
use toml::Table;

/// The keys of a declaration.
const KEYS: [&str; 5] = ["sites", "clients", "type", "object", "epoch"];

/// A declaration whose fields are read, with each type's triples.
#[derive(Drop)]
pub(crate) struct Draft {
    pub(crate) decl: Declaration,
    pub(crate) triples: List<List<Triple>>,
}

/// The declaration that these bytes spell in TOML, where each type's relation
/// is shown exact by its triples, and each epoch's plan is admitted.
///
/// # Errors
/// The first fault, in the order of `DeclFault`'s variants. Fields are told in
/// the order of the keys and of the arrays, an unknown key last in its table,
/// the least name first; a type whose rows are no table ends the tests of
/// fields there.
pub fn accept(alloc: Global, bytes: &[u8]) -> Result<Declaration, DeclFault>
    ensures exact { IsAnswer (λ decl. decl) result (accepted bytes.now) }
    ensures accepted { IfOk result IsAccepted }
    ensures named { IfOk result IsNamed }
{
    let table = document(alloc, bytes)?;
    let draft = read_draft(alloc, &table)?;
    checks::check_types(alloc, &draft)?;
    checks::check_plans(alloc, &draft.decl)?;
    let Draft { decl, triples: _ } = draft;
    Ok(decl)
}

/// The table of a TOML document.
fn document(alloc: Global, bytes: &[u8]) -> Result<Table, DeclFault>
    ensures { IsAnswer table_view result (document_of bytes.now) }
{
    match toml::table_from_slice(alloc, bytes) {
        Ok(table) => Ok(table),
        Err(fault) if fault.is_memory() => Err(DeclFault::OutOfMemory),
        Err(_) => Err(DeclFault::NotToml),
    }
}

/// Reads the fields of a declaration.
fn read_draft(alloc: Global, table: &Table) -> Result<Draft, DeclFault>
    ensures { IsAnswer draft_in result (draft_of (table_view table.now)) }
{
    let root = Fields::of_document(alloc, table);
    let sites = root.number("sites", 1, MOST_SITES)?;
    let clients = root.number("clients", 1, MOST_CLIENTS)?;
    read_lists(&root, sites, clients)
}

/// Reads what follows the two counts of a declaration.
fn read_lists(root: &Fields<'_>, sites: u8, clients: u8) -> Result<Draft, DeclFault>
    requires { sites ≤ most_sites }
    ensures { IsAnswer draft_in result (lists_of (path_in root.now) (table_in root.now) sites clients) }
{
    let types = kinds::read_types(root)?;
    let objects = objects::read_objects(root, &types)?;
    let store = Store {
        sites,
        types: &types,
        objects: &objects,
    };
    let plans = epochs::read_plans(root, &store)?;
    root.no_others(&KEYS)?;
    let draft = gathered(root.alloc, (sites, clients), types, objects, plans)?;
    Ok(draft)
}

/// The draft of these counts, of sites and of clients, types, objects and
/// plans.
fn gathered(
    alloc: Global,
    counts: (u8, u8),
    types: Types<'_>,
    objects: ObjectsRead<'_>,
    plans: Plans,
) -> Result<Draft, OutOfMemory>
    requires { length (types_in types).names ≡ length (types_in types).list }
    ensures { IfOk result (λ d. draft_in d ≡ draft counts.0 counts.1 (types_in types.entry)
        (objects_in objects.entry) plans) }
{
    let object_names = objects.names.names(alloc)?;
    let sorted = sorting::sort_types(alloc, types)?;
    let (sites, clients) = counts;
    let decl = Declaration {
        sites,
        clients,
        kinds: sorted.kinds,
        objects: objects.kinds,
        plans,
        kind_names: sorted.names,
        object_names,
    };
    Ok(Draft {
        decl,
        triples: sorted.triples,
    })
}
