//! The types of a declaration.

ghost use Rattle.std.specs.Prelude.{◌≡◌, ◌<◌, ◌≤◌, ◌++◌, [], ◌∷◌, length, OnOk};
ghost use Rattle.toml.specs.View.{view};
ghost use Rattle.qc_table.specs.Rules.{events_of};
ghost use Rattle.qc_decl.specs.Limits.{most_events, most_rows, most_types};
ghost use Rattle.qc_list.specs.Results.{and_then};
ghost use Rattle.qc_accept.specs.Answers.{IsAnswer, IsReading};
ghost use Rattle.qc_accept.specs.Certificates.{certificate_of, rest_of};
ghost use Rattle.qc_accept.specs.Fields.{name_among, names as names_of};
ghost use Rattle.qc_accept.specs.Types.{AreFew, AreSome, name_at, relation as relation_in, rows as rows_of};
ghost use Rattle.qc_accept.specs.Types.{table_of, triples as triples_of, type_of, types_of, with_type};
ghost use Rattle.qc_accept.specs.Types.{words as words_of};
ghost use Rattle.qc_accept.specs.Views.{events_in, names_in, path_in, table_in, type_in, types_in, words_in};

use crate::fault::{DeclFault, Wrong};
use crate::fields::{self, Fields};
use crate::names::{self, Events, Index};
use crate::{certificates, rows};
use qc_cert::Triple;
use qc_decl::{MOST_INVOCATIONS, MOST_RESPONSES, MOST_ROWS, MOST_STATES, MOST_TYPES};
use qc_list::{List, OutOfMemory};
use qc_table::{Kind, Relation, Row, Table, TableFault};
use std::alloc::Global;
use toml::Value;

/// The keys of a type.
const KEYS: [&str; 8] = [
    "name",
    "states",
    "start",
    "invocations",
    "responses",
    "rows",
    "depends",
    "triples",
];

/// The words of a type.
pub(crate) struct Words<'a> {
    pub(crate) states: Index<'a>,
    pub(crate) start: u8,
    pub(crate) invs: Index<'a>,
    pub(crate) resps: Index<'a>,
}

impl Drop for Words<'_> {
    fn drop(self) {
        let Words {
            states: _,
            start: _,
            invs: _,
            resps: _,
        } = self;
    }
}

/// A type's relation, with the triples that are to show it exact.
#[derive(Drop)]
struct Certificate {
    relation: Relation,
    triples: List<Triple>,
}

/// A type as it was read.
#[derive(Drop)]
pub(crate) struct TypeRead<'a> {
    pub(crate) words: Words<'a>,
    pub(crate) events: Events,
    pub(crate) kind: Kind,
    pub(crate) triples: List<Triple>,
}

/// The types as they were read, with their names.
#[derive(Drop)]
pub(crate) struct Types<'a> {
    pub(crate) names: Index<'a>,
    pub(crate) list: Vec<TypeRead<'a>>,
}

/// Reads the types.
pub(crate) fn read_types<'a>(root: &Fields<'a>) -> Result<Types<'a>, DeclFault>
    ensures { IsAnswer types_in result (types_of (path_in root.now) (table_in root.now)) }
{
    let items = root.items("type", 1, MOST_TYPES)?;
    let mut types = Types {
        names: Index::new(root.alloc),
        list: Vec::new(root.alloc),
    };
    for item in items {
        add_type(root.alloc, &mut types, item)?;
    }
    Ok(types)
}

/// Reads one type more.
fn add_type<'a>(alloc: Global, types: &mut Types<'a>, item: &'a Value) -> Result<(), DeclFault>
    requires names { length (names_in types.old.names) < most_types }
    ensures { IsAnswer (λ _. types_in types.new) result (with_type (types_in types.old) (view item.now)) }
{
    let place = types.names.count();
    let fields = Fields::of_item(alloc, "type", place, item)?;
    let name = fields.required("name")?;
    fields.told("name", types.names.add(name))?;
    let read = read_type(&fields, place, &types.names)?;
    add(&mut types.list, read)?;
    Ok(())
}

/// Adds an item to a vector.
fn add<T: Drop>(list: &mut Vec<T>, item: T) -> Result<(), OutOfMemory>
    ensures { OnOk result (list.new.items ≡ list.old.items ++ item ∷ []) }
{
    list.push(item)?;
    Ok(())
}

/// Reads what follows a type's name.
fn read_type<'a>(
    fields: &Fields<'a>,
    place: u8,
    names: &Index<'a>,
) -> Result<TypeRead<'a>, DeclFault>
    requires { place < length (names_in names.now) }
    ensures { IsAnswer type_in result (type_of (path_in fields.now)
        (table_in fields.now) place (name_at (names_in names.now) place)) }
{
    let words = read_words(fields)?;
    let table = read_table(fields, place, names, &words)?;
    read_rest(fields, words, table)
}

/// Reads what follows a type's rows.
fn read_rest<'a>(
    fields: &Fields<'a>,
    words: Words<'a>,
    table: Table,
) -> Result<TypeRead<'a>, DeclFault>
    requires words { AreFew (words_in words) }
    requires events { length (events_of table.rows) ≤ most_events }
    ensures { IsAnswer type_in result (rest_of (path_in fields.now) (table_in fields.now)
        (words_in words.entry) table) }
{
    let events = Events::of(fields.alloc, &table)?;
    let certificate = read_certificate(fields, &words, &events)?;
    let Certificate { relation, triples } = certificate;
    Ok(TypeRead {
        words,
        events,
        kind: Kind { table, relation },
        triples,
    })
}

/// Reads a type's relation and triples, which its last keys are.
fn read_certificate(
    fields: &Fields<'_>,
    words: &Words<'_>,
    events: &Events,
) -> Result<Certificate, DeclFault>
    requires words { AreFew (words_in words.now) }
    requires events { length (events_in events.now) ≤ most_events }
    ensures { IsAnswer (λ c. c) result (certificate_of (path_in fields.now) (table_in fields.now)
        (words_in words.now) (events_in events.now)) }
{
    let relation = read_relation(fields, words, events)?;
    let triples = read_triples(fields, words, events)?;
    fields.no_others(&KEYS)?;
    Ok(Certificate { relation, triples })
}

/// Reads a type's rows as a table.
fn read_table(
    fields: &Fields<'_>,
    place: u8,
    names: &Index<'_>,
    words: &Words<'_>,
) -> Result<Table, DeclFault>
    requires place { place < length (names_in names.now) }
    requires words { AreSome (words_in words.now) }
    requires few { AreFew (words_in words.now) }
    ensures { IsAnswer (λ table. table) result (and_then (table_of place (name_at (names_in names.now) place)
        (words_in words.now)) (rows_of (path_in fields.now) (table_in fields.now) (words_in words.now))) }
{
    let items = fields.items("rows", 0, MOST_ROWS)?;
    let rows = fields.told("rows", rows::rows(fields.alloc, words, items))?;
    table_of(fields.alloc, place, names, words, rows.items())
}

/// Reads a type's relation.
fn read_relation(
    fields: &Fields<'_>,
    words: &Words<'_>,
    events: &Events,
) -> Result<Relation, DeclFault>
    requires words { AreFew (words_in words.now) }
    requires events { length (events_in events.now) ≤ most_events }
    ensures { IsAnswer (λ r. r) result (relation_in (path_in fields.now) (table_in fields.now) (words_in words.now)
        (events_in events.now)) }
{
    let items = fields.optional("depends")?;
    let read = certificates::relation(fields.alloc, words, events, items);
    fields.told("depends", read)
}

/// Reads a type's triples.
fn read_triples(
    fields: &Fields<'_>,
    words: &Words<'_>,
    events: &Events,
) -> Result<List<Triple>, DeclFault>
    requires words { AreFew (words_in words.now) }
    requires events { length (events_in events.now) ≤ most_events }
    ensures { IsAnswer (λ ts. ts) result (triples_of (path_in fields.now) (table_in fields.now) (words_in words.now)
        (events_in events.now)) }
{
    let items = fields.optional("triples")?;
    let read = certificates::triples(fields.alloc, words, events, items);
    fields.told("triples", read)
}

/// Reads a type's words.
fn read_words<'a>(fields: &Fields<'a>) -> Result<Words<'a>, DeclFault>
    ensures { IsAnswer words_in result (words_of (path_in fields.now) (table_in fields.now)) }
{
    let states = read_names(fields, "states", MOST_STATES)?;
    let start = fields.told("start", name_among(&states, fields.required("start")?))?;
    let invs = read_names(fields, "invocations", MOST_INVOCATIONS)?;
    let resps = read_names(fields, "responses", MOST_RESPONSES)?;
    Ok(Words {
        states,
        start,
        invs,
        resps,
    })
}

/// Reads a key's distinct names, at least one.
fn read_names<'a>(fields: &Fields<'a>, key: &str, most: usize) -> Result<Index<'a>, DeclFault>
    ensures { IsAnswer names_in result (names_of (path_in fields.now) (table_in fields.now) key.now most) }
{
    let items = fields.items(key, 1, most)?;
    fields.told(key, names::read_index(fields.alloc, items))
}

/// The number of the name that a value is.
pub(crate) fn name_among(names: &Index<'_>, value: &Value) -> Result<u8, Wrong>
    requires { length (names_in names.now) ≤ 256 }
    ensures { IsReading (λ n. n) result (name_among (names_in names.now) (view value.now)) }
{
    names.number(fields::text(value)?).ok_or(Wrong::Form)
}

/// The table of a type's rows.
fn table_of(
    alloc: Global,
    kind: u8,
    names: &Index<'_>,
    words: &Words<'_>,
    rows: &[Row],
) -> Result<Table, DeclFault>
    requires place { kind < length (names_in names.now) }
    requires words { AreSome (words_in words.now) }
    requires few { AreFew (words_in words.now) }
    requires rows { length rows.now ≤ most_rows }
    ensures { IsAnswer (λ table. table) result (table_of kind (name_at (names_in names.now) kind)
        (words_in words.now) rows.now) }
{
    let made = Table::new(
        alloc,
        words.states.count(),
        words.invs.count(),
        words.resps.count(),
        words.start,
        rows,
    );
    match made {
        Ok(table) => Ok(table),
        Err(TableFault::OutOfMemory) => Err(DeclFault::OutOfMemory),
        Err(fault) => Err(DeclFault::Table {
            kind,
            fault,
            names: names.single(alloc, kind)?,
        }),
    }
}
