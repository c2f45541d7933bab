//! Fields of a document's tables, and their paths.

ghost use Rattle.std.specs.Prelude.{◌≡◌, ◌≢◌, ◌<◌, ◌++◌, [], Ok, Err, map, string_bytes, IfOk, MatchResult};
ghost use Rattle.std.specs.List.{list_any};
ghost use Rattle.std.specs.Str.{bytes_eq};
ghost use Rattle.toml.specs.Data.{as_str};
ghost use Rattle.toml.specs.View.{view, table_view};
ghost use Rattle.qc_accept.specs.Answers.{IsAnswer, IsReading};
ghost use Rattle.qc_accept.specs.Fields.{required, items as items_of, optional, number as number_of_key};
ghost use Rattle.qc_accept.specs.Fields.{number_between, no_others, item_table, item_path, keys_path};
ghost use Rattle.qc_accept.specs.Views.{data_of, path_in, table_in};

use crate::fault::{DeclFault, Wrong};
use itoa::Buffer;
use qc_list::{OutOfMemory, Path};
use std::alloc::Global;
use toml::{Table, Value};

/// A table of the document, with the path that stands before its keys.
#[derive(Drop)]
pub(crate) struct Fields<'a> {
    pub(crate) alloc: Global,
    pub(crate) table: &'a Table,
    pub(crate) path: String,
}

impl<'a> Fields<'a> {
    /// The fields of a document.
    pub(crate) fn of_document(alloc: Global, table: &'a Table) -> Fields<'a>
        ensures table { table_in result ≡ table_view table.now }
        ensures path { path_in result ≡ [] }
    {
        Fields {
            alloc,
            table,
            path: String::new(alloc),
        }
    }

    /// The fields of an item of an array of tables, the array of this key.
    pub(crate) fn of_item(
        alloc: Global,
        key: &str,
        place: u8,
        item: &'a Value,
    ) -> Result<Fields<'a>, DeclFault>
        requires { place < 256 }
        ensures { MatchResult result
            (λ f. (item_table key.now place (view item.now) ≡ Ok (table_in f)) × (path_in f ≡ keys_path key.now place))
            (λ e. e ≢ DeclFault.OutOfMemory → item_table key.now place (view item.now) ≡ Err e) }
    {
        let path = item_path(alloc, key, place)?;
        match item.as_table() {
            Some(table) => Ok(Fields {
                alloc,
                table,
                path: joined(alloc, path.as_str(), ".")?,
            }),
            None => Err(field_fault(alloc, path.as_str(), "")),
        }
    }

    /// The value of a key that has to be there.
    pub(crate) fn required(&self, key: &str) -> Result<&'a Value, DeclFault>
        ensures { IsAnswer (λ v. view v.now) result (required (path_in self.now) (table_in self.now) key.now) }
    {
        match self.table.get(key) {
            Some(value) => Ok(value),
            None => Err(self.fault(key)),
        }
    }

    /// The items of an array that has to be there and to have so many.
    pub(crate) fn items(
        &self,
        key: &str,
        least: usize,
        most: usize,
    ) -> Result<&'a [Value], DeclFault>
        ensures { IsAnswer (λ items. data_of items.now) result (items_of (path_in self.now)
            (table_in self.now) key.now least most) }
    {
        match self.required(key)?.as_array() {
            Some(items) if least <= items.len() && items.len() <= most => Ok(items.as_slice()),
            _ => Err(self.fault(key)),
        }
    }

    /// The items of an array, or none where the key is missing.
    pub(crate) fn optional(&self, key: &str) -> Result<&'a [Value], DeclFault>
        ensures { IsAnswer (λ items. data_of items.now) result (optional (path_in self.now)
            (table_in self.now) key.now) }
    {
        let Some(value) = self.table.get(key) else {
            return Ok(&[]);
        };
        match value.as_array() {
            Some(items) => Ok(items.as_slice()),
            None => Err(self.fault(key)),
        }
    }

    /// The whole number of a key, between these two.
    pub(crate) fn number(&self, key: &str, least: u8, most: u8) -> Result<u8, DeclFault>
        ensures { IsAnswer (λ n. n) result (number_of_key (path_in self.now) (table_in self.now) key.now least most) }
    {
        self.told(key, number(self.required(key)?, least, most))
    }

    /// What was read of a key's value, or the fault of the field.
    pub(crate) fn told<T>(&self, key: &str, read: Result<T, Wrong>) -> Result<T, DeclFault>
        ensures { MatchResult result (λ value. read ≡ Ok value)
            (λ e. e ≢ DeclFault.OutOfMemory → (read ≡ Err Wrong.Form)
            × (e ≡ DeclFault.Field (path_in self.now ++ key.now))) }
    {
        match read {
            Ok(value) => Ok(value),
            Err(Wrong::Form) => Err(self.fault(key)),
            Err(Wrong::OutOfMemory) => Err(DeclFault::OutOfMemory),
        }
    }

    /// Refuses the first key, in the order of their bytes, that isn't among
    /// these.
    pub(crate) fn no_others(&self, known: &[&str]) -> Result<(), DeclFault>
        ensures { IsAnswer (λ _. tt) result (no_others (path_in self.now) (table_in self.now)
            (map (λ k. k.now) known.now)) }
    {
        for key in self.table.keys() {
            if !is_known(known, key.as_str()) {
                return Err(self.fault(key.as_str()));
            }
        }
        Ok(())
    }

    /// The fault of a field of this table.
    fn fault(&self, key: &str) -> DeclFault
        ensures { result ≢ DeclFault.OutOfMemory → result ≡ DeclFault.Field (path_in self.now ++ key.now) }
    {
        field_fault(self.alloc, self.path.as_str(), key)
    }
}

/// Whether a key is among these.
fn is_known(known: &[&str], key: &str) -> bool
    ensures { result ≡ list_any (bytes_eq key.now) (map (λ k. k.now) known.now) }
{
    known.iter().any(|k| *k == key)
}

/// The whole number that a value is, between these two.
pub(crate) fn number(value: &Value, least: u8, most: u8) -> Result<u8, Wrong>
    ensures { IsReading (λ n. n) result (number_between least most (view value.now)) }
{
    let number = value.as_integer().ok_or(Wrong::Form)?;
    if !(i64::from(least)..=i64::from(most)).contains(&number) {
        return Err(Wrong::Form);
    }
    Ok(number as u8)
}

/// The text that a value is.
pub(crate) fn text(value: &Value) -> Result<&str, Wrong>
    ensures { IsReading (λ s. s.now) result (as_str (view value.now)) }
{
    value.as_str().ok_or(Wrong::Form)
}

/// The path of an item of an array, as `type[0]`.
fn item_path(alloc: Global, key: &str, place: u8) -> Result<String, OutOfMemory>
    ensures { IfOk result (λ path. string_bytes path ≡ item_path key.now place) }
{
    let mut number = Buffer::new();
    let mut path = String::from_str(alloc, key)?;
    path.push_str("[")?;
    path.push_str(number.format(place))?;
    path.push_str("]")?;
    Ok(path)
}

/// The fault of a field with this path and this key behind it.
fn field_fault(alloc: Global, path: &str, key: &str) -> DeclFault
    ensures { result ≢ DeclFault.OutOfMemory → result ≡ DeclFault.Field (path.now ++ key.now) }
{
    match path_of(alloc, path, key) {
        Ok(path) => DeclFault::Field { path },
        Err(_) => DeclFault::OutOfMemory,
    }
}

/// The path of two parts.
fn path_of(alloc: Global, path: &str, key: &str) -> Result<Path, OutOfMemory>
    ensures { IfOk result (λ p. p ≡ path.now ++ key.now) }
{
    Path::new(alloc, joined(alloc, path, key)?.as_str())
}

/// Two texts, one behind the other.
fn joined(alloc: Global, first: &str, second: &str) -> Result<String, OutOfMemory>
    ensures { IfOk result (λ text. string_bytes text ≡ first.now ++ second.now) }
{
    let mut text = String::from_str(alloc, first)?;
    text.push_str(second)?;
    Ok(text)
}
