//! Names and events, each with its number.

ghost use Rattle.std.specs.Prelude.{◌≡◌, ◌<◌, ◌≤◌, ◌++◌, [], ◌∷◌, if◌then◌else◌, not, length, IfOk, IfSome, OnOk};
ghost use Rattle.std.specs.List.{list_any};
ghost use Rattle.std.specs.Str.{bytes_eq};
ghost use Rattle.qc_table.specs.Rules.{events_of, event_number};
ghost use Rattle.toml.specs.View.{view};
ghost use Rattle.qc_decl.specs.Limits.{most_events};
ghost use Rattle.qc_accept.specs.Answers.{IsReading, read_each};
ghost use Rattle.qc_accept.specs.Fields.{with_name};
ghost use Rattle.qc_accept.specs.Types.{name_at};
ghost use Rattle.qc_accept.specs.Views.{data_of, names_in, events_in};
ghost use Rattle.qc_accept.specs.Words.{number_of};

use crate::fault::Wrong;
use crate::words;
use indexmap::IndexSet;
use qc_decl::Names;
use qc_list::{List, Name, OutOfMemory};
use qc_table::{Event, Table};
use std::alloc::Global;
use toml::Value;

/// Distinct names. A name's number is its place.
pub(crate) struct Index<'a> {
    texts: IndexSet<&'a str>,
}

/// By hand, as for each owner of one of the kit's sets or maps: so a caller
/// drops it by one call. A derived impl would have each way out of the caller
/// drop each part of the set, and the check pays for each.
impl Drop for Index<'_> {
    fn drop(self) {
        let Index { texts: _ } = self;
    }
}

impl<'a> Index<'a> {
    /// No names.
    pub(crate) fn new(alloc: Global) -> Index<'a>
        ensures { names_in result ≡ [] }
    {
        Index {
            texts: IndexSet::new(alloc),
        }
    }

    /// Adds the name that a value is: one that is well-formed and new.
    pub(crate) fn add(&mut self, value: &'a Value) -> Result<(), Wrong>
        ensures { IsReading (λ _. names_in self.new) result (with_name (names_in self.old) (view value.now)) }
    {
        let text = value.as_str().ok_or(Wrong::Form)?;
        if !words::is_name(text) || !self.insert(text)? {
            return Err(Wrong::Form);
        }
        Ok(())
    }

    /// Adds a text, and tells whether it is new.
    fn insert(&mut self, text: &'a str) -> Result<bool, OutOfMemory>
        ensures { IfOk result (λ is_new. (is_new ≡ not (list_any (bytes_eq text.now) (names_in self.old)))
            × (names_in self.new ≡ (if is_new then names_in self.old ++ text.now ∷ [] else names_in self.old))) }
    {
        Ok(self.texts.insert(text)?)
    }

    /// The number of a name.
    pub(crate) fn number(&self, name: &str) -> Option<u8>
        requires { length (names_in self.now) ≤ 256 }
        ensures number { result ≡ number_of (names_in self.now) name.now }
        ensures within { IfSome result (λ n. n < length (names_in self.now)) }
    {
        let place = self.texts.get_index_of(name)?;
        Some(place as u8)
    }

    /// How many names there are.
    pub(crate) fn count(&self) -> u8
        requires { length (names_in self.now) ≤ 255 }
        ensures { result ≡ length (names_in self.now) }
    {
        self.texts.len() as u8
    }

    /// A list of the one name with this number.
    pub(crate) fn single(&self, alloc: Global, number: u8) -> Result<Names, OutOfMemory>
        requires { number < length (names_in self.now) }
        ensures { IfOk result (λ names. names ≡ name_at (names_in self.now) number ∷ []) }
    {
        let mut names = List::new(alloc);
        if let Some(text) = self.texts.get_index(number as usize) {
            tell(alloc, &mut names, text)?;
        }
        Ok(names)
    }

    /// The names, in their order.
    pub(crate) fn names(&self, alloc: Global) -> Result<Names, OutOfMemory>
        ensures { IfOk result (λ names. names ≡ names_in self.now) }
    {
        let mut names = List::new(alloc);
        self.tell(alloc, &mut names)?;
        Ok(names)
    }

    /// Tells the names, in their order, behind others.
    pub(crate) fn tell(&self, alloc: Global, told: &mut Names) -> Result<(), OutOfMemory>
        ensures { OnOk result (told.new ≡ told.old ++ names_in self.now) }
    {
        for text in self.texts.as_slice() {
            tell(alloc, told, text)?;
        }
        Ok(())
    }
}

/// Tells one name more.
pub(crate) fn tell(alloc: Global, told: &mut Names, text: &str) -> Result<(), OutOfMemory>
    ensures { OnOk result (told.new ≡ told.old ++ text.now ∷ []) }
{
    told.push(Name::new(alloc, text)?)
}

/// The names that an array's items are.
pub(crate) fn read_index<'a>(alloc: Global, items: &'a [Value]) -> Result<Index<'a>, Wrong>
    ensures { IsReading names_in result (read_each with_name [] (data_of items.now)) }
{
    let mut index = Index::new(alloc);
    for item in items {
        index.add(item)?;
    }
    Ok(index)
}

/// The events of a type. An event's number is its place.
pub(crate) struct Events {
    events: IndexSet<Event>,
}

impl Drop for Events {
    fn drop(self) {
        let Events { events: _ } = self;
    }
}

impl Events {
    /// The events of a table.
    pub(crate) fn of(alloc: Global, table: &Table) -> Result<Events, OutOfMemory>
        ensures { IfOk result (λ events. events_in events ≡ events_of table.now.rows) }
    {
        let mut events = IndexSet::new(alloc);
        for event in table.events() {
            events.insert(*event)?;
        }
        Ok(Events { events })
    }

    /// The number of an event.
    pub(crate) fn number(&self, event: Event) -> Option<u8>
        requires { length (events_in self.now) ≤ most_events }
        ensures number { result ≡ event_number (events_in self.now) event }
        ensures within { IfSome result (λ n. n < length (events_in self.now)) }
    {
        let place = self.events.get_index_of(&event)?;
        Some(place as u8)
    }

    /// How many events there are.
    pub(crate) fn count(&self) -> u8
        requires { length (events_in self.now) ≤ most_events }
        ensures { result ≡ length (events_in self.now) }
    {
        self.events.len() as u8
    }
}
