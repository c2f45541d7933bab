//! The epochs of a declaration, each with its plan.

ghost use Rattle.std.specs.Prelude.{◌≡◌, ◌+◌, ◌<◌, ◌≤◌, [], Some, None, length, option_map, if◌then◌else◌, IfOk, OnOk};
ghost use Rattle.toml.specs.View.{view};
ghost use Rattle.qc_decl.specs.Limits.{most_epochs, most_events};
ghost use Rattle.qc_accept.specs.Answers.{IsAnswer, IsReading, read_each};
ghost use Rattle.qc_accept.specs.Epochs.{IsFit, entries_in, entry_in, needs as needs_of_key, needs_of, place_in};
ghost use Rattle.qc_accept.specs.Epochs.{places, places_of, plan_in, plan_of, plans_of, threshold_of, thresholds};
ghost use Rattle.qc_accept.specs.Epochs.{weights, with_entry, with_item, with_plan, with_weight};
ghost use Rattle.qc_accept.specs.Types.{AreFew};
ghost use Rattle.qc_accept.specs.Views.{data_of, entry_of, events_in, listed_in, path_in, store_in, table_in, type_in};
ghost use Rattle.qc_accept.specs.Views.{words_in};

use crate::fault::{DeclFault, Wrong};
use crate::fields::{self, Fields};
use crate::kinds::{TypeRead, Types};
use crate::objects::ObjectsRead;
use crate::{certificates, words};
use indexmap::IndexMap;
use qc_decl::{GREATEST_WEIGHT, MOST_EPOCHS, Plans};
use qc_list::{List, OutOfMemory};
use qc_plan::{Needs, Plan, Weights};
use std::alloc::Global;
use toml::Value;

/// The keys of an epoch.
const KEYS: [&str; 3] = ["weights", "initial", "final"];

/// What the epochs of a declaration stand on.
#[derive(Clone, Copy)]
pub(crate) struct Store<'g, 'a> {
    pub(crate) sites: u8,
    pub(crate) types: &'g Types<'a>,
    pub(crate) objects: &'g ObjectsRead<'a>,
}

/// Which thresholds are read.
#[derive(Clone, Copy, PartialEq, Eq, Debug)]
pub(crate) enum Side {
    /// Those of initial quorums, by invocation.
    Initial,
    /// Those of final quorums, by event.
    Final,
}

/// Reads the plans.
pub(crate) fn read_plans(root: &Fields<'_>, store: &Store<'_, '_>) -> Result<Plans, DeclFault>
    requires { IsFit (store_in store.now) }
    ensures { IsAnswer (λ plans. plans) result (plans_of (path_in root.now) (table_in root.now) (store_in store.now)) }
{
    let items = root.items("epoch", 1, MOST_EPOCHS)?;
    let mut plans = List::new(root.alloc);
    for item in items {
        add_plan(root.alloc, &mut plans, store, item)?;
    }
    Ok(plans)
}

/// Reads the plan of one epoch more.
fn add_plan(
    alloc: Global,
    plans: &mut Plans,
    store: &Store<'_, '_>,
    item: &Value,
) -> Result<(), DeclFault>
    requires store { IsFit (store_in store.now) }
    requires plans { length plans.old < most_epochs }
    ensures plans { IsAnswer (λ _. plans.new) result (with_plan (store_in store.now) plans.old (view item.now)) }
    ensures one_more { OnOk result (length plans.new ≡ length plans.old + 1) }
{
    let plan = plan_in(alloc, plans, store, item)?;
    plans.push(plan)?;
    Ok(())
}

/// Reads the plan of the epoch behind these.
fn plan_in(
    alloc: Global,
    plans: &Plans,
    store: &Store<'_, '_>,
    item: &Value,
) -> Result<Plan, DeclFault>
    requires store { IsFit (store_in store.now) }
    requires plans { length plans.now < most_epochs }
    ensures { IsAnswer (λ plan. plan) result (plan_in (store_in store.now) (length plans.now) (view item.now)) }
{
    let fields = Fields::of_item(alloc, "epoch", plans.items().len() as u8, item)?;
    read_plan(&fields, store)
}

/// Reads a plan.
fn read_plan(fields: &Fields<'_>, store: &Store<'_, '_>) -> Result<Plan, DeclFault>
    requires { IsFit (store_in store.now) }
    ensures { IsAnswer (λ plan. plan) result (plan_of (path_in fields.now) (table_in fields.now) (store_in store.now)) }
{
    let weights = weights(fields, store.sites)?;
    let initial = needs(fields, store, "initial", Side::Initial)?;
    let last = needs(fields, store, "final", Side::Final)?;
    fields.no_others(&KEYS)?;
    Ok(Plan {
        weights,
        initial,
        last,
    })
}

/// Reads the weights, one for each site.
fn weights(fields: &Fields<'_>, sites: u8) -> Result<Weights, DeclFault>
    ensures { IsAnswer (λ ws. ws) result (weights (path_in fields.now) (table_in fields.now) sites) }
{
    let sites = sites as usize;
    let items = fields.items("weights", sites, sites)?;
    fields.told("weights", read_weights(fields.alloc, items))
}

/// The weights that an array's items are.
fn read_weights(alloc: Global, items: &[Value]) -> Result<Weights, Wrong>
    ensures { IsReading (λ ws. ws) result (read_each with_weight [] (data_of items.now)) }
{
    let mut weights = List::new(alloc);
    for item in items {
        let weight = fields::number(item, 0, GREATEST_WEIGHT)?;
        weights.push(weight)?;
    }
    Ok(weights)
}

/// Reads the thresholds of a side.
fn needs(
    fields: &Fields<'_>,
    store: &Store<'_, '_>,
    key: &str,
    side: Side,
) -> Result<Needs, DeclFault>
    requires { IsFit (store_in store.now) }
    ensures { IsAnswer (λ needs. needs) result (needs_of_key (path_in fields.now) (table_in fields.now)
        (store_in store.now) key.now side) }
{
    let items = fields.optional(key)?;
    let read = read_listed(fields.alloc, store, side, items);
    let listed = fields.told(key, read)?;
    let needs = listed.needs(fields.alloc, store, side)?;
    Ok(needs)
}

/// The thresholds that are listed, by object and place.
struct Listed {
    thresholds: IndexMap<(u8, u8), u16>,
}

impl Drop for Listed {
    fn drop(self) {
        let Listed { thresholds: _ } = self;
    }
}

/// The thresholds that an array's items are.
fn read_listed(
    alloc: Global,
    store: &Store<'_, '_>,
    side: Side,
    items: &[Value],
) -> Result<Listed, Wrong>
    requires { IsFit (store_in store.now) }
    ensures { IsReading listed_in result (entries_in (store_in store.now) side (data_of items.now)) }
{
    let mut listed = Listed {
        thresholds: IndexMap::new(alloc),
    };
    for item in items {
        listed.add_item(store, side, item)?;
    }
    Ok(listed)
}

/// A threshold of an object, at the place of an invocation or an event.
#[derive(Clone, Copy)]
struct Entry {
    object: u8,
    place: u8,
    threshold: u16,
}

impl Store<'_, '_> {
    /// The entry that a text is, as `OBJECT INV NUMBER` or `OBJECT EVENT
    /// NUMBER`.
    fn entry(&self, side: Side, text: &str) -> Option<Entry>
        requires { IsFit (store_in self.now) }
        ensures { option_map entry_of result ≡ entry_in (store_in self.now) side text.now }
    {
        let (name, word, digits) = words::three(text)?;
        let object = self.objects.names.number(name)?;
        let kind = self.objects.kind(self.types, object)?;
        let place = side.place(kind, word)?;
        let threshold = words::number(digits)?;
        Some(Entry {
            object,
            place,
            threshold,
        })
    }

    /// How many places an object has.
    fn places(&self, side: Side, object: u8) -> u8
        requires { IsFit (store_in self.now) }
        ensures { result ≡ places_of (store_in self.now) side object }
    {
        match self.objects.kind(self.types, object) {
            Some(kind) => side.places(kind),
            None => 0,
        }
    }
}

impl Side {
    /// The place of an invocation, or of an event.
    fn place(self, kind: &TypeRead<'_>, word: &str) -> Option<u8>
        requires words { AreFew (words_in kind.now.words) }
        requires events { length (events_in kind.now.events) ≤ most_events }
        ensures { result ≡ place_in self (type_in kind.now) word.now }
    {
        match self {
            Side::Initial => kind.words.invs.number(word),
            Side::Final => certificates::event_number(&kind.words, &kind.events, word),
        }
    }

    /// How many places there are.
    fn places(self, kind: &TypeRead<'_>) -> u8
        requires words { AreFew (words_in kind.now.words) }
        requires events { length (events_in kind.now.events) ≤ most_events }
        ensures { result ≡ places self (type_in kind.now) }
    {
        match self {
            Side::Initial => kind.words.invs.count(),
            Side::Final => kind.events.count(),
        }
    }
}

impl Listed {
    /// Adds the entry that a value is: one whose place had none.
    fn add_item(&mut self, store: &Store<'_, '_>, side: Side, item: &Value) -> Result<(), Wrong>
        requires { IsFit (store_in store.now) }
        ensures { IsReading
            (λ _. listed_in self.new) result (with_item (store_in store.now) side (listed_in self.old)
            (view item.now)) }
    {
        let text = fields::text(item)?;
        let entry = store.entry(side, text).ok_or(Wrong::Form)?;
        if !self.add(entry)? {
            return Err(Wrong::Form);
        }
        Ok(())
    }

    /// Adds an entry, and tells whether its place had none.
    fn add(&mut self, entry: Entry) -> Result<bool, OutOfMemory>
        ensures { IfOk result (λ is_new. with_entry (listed_in self.old)
            (entry_of entry) ≡ (if is_new then Some (listed_in self.new) else None)) }
    {
        let at = (entry.object, entry.place);
        let before = self.thresholds.insert(at, entry.threshold)?;
        Ok(before.is_none())
    }

    /// The thresholds of all objects.
    fn needs(&self, alloc: Global, store: &Store<'_, '_>, side: Side) -> Result<Needs, OutOfMemory>
        requires { IsFit (store_in store.now) }
        ensures { IfOk result (λ needs. needs ≡ needs_of (store_in store.now) side (listed_in self.now)
            (length (store_in store.now).objects.names)) }
    {
        let mut needs = List::new(alloc);
        for object in 0..store.objects.names.count() {
            let list = self.of_object(alloc, object, store.places(side, object))?;
            needs.push(list)?;
        }
        Ok(needs)
    }

    /// The thresholds of one object.
    fn of_object(&self, alloc: Global, object: u8, places: u8) -> Result<List<u16>, OutOfMemory>
        ensures { IfOk result (λ list. list ≡ thresholds (listed_in self.now) object places) }
    {
        let mut thresholds = List::new(alloc);
        for place in 0..places {
            thresholds.push(self.threshold(object, place))?;
        }
        Ok(thresholds)
    }

    /// The threshold at a place, 0 where none is listed.
    fn threshold(&self, object: u8, place: u8) -> u16
        ensures { result ≡ threshold_of (listed_in self.now) object place }
    {
        self.thresholds.get(&(object, place)).copied().unwrap_or(0)
    }
}
