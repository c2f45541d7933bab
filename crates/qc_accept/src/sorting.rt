//! What is kept of the types that were read, each by number.

ghost use Rattle.std.specs.Prelude.{◌≡◌, ◌++◌, [], ◌∷◌, length, map, IfOk, OnOk};
ghost use Rattle.qc_accept.specs.Accept.{all_names, kind_names, names_of_words};
ghost use Rattle.qc_accept.specs.Types.{TypeOf};
ghost use Rattle.qc_accept.specs.Views.{names_in, type_in, types_in, words_in};

use crate::kinds::{TypeRead, Types, Words};
use qc_cert::Triple;
use qc_decl::{KindNames, KindNamesList, Kinds};
use qc_list::{List, Name, OutOfMemory};
use qc_table::Kind;
use std::alloc::Global;

/// The types, their names and their triples, each by number.
#[derive(Drop)]
pub(crate) struct Sorted {
    pub(crate) kinds: Kinds,
    pub(crate) names: KindNamesList,
    pub(crate) triples: List<List<Triple>>,
}

/// Sorts what was read of the types.
pub(crate) fn sort_types(alloc: Global, types: Types<'_>) -> Result<Sorted, OutOfMemory>
    requires { length (types_in types).names ≡ length (types_in types).list }
    ensures { IfOk result (λ sorted.
        (sorted.kinds ≡ map (λ (t : TypeOf). t.kind) (types_in types.entry).list)
        × (sorted.names ≡ all_names (types_in types.entry).names (types_in types.entry).list)
        × (sorted.triples ≡ map (λ (t : TypeOf). t.triples) (types_in types.entry).list)) }
{
    let mut sorted = Sorted {
        kinds: List::new(alloc),
        names: List::new(alloc),
        triples: List::new(alloc),
    };
    let Types { names, list } = types;
    let names = names.names(alloc)?;
    for (read, name) in list.into_iter().zip(names.into_vec()) {
        sorted.add(alloc, read, name)?;
    }
    Ok(sorted)
}

impl Sorted {
    /// Adds a type.
    fn add(&mut self, alloc: Global, read: TypeRead<'_>, name: Name) -> Result<(), OutOfMemory>
        ensures { OnOk result ((self.new.kinds ≡ self.old.kinds ++ read.entry.kind ∷ [])
            × (self.new.names ≡ self.old.names ++ kind_names name (type_in read.entry) ∷ [])
            × (self.new.triples ≡ self.old.triples ++ read.entry.triples ∷ [])) }
    {
        self.add_names(alloc, &read.words, name)?;
        self.add_kind(read)
    }

    /// Adds the names of a type.
    fn add_names(&mut self, alloc: Global, words: &Words<'_>, name: Name) -> Result<(), OutOfMemory>
        ensures { OnOk result ((self.new.kinds ≡ self.old.kinds)
            × (self.new.names ≡ self.old.names ++ names_of_words name (words_in words.now) ∷ [])
            × (self.new.triples ≡ self.old.triples)) }
    {
        self.names.push(words.names(alloc, name)?)
    }

    /// Adds what a type is, and its triples.
    fn add_kind(&mut self, read: TypeRead<'_>) -> Result<(), OutOfMemory>
        ensures { OnOk result ((self.new.kinds ≡ self.old.kinds ++ read.entry.kind ∷ [])
            × (self.new.names ≡ self.old.names)
            × (self.new.triples ≡ self.old.triples ++ read.entry.triples ∷ [])) }
    {
        let (kind, triples) = read.into_kind();
        self.kinds.push(kind)?;
        self.triples.push(triples)
    }
}

impl TypeRead<'_> {
    /// What the type is, and its triples.
    fn into_kind(self) -> (Kind, List<Triple>)
        ensures { result ≡ (self.entry.kind, self.entry.triples) }
    {
        let TypeRead {
            words: _,
            events: _,
            kind,
            triples,
        } = self;
        (kind, triples)
    }
}

impl Words<'_> {
    /// The names of the type of this name.
    fn names(&self, alloc: Global, name: Name) -> Result<KindNames, OutOfMemory>
        ensures { IfOk result (λ n. n ≡ names_of_words name (words_in self.now)) }
    {
        let mut names = KindNames {
            name,
            states: List::new(alloc),
            invs: List::new(alloc),
            resps: List::new(alloc),
        };
        self.tell(alloc, &mut names)?;
        Ok(names)
    }

    /// Tells the names of the parts, behind others.
    fn tell(&self, alloc: Global, names: &mut KindNames) -> Result<(), OutOfMemory>
        ensures { OnOk result (names.new ≡ record {
          name = names.old.name;
          states = names.old.states ++ names_in self.now.states;
          invs = names.old.invs ++ names_in self.now.invs;
          resps = names.old.resps ++ names_in self.now.resps;
        }) }
    {
        self.states.tell(alloc, &mut names.states)?;
        self.invs.tell(alloc, &mut names.invs)?;
        self.resps.tell(alloc, &mut names.resps)
    }
}
