//! A list of triples, each once in the group of its two states.

ghost use Rattle.std.specs.Prelude.{◌≡◌, ℕ, ◌*◌, ◌<◌, ◌≤◌, ◌||◌, [], ◌∷◌, All, IfOk, OnOk, false, length};
ghost use Rattle.std.specs.Prelude.{slice_index_or};
ghost use Rattle.qc_cert.specs.Faults.{is_covered};
ghost use Rattle.qc_cert.specs.Firsts.{firsts, marked};
ghost use Rattle.qc_cert.specs.Groups.{AreStates, any_within, outs_at, parts_within, place_of};
ghost use Rattle.qc_cert.specs.Limits.{most_triples};
ghost use Rattle.qc_cert.specs.declared.triple.Triple.{Triple};
ghost use Rattle.qc_table.specs.Sets.{is_within};
ghost use Rattle.qc_table.specs.Limits.{most_states};

use crate::blocks::{self, Block};
use crate::firsts::firsts;
use crate::hints::Hints;
use crate::parts::{self, Part};
use crate::places::{FEW, GROUPS, group};
use crate::triple::Triple;
use qc_list::OutOfMemory;
use qc_table::MOST_STATES;
use std::alloc::Global;
use std::marker::Model;

/// How many sets a walk of parts looks at, where there is a table.
const WALK: usize = 256;

/// The sets of events that the triples with the same two states leave out: in
/// blocks, which have tables of bits, and the rest. All but the empty one stand
/// once more in parts, each in that of one of its events: where the parts of a
/// set's events are short, they are walked. Contracts see the blocks and the
/// rest.
#[derive(Drop)]
struct Group {
    /// Whether the empty set is among them, which is within each set.
    has_empty: bool,
    /// Whether the parts have all others. They do, unless memory ran out.
    is_whole: bool,
    parts: Vec<Part>,
    blocks: Vec<Block>,
    rest: Vec<u64>,
}

impl Model for Group {
    ghost use Rattle.std.specs.Prelude.{List, ℕ};
    ghost use Rattle.qc_cert.specs.Groups.{IsGroup, sets_of};

    ghost Value = { List (List ℕ) };

    ghost view = { λ g. sets_of g.blocks.items g.rest.items };

    ghost invariant = { λ g. IsGroup g.has_empty g.is_whole g.parts.items g.blocks.items g.rest.items };
}

impl Group {
    /// No triple.
    fn new(alloc: Global) -> Group
        ensures { (out : ℕ) → parts_within result out ≡ false }
    {
        Group {
            has_empty: false,
            is_whole: true,
            parts: Vec::new(alloc),
            blocks: Vec::new(alloc),
            rest: Vec::new(alloc),
        }
    }

    /// Adds what a triple leaves out.
    fn push(&mut self, alloc: Global, out: u64) -> Result<(), OutOfMemory>
        ensures { OnOk result ((other : ℕ)
            → parts_within self.new other ≡ (parts_within self.old other || is_within out other)) }
    {
        if out == 0 {
            self.push_empty(alloc)
        } else {
            self.push_some(alloc, out)
        }
    }

    /// Adds the empty set.
    fn push_empty(&mut self, alloc: Global) -> Result<(), OutOfMemory>
        ensures { OnOk result ((other : ℕ)
            → parts_within self.new other ≡ (parts_within self.old other || is_within 0 other)) }
    {
        let was_whole = self.is_whole;
        self.is_whole = false;
        self.has_empty = false;
        blocks::add(alloc, &mut self.blocks, &mut self.rest, 0)?;
        self.has_empty = true;
        self.is_whole = was_whole;
        Ok(())
    }

    /// Adds another set.
    fn push_some(&mut self, alloc: Global, out: u64) -> Result<(), OutOfMemory>
        requires { 0 < out }
        ensures { OnOk result ((other : ℕ)
            → parts_within self.new other ≡ (parts_within self.old other || is_within out other)) }
    {
        let was_whole = self.is_whole;
        let had_empty = self.has_empty;
        self.is_whole = false;
        self.has_empty = false;
        blocks::add(alloc, &mut self.blocks, &mut self.rest, out)?;
        parts::add(&mut self.parts, alloc, out)?;
        self.has_empty = had_empty;
        self.is_whole = was_whole;
        Ok(())
    }

    /// Makes a block of the rest, unless it has few sets.
    fn close(&mut self, alloc: Global) -> Result<(), OutOfMemory>
        ensures { OnOk result ((out : ℕ) → parts_within self.new out ≡ parts_within self.old out) }
    {
        if self.rest.len() > FEW {
            let was_whole = self.is_whole;
            let had_empty = self.has_empty;
            self.is_whole = false;
            self.has_empty = false;
            blocks::close(alloc, &mut self.blocks, &mut self.rest)?;
            self.has_empty = had_empty;
            self.is_whole = was_whole;
        }
        Ok(())
    }

    /// Whether a triple of the group leaves out none but these events.
    fn covers(&self, out: u64) -> bool
        ensures { result ≡ parts_within self.now out }
    {
        if self.has_empty {
            true
        } else if self.is_whole && parts::looks(&self.parts, out) <= WALK {
            parts::covers(&self.parts, out)
        } else {
            blocks::covers(&self.blocks, out) || blocks::any_within(&self.rest, out)
        }
    }
}

/// A list of triples with its groups. They are looked up by two states, so
/// that a search walks through one of them alone. `firsts` has a mark for each
/// triple, whether no equal one stands before it.
#[derive(Drop)]
pub(crate) struct Grouped<'a> {
    list: &'a [Triple],
    firsts: Vec<bool>,
    groups: Vec<Group>,
    hints: Hints,
}

impl<'a> Model for Grouped<'a> {
    ghost use Rattle.std.specs.Prelude.{List};
    ghost use Rattle.qc_cert.specs.Groups.{IsGrouped};
    ghost use Rattle.qc_cert.specs.declared.triple.Triple.{Triple};

    ghost Value = { List Triple };

    ghost view = { λ g. g.list.now };

    ghost invariant = { λ g. IsGrouped g.list.now g.firsts.items g.groups.items };
}

impl<'a> Grouped<'a> {
    /// The list of these triples, each of two states below the most states.
    pub(crate) fn new(alloc: Global, list: &'a [Triple]) -> Result<Grouped<'a>, OutOfMemory>
        requires few { length list.now ≤ most_triples }
        requires states { All AreStates list.now }
        ensures { IfOk result (λ g. g ≡ list.now) }
    {
        let firsts = firsts(alloc, list)?;
        let mut groups = empty_groups(alloc)?;
        add_triples(alloc, &mut groups, list, &firsts)?;
        close_groups(alloc, &mut groups)?;
        let hints = Hints::new(alloc, list)?;
        Ok(Grouped {
            list,
            firsts,
            groups,
            hints,
        })
    }

    /// The triples.
    pub(crate) fn list(&self) -> &[Triple]
        ensures { result.now ≡ self.now }
    {
        self.list
    }

    /// For each triple, whether no equal one stands before it.
    pub(crate) fn firsts(&self) -> &[bool]
        ensures { result.now ≡ firsts self.now }
    {
        self.firsts.as_slice()
    }

    /// What a triple that covers what this one becomes is likely to leave out: the
    /// fewest events of all that cover this one, as groups are mostly alike.
    pub(crate) fn near(&self, triple: &Triple) -> u64 {
        let number = group(triple);
        if number < self.groups.len() {
            parts::least(&self.groups[number].parts, triple.out)
        } else {
            triple.out
        }
    }

    /// Whether some triple of the list covers this one. Hints are looked at first:
    /// one that leaves out just the events `near` is likely to.
    pub(crate) fn covers(&self, triple: &Triple, near: u64) -> bool
        ensures { result ≡ is_covered self.now triple.now }
    {
        if self.hints.tell(self.list, triple, near) {
            return true;
        }
        let groups = self.groups.as_slice();
        if triple.view as usize >= MOST_STATES || triple.log as usize >= MOST_STATES {
            return false;
        }
        groups[place(triple.view, triple.log)].covers(triple.out)
    }
}

/// The number of the group of two states.
fn place(view: u8, log: u8) -> usize
    requires view { view < most_states }
    requires log { log < most_states }
    ensures place { result ≡ place_of view log }
    ensures within { result < most_states * most_states }
{
    view as usize * MOST_STATES + log as usize
}

/// The groups of no triple.
fn empty_groups(alloc: Global) -> Result<Vec<Group>, OutOfMemory>
    ensures all { IfOk result (λ v. length v.items ≡ most_states * most_states) }
    ensures empty { IfOk result (λ v. (place out : ℕ)
        → parts_within (slice_index_or v.items place []) out ≡ false) }
{
    let mut groups = Vec::new(alloc);
    'groups: for _group in 0..GROUPS {
        groups.push(Group::new(alloc))?;
    }
    Ok(groups)
}

/// Adds the triples with a mark to empty groups.
fn add_triples(
    alloc: Global,
    groups: &mut [Group],
    list: &[Triple],
    marks: &[bool],
) -> Result<(), OutOfMemory>
    requires all { length groups.old ≡ most_states * most_states }
    requires empty { (place out : ℕ) → parts_within (slice_index_or groups.old place []) out ≡ false }
    requires states { All AreStates list.now }
    requires marks { length marks.now ≡ length list.now }
    ensures all { length groups.new ≡ most_states * most_states }
    ensures outs { OnOk result ((place out : ℕ) → parts_within (slice_index_or groups.new place []) out
        ≡ any_within (outs_at (marked marks.now list.now) place) out) }
{
    'triples: for (place, triple) in list.iter().enumerate() {
        if marks[place] {
            add_triple(alloc, groups, triple)?;
        }
    }
    Ok(())
}

/// Adds a triple to its group.
fn add_triple(alloc: Global, groups: &mut [Group], triple: &Triple) -> Result<(), OutOfMemory>
    requires all { length groups.old ≡ most_states * most_states }
    requires states { AreStates triple.now }
    ensures all { length groups.new ≡ most_states * most_states }
    ensures added { OnOk result ((place out : ℕ) → parts_within (slice_index_or groups.new place []) out
        ≡ (parts_within (slice_index_or groups.old place []) out
        || any_within (outs_at (triple.now ∷ []) place) out)) }
{
    groups[place(triple.view, triple.log)].push(alloc, triple.out)
}

/// Makes a block of the rest of each group that hasn't few sets.
fn close_groups(alloc: Global, groups: &mut [Group]) -> Result<(), OutOfMemory>
    requires all { length groups.old ≡ most_states * most_states }
    ensures all { length groups.new ≡ most_states * most_states }
    ensures same { OnOk result ((place out : ℕ) → parts_within (slice_index_or groups.new place []) out
        ≡ parts_within (slice_index_or groups.old place []) out) }
{
    'groups: for place in 0..GROUPS {
        groups[place].close(alloc)?;
    }
    Ok(())
}
