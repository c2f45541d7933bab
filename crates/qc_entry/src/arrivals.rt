//! Lines in the order in which they came, found by object.

ghost use Rattle.std.specs.Prelude.{◌≡◌, ◌<◌, ◌≤◌, ◌==◌, ◌++◌, ◌∷◌, [], ℕ, if◌then◌else◌, length, take, IfOk};
ghost use Rattle.std.specs.Prelude.{OnOk, OnErr, drop, option_to_list, slice_get, true, vec_len};
ghost use Rattle.qc_entry.specs.Log.{of_object};
ghost use Rattle.qc_entry.specs.Marks.{told};
ghost use Rattle.qc_entry.specs.Places.{ArePlaced, picked, places_at};

use crate::{Line, Log, Mark};
use qc_list::OutOfMemory;
use std::alloc::Global;
use std::marker::Model;

/// Lines in the order in which they joined a site's log. Where those of an object
/// stand is looked up once somebody asks.
#[derive(Drop)]
pub struct Arrivals {
    lines: Vec<Line>,
    places: Vec<Vec<usize>>,
    placed: usize,
}

impl Model for Arrivals {
    ghost use Rattle.std.specs.Prelude.{List};
    ghost use Rattle.qc_entry.specs.declared.line.Line.{Line};
    ghost use Rattle.qc_entry.specs.Places.{ArePlaced};

    ghost Value = { List Line };

    ghost view = { λ a. a.lines.items };

    ghost invariant = { λ a. ArePlaced a.lines.items a.places.items a.placed };
}

/// What is told of an object's lines to who has a mark.
#[derive(Drop)]
pub struct Told {
    /// How many lines of the object came.
    pub count: u64,
    /// Those that the mark doesn't count, or all.
    pub log: Log,
}

impl Arrivals {
    /// No lines. It takes no memory.
    pub fn new(alloc: Global) -> Arrivals
        ensures { result ≡ [] }
    {
        Arrivals {
            lines: Vec::new(alloc),
            places: Vec::new(alloc),
            placed: 0,
        }
    }

    /// The number of lines.
    pub fn count(&self) -> usize
        ensures { result ≡ length self.now }
    {
        self.lines.len()
    }

    /// Lines join. After want of memory none has.
    pub fn join(&mut self, lines: &[Line]) -> Result<(), OutOfMemory>
        ensures ok { OnOk result (self.new ≡ self.old ++ lines.now) }
        ensures err { OnErr result (self.new ≡ self.old) }
    {
        self.lines.extend_from_slice(lines)?;
        Ok(())
    }

    /// All but the first so many lines go.
    pub fn truncate(&mut self, count: usize)
        ensures { self.new ≡ take count self.old }
    {
        self.lines.truncate(count);
        if count < self.placed {
            self.places.clear();
            self.placed = 0;
        }
    }

    /// What a site of this life and epoch tells of an object to who has the mark.
    /// The lines stay.
    pub fn tell(
        &mut self,
        alloc: Global,
        life: u32,
        epoch: u8,
        object: u8,
        mark: Mark,
    ) -> Result<Told, OutOfMemory>
        ensures lines { self.new ≡ self.old }
        ensures count { IfOk result (λ t. t.count ≡ length (of_object self.old object)) }
        ensures log { IfOk result (λ t. t.log ≡ told life epoch (of_object self.old object) mark) }
    {
        place(self.lines.as_slice(), &mut self.places, &mut self.placed)?;
        let places = places_of(self.places.as_slice(), object);
        let count = places.len() as u64;
        let rest = places_told(places, mark, mark.is_current(life, epoch, count));
        let lines = picked(alloc, self.lines.as_slice(), rest)?;
        Ok(Told {
            count,
            log: Log::of_lines(alloc, lines.as_slice())?,
        })
    }
}

/// The places of an object.
fn places_of<'a>(places: &'a [Vec<usize>], object: u8) -> &'a [usize]
    ensures { result.now ≡ places_at places.now object }
{
    match places.get(object as usize) {
        Some(list) => list.as_slice(),
        None => &[],
    }
}

/// The places from the mark's count on, where it is current, or all.
fn places_told<'a>(places: &'a [usize], mark: Mark, is_current: bool) -> &'a [usize]
    requires { is_current ≡ true → mark.count ≤ length places.now }
    ensures { result.now ≡ (if is_current then drop mark.count places.now else places.now) }
{
    if is_current {
        return &places[mark.count as usize..];
    }
    places
}

/// All lines are placed, each under its object, unless memory is wanted.
fn place(
    lines: &[Line],
    places: &mut Vec<Vec<usize>>,
    placed: &mut usize,
) -> Result<(), OutOfMemory>
    requires { ArePlaced lines.now places.old.items placed.old }
    ensures placed { ArePlaced lines.now places.new.items placed.new }
    ensures ok { OnOk result (placed.new ≡ length lines.now) }
{
    'lines: while *placed < lines.len() {
        put(places, lines[*placed].object, *placed)?;
        *placed += 1;
    }
    Ok(())
}

/// A place more of an object. After want of memory there is none.
fn put(places: &mut Vec<Vec<usize>>, object: u8, place: usize) -> Result<(), OutOfMemory>
    ensures ok { OnOk result ((o : ℕ) → places_at places.new.items o
        ≡ (if object == o then places_at places.old.items o ++ place ∷ [] else places_at places.old.items o)) }
    ensures err { OnErr result ((o : ℕ) → places_at places.new.items o ≡ places_at places.old.items o) }
{
    grow(places, object)?;
    places[object as usize].push(place)?;
    Ok(())
}

/// There is a list for this object, unless memory is wanted. Places stay.
fn grow(places: &mut Vec<Vec<usize>>, object: u8) -> Result<(), OutOfMemory>
    ensures places { (o : ℕ) → places_at places.new.items o ≡ places_at places.old.items o }
    ensures ok { OnOk result (object < vec_len places.new) }
{
    'lists: while places.len() <= object as usize {
        let list = Vec::new(*places.allocator());
        places.push(list)?;
    }
    Ok(())
}

/// The lines at these places.
fn picked(alloc: Global, lines: &[Line], places: &[usize]) -> Result<Vec<Line>, OutOfMemory>
    ensures { IfOk result (λ v. v.items ≡ picked lines.now places.now) }
{
    let mut them = Vec::new(alloc);
    'places: for place in places {
        pick(&mut them, lines, *place)?;
    }
    Ok(them)
}

/// The line at this place, if there is one, comes last.
fn pick(them: &mut Vec<Line>, lines: &[Line], place: usize) -> Result<(), OutOfMemory>
    ensures { OnOk result (them.new.items ≡ them.old.items ++ option_to_list (slice_get lines.now place)) }
{
    if let Some(line) = lines.get(place) {
        them.push(*line)?;
    }
    Ok(())
}
