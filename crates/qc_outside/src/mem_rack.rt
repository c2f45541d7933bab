//! A rack of disks in memory, whose falls tear as the rack was told, for each
//! actor.

ghost use Rattle.std.specs.Prelude.{◌≡◌, ◌≢◌, ℕ, Some, [], Err, IfOk, IfErr, OnOk, OnErr, option_copied};
ghost use Rattle.qc_outside.specs.Disk.{RackRose, NamesActor};
ghost use Rattle.qc_outside.specs.Images.{told_at_first};
ghost use Rattle.qc_outside.specs.Places.{HandsOut, PutsBack};
ghost use Rattle.qc_outside.specs.declared.rack.RackFault.TheVariants.{Failed};
ghost use Rattle.qc_outside.specs.declared.tear.Tear.TheVariants.{Nothing};
ghost use Rattle.qc_outside.specs.MemRack.{IsAdded, IsFirstAt, is_at, held, name_of, tear_of};

use crate::{Disk, MemDisk, Rack, RackFault, Tear};
use qc_list::OutOfMemory;
use std::alloc::Global;

/// A place for which a disk was handed out, and the bytes that it holds.
#[derive(Drop)]
struct Kept {
    folder: Option<Vec<u8>>,
    actor: u8,
    bytes: Vec<u8>,
}

impl Kept {
    /// Whether it is the place of this folder and actor.
    fn is_at(&self, dir: Option<&str>, actor: u8) -> bool
        ensures { result ≡ is_at (record { folder = option_copied dir.entry; actor = actor }) self.now }
    {
        let is_folder = match (dir, &self.folder) {
            (None, None) => true,
            (Some(a), Some(b)) => a.as_bytes() == b.as_slice(),
            (None, Some(_)) | (Some(_), None) => false,
        };
        is_folder && actor == self.actor
    }
}

/// The name of a folder, kept.
fn name_owned(alloc: Global, dir: Option<&str>) -> Result<Option<Vec<u8>>, OutOfMemory>
    ensures { IfOk result (λ folder. name_of folder ≡ option_copied dir.entry) }
{
    match dir {
        None => Ok(None),
        Some(name) => Ok(Some(name.as_bytes().to_vec(alloc)?)),
    }
}

/// A rack that gives each actor a new disk in memory.
#[derive(Drop)]
pub struct MemRack {
    alloc: Global,
    /// What the falls of a listed actor's disks do, the first for each.
    tears: Vec<(u8, Tear)>,
    /// What those of the other actors' disks do.
    tear: Tear,
    places: Vec<Kept>,
}

impl MemRack {
    /// A rack whose places hold no byte, and whose disks' falls tear so.
    pub fn new(alloc: Global, tear: Tear) -> Result<MemRack, OutOfMemory>
        ensures none { IfOk result (λ r. r.places.items ≡ []) }
        ensures tears { IfOk result (λ r. r.tears.items ≡ []) }
        ensures tear { IfOk result (λ r. r.tear ≡ tear) }
    {
        Ok(MemRack {
            alloc,
            tears: Vec::new(alloc),
            tear,
            places: Vec::new(alloc),
        })
    }

    /// A rack whose places hold no byte. The falls of a listed actor's disks do
    /// what the first of the list says for it, and those of the others undo what
    /// wasn't synced.
    pub fn torn(alloc: Global, tears: Vec<(u8, Tear)>) -> Result<MemRack, OutOfMemory>
        ensures none { IfOk result (λ r. r.places.items ≡ []) }
        ensures tears { IfOk result (λ r. r.tears.items ≡ tears.items) }
        ensures tear { IfOk result (λ r. r.tear ≡ Nothing) }
    {
        Ok(MemRack {
            alloc,
            tears,
            tear: Tear::Nothing,
            places: Vec::new(alloc),
        })
    }

    /// Adds a place that holds no byte.
    fn add(&mut self, dir: Option<&str>, actor: u8) -> Result<(), OutOfMemory>
        ensures added { OnOk result (IsAdded self.old.places.items
            (record { folder = option_copied dir.entry; actor = actor }) self.new.places.items) }
        ensures err { OnErr result (self.new.places.items ≡ self.old.places.items) }
        ensures tears { (self.new.tears.items ≡ self.old.tears.items) × (self.new.tear ≡ self.old.tear) }
    {
        let folder = name_owned(self.alloc, dir)?;
        let bytes = Vec::new(self.alloc);
        self.places.push(Kept {
            folder,
            actor,
            bytes,
        })?;
        Ok(())
    }

    /// Makes the place ready for a disk, unless it holds bytes.
    fn lend(&mut self, dir: Option<&str>, actor: u8) -> Result<(), RackFault>
        ensures handed { HandsOut (held self.old.places.items)
            (record { folder = option_copied dir.entry; actor = actor }) result (held self.new.places.items) }
        ensures named { IfErr result (NamesActor actor) }
        ensures whole { (named : ℕ) → result ≢ Err (Failed named) }
        ensures tears { (self.new.tears.items ≡ self.old.tears.items) × (self.new.tear ≡ self.old.tear) }
    {
        match place_at(&self.places, dir, actor) {
            None => self.add(dir, actor)?,
            Some(index) => {
                if !self.places[index].bytes.is_empty() {
                    return Err(RackFault::NotEmpty { actor });
                }
            }
        }
        Ok(())
    }
}

/// Where the first of this folder and actor stands.
fn place_at(places: &[Kept], dir: Option<&str>, actor: u8) -> Option<usize>
    ensures { IsFirstAt (record { folder = option_copied dir.entry; actor = actor }) places.now result }
{
    let mut index = 0;
    for kept in places {
        if kept.is_at(dir, actor) {
            return Some(index);
        }
        index += 1;
    }
    None
}

/// What the falls of an actor's disks do: what the first that is listed for it
/// says, or what those of the others do.
fn tear_of(tears: &[(u8, Tear)], others: Tear, actor: u8) -> Tear
    ensures { result ≡ tear_of tears.now others actor }
{
    'tears: for listed in tears {
        if listed.0 == actor {
            return listed.1;
        }
    }
    others
}

impl Rack for MemRack {
    type D = MemDisk;

    ghost faults = { λ _. 0 };

    ghost places = { λ r. Some (held r.places.items) };

    fn disk(&mut self, dir: Option<&str>, actor: u8) -> Result<MemDisk, RackFault>
        ensures empty { IfOk result (λ d. ⟦<MemDisk as Disk>⟧.told d ≡ Some told_at_first) }
        ensures handed { HandsOut (held self.old.places.items)
            (record { folder = option_copied dir.entry; actor = actor }) result (held self.new.places.items) }
        ensures named { IfErr result (NamesActor actor) }
        ensures cause { RackRose 0 0 result }
        ensures torn { IfOk result (λ d. d.tear ≡ tear_of self.old.tears.items self.old.tear actor) }
        ensures tears { (self.new.tears.items ≡ self.old.tears.items) × (self.new.tear ≡ self.old.tear) }
    {
        let tear = tear_of(&self.tears, self.tear, actor);
        let disk = MemDisk::new(self.alloc, tear)?;
        self.lend(dir, actor)?;
        Ok(disk)
    }

    fn keep(&mut self, dir: Option<&str>, actor: u8, disk: MemDisk)
        ensures put { PutsBack (held self.old.places.items) (record { folder = option_copied dir.entry; actor = actor })
            (⟦<MemDisk as Disk>⟧.told disk) (held self.new.places.items) }
        ensures tears { (self.new.tears.items ≡ self.old.tears.items) × (self.new.tear ≡ self.old.tear) }
    {
        if let Some(index) = place_at(&self.places, dir, actor) {
            self.places[index].bytes = disk.into_bytes();
        }
    }
}
