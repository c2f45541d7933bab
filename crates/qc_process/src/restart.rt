//! A process opens its journal again, and its actor rises.

ghost use Rattle.std.specs.Prelude.{◌≡◌, None, IfOk, IfSome, OnErr, length};
ghost use Rattle.qc_core.specs.declared.actor.Actor.TheVariants.{Down};
ghost use Rattle.qc_decl.specs.Accepted.{IsAccepted};
ghost use Rattle.qc_journal.specs.Journal.{AreShort, lists};
ghost use Rattle.qc_process.specs.Found.{FoundAs, IsNotOpened, IsRiseOrFall};
ghost use Rattle.qc_process.specs.Opens.{OpensAs, StaysOnDisk};
ghost use Rattle.qc_process.specs.Views.{IsOpenWhileUp, IsSameStore, IsUp, process_of};

use crate::opened::Opened;
use crate::process::Process;
use crate::reading::{Reading, read_records};
use crate::rising::risen;
use crate::store::Store;
use qc_core::Actor;
use qc_decl::Declaration;
use qc_list::{List, OutOfMemory};
use qc_msg::{Fall, Record, Turn};
use qc_outside::{ArmKind, Disk};
use qc_store::RiseFault;
use std::alloc::{AllocError, Global};

impl<D: Disk> Process<D> {
    /// Opens the journal, and lets the actor rise with its records where each
    /// fits it. After want of memory calls of the disk were made that no step
    /// shows, so nothing more is to be done with the process than to take its
    /// disk.
    #[tactic(auto, using(crate::proofs::Ups::closed_of_down))]
    pub fn open(&mut self, alloc: Global, decl: &Declaration) -> Result<Opened, OutOfMemory>
        requires accepted { IsAccepted decl.now }
        requires down { self.old.actor ≡ Down }
        ensures ok { IfOk result (λ opened. OpensAs decl.now self.old self.new opened) }
        ensures err { OnErr result ((self.new.store.journal ≡ None)
            × StaysOnDisk decl.now self.old.store self.new.store) }
    {
        match open_store(alloc, decl, self.number, &mut self.store) {
            Ok((actor, opened)) => {
                self.actor = actor;
                Ok(opened)
            }
            Err(error) => Err(error),
        }
    }
}

/// What the bodies of a journal give.
#[derive(Drop)]
pub(crate) enum Found {
    /// Its actor, risen with these records, and the rising turn.
    Risen {
        actor: Actor,
        records: List<Record>,
        turn: Turn,
    },
    /// A record that is none, or doesn't fit.
    Unfit {
        offset: u64,
    },
}

/// Opens the journal of a store, and gives the actor that it makes.
fn open_store<D: Disk>(
    alloc: Global,
    decl: &Declaration,
    number: u8,
    store: &mut Store<D>,
) -> Result<(Actor, Opened), OutOfMemory>
    requires accepted { IsAccepted decl.now }
    requires down { store.old.journal ≡ None }
    ensures ok { IfOk result (λ r. OpensAs decl.now (process_of number Down store.old)
        (process_of number r.0 store.new) r.1) }
    ensures up { IfOk result (λ r. IsOpenWhileUp r.0 store.new) }
    ensures err { OnErr result ((store.new.journal ≡ None) × StaysOnDisk decl.now store.old store.new) }
{
    match store.open(alloc) {
        Ok(bodies) => {
            let found = find(alloc, decl, number, store, bodies.as_slice());
            rise_or_fall(store, found)
        }
        Err(fault) => match unopened(fault) {
            Ok(opened) => Ok((Actor::Down, opened)),
            Err(error) => Err(error),
        },
    }
}

/// The actor that was found rises, and else the journal is given up.
fn rise_or_fall<D: Disk>(
    store: &mut Store<D>,
    found: Result<Found, OutOfMemory>,
) -> Result<(Actor, Opened), OutOfMemory>
    requires up { IsUp store.old }
    ensures { IsRiseOrFall store.old store.new found result }
{
    match found {
        Ok(
            Found::Risen {
                actor,
                records,
                turn,
            },
        ) => Ok((actor, Opened::Rose { records, turn })),
        Ok(Found::Unfit { offset }) => {
            store.crash();
            Ok((Actor::Down, Opened::Damaged { offset }))
        }
        Err(error) => {
            store.crash();
            Err(error)
        }
    }
}

/// What these bodies give, which the journal of this store gave.
fn find<D: Disk>(
    alloc: Global,
    decl: &Declaration,
    number: u8,
    store: &mut Store<D>,
    bodies: &[Vec<u8>],
) -> Result<Found, OutOfMemory>
    requires accepted { IsAccepted decl.now }
    requires up { IsUp store.old }
    requires short { AreShort bodies.now }
    requires records { IfSome store.old.journal (λ o. o.records ≡ length bodies.now) }
    ensures found { IfOk result (λ found. FoundAs decl.now number (lists bodies.now) store.new found) }
    ensures same { IsSameStore store.old store.new }
{
    match read_records(alloc, decl, number, bodies)? {
        Reading::Fit(records) => {
            let (actor, turn) = risen(alloc, decl, number, records.as_slice())?;
            store.prepare(alloc, &turn.write)?;
            Ok(Found::Risen {
                actor,
                records: List::from_vec(records),
                turn,
            })
        }
        Reading::Unfit { offset } => Ok(Found::Unfit { offset }),
    }
}

/// What a journal is that wasn't opened.
fn unopened(fault: RiseFault) -> Result<Opened, OutOfMemory>
    ensures { IsNotOpened fault result }
{
    match fault {
        RiseFault::Fell(ArmKind::Fail) => Ok(Opened::NotOpened { cause: Fall::Disk }),
        RiseFault::Fell(ArmKind::Stop) => Ok(Opened::NotOpened { cause: Fall::Stop }),
        RiseFault::Torn { offset } => Ok(Opened::Damaged { offset }),
        RiseFault::OutOfMemory => Err(AllocError),
    }
}
