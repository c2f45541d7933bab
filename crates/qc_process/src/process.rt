//! A process: an actor with its store.

ghost use Rattle.std.specs.Prelude.{◌≡◌, ◌≢◌, ◌+◌, ◌<◌, ◌^◌, ◌∷◌, ℕ, Bool, true, [], List, None, IfErr, IfOk};
ghost use Rattle.std.specs.Prelude.{IsSome, OnErr};
ghost use Rattle.std.specs.Prelude.{OnOk, option_map};
ghost use Rattle.qc_core.specs.Actors.{ActorFits, AsksFew, actor_sent, actor_takes, moved};
ghost use Rattle.qc_core.specs.declared.actor.Actor.TheVariants as actors;
ghost use Rattle.qc_decl.specs.Accepted.{IsAccepted};
ghost use Rattle.qc_decl.specs.Actors.{actors as number_of_actors};
ghost use Rattle.qc_decl.specs.declared.declaration.Declaration.{Declaration as Declared};
ghost use Rattle.qc_epoch.specs.Deciding.{most_asks};
ghost use Rattle.qc_msg.specs.Deeds.{own};
ghost use Rattle.qc_msg.specs.Steps.{Entry, HasRecord, posted_as};
ghost use Rattle.qc_msg.specs.declared.step.Fall.TheVariants as fall;
ghost use Rattle.qc_msg.specs.declared.step.Step.TheVariants as steps;
ghost use Rattle.qc_msg.specs.declared.turn.Appended.TheVariants.{Done};
ghost use Rattle.qc_msg.specs.declared.turn.Turn.{Turn as MsgTurn};
ghost use Rattle.qc_promise.specs.Kept.{journal_of};
ghost use Rattle.qc_record.specs.Records.{spelled};
ghost use Rattle.qc_store.specs.Contents.{DiskHasJournal};
ghost use Rattle.qc_process.specs.Goes.{Goes, GoesArmed};
ghost use Rattle.qc_process.specs.Inputs.{IsReadable};
ghost use Rattle.qc_process.specs.Opens.{GoesOn, IsStartRefused};
ghost use Rattle.qc_process.specs.Stored.{IsOnDisk, IsOpened, IsProcess, IsStored, Spells, bodies_of};
ghost use Rattle.qc_process.specs.Views.{HasFewRecords, IsUp, MayWrite};

use crate::act::act;
use crate::store::Store;
use qc_core::Actor;
use qc_decl::Declaration;
use qc_list::OutOfMemory;
use qc_msg::{Appended, Input, Turn};
use qc_outside::{ArmKind, Disk, RackFault};
use std::alloc::Global;
use std::marker::Model;

/// An actor with its store, which is open while it is up.
#[derive(Drop)]
pub struct Process<D: Disk> {
    pub(crate) number: u8,
    pub(crate) actor: Actor,
    pub(crate) store: Store<D>,
}

impl<D: Disk> Model for Process<D> {
    ghost use Rattle.qc_process.specs.Views.{IsOpenWhileUp, ProcessView};

    ghost Value = { ProcessView };

    ghost view = { λ p. record { number = p.number; actor = p.actor; store = p.store } };

    ghost invariant = { λ p. IsOpenWhileUp p.actor p.store };
}

impl<D: Disk> Process<D> {
    /// The process of this number before it does anything, with its journal begun
    /// on its disk. A refusal hands the disk back.
    pub fn new(
        alloc: Global,
        decl: &Declaration,
        number: u8,
        disk: D,
    ) -> Result<Process<D>, (D, RackFault)>
        requires { number < number_of_actors decl.now }
        ensures begun { IfOk result (λ p. (tells : Bool) → (tells ≡ true → IsSome (D.told disk))
            → IsProcess tells decl.now number [] p) }
        ensures up { IfOk result (λ p. IsUp p.store) }
        ensures refused { IfErr result (λ e. IsStartRefused number (D.told disk) (D.faults disk) (D.faults e.0) e.1) }
    {
        let Ok(actor) = Actor::new(alloc, decl, number) else {
            return Err((disk, RackFault::OutOfMemory));
        };
        let store = Store::new(alloc, number, disk)?;
        Ok(Process {
            number,
            actor,
            store,
        })
    }

    /// The actor acts on an input. After want of memory the process is as it was.
    pub fn take(
        &mut self,
        alloc: Global,
        decl: &Declaration,
        given: Input,
    ) -> Result<Turn, OutOfMemory>
        requires accepted { IsAccepted decl.now }
        requires fits { ActorFits self.old.actor }
        requires readable { IsReadable given }
        ensures ok { IfOk result (λ turn. actor_takes decl.now self.old.actor given ≡ moved self.new.actor turn) }
        ensures same { (self.new.number ≡ self.old.number) × (self.new.store ≡ self.old.store) }
        // One that is down has nothing to write.
        ensures writes { IfOk result (λ turn. HasRecord turn.write → IsUp self.new.store) }
        ensures err { OnErr result (self.new ≡ self.old) }
    {
        act(&mut self.actor, alloc, decl, given)
    }

    /// Spells the turn's record, if it has one, and takes the memory to write it.
    pub fn prepare(&mut self, alloc: Global, turn: &Turn) -> Result<(), OutOfMemory>
        requires { MayWrite turn.now.write self.old.store }
        ensures ok { OnOk result (self.new ≡ record self.old {
          store = record self.old.store { spelling = option_map spelled turn.now.write };
        }) }
        ensures err { OnErr result (self.new ≡ record self.old { store = record self.old.store { spelling = None } }) }
    {
        self.store.prepare(alloc, &turn.write)
    }

    /// Writes the record that was spelled, if one was. Where it isn't written the
    /// actor is down, and its disk fell. It takes no memory.
    pub fn append(&mut self) -> Appended
        requires few { HasFewRecords self.old.store }
        ensures number { self.new.number ≡ self.old.number }
        ensures none { self.old.store.spelling ≡ None → result ≡ Done }
        ensures done { result ≡ Done → self.new.actor ≡ self.old.actor }
        ensures fallen { result ≢ Done → (self.new.actor ≡ actors.Down) × (self.new.store.journal ≡ None) }
        ensures spelling { self.new.store.spelling ≡ None }
        ensures goes { (tells : Bool) (decl : Declared) (a : ℕ) (h now : List Entry) (turn : MsgTurn) (first : ℕ)
            → Spells turn self.old.store → Goes a h (posted_as result first turn) now
            → IsStored tells decl a h self.old.store → IsStored tells decl a now self.new.store }
    {
        match self.store.append() {
            Appended::Done => Appended::Done,
            Appended::Failed => {
                self.actor = Actor::Down;
                Appended::Failed
            }
            Appended::Stopped => {
                self.actor = Actor::Down;
                Appended::Stopped
            }
        }
    }

    /// The messages of the actor's last turn were given the numbers from `first`
    /// on. It takes no memory.
    pub fn sent(&mut self, first: u32)
        requires few { AsksFew self.old.actor }
        requires numbers { first + most_asks < 2 ^ 32 }
        ensures { self.new ≡ record self.old { actor = actor_sent self.old.actor first } }
    {
        self.actor.sent(first);
    }

    /// Arms a fault on the disk's write or sync of that number from now on. It
    /// takes no memory.
    pub fn arm(&mut self, kind: ArmKind, at: u32)
        ensures same { (self.new.number ≡ self.old.number) × (self.new.actor ≡ self.old.actor) }
        ensures goes { (tells : Bool) (decl : Declared) (a : ℕ) (h now : List Entry) → GoesArmed a h kind at now
            → IsStored tells decl a h self.old.store → IsStored tells decl a now self.new.store }
    {
        self.store.arm(kind, at);
    }

    /// The actor falls, and its disk with it. It takes no memory.
    #[tactic(auto, using(crate::proofs::Ups::open_of_up))]
    pub fn crash(&mut self)
        requires up { self.old.actor ≢ actors.Down }
        ensures number { self.new.number ≡ self.old.number }
        ensures down { (self.new.actor ≡ actors.Down) × (self.new.store.journal ≡ None) }
        ensures goes { (decl : Declared) (a : ℕ)
            → GoesOn decl a self.old.store (steps.Fell fall.Script None ∷ []) self.new.store }
        // One that was just opened, and is given up before its history tells so.
        ensures given_up { (tells : Bool) (decl : Declared) (a : ℕ) (h : List Entry) (bodies : List (List ℕ))
            → IsOpened tells decl a h bodies self.old.store
            → IsOnDisk tells decl a h self.new.store.told self.new.store.fuse.unarmed }
    {
        self.actor = Actor::Down;
        self.store.crash();
    }

    /// The disk, once the actor is down for good. What it counted are the faults
    /// that nothing armed made.
    pub fn into_disk(self) -> D
        ensures stored { (tells : Bool) (decl : Declared) (a : ℕ) (h : List Entry) → IsStored tells decl a h self.store
            → IsOnDisk tells decl a h (D.told result) (D.faults result) }
        ensures on_disk { (tells : Bool) (decl : Declared) (a : ℕ) (h : List Entry) → self.store.journal ≡ None
            → IsOnDisk tells decl a h self.store.told self.store.fuse.unarmed
            → IsOnDisk tells decl a h (D.told result) (D.faults result) }
        // A journal that was open stays begun.
        ensures begun { (tells : Bool) (decl : Declared) (a : ℕ) (h : List Entry) → IsUp self.store
            → IsStored tells decl a h self.store
            → DiskHasJournal (D.told result) (bodies_of (journal_of (own a h)).records) }
    {
        self.store.into_disk()
    }

    /// The actor's number.
    pub fn number(&self) -> u8
        ensures { result ≡ self.now.number }
    {
        self.number
    }

    /// The actor, as it stands.
    pub fn actor(&self) -> &Actor
        ensures { result.now ≡ self.now.actor }
    {
        &self.actor
    }
}
