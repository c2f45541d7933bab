//! An actor's store: its journal while that is open, and its disk by itself else.

ghost use Rattle.std.specs.Prelude.{◌≡◌, ◌≢◌, ◌<◌, ◌∷◌, ℕ, Bool, [], List, Some, None, IfErr, IfOk, OnErr, OnOk};
ghost use Rattle.std.specs.Prelude.{is_some};
ghost use Rattle.std.specs.Prelude.{option_map};
ghost use Rattle.qc_decl.specs.declared.declaration.Declaration.{Declaration};
ghost use Rattle.qc_msg.specs.Steps.{Entry, posted_as};
ghost use Rattle.qc_msg.specs.declared.step.Fall.TheVariants as fall;
ghost use Rattle.qc_msg.specs.declared.step.Step.TheVariants as steps;
ghost use Rattle.qc_msg.specs.declared.turn.Appended.TheVariants.{Done};
ghost use Rattle.qc_msg.specs.declared.turn.Turn.{Turn as MsgTurn};
ghost use Rattle.qc_record.specs.Records.{spelled};
ghost use Rattle.qc_process.specs.Goes.{Goes, GoesArmed};
ghost use Rattle.qc_process.specs.Fitting.{AreUnfit};
ghost use Rattle.qc_process.specs.Opens.{GoesOn};
ghost use Rattle.qc_process.specs.Stored.{IsOnDisk, IsOpened, IsStored, Spells};
ghost use Rattle.qc_process.specs.Views.{HasFewRecords, IsUp, MayWrite, appended_by};

use qc_journal::Journal;
use qc_list::OutOfMemory;
use qc_msg::{Appended, Record};
use qc_outside::{ArmKind, Disk, Fused};
use qc_record::write_bytes;
use qc_store::{crash, write};
use std::alloc::Global;
use std::marker::Model;

/// An actor's journal while that is open, and its disk by itself else; with the
/// spelling of the record that is to be written next.
#[derive(Drop)]
pub struct Store<D: Disk> {
    pub(crate) journal: Option<Journal<Fused<D>>>,
    pub(crate) disk: Option<Fused<D>>,
    pub(crate) spelling: Option<Vec<u8>>,
}

impl<D: Disk> Model for Store<D> {
    ghost use Rattle.std.specs.Prelude.{◌≡◌, None, IfSome, IsSome, MatchOption, length, option_map, vec_capacity};
    ghost use Rattle.std.specs.Option.{option_map_or};
    ghost use Rattle.qc_journal.specs.Grammar.{IsBody};
    ghost use Rattle.qc_journal.specs.Journal.{EndsWithin, IsReserved};
    ghost use Rattle.qc_outside.specs.Fuses.{no_fuse};
    ghost use Rattle.qc_process.specs.Views.{StoreView};

    ghost Value = { StoreView };

    ghost view = { λ s. record {
      told = option_map_or (λ j. D.told j.disk.inner) s.journal (option_map_or (λ d. D.told d.inner) s.disk None);
      fuse = option_map_or (λ j. record { armed = j.disk.arm.armed; unarmed = D.faults j.disk.inner }) s.journal
          (option_map_or (λ d. record { armed = d.arm.armed; unarmed = D.faults d.inner }) s.disk (no_fuse 0));
      journal = option_map (λ j. record { end = j.end; records = j.records }) s.journal;
      spelling = option_map (λ b. b.items) s.spelling;
    } };

    // There is a journal or a disk, and not both. A spelling is a body for which the journal has room.
    ghost invariant = { λ s. MatchOption s.journal (IsSome s.disk × (s.spelling ≡ None))
        (λ j. (s.disk ≡ None) × EndsWithin j.end j.records × IfSome s.spelling (λ b. IsBody b.items
        × IsReserved (vec_capacity j.frame) (D.has_room j.disk.inner) j.end (length b.items))) };
}

impl<D: Disk> Store<D> {
    /// Spells a turn's record, if it has one, and takes the memory to write it.
    pub fn prepare(&mut self, alloc: Global, rec: &Option<Record>) -> Result<(), OutOfMemory>
        requires { MayWrite rec.now self.old }
        ensures ok { OnOk result (self.new ≡ record self.old { spelling = option_map spelled rec.now }) }
        ensures err { OnErr result (self.new ≡ record self.old { spelling = None }) }
    {
        self.spelling = None;
        let Some(rec) = rec else {
            return Ok(());
        };
        let bytes = write_bytes(alloc, rec)?;
        let Some(journal) = self.journal.take() else {
            unreachable!()
        };
        let mut journal = journal;
        let room = journal.reserve(bytes.len() as u32);
        self.journal = Some(journal);
        room?;
        self.spelling = Some(bytes);
        Ok(())
    }

    /// Writes the record that was spelled, if one was. Where it isn't written the
    /// journal is given up, and the disk falls. It takes no memory.
    pub fn append(&mut self) -> Appended
        requires few { HasFewRecords self.old }
        ensures none { self.old.spelling ≡ None → result ≡ Done }
        ensures done { result ≡ Done → is_some self.new.journal ≡ is_some self.old.journal }
        ensures fallen { result ≢ Done → self.new.journal ≡ None }
        ensures spelling { self.new.spelling ≡ None }
        ensures goes { (tells : Bool) (decl : Declaration) (a : ℕ) (h now : List Entry) (turn : MsgTurn) (first : ℕ)
            → Spells turn self.old → Goes a h (posted_as result first turn) now → IsStored tells decl a h self.old
            → IsStored tells decl a now self.new }
    {
        let Some(bytes) = self.spelling.take() else {
            return Appended::Done;
        };
        let Some(journal) = self.journal.take() else {
            unreachable!()
        };
        match write(journal, bytes.as_slice()) {
            Ok(journal) => {
                self.journal = Some(journal);
                Appended::Done
            }
            Err((disk, kind)) => {
                self.disk = Some(disk);
                ended_by(kind)
            }
        }
    }

    /// Arms a fault on the disk's write or sync of that number from now on.
    pub fn arm(&mut self, kind: ArmKind, at: u32)
        ensures armed { self.new
            ≡ record self.old { fuse = record { armed = Some (kind, at); unarmed = self.old.fuse.unarmed } } }
        ensures goes { (tells : Bool) (decl : Declaration) (a : ℕ) (h now : List Entry) → GoesArmed a h kind at now
            → IsStored tells decl a h self.old → IsStored tells decl a now self.new }
    {
        if let Some(journal) = self.journal.take() {
            let mut journal = journal;
            journal.arm(kind, at);
            self.journal = Some(journal);
            return;
        }
        let Some(disk) = self.disk.take() else {
            unreachable!()
        };
        let mut disk = disk;
        disk.arm(kind, at);
        self.disk = Some(disk);
    }

    /// Gives the journal up, and the disk falls. So does one that was just
    /// opened, where its records don't fit or memory was wanting.
    pub fn crash(&mut self)
        requires up { IsUp self.old }
        ensures down { (self.new.journal ≡ None) × (self.new.spelling ≡ None) }
        ensures goes { (decl : Declaration) (a : ℕ)
            → GoesOn decl a self.old (steps.Fell fall.Script None ∷ []) self.new }
        ensures damaged { (tells : Bool) (decl : Declaration) (a : ℕ) (h now : List Entry) (bodies : List (List ℕ))
            (offset : ℕ) → IsOpened tells decl a h bodies self.old → AreUnfit decl a bodies
            → Goes a h (steps.Damaged offset ∷ []) now → IsStored tells decl a now self.new }
        ensures given_up { (tells : Bool) (decl : Declaration) (a : ℕ) (h : List Entry) (bodies : List (List ℕ))
            → IsOpened tells decl a h bodies self.old → IsOnDisk tells decl a h self.new.told self.new.fuse.unarmed }
    {
        self.spelling = None;
        let Some(journal) = self.journal.take() else {
            unreachable!()
        };
        self.disk = Some(crash(journal));
    }
}

/// What became of a record where the disk did so.
fn ended_by(kind: ArmKind) -> Appended
    ensures { result ≡ appended_by kind }
{
    match kind {
        ArmKind::Fail => Appended::Failed,
        ArmKind::Stop => Appended::Stopped,
    }
}
