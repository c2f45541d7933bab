//! What an append writes: the record behind the closed gate, and then the gate.
//!
//! 1. A write made to last is a call of write and one of sync.
//! 2. While the record is written, a stop leaves the records from before. Once it
//!    lasts, it stands whole behind the closed gate.
//! 3. While its gate is opened, a stop leaves the gate closed or open, and so the
//!    records from before, or these with the new one.

ghost use Rattle.std.specs.Prelude.{◌≡◌, ◌≢◌, ◌≤◌, ◌<◌, ◌+◌, ◌^◌, List, ℕ, suc, [], ◌∷◌, ◌++◌, Err, length};
ghost use Rattle.std.specs.Prelude.{IfSome, OnOk, IsOk, vec_capacity};
ghost use Rattle.qc_outside.specs.Disk.{DiskRose};
ghost use Rattle.qc_outside.specs.Fuses.{BurnsMany};
ghost use Rattle.qc_outside.specs.Images.{Tells, Since, IsImage, as_read, wrote, settled};
ghost use Rattle.qc_outside.specs.declared.disk.DiskFault.TheVariants.{OutOfMemory as DiskWants};
ghost use Rattle.qc_journal.specs.Grammar.{IsBody, Holds, HoldsWithOrWithout, counted};
ghost use Rattle.qc_journal.specs.Journal.{Rests, IsBehind};

use qc_list::OutOfMemory;
use qc_outside::{Disk, DiskFault};

/// What is written behind the closed gate: length, body and the next closed gate.
pub(crate) fn fill(frame: &mut Vec<u8>, body: &[u8]) -> Result<(), OutOfMemory>
    requires room { length body.now + 5 ≤ vec_capacity frame.old }
    requires short { length body.now ≤ 65536 }
    ensures frame { frame.new.items ≡ counted body.now ++ 0 ∷ [] }
    ensures ok { IsOk result }
{
    let count = body.len() as u32;
    frame.clear();
    frame.extend_from_slice(&count.to_be_bytes())?;
    frame.extend_from_slice(body)?;
    frame.push(0)?;
    Ok(())
}

/// Writes bytes and makes them last.
pub(crate) fn write_through<D: Disk>(disk: &mut D, at: u64, bytes: &[u8]) -> Result<(), DiskFault>
    ensures lasting { OnOk result (Tells (D.told disk.old) (D.told disk.new) (λ old new.
        new.now ≡ settled (as_read (wrote old.now (record { at = at; bytes = bytes.now }))))) }
    ensures moments { Tells (D.told disk.old) (D.told disk.new) (λ old new.
        Since (IsImage (wrote old.now (record { at = at; bytes = bytes.now }))) old new) }
    ensures memory { (n end : ℕ) → D.has_room disk.old (suc n) end → at + length bytes.now ≤ end
        → result ≢ Err DiskWants }
    ensures room { OnOk result ((n end : ℕ) → D.has_room disk.old (suc n) end → at + length bytes.now ≤ end
        → D.has_room disk.new n end) }
    ensures cause { DiskRose (D.faults disk.old) (D.faults disk.new) result }
    ensures fuse { BurnsMany 1 2 2 (D.fuse disk.old) (D.fuse disk.new) result }
{
    disk.write_at(at, bytes)?;
    disk.sync()
}

/// Writes a record behind the closed gate.
#[tactic(auto, using(crate::proofs::Append::stays_closed, crate::proofs::Append::stands_behind))]
fn write_behind<D: Disk>(disk: &mut D, end: u64, frame: &[u8]) -> Result<(), DiskFault>
    requires bound { end + 1 < 2 ^ 64 }
    ensures behind { OnOk result ((bodies : List (List ℕ)) (body : List ℕ) → frame.now ≡ counted body ++ 0 ∷ []
        → Rests (D.told disk.old) end bodies → IfSome (D.told disk.new) (IsBehind end bodies body)) }
    ensures moments { (bodies : List (List ℕ)) → Rests (D.told disk.old) end bodies
        → Tells (D.told disk.old) (D.told disk.new) (λ old new. Since (Holds bodies) old new) }
    ensures memory { (n place : ℕ) → D.has_room disk.old (suc n) place → end + 1 + length frame.now ≤ place
        → result ≢ Err DiskWants }
    ensures room { OnOk result ((n place : ℕ) → D.has_room disk.old (suc n) place
        → end + 1 + length frame.now ≤ place → D.has_room disk.new n place) }
    ensures cause { DiskRose (D.faults disk.old) (D.faults disk.new) result }
    ensures fuse { BurnsMany 1 2 2 (D.fuse disk.old) (D.fuse disk.new) result }
{
    write_through(disk, end + 1, frame)
}

/// Opens the gate in front of a record.
#[tactic(auto, using(crate::proofs::Append::stays_whole, crate::proofs::Append::stands))]
fn open_gate<D: Disk>(disk: &mut D, end: u64) -> Result<(), DiskFault>
    ensures added { OnOk result ((bodies : List (List ℕ)) (body : List ℕ) → IsBody body
        → IfSome (D.told disk.old) (IsBehind end bodies body)
        → Rests (D.told disk.new) (end + length body + 5) (bodies ++ body ∷ [])) }
    ensures moments { (bodies : List (List ℕ)) (body : List ℕ) → IsBody body
        → IfSome (D.told disk.old) (IsBehind end bodies body)
        → Tells (D.told disk.old) (D.told disk.new) (λ old new. Since (HoldsWithOrWithout bodies body) old new) }
    ensures memory { (n place : ℕ) → D.has_room disk.old (suc n) place → end + 1 ≤ place → result ≢ Err DiskWants }
    ensures cause { DiskRose (D.faults disk.old) (D.faults disk.new) result }
    ensures fuse { BurnsMany 1 2 2 (D.fuse disk.old) (D.fuse disk.new) result }
{
    write_through(disk, end, &[1])
}

/// Writes a record, and then opens its gate.
pub(crate) fn lay<D: Disk>(
    disk: &mut D,
    end: u64,
    frame: &[u8],
    body: &[u8],
) -> Result<(), DiskFault>
    requires frame { frame.now ≡ counted body.now ++ 0 ∷ [] }
    requires body { IsBody body.now }
    requires room { D.has_room disk.old 2 (end + length body.now + 6) }
    requires bound { end + length body.now + 6 < 2 ^ 64 }
    ensures added { OnOk result ((bodies : List (List ℕ)) → Rests (D.told disk.old) end bodies
        → Rests (D.told disk.new) (end + length body.now + 5) (bodies ++ body.now ∷ [])) }
    ensures moments { (bodies : List (List ℕ)) → Rests (D.told disk.old) end bodies
        → Tells (D.told disk.old) (D.told disk.new) (λ old new. Since (HoldsWithOrWithout bodies body.now) old new) }
    ensures memory { result ≢ Err DiskWants }
    ensures cause { DiskRose (D.faults disk.old) (D.faults disk.new) result }
    ensures fuse { BurnsMany 1 4 4 (D.fuse disk.old) (D.fuse disk.new) result }
{
    write_behind(disk, end, frame)?;
    open_gate(disk, end)
}
