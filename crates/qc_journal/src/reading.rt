//! Reading a journal's records.
//!
//! Records are read until a gate is closed. At an open gate there has to stand a
//! length in range, the body, and the next gate; else the journal is torn there.

ghost use Rattle.std.specs.Prelude.{◌≡◌, ◌≢◌, ◌≤◌, ◌<◌, ◌+◌, ◌*◌, ℕ, Some, length, IfOk, IfErr};
ghost use Rattle.qc_outside.specs.Images.{Told, Tells, Since, as_read};
ghost use Rattle.qc_outside.specs.Fuses.{HasPassed};
ghost use Rattle.qc_journal.specs.Calls.{JournalBurns, JournalIsRefused, most_of_opening};
ghost use Rattle.qc_journal.specs.Causes.{JournalRose};
ghost use Rattle.qc_journal.specs.declared.fault.JournalFault.TheVariants.{Torn as JournalTorn};
ghost use Rattle.qc_journal.specs.Grammar.{IsTorn, IsNoJournal, Holds};
ghost use Rattle.qc_journal.specs.Head.{IsHead};
ghost use Rattle.qc_journal.specs.Journal.{AreShort, Stands, IsAtRest, IsLeftAtOpen, lists};

use crate::JournalFault;
use crate::writing::write_through;
use qc_outside::Disk;
use std::alloc::Global;

/// The most bytes of a body.
const MAX_BODY: u32 = 65_536;

/// What stands at a gate.
enum Head {
    /// A closed gate.
    Closed,
    /// An open gate and the length of the body behind it.
    Open(u32),
    /// Neither.
    Torn,
}

/// What the first five bytes from a gate on say, or fewer where the disk ends.
fn head_of(bytes: &[u8]) -> Head
    requires { length bytes.now ≤ 5 }
    ensures { IsHead bytes.now result }
{
    match bytes {
        [0, ..] => Head::Closed,
        [_, a, b, c, d] => {
            let count = u32::from_be_bytes([*a, *b, *c, *d]);
            if count >= 1 && count <= MAX_BODY {
                Head::Open(count)
            } else {
                Head::Torn
            }
        }
        _ => Head::Torn,
    }
}

/// The bodies of the records that a disk of that length holds, and where they end.
pub(crate) fn read_records<D: Disk>(
    alloc: Global,
    disk: &mut D,
    len: u64,
) -> Result<(u64, Vec<Vec<u8>>), JournalFault>
    requires len { (t : Told) → D.told disk.old ≡ Some t → len ≡ length (as_read t.now) }
    requires some { 0 < len }
    ensures same { D.told disk.new ≡ D.told disk.old }
    ensures opened { IfOk result (λ r. (t : Told) → D.told disk.old ≡ Some t
        → Stands r.0 (lists r.1.items) (as_read t.now)) }
    ensures short { IfOk result (λ r. r.0 ≤ 65541 * length r.1.items) }
    ensures bodies { IfOk result (λ r. AreShort r.1.items) }
    ensures torn { IfErr result (λ e. (t : Told) → D.told disk.old ≡ Some t
        → (offset : ℕ) → e ≡ JournalTorn offset → IsTorn offset (as_read t.now)) }
    ensures cause { JournalRose (D.faults disk.old) (D.faults disk.new) result }
    ensures fuse { JournalBurns 0 0 0 (D.fuse disk.old) (D.fuse disk.new) result }
{
    let mut bodies = Vec::new(alloc);
    let mut at = 0;
    'records: loop {
        let head = disk.read(at, 5)?;
        match head_of(&head) {
            Head::Closed => return Ok((at, bodies)),
            Head::Torn => return Err(JournalFault::Torn { offset: at }),
            Head::Open(count) => {
                if len - at < u64::from(count) + 6 {
                    return Err(JournalFault::Torn { offset: at });
                }
                let body = disk.read(at + 5, count)?;
                bodies.push(body)?;
                at += u64::from(count) + 5;
            }
        }
    }
}

/// Makes what a disk holds last, and reads the records; or begins an empty
/// journal on a disk that holds none.
pub(crate) fn start<D: Disk>(
    alloc: Global,
    disk: &mut D,
) -> Result<(u64, Vec<Vec<u8>>), JournalFault>
    ensures opened { IfOk result (λ r. Tells (D.told disk.old) (D.told disk.new) (λ old new.
        Holds (lists r.1.items) (as_read old.now) × IsAtRest r.0 (lists r.1.items) new)) }
    ensures short { IfOk result (λ r. r.0 ≤ 65541 * length r.1.items) }
    ensures bodies { IfOk result (λ r. AreShort r.1.items) }
    ensures torn { IfErr result (λ e. (offset : ℕ) → e ≡ JournalTorn offset
        → Tells (D.told disk.old) (D.told disk.new) (λ old new. IsNoJournal offset (as_read old.now))) }
    ensures moments { Tells (D.told disk.old) (D.told disk.new) (λ old new. Since (IsLeftAtOpen old.now) old new) }
    ensures cause { JournalRose (D.faults disk.old) (D.faults disk.new) result }
    ensures fuse { IfOk result (λ r. HasPassed 1 (most_of_opening (lists r.1.items)) (D.fuse disk.old)
        (D.fuse disk.new)) }
    ensures fuse_err { IfErr result (λ e. JournalIsRefused 0 2 1 (D.fuse disk.old) (D.fuse disk.new) e) }
{
    let len = disk.len()?;
    if len <= 1 {
        write_through(disk, 0, &[0])?;
        return Ok((0, Vec::new(alloc)));
    }
    disk.sync()?;
    read_records(alloc, disk, len)
}
