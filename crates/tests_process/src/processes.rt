//! A site's process on a disk in memory: it falls and rises, with faults armed.

ghost use Rattle.std.specs.Prelude.{◌≡◌, IfOk};
ghost use Rattle.qc_core.specs.declared.actor.Actor.TheVariants.{Down};
ghost use Rattle.qc_decl.specs.Accepted.{IsAccepted};

use qc_core::Actor;
use qc_decl::{Declaration, built_in};
use qc_list::OutOfMemory;
use qc_msg::{Appended, Command, Fall, Input, Reply};
use qc_outside::{ArmKind, MemDisk, RackFault, Tear};
use qc_process::{Opened, Process};
use std::alloc::Global;
use std::process::Abort;
use std::test::Fail;

/// What a restart came to.
#[derive(Clone, Copy, Debug, PartialEq, Eq)]
enum Came {
    /// The actor rose with so many records, and this became of the next one.
    Rose(usize, Appended),
    /// The disk failed or stopped.
    NotOpened(Fall),
    /// The journal is damaged at this byte.
    Damaged(u64),
    /// Memory was wanting.
    OutOfMemory,
}

/// `@three`.
fn three(rt: &impl Abort, alloc: Global) -> Result<Declaration, OutOfMemory>
    ensures { IfOk result IsAccepted }
{
    match built_in(alloc, "@three")? {
        Some(decl) => Ok(decl),
        None => panic!(rt; "no @three"),
    }
}

/// The actor falls, if it is up.
fn fall(process: &mut Process<MemDisk>)
    ensures { process.new.actor ≡ Down }
{
    match process.actor() {
        Actor::Down => {}
        Actor::Site(_) | Actor::Client(_) | Actor::Admin(_) => process.crash(),
    }
}

/// The actor falls, and rises if it can: its new life's record is written.
fn restart(alloc: Global, decl: &Declaration, process: &mut Process<MemDisk>) -> Came
    requires { IsAccepted decl.now }
{
    fall(process);
    match process.open(alloc, decl) {
        Ok(Opened::Rose { records, turn: _ }) => {
            let end = process.append();
            Came::Rose(records.items().len(), end)
        }
        Ok(Opened::Damaged { offset }) => Came::Damaged(offset),
        Ok(Opened::NotOpened { cause }) => Came::NotOpened(cause),
        Err(_) => Came::OutOfMemory,
    }
}

/// A process of the first site, on an empty disk.
fn begin(rt: &impl Abort, alloc: Global, decl: &Declaration) -> Result<Process<MemDisk>, Fail>
    requires { IsAccepted decl.now }
{
    match Process::new(alloc, decl, 0, MemDisk::new(alloc, Tear::Nothing)?) {
        Ok(process) => Ok(process),
        Err((_disk, _fault)) => panic!(rt; "no process"),
    }
}

/// What three restarts come to.
fn three_restarts(
    rt: &impl Abort,
    alloc: Global,
    decl: &Declaration,
) -> Result<(Came, Came, Came), Fail>
    requires { IsAccepted decl.now }
{
    let mut process = begin(rt, alloc, decl)?;
    let first = restart(alloc, decl, &mut process);
    let second = restart(alloc, decl, &mut process);
    Ok((first, second, restart(alloc, decl, &mut process)))
}

/// Each life's record is there at the next rise.
#[test]
fn lives_are_kept(rt: HostRuntime) -> Result<(), Fail> {
    let decl = three(&rt, rt.alloc())?;
    let done = Appended::Done;
    assert_eq!(rt;
        three_restarts(&rt, rt.alloc(), &decl)?,
        (
            Came::Rose(0, done),
            Came::Rose(1, done),
            Came::Rose(2, done)
        )
    );
    Ok(())
}

/// What the second restart comes to, with this armed before it, and what the
/// third does.
fn armed(
    rt: &impl Abort,
    alloc: Global,
    decl: &Declaration,
    kind: ArmKind,
    at: u32,
) -> Result<(Came, Came), Fail>
    requires { IsAccepted decl.now }
{
    let mut process = begin(rt, alloc, decl)?;
    let _first = restart(alloc, decl, &mut process);
    process.arm(kind, at);
    let second = restart(alloc, decl, &mut process);
    Ok((second, restart(alloc, decl, &mut process)))
}

/// An opening makes one call that counts, and a record four. A record in whose
/// last call the disk stops, with a tear that leaves nothing, isn't there.
#[test]
fn armed_faults_act_in_restarts(rt: HostRuntime) -> Result<(), Fail> {
    let decl = three(&rt, rt.alloc())?;
    let after = Came::Rose(1, Appended::Done);
    for (kind, cause, end) in [
        (ArmKind::Fail, Fall::Disk, Appended::Failed),
        (ArmKind::Stop, Fall::Stop, Appended::Stopped),
    ] {
        assert_eq!(rt;
            armed(&rt, rt.alloc(), &decl, kind, 1)?,
            (Came::NotOpened(cause), after)
        );
        for at in 2..6 {
            assert_eq!(rt;
                armed(&rt, rt.alloc(), &decl, kind, at)?,
                (Came::Rose(1, end), after)
            );
        }
    }
    Ok(())
}

/// Whether the process tells that it is down.
fn tells_down(alloc: Global, decl: &Declaration, process: &mut Process<MemDisk>) -> bool
    requires accepted { IsAccepted decl.now }
    requires down { process.old.actor ≡ Down }
{
    let given = Input::Called(Command::Begin);
    match process.take(alloc, decl, given) {
        Ok(turn) => matches!(turn.told, Some(Reply::Down)),
        Err(_) => false,
    }
}

/// What the next process of this disk is refused by, if it is.
fn refusal(alloc: Global, decl: &Declaration, disk: MemDisk) -> Option<RackFault>
    requires { IsAccepted decl.now }
{
    match Process::new(alloc, decl, 0, disk) {
        Ok(_process) => None,
        Err((_disk, fault)) => Some(fault),
    }
}

/// Whether a process that is down tells so, and what the next one says to its
/// disk.
fn taken_down(
    rt: &impl Abort,
    alloc: Global,
    decl: &Declaration,
) -> Result<(bool, Option<RackFault>), Fail>
    requires { IsAccepted decl.now }
{
    let mut process = begin(rt, alloc, decl)?;
    let _first = restart(alloc, decl, &mut process);
    fall(&mut process);
    let told = tells_down(alloc, decl, &mut process);
    Ok((told, refusal(alloc, decl, process.into_disk())))
}

/// A process that is down tells so. Its disk holds its journal, and no process
/// begins on it.
#[test]
fn disks_are_given_back(rt: HostRuntime) -> Result<(), Fail> {
    let decl = three(&rt, rt.alloc())?;
    assert_eq!(rt;
        taken_down(&rt, rt.alloc(), &decl)?,
        (true, Some(RackFault::NotEmpty { actor: 0 }))
    );
    Ok(())
}
