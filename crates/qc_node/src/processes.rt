//! The processes of a run are started, each over a disk of the rack; or none is, and
//! each disk that was handed out goes back. No journal is begun before all disks are
//! there.

ghost use Rattle.std.specs.Prelude.{◌≡◌, ◌+◌, ◌<◌, ◌≤◌, ◌^◌, [], Bool, true, IfErr, IfOk, IfSome, IsSome, OnOk};
ghost use Rattle.std.specs.Prelude.{is_some, length, option_copied, vec_capacity, vec_len};
ghost use Rattle.std.specs.Vec.Iter.{into_iter_items};
ghost use Rattle.qc_decl.specs.Accepted.{IsAccepted};
ghost use Rattle.qc_decl.specs.Actors.{actors};
ghost use Rattle.qc_decl.specs.declared.declaration.Declaration.{Declaration as Declared};
ghost use Rattle.qc_process.specs.Stored.{IsProcess};
ghost use Rattle.qc_process.specs.Views.{IsUp};
ghost use Rattle.laws_bounds.specs.Places.{AreHandedOut};
ghost use Rattle.qc_node.specs.Starts.{AreProcesses, AreStarted, AreUnbegun, AreUnstarted, AreUnwritten, AreUp};
ghost use Rattle.qc_node.specs.Starts.{IsBackFrom, IsGivenBack};

use qc_decl::Declaration;
use qc_outside::{Disk, Rack, RackFault};
use qc_process::Process;
use std::alloc::Global;
use std::vec::IntoIter;

/// A process over a disk of the rack, in this folder or in none, for each actor, by
/// number.
#[tactic(auto, using(crate::proofs::Unstarted::wanting_unstarted))]
pub(crate) fn start<K: Rack>(
    alloc: Global,
    decl: &Declaration,
    dir: Option<&str>,
    rack: &mut K,
) -> Result<Vec<Process<K::D>>, RackFault>
    requires accepted { IsAccepted decl.now }
    ensures whole { IfOk result (λ each. vec_len each ≡ actors decl.now) }
    ensures each { IfOk result (λ each. (tells : Bool) → (tells ≡ true → IsSome (K.places rack.old))
        → AreProcesses tells decl.now each.items) }
    ensures up { IfOk result (λ each. AreUp each.items) }
    ensures started { IfOk result (λ _. AreStarted (option_copied dir.entry) (actors decl.now) (K.places rack.old)
        (K.faults rack.old) (K.places rack.new) (K.faults rack.new)) }
    ensures refused { IfErr result (λ fault. AreUnstarted (option_copied dir.entry) (K.places rack.old)
        (K.faults rack.old) (K.places rack.new) (K.faults rack.new) fault) }
{
    let each = Vec::with_capacity(alloc, usize::from(decl.sites + decl.clients + 1))?;
    let disks = disks_of(alloc, decl, dir, rack)?;
    processes_on(alloc, decl, dir, rack, disks, each)
}

/// The disks of all actors, by number. Where the rack refuses one, those that it gave
/// go back unwritten.
#[tactic(auto, using(crate::proofs::Starts::none_started, crate::proofs::Unstarted::wanting_unstarted))]
fn disks_of<K: Rack>(
    alloc: Global,
    decl: &Declaration,
    dir: Option<&str>,
    rack: &mut K,
) -> Result<Vec<K::D>, RackFault>
    requires accepted { IsAccepted decl.now }
    ensures whole { IfOk result (λ disks. vec_len disks ≡ actors decl.now) }
    ensures unwritten { IfOk result (λ disks.
        AreUnwritten (is_some (K.places rack.old)) K.D.told K.D.faults disks.items) }
    ensures started { IfOk result (λ _. AreStarted (option_copied dir.entry) (actors decl.now) (K.places rack.old)
        (K.faults rack.old) (K.places rack.new) (K.faults rack.new)) }
    ensures refused { IfErr result (λ fault. AreUnstarted (option_copied dir.entry) (K.places rack.old)
        (K.faults rack.old) (K.places rack.new) (K.faults rack.new) fault) }
{
    let actors = decl.sites + decl.clients + 1;
    let mut disks = Vec::with_capacity(alloc, usize::from(actors))?;
    for actor in 0..actors {
        match rack.disk(dir, actor) {
            Ok(disk) => disks.push_reserved(disk),
            Err(fault) => {
                give_back_disks(dir, rack, 0, disks.into_iter());
                return Err(fault);
            }
        }
    }
    Ok(disks)
}

/// The processes over all disks, in a list that has room for them. Where one's
/// journal isn't begun, its disk goes back, and so do the others: those before it
/// with their journals begun, and those behind it unwritten.
fn processes_on<K: Rack>(
    alloc: Global,
    decl: &Declaration,
    dir: Option<&str>,
    rack: &mut K,
    disks: Vec<K::D>,
    each: Vec<Process<K::D>>,
) -> Result<Vec<Process<K::D>>, RackFault>
    requires accepted { IsAccepted decl.now }
    requires whole { vec_len disks ≡ actors decl.now }
    requires unwritten { AreUnwritten (is_some (K.places rack.old)) K.D.told K.D.faults disks.items }
    requires handed { IfSome (K.places rack.old) (AreHandedOut (option_copied dir) (actors decl.now)) }
    requires none { each.items ≡ [] }
    requires room { actors decl.now ≤ vec_capacity each }
    ensures whole { IfOk result (λ each. vec_len each ≡ actors decl.now) }
    ensures each { IfOk result (λ each. (tells : Bool) → (tells ≡ true → IsSome (K.places rack.old))
        → AreProcesses tells decl.now each.items) }
    ensures up { IfOk result (λ each. AreUp each.items) }
    ensures same { OnOk result (rack.new ≡ rack.old) }
    ensures refused { IfErr result (λ fault. AreUnbegun (option_copied dir.entry) (actors decl.now)
        (K.places rack.old) (K.faults rack.old) (K.places rack.new) (K.faults rack.new) fault) }
{
    let mut each = each;
    let mut disks = disks.into_iter();
    for actor in 0..decl.sites + decl.clients + 1 {
        let Some(disk) = disks.next() else {
            unreachable!()
        };
        match Process::new(alloc, decl, actor, disk) {
            Ok(process) => each.push_reserved(process),
            Err((back, fault)) => {
                give_back(dir, rack, each);
                rack.keep(dir, actor, back);
                give_back_disks(dir, rack, actor + 1, disks);
                return Err(fault);
            }
        }
    }
    Ok(each)
}

/// Each disk goes back to its place, with its journal begun.
fn give_back<K: Rack>(dir: Option<&str>, rack: &mut K, each: Vec<Process<K::D>>)
    requires handed { IfSome (K.places rack.old) (AreHandedOut (option_copied dir) (vec_len each)) }
    requires processes { (decl : Declared) × AreProcesses (is_some (K.places rack.old)) decl each.items }
    requires up { AreUp each.items }
    ensures { IsGivenBack (option_copied dir.entry) (vec_len each) (K.places rack.old) (K.faults rack.old)
        (K.places rack.new) (K.faults rack.new) }
{
    for process in each {
        let actor = process.number();
        rack.keep(dir, actor, process.into_disk());
    }
}

/// Each disk goes back to its place unwritten, from this actor's on.
fn give_back_disks<K: Rack>(dir: Option<&str>, rack: &mut K, first: u8, disks: IntoIter<K::D>)
    requires fits { first + length (into_iter_items disks) < 2 ^ 8 }
    requires unwritten { AreUnwritten (is_some (K.places rack.old)) K.D.told K.D.faults (into_iter_items disks) }
    ensures { IsBackFrom (option_copied dir.entry) first (length (into_iter_items disks)) (K.places rack.old)
        (K.faults rack.old) (K.places rack.new) (K.faults rack.new) }
{
    let mut actor = first;
    for disk in disks {
        rack.keep(dir, actor, disk);
        actor += 1;
    }
}
