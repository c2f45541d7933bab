//! Snapshots that are sent wrongly. Each law is of a guard, and is shown by a
//! run without it.

ghost use Rattle.theory_machine.specs.Asked.{SnapshotTellsDeeds, SnapshotIsOfClosed, SnapshotPassesDone};
ghost use Rattle.theory_machine.specs.Asked.{SnapshotPassesInstalls};
ghost use Rattle.theory_witnesses.specs.Guarantees.{RecordsAreOneCopy};
ghost use Rattle.theory_witnesses.specs.Needed.{IsNeeded};

/// A site that closes tells nothing of a write that it has.
#[tactic(auto, using(crate::proofs::WrongSnapshots::snapshots_of_an_older_log))]
pub fn snapshots_of_an_older_log()
    ensures { IsNeeded SnapshotTellsDeeds RecordsAreOneCopy }
{}

/// A site tells what it has while it is open, and then grants a write.
#[tactic(auto, using(crate::proofs::WrongSnapshots::snapshots_of_open_sites))]
pub fn snapshots_of_open_sites()
    ensures { IsNeeded SnapshotIsOfClosed RecordsAreOneCopy }
{}

/// A read of the first epoch is done at the site; the new epoch begins with a
/// clock below its stamp, and a write is stamped below it.
#[tactic(auto, using(crate::proofs::WrongSnapshots::snapshot_clocks_below_a_done_record))]
pub fn snapshot_clocks_below_a_done_record()
    ensures { IsNeeded SnapshotPassesDone RecordsAreOneCopy }
{}

/// The same by way of a third epoch: the second site forgets the clock that it
/// installed.
#[tactic(auto, using(crate::proofs::WrongSnapshots::snapshot_clocks_below_an_install))]
pub fn snapshot_clocks_below_an_install()
    ensures { IsNeeded SnapshotPassesInstalls RecordsAreOneCopy }
{}
