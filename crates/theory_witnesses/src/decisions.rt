//! Epochs that are decided and installed wrongly. Each law is of a guard, and
//! is shown by a run without it.

ghost use Rattle.theory_machine.specs.Asked.{DecidesByPlan, DecidesFromSnapshots, DecidesNextEpoch, ClosesEnough};
ghost use Rattle.theory_machine.specs.Asked.{ClosedSitesAnswered, ResolvesPrepared, MergesEveryEntry};
ghost use Rattle.theory_machine.specs.Asked.{DecidePassesCommitted, MergesLogs, MergesOnlyCommitted};
ghost use Rattle.theory_machine.specs.Asked.{DecidePassesSnapshots, InstallsWhatWasDecided, InstallsLaterEpoch};
ghost use Rattle.theory_witnesses.specs.Guarantees.{RecordsAreOneCopy};
ghost use Rattle.theory_witnesses.specs.Needed.{IsNeeded};

/// By a plan without thresholds nothing must close: an epoch is decided from no
/// snapshot.
#[tactic(auto, using(crate::proofs::WrongDecisions::closes_by_another_plan))]
pub fn closes_by_another_plan()
    ensures { IsNeeded DecidesByPlan RecordsAreOneCopy }
{}

/// An epoch is decided from a snapshot that no site sent.
#[tactic(auto, using(crate::proofs::WrongDecisions::snapshots_made_up))]
pub fn snapshots_made_up()
    ensures { IsNeeded DecidesFromSnapshots RecordsAreOneCopy }
{}

/// The third epoch is decided from what the second site told in the first,
/// before a write of the second.
#[tactic(auto, using(crate::proofs::WrongDecisions::snapshots_of_an_older_epoch))]
pub fn snapshots_of_an_older_epoch()
    ensures { IsNeeded DecidesNextEpoch RecordsAreOneCopy }
{}

/// An epoch is decided while the site of the one before hasn't closed.
#[tactic(auto, using(crate::proofs::WrongDecisions::closes_too_few_sites))]
pub fn closes_too_few_sites()
    ensures { IsNeeded ClosesEnough RecordsAreOneCopy }
{}

/// Sites count as closed that told nothing.
#[tactic(auto, using(crate::proofs::WrongDecisions::closes_of_silent_sites))]
pub fn closes_of_silent_sites()
    ensures { IsNeeded ClosedSitesAnswered RecordsAreOneCopy }
{}

/// An epoch is decided while a write is prepared and not yet committed; it
/// commits after that.
#[tactic(auto, using(crate::proofs::WrongDecisions::decides_without_the_prepared))]
pub fn decides_without_the_prepared()
    ensures { IsNeeded ResolvesPrepared RecordsAreOneCopy }
{}

/// A transaction writes one register at one site and the other at the other,
/// and both tell it as prepared; one entry is merged for both.
#[tactic(auto, using(crate::proofs::WrongDecisions::merges_of_one_entry_for_several))]
pub fn merges_of_one_entry_for_several()
    ensures { IsNeeded MergesEveryEntry RecordsAreOneCopy }
{}

/// A read is prepared at the site and committed; the new clock leaves its stamp
/// out, and a write is stamped below it.
#[tactic(auto, using(crate::proofs::WrongDecisions::decide_clocks_below_a_committed_stamp))]
pub fn decide_clocks_below_a_committed_stamp()
    ensures { IsNeeded DecidePassesCommitted RecordsAreOneCopy }
{}

/// A new epoch begins with an empty log.
#[tactic(auto, using(crate::proofs::WrongDecisions::logs_not_merged))]
pub fn logs_not_merged()
    ensures { IsNeeded MergesLogs RecordsAreOneCopy }
{}

/// A new epoch begins with a line that no site had.
#[tactic(auto, using(crate::proofs::WrongDecisions::merges_of_lines_made_up))]
pub fn merges_of_lines_made_up()
    ensures { IsNeeded MergesOnlyCommitted RecordsAreOneCopy }
{}

/// The new clock is below that of a snapshot, and a write is stamped below a
/// read of the epoch before.
#[tactic(auto, using(crate::proofs::WrongDecisions::decide_clocks_below_a_snapshot))]
pub fn decide_clocks_below_a_snapshot()
    ensures { IsNeeded DecidePassesSnapshots RecordsAreOneCopy }
{}

/// A site installs an epoch that wasn't decided.
#[tactic(auto, using(crate::proofs::WrongDecisions::installs_made_up))]
pub fn installs_made_up()
    ensures { IsNeeded InstallsWhatWasDecided RecordsAreOneCopy }
{}

/// A site installs its epoch once more, and loses what was written in it.
#[tactic(auto, using(crate::proofs::WrongDecisions::installs_of_the_same_epoch))]
pub fn installs_of_the_same_epoch()
    ensures { IsNeeded InstallsLaterEpoch RecordsAreOneCopy }
{}
