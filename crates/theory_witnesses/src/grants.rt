//! Grants that sites give, and clients count, wrongly. Each law is of a guard,
//! and is shown by a run without it.

ghost use Rattle.theory_machine.specs.Asked.{GrantTellsDeeds, GrantTellsLife, GrantTellsEpoch, GrantsUnlessClosed};
ghost use Rattle.theory_machine.specs.Asked.{GrantPassesInstalls, GrantsWithoutConflict, GrantPassesDone};
ghost use Rattle.theory_machine.specs.Asked.{GrantPassesLines, GrantsWhatWasRequested, SharesLogsOfSites};
ghost use Rattle.theory_machine.specs.Asked.{CountsWhatWasGranted};
ghost use Rattle.theory_machine.specs.Asked.{CountsWhileActive, CountsInItsEpoch};
ghost use Rattle.theory_witnesses.specs.Guarantees.{LastRecordFollowsSeen, LogsHoldOperations, RecordsAreOneCopy};
ghost use Rattle.theory_witnesses.specs.Needed.{IsNeeded};

/// A site grants a read lock as if it had done nothing.
#[tactic(auto, using(crate::proofs::WrongGrants::grants_that_show_an_older_log))]
pub fn grants_that_show_an_older_log()
    ensures { IsNeeded GrantTellsDeeds RecordsAreOneCopy }
{}

/// A site names the life that it will rise in: it loses the lock in its fall,
/// and votes all the same.
#[tactic(auto, using(crate::proofs::WrongGrants::grants_that_name_a_later_life))]
pub fn grants_that_name_a_later_life()
    ensures { IsNeeded GrantTellsLife RecordsAreOneCopy }
{}

/// A site that has installed nothing grants for the second epoch.
#[tactic(auto, using(crate::proofs::WrongGrants::grants_that_name_a_later_epoch))]
pub fn grants_that_name_a_later_epoch()
    ensures { IsNeeded GrantTellsEpoch RecordsAreOneCopy }
{}

/// A site that has closed and told what it has goes on granting: the write
/// isn't in the new epoch's log.
#[tactic(auto, using(crate::proofs::WrongGrants::grants_of_closed_sites))]
pub fn grants_of_closed_sites()
    ensures { IsNeeded GrantsUnlessClosed RecordsAreOneCopy }
{}

/// A read of the first epoch is stamped; in the second a write gets a lower
/// stamp.
#[tactic(auto, using(crate::proofs::WrongGrants::grant_clocks_below_an_install))]
pub fn grant_clocks_below_an_install()
    ensures { IsNeeded GrantPassesInstalls RecordsAreOneCopy }
{}

/// A write is granted while another holds a read lock: it commits first, and
/// the read tells 0 after it.
#[tactic(auto, using(crate::proofs::WrongGrants::writes_past_a_read_lock))]
pub fn writes_past_a_read_lock()
    ensures { IsNeeded GrantsWithoutConflict RecordsAreOneCopy }
{}

/// A read is granted while another holds the line of a write, and tells 0 with
/// a stamp above the write's.
#[tactic(auto, using(crate::proofs::WrongGrants::reads_past_a_write))]
pub fn reads_past_a_write()
    ensures { IsNeeded GrantsWithoutConflict RecordsAreOneCopy }
{}

/// A read is stamped and done; a later write at the site gets a lower stamp.
#[tactic(auto, using(crate::proofs::WrongGrants::grant_clocks_below_a_done_record))]
pub fn grant_clocks_below_a_done_record()
    ensures { IsNeeded GrantPassesDone RecordsAreOneCopy }
{}

/// A line comes to a site in the view of an Append that is given up; who is
/// shown it there is stamped no later than it.
#[tactic(auto, using(crate::proofs::WrongGrants::grant_clocks_below_a_line))]
pub fn grant_clocks_below_a_line()
    ensures { IsNeeded GrantPassesLines LastRecordFollowsSeen }
{}

/// A site grants a line that was never sent, and it is committed with the
/// transaction.
#[tactic(auto, using(crate::proofs::WrongGrants::grants_that_nobody_asked_for))]
pub fn grants_that_nobody_asked_for()
    ensures { IsNeeded GrantsWhatWasRequested LogsHoldOperations }
{}

/// A site takes a line for shared that no site has.
#[tactic(auto, using(crate::proofs::WrongGrants::shares_of_lines_made_up))]
pub fn shares_of_lines_made_up()
    ensures { IsNeeded SharesLogsOfSites LogsHoldOperations }
{}

/// A client counts a grant that the site never gave.
#[tactic(auto, using(crate::proofs::WrongGrants::grants_made_up))]
pub fn grants_made_up()
    ensures { IsNeeded CountsWhatWasGranted RecordsAreOneCopy }
{}

/// A grant of the first epoch is counted for a transaction that then begins in
/// the second.
#[tactic(auto, using(crate::proofs::WrongGrants::grants_counted_before_the_begin))]
pub fn grants_counted_before_the_begin()
    ensures { IsNeeded CountsWhileActive RecordsAreOneCopy }
{}

/// A transaction of the second epoch counts a grant of a site in the first.
#[tactic(auto, using(crate::proofs::WrongGrants::grants_of_another_epoch))]
pub fn grants_of_another_epoch()
    ensures { IsNeeded CountsInItsEpoch RecordsAreOneCopy }
{}
