//! Events that are appended wrongly. Each law is of a guard, and is shown by a
//! run without it.

ghost use Rattle.theory_machine.specs.Asked.{AppendsWhatIsChosen, AppendCarriesView, AppendCarriesOnlyOwnLines};
ghost use Rattle.theory_machine.specs.Asked.{AppendCarriesEarlierLines, AppendQuorumIsMet};
ghost use Rattle.theory_witnesses.specs.Guarantees.{LogsHoldOperations, RecordsAreOneCopy};
ghost use Rattle.theory_witnesses.specs.Needed.{IsNeeded};

/// A transaction that has chosen nothing sends a line, and its record lacks it.
#[tactic(auto, using(crate::proofs::WrongAppends::appends_of_nothing_chosen))]
pub fn appends_of_nothing_chosen()
    ensures { IsNeeded AppendsWhatIsChosen LogsHoldOperations }
{}

/// A latch is armed at one site. Its Fire is appended at both, without the Arm
/// that it saw; a look at the other site finds it unfired.
#[tactic(auto, using(crate::proofs::WrongAppends::views_not_sent_along))]
pub fn views_not_sent_along()
    ensures { IsNeeded AppendCarriesView RecordsAreOneCopy }
{}

/// An Append has a line more than its transaction has operations.
#[tactic(auto, using(crate::proofs::WrongAppends::appends_of_other_lines))]
pub fn appends_of_other_lines()
    ensures { IsNeeded AppendCarriesOnlyOwnLines LogsHoldOperations }
{}

/// A transaction arms a latch at one site and fires it at both, without the
/// line of its Arm; a look at the other finds it unfired.
#[tactic(auto, using(crate::proofs::WrongAppends::earlier_lines_not_sent_along))]
pub fn earlier_lines_not_sent_along()
    ensures { IsNeeded AppendCarriesEarlierLines RecordsAreOneCopy }
{}

/// A write is met by one site of three, and a read by the other two.
#[tactic(auto, using(crate::proofs::WrongAppends::quorums_that_do_not_meet))]
pub fn quorums_that_do_not_meet()
    ensures { IsNeeded AppendQuorumIsMet RecordsAreOneCopy }
{}
