//! Operations that are begun, chosen and answered wrongly. Each law is of a
//! guard, and is shown by a run without it.

ghost use Rattle.theory_machine.specs.Asked.{BeginsOnce, BeginsInPlannedEpoch, OperatesWhileActive, ChoosesOneAtATime};
ghost use Rattle.theory_machine.specs.Asked.{AnswersFromView, InvocationIsDeclared, OperationsAreNumbered};
ghost use Rattle.theory_machine.specs.Asked.{OwnLinesAreKept, ViewWasShown, ViewIsWhole, ReadQuorumIsMet};
ghost use Rattle.theory_machine.specs.Asked.{ChosenHasResponse, AbsentHasNoResponse};
ghost use Rattle.theory_witnesses.specs.Guarantees.{LogsHoldOperations, OperationsAreOrdered, RecordsAreApart};
ghost use Rattle.theory_witnesses.specs.Guarantees.{RecordsAreOneCopy};
ghost use Rattle.theory_witnesses.specs.Needed.{IsNeeded};

/// A transaction begins again after its commit, and commits again.
#[tactic(auto, using(crate::proofs::WrongOperations::transactions_that_begin_twice))]
pub fn transactions_that_begin_twice()
    ensures { IsNeeded BeginsOnce RecordsAreApart }
{}

/// In an epoch without a plan nothing needs a quorum, and a read asks nobody.
#[tactic(auto, using(crate::proofs::WrongOperations::epochs_without_a_plan))]
pub fn epochs_without_a_plan()
    ensures { IsNeeded BeginsInPlannedEpoch RecordsAreOneCopy }
{}

/// A write is chosen and appended after Prepare; the site votes with its line,
/// which the record lacks.
#[tactic(auto, using(crate::proofs::WrongOperations::operations_after_prepare))]
pub fn operations_after_prepare()
    ensures { IsNeeded OperatesWhileActive LogsHoldOperations }
{}

/// A second write is chosen while the first is appended: the site has a line of
/// each, under one number.
#[tactic(auto, using(crate::proofs::WrongOperations::two_operations_at_once))]
pub fn two_operations_at_once()
    ensures { IsNeeded ChoosesOneAtATime LogsHoldOperations }
{}

/// A read of an empty log tells 1.
#[tactic(auto, using(crate::proofs::WrongOperations::replies_that_no_view_allows))]
pub fn replies_that_no_view_allows()
    ensures { IsNeeded AnswersFromView RecordsAreOneCopy }
{}

/// An invocation that the register lacks, but its relation names, is answered
/// absent without a look at the write on which it depends.
#[tactic(auto, using(crate::proofs::WrongOperations::invocations_that_a_type_lacks))]
pub fn invocations_that_a_type_lacks()
    ensures { IsNeeded InvocationIsDeclared OperationsAreOrdered }
{}

/// A first operation calls itself the seventh, and so does its line.
#[tactic(auto, using(crate::proofs::WrongOperations::operations_with_other_numbers))]
pub fn operations_with_other_numbers()
    ensures { IsNeeded OperationsAreNumbered LogsHoldOperations }
{}

/// A transaction writes 1 and then reads 0, as it leaves out its own line.
#[tactic(auto, using(crate::proofs::WrongOperations::own_writes_forgotten))]
pub fn own_writes_forgotten()
    ensures { IsNeeded OwnLinesAreKept RecordsAreOneCopy }
{}

/// A read tells 1 from a line that no site has.
#[tactic(auto, using(crate::proofs::WrongOperations::views_made_up))]
pub fn views_made_up()
    ensures { IsNeeded ViewWasShown RecordsAreOneCopy }
{}

/// A read leaves out the line that it was shown, and tells 0.
#[tactic(auto, using(crate::proofs::WrongOperations::lines_left_out_of_views))]
pub fn lines_left_out_of_views()
    ensures { IsNeeded ViewIsWhole RecordsAreOneCopy }
{}

/// A read asks nobody for a lock, and tells 0 after a write.
#[tactic(auto, using(crate::proofs::WrongOperations::reads_without_locks))]
pub fn reads_without_locks()
    ensures { IsNeeded ReadQuorumIsMet RecordsAreOneCopy }
{}

/// A write is at two sites of three, and a read asks the third alone.
#[tactic(auto, using(crate::proofs::WrongOperations::reads_at_too_few_sites))]
pub fn reads_at_too_few_sites()
    ensures { IsNeeded ReadQuorumIsMet RecordsAreOneCopy }
{}

/// A Take without a response is appended, as if it had been told ok.
#[tactic(auto, using(crate::proofs::WrongOperations::absent_operations_appended))]
pub fn absent_operations_appended()
    ensures { IsNeeded ChosenHasResponse LogsHoldOperations }
{}

/// A write is told with no append, and a later read doesn't see it.
#[tactic(auto, using(crate::proofs::WrongOperations::writes_without_an_append))]
pub fn writes_without_an_append()
    ensures { IsNeeded AbsentHasNoResponse RecordsAreOneCopy }
{}
