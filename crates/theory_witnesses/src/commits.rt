//! Votes, records and verdicts that are given wrongly. Each law is of a guard,
//! and is shown by a run without it.

ghost use Rattle.theory_machine.specs.Asked.{PreparesOnce, PreparesWhenExecuted, VotesWhenAsked, VotesInGrantedLife};
ghost use Rattle.theory_machine.specs.Asked.{RecordsPrepareWhenAsked, CommitsWhenVoting, AllHaveVoted};
ghost use Rattle.theory_machine.specs.Asked.{StampIsItsClients};
ghost use Rattle.theory_machine.specs.Asked.{StampPassesClock, RecordHasOperations, AbortsBeforeRecord};
ghost use Rattle.theory_machine.specs.Asked.{RisesWithNoneRunning, RisesPastRecords, LearnsWhatWasAnnounced};
ghost use Rattle.theory_witnesses.specs.Guarantees.{LogsHoldOperations, RecordsAreApart, RecordsAreOneCopy};
ghost use Rattle.theory_witnesses.specs.Guarantees.{VerdictsAgree};
ghost use Rattle.theory_witnesses.specs.Needed.{IsNeeded};

/// A transaction that was told to be given up is prepared and commits.
#[tactic(auto, using(crate::proofs::WrongCommits::prepare_after_an_abort))]
pub fn prepare_after_an_abort()
    ensures { IsNeeded PreparesOnce VerdictsAgree }
{}

/// Prepare is sent while an Append is under way: the site votes with a line
/// that the record lacks.
#[tactic(auto, using(crate::proofs::WrongCommits::prepare_during_an_append))]
pub fn prepare_during_an_append()
    ensures { IsNeeded PreparesWhenExecuted LogsHoldOperations }
{}

/// A site votes before it is asked, and then grants a line that its Prepare
/// record lacks: the write is lost.
#[tactic(auto, using(crate::proofs::WrongCommits::votes_before_prepare))]
pub fn votes_before_prepare()
    ensures { IsNeeded VotesWhenAsked RecordsAreOneCopy }
{}

/// A site loses a read lock in its fall and votes in its next life; between
/// them a write commits.
#[tactic(auto, using(crate::proofs::WrongCommits::votes_of_another_life))]
pub fn votes_of_another_life()
    ensures { IsNeeded VotesInGrantedLife RecordsAreOneCopy }
{}

/// A Prepare record is written before Prepare was sent; the vote keeps to it,
/// and the write is lost.
#[tactic(auto, using(crate::proofs::WrongCommits::prepare_records_before_prepare))]
pub fn prepare_records_before_prepare()
    ensures { IsNeeded RecordsPrepareWhenAsked RecordsAreOneCopy }
{}

/// A transaction's record is written twice.
#[tactic(auto, using(crate::proofs::WrongCommits::commits_twice))]
pub fn commits_twice()
    ensures { IsNeeded CommitsWhenVoting RecordsAreApart }
{}

/// A client commits with no votes: the site has no Prepare record, and the
/// write is lost.
#[tactic(auto, using(crate::proofs::WrongCommits::commits_without_votes))]
pub fn commits_without_votes()
    ensures { IsNeeded AllHaveVoted RecordsAreOneCopy }
{}

/// Two clients write one stamp.
#[tactic(auto, using(crate::proofs::WrongCommits::stamps_of_another_client))]
pub fn stamps_of_another_client()
    ensures { IsNeeded StampIsItsClients RecordsAreApart }
{}

/// A read tells what was written, with a stamp below the write's.
#[tactic(auto, using(crate::proofs::WrongCommits::stamps_that_ignore_the_clocks))]
pub fn stamps_that_ignore_the_clocks()
    ensures { IsNeeded StampPassesClock RecordsAreOneCopy }
{}

/// A record has a read that wasn't executed.
#[tactic(auto, using(crate::proofs::WrongCommits::records_of_other_operations))]
pub fn records_of_other_operations()
    ensures { IsNeeded RecordHasOperations RecordsAreOneCopy }
{}

/// A committed transaction is told to be given up.
#[tactic(auto, using(crate::proofs::WrongCommits::aborts_after_the_record))]
pub fn aborts_after_the_record()
    ensures { IsNeeded AbortsBeforeRecord VerdictsAgree }
{}

/// A client rises with its clock lost and its transaction running: the stamp is
/// below that of the line that it read.
#[tactic(auto, using(crate::proofs::WrongCommits::transactions_that_outlive_a_fall))]
pub fn transactions_that_outlive_a_fall()
    ensures { IsNeeded RisesWithNoneRunning RecordsAreOneCopy }
{}

/// A client rises with its clock lost, and writes a stamp for the second time.
#[tactic(auto, using(crate::proofs::WrongCommits::clients_that_forget_their_stamps))]
pub fn clients_that_forget_their_stamps()
    ensures { IsNeeded RisesPastRecords RecordsAreApart }
{}

/// A site takes a verdict that was never sent, and keeps the line of a
/// transaction that has no record.
#[tactic(auto, using(crate::proofs::WrongCommits::verdicts_made_up))]
pub fn verdicts_made_up()
    ensures { IsNeeded LearnsWhatWasAnnounced LogsHoldOperations }
{}
