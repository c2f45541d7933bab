//! A desk's calls: a commit begins, a vote comes, the messages of a turn get
//! their numbers (presumed abort).

ghost use Rattle.std.specs.Prelude.{◌≡◌, ◌<◌, ◌≤◌, ◌+◌, ◌^◌, ◌++◌, ◌∷◌, [], length, max, option_map};
ghost use Rattle.std.specs.Prelude.{IfOk, OnOk, OnErr};
ghost use Rattle.std.specs.Option.{option_copied};
ghost use Rattle.qc_msg.specs.Calls.{numbered_from, without_call};
ghost use Rattle.qc_commit.specs.declared.desk.Voting.{Voting};
ghost use Rattle.qc_commit.specs.Conduct.{abort_turn, awaited, commit_of, commit_turn, prepare, sent, vote};
ghost use Rattle.qc_commit.specs.Fits.{AsksFew};
ghost use Rattle.qc_commit.specs.Learning.{closed, promised};

use crate::ballot::{Ballot, Ballots, Vote, are_cast, blank, cast, first_against};
use crate::desk::{Commits, Desk, Voting};
use crate::participants::{participants, prepares};
use qc_decl::Declaration;
use qc_entry::Commit;
use qc_list::{List, OutOfMemory};
use qc_msg::{AbortCause, Answer, Appended, Begun, Calls, Outcome, Record, Reply, Turn};
use qc_stamp::{Clock, Stamp};
use std::alloc::Global;

impl Desk {
    /// Begins the commit of a transaction, `clock` being the greatest that its
    /// client knows of: each participant is asked for its promise; where there
    /// is none, the transaction commits. After want of memory the desk is as it
    /// was.
    pub fn prepare(
        &mut self,
        alloc: Global,
        decl: &Declaration,
        begun: &Begun,
        clock: u64,
    ) -> Result<Turn, OutOfMemory>
        requires sites { 0 < decl.now.sites }
        requires own { self.old.clock.value < 2 ^ 63 }
        requires handed { clock < 2 ^ 63 }
        ensures ok { IfOk result (λ turn. prepare decl.now self.old begun.now clock
            ≡ record { desk = self.new; turn = turn }) }
        ensures err { OnErr result (self.new ≡ self.old) }
    {
        let sites = participants(alloc, decl, self.client, begun)?;
        let passed = passed(self.clock, clock);
        if sites.is_empty() {
            let stamp = Stamp {
                clock: passed.next(),
                client: self.client,
            };
            let turn = commit(&mut self.commits, alloc, begun, stamp)?;
            self.replace(Clock { value: stamp.clock }, None);
            return Ok(turn);
        }
        let sends = prepares(alloc, begun, sites.as_slice())?;
        let ballots = blank(alloc, sites.as_slice())?;
        let voting = Voting {
            begun: begun.copy()?,
            calls: Calls::new(),
            ballots: List::from_vec(ballots),
        };
        self.replace(passed, Some(voting));
        Ok(Turn::sending(alloc, List::from_vec(sends)))
    }

    /// Takes what came of the request of this number: its answer, or, with
    /// none, that it is lost. What was taken for it before stands, and what
    /// isn't a Prepare of this commit is put aside. Once all votes are in, the
    /// transaction commits, or the first vote against in the client's order of
    /// sites aborts it. After want of memory the desk is as it was.
    #[tactic(auto, using(crate::proofs::Learned::learns_both))]
    pub fn vote(
        &mut self,
        alloc: Global,
        number: u32,
        answer: Option<&Answer>,
    ) -> Result<Turn, OutOfMemory>
        requires own { self.old.clock.value < 2 ^ 63 }
        requires told { promised (option_copied answer) < 2 ^ 63 }
        ensures ok { IfOk result (λ turn. vote self.old number (option_copied answer.entry)
            ≡ record { desk = self.new; turn = turn }) }
        ensures err { OnErr result (self.new ≡ self.old) }
    {
        let Some(voting) = &self.voting else {
            return Ok(Turn::quiet(alloc));
        };
        let Some(site) = voting.calls.site_called(number) else {
            return Ok(Turn::quiet(alloc));
        };
        let vote = Vote::of(&voting.begun, site, answer);
        let ballots = cast(alloc, &voting.ballots, site, vote)?;
        let mut clock = passed(self.clock, promised(answer));
        let epoch = self.epoch.max(closed(answer));
        if !are_cast(&ballots) {
            go_on(&mut self.voting, number, ballots);
            self.clock = clock;
            self.epoch = epoch;
            return Ok(Turn::quiet(alloc));
        }
        let turn = match first_against(&ballots) {
            Some(why) => abort_turn(alloc, &voting.begun, why)?,
            None => {
                let stamp = Stamp {
                    clock: clock.next(),
                    client: self.client,
                };
                clock = Clock { value: stamp.clock };
                commit(&mut self.commits, alloc, &voting.begun, stamp)?
            }
        };
        self.epoch = epoch;
        self.replace(clock, None);
        Ok(turn)
    }

    /// The messages of the last turn were given the numbers from `first` on.
    /// Nothing changes where a Prepare is open already. It takes no memory.
    pub fn sent(&mut self, first: u32)
        requires few { AsksFew self.old.voting }
        requires numbers { first + 16 < 2 ^ 32 }
        ensures { self.new ≡ sent self.old first }
    {
        if let Some(voting) = &mut self.voting {
            number_calls(&mut voting.calls, voting.ballots.items(), first);
        }
    }
}

/// The Prepares of the last turn were given the numbers from `first` on: those
/// to the sites that have no vote yet, where none is open.
fn number_calls(calls: &mut Calls, ballots: &[Ballot], first: u32)
    requires few { length ballots.now ≤ 16 }
    requires numbers { first + 16 < 2 ^ 32 }
    ensures { calls.new ≡ numbered_from calls.old (awaited ballots.now) first }
{
    if !calls.is_empty() {
        return;
    }
    let mut number = first;
    'ballots: for b in ballots {
        if b.vote.is_none() {
            calls.add(number, b.site);
            number += 1;
        }
    }
}

/// A clock after it passes another.
fn passed(clock: Clock, other: u64) -> Clock
    ensures { result.value ≡ max clock.value other }
{
    let mut passed = clock;
    passed.pass(other);
    passed
}

/// The clock that a promise tells, or 0.
fn promised(answer: Option<&Answer>) -> u64
    ensures { result ≡ promised (option_copied answer.entry) }
{
    match answer {
        Some(Answer::Yes { clock }) => *clock,
        _ => 0,
    }
}

/// The epoch that a closed site tells, or 0.
fn closed(answer: Option<&Answer>) -> u8
    ensures { result ≡ closed (option_copied answer.entry) }
{
    match answer {
        Some(Answer::Closed { epoch }) => *epoch,
        _ => 0,
    }
}

/// A commit goes on with these ballots, and without the request of this number.
fn go_on(voting: &mut Option<Voting>, number: u32, ballots: Ballots)
    ensures { voting.new ≡ option_map (λ (v : Voting). record v {
      calls = without_call v.calls number;
      ballots = ballots;
    }) voting.old }
{
    if let Some(voting) = voting {
        voting.calls = voting.calls.without_call(number);
        voting.ballots = ballots;
    }
}

/// The turn that commits a transaction with this stamp, whose record the desk
/// keeps. After want of memory the records are as they were.
fn commit(
    commits: &mut Commits,
    alloc: Global,
    begun: &Begun,
    stamp: Stamp,
) -> Result<Turn, OutOfMemory>
    ensures ok { IfOk result (λ turn. turn ≡ commit_turn stamp begun.now) }
    ensures kept { OnOk result (commits.new ≡ commits.old ++ commit_of stamp begun.now ∷ []) }
    ensures err { OnErr result (commits.new ≡ commits.old) }
{
    let sends = begun.decisions(alloc, Outcome::Committed { stamp })?;
    let record = record_of(begun, stamp)?;
    keep(commits, begun, stamp)?;
    Ok(Turn {
        write: Some(Record::Commit(record)),
        sends,
        told: Some(Reply::Committed { stamp }),
        failed_sends: List::new(alloc),
        failed_told: Some(Reply::Unknown),
        append: Appended::Done,
    })
}

/// The desk keeps the commit record of a transaction with this stamp. After
/// want of memory the records are as they were.
fn keep(commits: &mut Commits, begun: &Begun, stamp: Stamp) -> Result<(), OutOfMemory>
    ensures kept { OnOk result (commits.new ≡ commits.old ++ commit_of stamp begun.now ∷ []) }
    ensures err { OnErr result (commits.new ≡ commits.old) }
{
    commits.push(record_of(begun, stamp)?)
}

/// The commit record of a transaction with this stamp.
fn record_of(begun: &Begun, stamp: Stamp) -> Result<Commit, OutOfMemory>
    ensures { IfOk result (λ r. r ≡ commit_of stamp begun.now) }
{
    Ok(Commit {
        stamp,
        tx: begun.tx,
        ops: begun.ops.copy()?,
    })
}

/// The turn that aborts a transaction for this cause.
fn abort_turn(alloc: Global, begun: &Begun, why: AbortCause) -> Result<Turn, OutOfMemory>
    ensures { IfOk result (λ turn. turn ≡ abort_turn begun.now why) }
{
    let sends = begun.decisions(alloc, Outcome::Aborted)?;
    Ok(Turn::ending(alloc, sends, Reply::Aborted { why }))
}
