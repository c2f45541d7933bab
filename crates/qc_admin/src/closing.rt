//! A round of Closes: the sites that have closed are to meet every quorum of
//! the epoch that ends.

ghost use Rattle.std.specs.Prelude.{◌≡◌, ◌+◌, ◌<◌, ◌^◌, [], IfOk, OnErr, OnOk, map};
ghost use Rattle.std.specs.Option.{option_copied};
ghost use Rattle.qc_decl.specs.Accepted.{IsAccepted};
ghost use Rattle.qc_decl.specs.Limits.{most_sites};
ghost use Rattle.qc_epoch.specs.Admin.{Admin as AdminState, Doing as DoingState};
ghost use Rattle.qc_epoch.specs.Conduct.{answered_in, close_of, close_round, closes, doing, goes_on};
ghost use Rattle.qc_plan.specs.Round.{asking_all, wanted};
ghost use Rattle.qc_admin.specs.Fits.{AnswerFits, AreSites, DoingFits, ShutsFit, sites_in};
ghost use Rattle.qc_admin.specs.Next.{becomes};
ghost use Rattle.qc_admin.specs.Sent.{numbered};
ghost use Rattle.qc_admin.specs.Shown.{closing_of};
ghost use Rattle.qc_admin.specs.Shuts.{with_last};

use crate::answers::standing_of;
use crate::asking::ask;
use crate::doing::Doing;
use crate::next::Next;
use crate::shut::{ShutSite, Shuts, in_asked_order};
use qc_decl::Declaration;
use qc_front::calls_of;
use qc_list::{List, OutOfMemory};
use qc_msg::{Answer, Calls, Half, Message, Posting, Reply, Sends, Sites, Turn};
use qc_plan::{Round, Verdict, close_weight};
use std::alloc::Global;

/// A round of Closes, with its open requests, and what the sites told that have
/// closed.
#[derive(Drop)]
pub(crate) struct Closing {
    /// The epoch that is next.
    pub(crate) epoch: u8,
    /// The open requests.
    pub(crate) calls: Calls,
    /// The round.
    pub(crate) round: Round,
    /// What closed sites told, as it came.
    pub(crate) shuts: Shuts,
}

impl Closing {
    /// Begins to close the decided epoch for another one.
    pub(crate) fn begin(
        alloc: Global,
        decl: &Declaration,
        decided: u8,
        epoch: u8,
    ) -> Result<Next, OutOfMemory>
        requires { IsAccepted decl.now }
        ensures { IfOk result (λ next. (m : AdminState) (d : DoingState) →
            closes decl.now m epoch [] (close_round decl.now decided) [] ≡ becomes m d next) }
    {
        let round = close_round(alloc, decl, decided)?;
        let mut closing = Closing::before(alloc, epoch);
        let next = closing.go_on(alloc, decl, Calls::new(), round, None)?;
        Ok(next.begun(Doing::Closing(closing)))
    }

    /// It has no round yet.
    fn before(alloc: Global, epoch: u8) -> Closing
        ensures epoch { result.epoch ≡ epoch }
        ensures shuts { result.shuts ≡ [] }
    {
        Closing {
            epoch,
            calls: Calls::new(),
            round: Round::over_no_site(alloc, 0, 0),
            shuts: List::new(alloc),
        }
    }

    /// Takes what came of the request of this number: its answer, or, with
    /// none, that it is lost. The first for an open request counts. After want
    /// of memory the round is as it was.
    pub(crate) fn answer(
        &mut self,
        alloc: Global,
        decl: &Declaration,
        number: u32,
        answer: Option<&Answer>,
    ) -> Result<Next, OutOfMemory>
        requires accepted { IsAccepted decl.now }
        requires fits { DoingFits (closing_of self.old) }
        requires answer { AnswerFits (option_copied answer) }
        ensures ok { IfOk result (λ next. (m : AdminState) →
            answered_in decl.now (doing m (closing_of self.old)) (closing_of self.old)
            number (option_copied answer.entry) ≡ becomes m (closing_of self.new) next) }
        ensures err { OnErr result (self.new ≡ self.old) }
    {
        let Some(site) = self.calls.site_called(number) else {
            return Ok(Next::quiet(alloc));
        };
        let mut round = self.round.copy()?;
        round.note(site, standing_of(answer));
        let shut = ShutSite::told(alloc, site, answer)?;
        let calls = self.calls.without_call(number);
        self.go_on(alloc, decl, calls, round, shut)
    }

    /// Goes on with these open requests and this round, after a site told this,
    /// or none did. After want of memory it is as it was.
    fn go_on(
        &mut self,
        alloc: Global,
        decl: &Declaration,
        calls: Calls,
        round: Round,
        shut: Option<ShutSite>,
    ) -> Result<Next, OutOfMemory>
        requires accepted { IsAccepted decl.now }
        requires fit { ShutsFit (with_last self.old.shuts shut) }
        ensures ok { IfOk result (λ next. (m : AdminState) →
            closes decl.now (doing m (closing_of self.old)) self.old.epoch calls round (with_last self.old.shuts shut)
            ≡ becomes m (closing_of self.new) next) }
        ensures err { OnErr result (self.new ≡ self.old) }
    {
        match round.verdict() {
            Verdict::Waiting => self.ask_on(alloc, calls, round, shut),
            Verdict::Met => {
                let shuts = in_asked_order(alloc, round.asked_sites(), &self.shuts, &shut)?;
                ask(alloc, decl, self.epoch, shuts)
            }
            Verdict::Closed { .. } | Verdict::Clash { .. } => Ok(Next::quiet(alloc)),
            Verdict::Short { got, need } => Ok(Next::telling(
                alloc,
                Reply::Quorum {
                    half: Half::Close,
                    got,
                    need,
                },
            )),
        }
    }

    /// Asks all sites that the round wants, and goes on. After want of memory
    /// it is as it was.
    fn ask_on(
        &mut self,
        alloc: Global,
        calls: Calls,
        mut round: Round,
        shut: Option<ShutSite>,
    ) -> Result<Next, OutOfMemory>
        ensures ok { IfOk result (λ next. (m : AdminState) →
            goes_on (doing m (closing_of self.old)) self.old.epoch calls round (with_last self.old.shuts shut)
            ≡ becomes m (closing_of self.new) next) }
        ensures err { OnErr result (self.new ≡ self.old) }
    {
        let sites = ask_all(alloc, &mut round)?;
        let sends = closes(alloc, self.epoch, &sites)?;
        if let Some(shut) = shut {
            self.shuts.push(shut)?;
        }
        self.calls = calls;
        self.round = round;
        Ok(Next::GoesOn {
            turn: Turn::sending(alloc, sends),
        })
    }

    /// The messages of the last turn were given the numbers from `first` on. It
    /// takes no memory.
    pub(crate) fn sent(&mut self, first: u32)
        requires few { AreSites (sites_in self.old.round) }
        requires numbers { first + most_sites < 2 ^ 32 }
        ensures { closing_of self.new ≡ numbered (closing_of self.old) first }
    {
        if self.calls.is_empty() {
            self.calls = calls_of(&self.round, first);
        }
    }
}

/// The round that closes an epoch: by its own plan, from site 0, for the weight
/// that meets each of its quorums.
fn close_round(alloc: Global, decl: &Declaration, epoch: u8) -> Result<Round, OutOfMemory>
    requires { IsAccepted decl.now }
    ensures { IfOk result (λ round. round ≡ close_round decl.now epoch) }
{
    match decl.plan(epoch) {
        Some(plan) => Round::start(alloc, plan, 0, close_weight(plan)),
        None => Ok(Round::over_no_site(alloc, 0, 0)),
    }
}

/// Asks all sites that are to be asked now, and tells them in the order of
/// asking.
fn ask_all(alloc: Global, round: &mut Round) -> Result<Sites, OutOfMemory>
    ensures sites { IfOk result (λ sites. sites ≡ wanted round.old) }
    ensures asked { OnOk result (round.new ≡ asking_all round.old (wanted round.old)) }
{
    let mut sites = List::new(alloc);
    'asking: while let Some(site) = round.ask() {
        sites.push(site)?;
    }
    Ok(sites)
}

/// A Close for an epoch to each of the sites.
fn closes(alloc: Global, epoch: u8, sites: &Sites) -> Result<Sends, OutOfMemory>
    ensures { IfOk result (λ sends. sends ≡ map (close_of epoch) sites.now) }
{
    let mut sends = List::new(alloc);
    for site in sites.items() {
        sends.push(Posting {
            to: *site,
            message: Message::Close { epoch },
        })?;
    }
    Ok(sends)
}
