//! How sites are asked: all that a round wants at once.

ghost use Rattle.std.specs.Prelude.{◌≡◌, ◌<◌, ℕ, IfOk, OnOk, fold, map};
ghost use Rattle.qc_decl.specs.Accepted.{IsAccepted};
ghost use Rattle.qc_decl.specs.Actors.{first_site};
ghost use Rattle.qc_front.specs.Appending.{request_of};
ghost use Rattle.qc_decl.specs.Lookup.{weights_of};
ghost use Rattle.qc_front.specs.Drafts.{asked_draft};
ghost use Rattle.qc_msg.specs.Begun.{with_site};
ghost use Rattle.qc_msg.specs.Turns.{sending};
ghost use Rattle.qc_plan.specs.Round.{asking_all, start, wanted};

use crate::draft::Draft;
use crate::front::Front;
use qc_decl::Declaration;
use qc_list::{List, OutOfMemory};
use qc_msg::{Begun, Message, Posting, Sends, Sites, Turn, Want, life_of, with_site};
use qc_plan::Round;
use std::alloc::Global;

impl Front {
    /// A round by an epoch's plan, in the client's order of sites, in which
    /// nobody was asked yet.
    pub(crate) fn round_for(
        &self,
        alloc: Global,
        decl: &Declaration,
        epoch: u8,
        need: u16,
    ) -> Result<Round, OutOfMemory>
        requires { IsAccepted decl.now }
        ensures { IfOk result (λ r. r ≡ start (weights_of decl.now epoch) (first_site decl.now self.now.client) need) }
    {
        let first = self.first_site(decl);
        match decl.plan(epoch) {
            Some(plan) => Round::start(alloc, plan, first, need),
            None => Ok(Round::over_no_site(alloc, first, need)),
        }
    }

    /// The site that the client asks first.
    fn first_site(&self, decl: &Declaration) -> u8
        requires { 0 < decl.now.sites }
        ensures { result ≡ first_site decl.now self.now.client }
    {
        self.client % decl.sites
    }
}

impl Draft {
    /// Asks all sites that the round wants, and the transaction knows of it.
    pub(crate) fn ask(
        &mut self,
        alloc: Global,
        want: &Want,
        round: &mut Round,
    ) -> Result<Turn, OutOfMemory>
        ensures draft { OnOk result (self.new ≡ asked_draft self.old (wanted round.old)) }
        ensures round { OnOk result (round.new ≡ asking_all round.old (wanted round.old)) }
        ensures turn { IfOk result
            (λ turn. turn ≡ sending (map (request_of self.old.begun (λ (site : ℕ). want.now)) (wanted round.old))) }
    {
        let sites = ask_all(alloc, round)?;
        let sends = requests(alloc, &self.begun, want, &sites)?;
        self.begun.asked = with_sites(alloc, &self.begun.asked, &sites)?;
        Ok(Turn::sending(alloc, sends))
    }
}

/// Asks all sites that are to be asked now, and tells them in the order of
/// asking.
fn ask_all(alloc: Global, round: &mut Round) -> Result<Sites, OutOfMemory>
    ensures sites { IfOk result (λ sites. sites ≡ wanted round.old) }
    ensures asked { OnOk result (round.new ≡ asking_all round.old (wanted round.old)) }
{
    let mut sites = List::new(alloc);
    'asking: while let Some(site) = round.ask() {
        sites.push(site)?;
    }
    Ok(sites)
}

/// A request for the same to each of the sites; each names the life of the
/// site's first grant, or 0.
fn requests(alloc: Global, begun: &Begun, want: &Want, sites: &Sites) -> Result<Sends, OutOfMemory>
    ensures { IfOk result (λ sends. sends ≡ map (request_of begun.now (λ (site : ℕ). want.now)) sites.now) }
{
    let mut sends = List::new(alloc);
    for site in sites.items() {
        sends.push(request(begun, want.copy()?, *site))?;
    }
    Ok(sends)
}

/// The request to a site.
fn request(begun: &Begun, want: Want, site: u8) -> Posting
    ensures { result ≡ request_of begun.now (λ (site : ℕ). want) site }
{
    Posting {
        to: site,
        message: Message::Request {
            tx: begun.tx,
            epoch: begun.epoch,
            life: life_of(&begun.lives, site),
            want,
        },
    }
}

/// Ascending sites with these more, each once.
fn with_sites(alloc: Global, asked: &Sites, sites: &Sites) -> Result<Sites, OutOfMemory>
    ensures { IfOk result (λ s. s ≡ fold with_site asked.now sites.now) }
{
    let mut all = asked.copy()?;
    for site in sites.items() {
        all = with_site(alloc, &all, *site)?;
    }
    Ok(all)
}
