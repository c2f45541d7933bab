//! Votes of the participants of a commit.

ghost use Rattle.std.specs.Prelude.{◌≡◌, IfOk};
ghost use Rattle.std.specs.Option.{option_copied};
ghost use Rattle.qc_commit.specs.Votes.{are_cast, blank, cast, first_against, vote_of};

use qc_list::{List, OutOfMemory};
use qc_msg::{AbortCause, Answer, Begun, life_of};
use std::alloc::Global;

/// What a participant's answer to a Prepare comes to.
#[derive(Clone, Copy)]
pub enum Vote {
    /// It promises.
    For,
    /// It doesn't, for this cause.
    Against { why: AbortCause },
}

/// A participant with its vote, once it is known.
#[derive(Clone, Copy)]
pub struct Ballot {
    /// The participant's site.
    pub site: u8,
    /// Its vote.
    pub vote: Option<Vote>,
}

/// The ballots of a commit, in the client's order of sites.
pub type Ballots = List<Ballot>;

impl Vote {
    /// What a site's first answer to a Prepare comes to, or, with no answer,
    /// that the request is lost.
    pub(crate) fn of(begun: &Begun, site: u8, answer: Option<&Answer>) -> Vote
        ensures { result ≡ vote_of begun.now site (option_copied answer.entry) }
    {
        let why = match answer {
            Some(Answer::Yes { .. }) => return Vote::For,
            None => AbortCause::NoAnswer { site },
            Some(Answer::Closed { epoch }) => AbortCause::Closed {
                epoch: *epoch,
                site,
            },
            Some(Answer::Restarted { life }) => AbortCause::Restarted {
                site,
                old: life_of(&begun.lives, site),
                new: *life,
            },
            Some(Answer::Fault) => AbortCause::Fault { site },
            Some(_) => AbortCause::Forgot { site },
        };
        Vote::Against { why }
    }
}

/// The ballots of these sites, before anybody votes.
pub(crate) fn blank(alloc: Global, sites: &[u8]) -> Result<Vec<Ballot>, OutOfMemory>
    ensures { IfOk result (λ b. b.items ≡ blank sites.now) }
{
    sites
        .iter()
        .map(|site| Ballot {
            site: *site,
            vote: None,
        })
        .collect(alloc)
}

/// The ballots with the vote of a site.
pub(crate) fn cast(
    alloc: Global,
    ballots: &Ballots,
    site: u8,
    vote: Vote,
) -> Result<Ballots, OutOfMemory>
    ensures { IfOk result (λ b. b ≡ cast ballots.now site vote) }
{
    let ballots = ballots.items();
    let mut all = Vec::new(alloc);
    let mut i = 0;
    'ballots: while i < ballots.len() && ballots[i].site != site {
        all.push(ballots[i])?;
        i += 1;
    }
    if i < ballots.len() {
        all.push(Ballot {
            site,
            vote: Some(vote),
        })?;
        all.extend_from_slice(&ballots[i + 1..])?;
    }
    Ok(List::from_vec(all))
}

/// Whether all votes are in.
pub(crate) fn are_cast(ballots: &Ballots) -> bool
    ensures { result ≡ are_cast ballots.now }
{
    ballots.items().iter().all(|b| b.vote.is_some())
}

/// The cause of the first vote against, in the client's order of sites.
pub(crate) fn first_against(ballots: &Ballots) -> Option<AbortCause>
    ensures { result ≡ first_against ballots.now }
{
    'ballots: for b in ballots.items() {
        if let Some(Vote::Against { why }) = b.vote {
            return Some(why);
        }
    }
    None
}
