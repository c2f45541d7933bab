//! Whom a commit asks, and what it asks of them.

ghost use Rattle.std.specs.Prelude.{◌≡◌, ◌<◌, IfOk, map};
ghost use Rattle.qc_commit.specs.Votes.{participants, prepares};

use qc_decl::Declaration;
use qc_list::OutOfMemory;
use qc_msg::{Begun, Message, Posting, Want, has_granted, life_of};
use std::alloc::Global;

/// The participants of a commit: the sites that granted something that counted,
/// in the client's order of sites.
pub(crate) fn participants(
    alloc: Global,
    decl: &Declaration,
    client: u8,
    begun: &Begun,
) -> Result<Vec<u8>, OutOfMemory>
    requires { 0 < decl.now.sites }
    ensures { IfOk result (λ sites. sites.items ≡ participants decl.now client begun.now) }
{
    let first = client % decl.sites;
    let lives = &begun.lives;
    (first..decl.sites)
        .chain(0..first)
        .filter(|site| has_granted(lives, *site))
        .collect(alloc)
}

/// The requests that ask these participants for their promises, each in the
/// life of its first grant.
pub(crate) fn prepares(
    alloc: Global,
    begun: &Begun,
    sites: &[u8],
) -> Result<Vec<Posting>, OutOfMemory>
    ensures { IfOk result (λ sends. sends.items ≡ map (prepares begun.now) sites.now) }
{
    sites
        .iter()
        .map(|site| Posting {
            to: *site,
            message: Message::Request {
                tx: begun.tx,
                epoch: begun.epoch,
                life: life_of(&begun.lives, *site),
                want: Want::Prepare,
            },
        })
        .collect(alloc)
}
