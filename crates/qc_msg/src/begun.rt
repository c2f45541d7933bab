//! The transaction that a client has begun, as far as its commit reads it.

ghost use Rattle.std.specs.Prelude.{◌≡◌, IfOk};
ghost use Rattle.qc_msg.specs.Begun.{decisions, has_granted, life_of, with_life, with_site};

use crate::{Message, Outcome, Posting, Sends};
use qc_entry::Ops;
use qc_list::{List, OutOfMemory};
use qc_stamp::TxId;
use std::alloc::Global;

/// The epoch that everything begins in.
pub const FIRST_EPOCH: u8 = 1;

/// A site with the life in which it first granted.
#[derive(Clone, Copy, Debug, PartialEq, Eq)]
pub struct LifeAt {
    /// The site's number.
    pub site: u8,
    /// The life, from 1.
    pub life: u32,
}

/// Sites with lives, in the order of their first grants, each site once.
pub type Lives = List<LifeAt>;

/// Sites, ascending, each once.
pub type Sites = List<u8>;

/// A transaction that hasn't ended, as its client knows it.
#[derive(Drop)]
pub struct Begun {
    /// The transaction's name.
    pub tx: TxId,
    /// The epoch that it runs in, from 1.
    pub epoch: u8,
    /// Its recorded operations, in order.
    pub ops: Ops,
    /// Each site that granted something that counted, with its life then: the
    /// participants of a commit.
    pub lives: Lives,
    /// The sites that were asked anything.
    pub asked: Sites,
    /// Whether a `do` was refused while appending.
    pub doomed: bool,
}

impl Begun {
    /// The same transaction, in memory of its own.
    pub fn copy(&self) -> Result<Begun, OutOfMemory>
        ensures { IfOk result (λ b. b ≡ self.now) }
    {
        Ok(Begun {
            tx: self.tx,
            epoch: self.epoch,
            ops: self.ops.copy()?,
            lives: self.lives.copy()?,
            asked: self.asked.copy()?,
            doomed: self.doomed,
        })
    }

    /// The messages that tell a verdict to each site that the transaction
    /// asked, ascending.
    pub fn decisions(&self, alloc: Global, outcome: Outcome) -> Result<Sends, OutOfMemory>
        ensures { IfOk result (λ sends. sends ≡ decisions self.now outcome) }
    {
        let mut sends = List::new(alloc);
        for site in self.asked.items() {
            let message = Message::Decision {
                tx: self.tx,
                verdict: outcome,
            };
            sends.push(Posting { to: *site, message })?;
        }
        Ok(sends)
    }
}

/// The life of a site in its first grant, or 0 where it hasn't granted.
pub fn life_of(lives: &Lives, site: u8) -> u32
    ensures { result ≡ life_of lives.now site }
{
    'lives: for l in lives.items() {
        if l.site == site {
            return l.life;
        }
    }
    0
}

/// Whether a site granted.
pub fn has_granted(lives: &Lives, site: u8) -> bool
    ensures { result ≡ has_granted lives.now site }
{
    lives.items().iter().any(|l| l.site == site)
}

/// The lives, with that of a site that granted now: its first one stays.
pub fn with_life(lives: &Lives, site: u8, life: u32) -> Result<Lives, OutOfMemory>
    ensures { IfOk result (λ l. l ≡ with_life lives.now site life) }
{
    let mut all = lives.copy()?;
    if !has_granted(lives, site) {
        all.push(LifeAt { site, life })?;
    }
    Ok(all)
}

/// Ascending sites with one more, unless it is there.
pub fn with_site(alloc: Global, sites: &Sites, site: u8) -> Result<Sites, OutOfMemory>
    ensures { IfOk result (λ s. s ≡ with_site sites.now site) }
{
    let sites = sites.items();
    let mut all = Vec::new(alloc);
    let mut i = 0;
    'sites: while i < sites.len() && sites[i] < site {
        all.push(sites[i])?;
        i += 1;
    }
    all.push(site)?;
    if i < sites.len() && sites[i] == site {
        i += 1;
    }
    all.extend_from_slice(&sites[i..])?;
    Ok(List::from_vec(all))
}
