//! What closed sites told.

ghost use Rattle.std.specs.Prelude.{◌≡◌, IfOk, map};
ghost use Rattle.std.specs.Option.{option_copied};
ghost use Rattle.qc_epoch.specs.Deciding.{in_asked_order, shut_at, shut_list};
ghost use Rattle.qc_admin.specs.Shuts.{shut_in, with_last};

use qc_entry::Log;
use qc_list::{List, OutOfMemory};
use qc_msg::{Answer, PreparedList, Sites};
use qc_plan::Asked;
use std::alloc::Global;
use std::marker::Model;

/// What a closed site told.
#[derive(Drop)]
pub(crate) struct ShutSite {
    /// The site's number.
    pub(crate) site: u8,
    /// Its clock.
    pub(crate) clock: u64,
    /// Its log.
    pub(crate) log: Log,
    /// Its promises.
    pub(crate) prepared: PreparedList,
}

impl Model for ShutSite {
    ghost use Rattle.qc_epoch.specs.Admin.{ShutSite as Told};

    ghost Value = { Told };

    ghost view = { λ s. record { site = s.site; clock = s.clock; log = s.log; prepared = s.prepared } };
}

/// What closed sites told.
pub(crate) type Shuts = List<ShutSite>;

impl ShutSite {
    /// What a site's answer to a Close tells, where the site has closed.
    pub(crate) fn told(
        alloc: Global,
        site: u8,
        answer: Option<&Answer>,
    ) -> Result<Option<ShutSite>, OutOfMemory>
        ensures { IfOk result (λ shut. shut ≡ shut_in site (option_copied answer.entry)) }
    {
        match answer {
            Some(Answer::Shut(snapshot)) => Ok(Some(ShutSite {
                site,
                clock: snapshot.clock,
                log: snapshot.log.copy()?,
                prepared: copy_of(alloc, &snapshot.prepared)?,
            })),
            _ => Ok(None),
        }
    }

    /// The same, in memory of its own.
    fn copy(&self, alloc: Global) -> Result<ShutSite, OutOfMemory>
        ensures { IfOk result (λ s. s ≡ self.now) }
    {
        Ok(ShutSite {
            site: self.site,
            clock: self.clock,
            log: self.log.copy()?,
            prepared: copy_of(alloc, &self.prepared)?,
        })
    }
}

/// The same promises, in memory of their own.
fn copy_of(alloc: Global, prepared: &PreparedList) -> Result<PreparedList, OutOfMemory>
    ensures { IfOk result (λ p. p ≡ prepared.now) }
{
    let mut copy = List::new(alloc);
    for promise in prepared.items() {
        copy.push(promise.copy()?)?;
    }
    Ok(copy)
}

/// What closed sites told, in asked order: these, and one that came last.
pub(crate) fn in_asked_order(
    alloc: Global,
    asked: &[Asked],
    shuts: &Shuts,
    last: &Option<ShutSite>,
) -> Result<Shuts, OutOfMemory>
    ensures { IfOk result (λ ordered. ordered ≡ in_asked_order asked.now (with_last shuts.now last.now)) }
{
    let mut ordered = List::new(alloc);
    for site in asked {
        if let Some(shut) = shut_at(shuts, last, site.site) {
            ordered.push(shut.copy(alloc)?)?;
        }
    }
    Ok(ordered)
}

/// What this site told first: among these, or as the one that came last.
fn shut_at<'a>(shuts: &'a Shuts, last: &'a Option<ShutSite>, site: u8) -> Option<&'a ShutSite>
    ensures { option_copied result ≡ shut_at (with_last shuts.now last.now) site }
{
    'shuts: for shut in shuts.items() {
        if shut.site == site {
            return Some(shut);
        }
    }
    match last {
        Some(shut) if shut.site == site => Some(shut),
        _ => None,
    }
}

/// The sites that told.
pub(crate) fn sites_of(alloc: Global, shuts: &Shuts) -> Result<Sites, OutOfMemory>
    ensures { IfOk result (λ sites. sites ≡ map (λ s. s.site) shuts.now) }
{
    let mut sites = List::new(alloc);
    for shut in shuts.items() {
        sites.push(shut.site)?;
    }
    Ok(sites)
}
