//! Installs of a decided epoch, at all sites.

ghost use Rattle.std.specs.Prelude.{◌≡◌, ◌+◌, ◌^◌, ◌<◌, ◌≤◌, [], Some, IfOk, OnErr, length};
ghost use Rattle.std.specs.Option.{option_copied};
ghost use Rattle.qc_decl.specs.Limits.{most_sites};
ghost use Rattle.qc_decl.specs.declared.declaration.Declaration.{Declaration as Declared};
ghost use Rattle.qc_epoch.specs.Admin.{Admin as AdminState, Doing as DoingState};
ghost use Rattle.qc_epoch.specs.Conduct.{again, all_sites, answered_in, decides, doing, site_set};
ghost use Rattle.qc_msg.specs.Calls.{calls_from};
ghost use Rattle.qc_admin.specs.Fits.{AreSites, DoingFits};
ghost use Rattle.qc_admin.specs.Next.{becomes};
ghost use Rattle.qc_admin.specs.Sent.{numbered};
ghost use Rattle.qc_admin.specs.Shown.{installing_of};

use crate::answers::is_installed;
use crate::decided::{fits_record, installs};
use crate::doing::Doing;
use crate::next::Next;
use qc_decl::Declaration;
use qc_list::{List, OutOfMemory};
use qc_msg::{Answer, Appended, Calls, EpochStart, Record, Reply, Sites, Turn};
use std::alloc::Global;

/// Installs of what is decided, with the open requests.
#[derive(Drop)]
pub(crate) struct Installing {
    /// The sites that have closed for it.
    pub(crate) closed: Sites,
    /// The sites that were asked: all.
    pub(crate) awaited: Sites,
    /// The open requests.
    pub(crate) calls: Calls,
    /// The sites that have installed, as they told.
    pub(crate) installed: Sites,
}

/// Decides an epoch, for which these sites have closed: its record is written
/// before anybody hears of it, and then all sites are asked to install it. A
/// decision that is too long for a record is refused.
pub(crate) fn install(
    alloc: Global,
    decl: &Declaration,
    decided: EpochStart,
    closed: Sites,
) -> Result<Next, OutOfMemory>
    ensures { IfOk result (λ next. (m : AdminState) (d : DoingState) →
        decides decl.now m decided closed ≡ becomes m d next) }
{
    if !fits_record(&decided) {
        return Ok(Next::telling(alloc, Reply::Fault));
    }
    let write = Record::Decide(decided.copy()?);
    let sites = all_sites(alloc, decl)?;
    let sends = installs(alloc, &decided, &sites)?;
    let installing = Installing::of(alloc, closed, sites);
    Ok(Next::Decides {
        decided,
        doing: Doing::Installing(installing),
        turn: Turn {
            write: Some(write),
            sends,
            told: None,
            failed_sends: List::new(alloc),
            failed_told: Some(Reply::Fault),
            append: Appended::Done,
        },
    })
}

/// Installs what is decided once more. No site closes for it.
pub(crate) fn install_again(
    alloc: Global,
    decl: &Declaration,
    decided: &EpochStart,
) -> Result<Next, OutOfMemory>
    ensures { IfOk result (λ next. (m : AdminState) (d : DoingState) →
        again decl.now m (Some decided.now) ≡ becomes m d next) }
{
    let sites = all_sites(alloc, decl)?;
    let sends = installs(alloc, &decided, &sites)?;
    let installing = Installing::of(alloc, List::new(alloc), sites);
    Ok(Next::Runs {
        doing: Doing::Installing(installing),
        turn: Turn::sending(alloc, sends),
    })
}

impl Installing {
    /// Installs that go to these sites, where some have closed. It takes no
    /// memory.
    fn of(alloc: Global, closed: Sites, awaited: Sites) -> Installing
        ensures { result ≡ record { closed = closed; awaited = awaited; calls = []; installed = [] } }
    {
        Installing {
            closed,
            awaited,
            calls: Calls::new(),
            installed: List::new(alloc),
        }
    }

    /// Takes what came of the request of this number: its answer, or, with
    /// none, that it is lost. The first for an open request counts; once
    /// nothing is open, it is told who has installed. After want of memory it is
    /// as it was.
    pub(crate) fn answer(
        &mut self,
        alloc: Global,
        number: u32,
        answer: Option<&Answer>,
    ) -> Result<Next, OutOfMemory>
        requires { DoingFits (installing_of self.old) }
        ensures ok { IfOk result (λ next. (decl : Declared) (m : AdminState) →
            answered_in decl (doing m (installing_of self.old)) (installing_of self.old)
            number (option_copied answer.entry) ≡ becomes m (installing_of self.new) next) }
        ensures err { OnErr result (self.new ≡ self.old) }
    {
        let Some(site) = self.calls.site_called(number) else {
            return Ok(Next::quiet(alloc));
        };
        if is_installed(answer) {
            self.installed.push(site)?;
        }
        self.calls = self.calls.without_call(number);
        if !self.calls.is_empty() {
            return Ok(Next::quiet(alloc));
        }
        Ok(Next::telling(
            alloc,
            Reply::Moved {
                closed: site_set(&self.closed),
                installed: site_set(&self.installed),
            },
        ))
    }

    /// The messages of the last turn were given the numbers from `first` on. It
    /// takes no memory.
    pub(crate) fn sent(&mut self, first: u32)
        requires few { AreSites self.old.awaited }
        requires numbers { first + most_sites < 2 ^ 32 }
        ensures { installing_of self.new ≡ numbered (installing_of self.old) first }
    {
        if self.calls.is_empty() {
            self.calls = calls_from(&self.awaited, first);
        }
    }
}

/// All sites, in order.
fn all_sites(alloc: Global, decl: &Declaration) -> Result<Sites, OutOfMemory>
    ensures { IfOk result (λ sites. sites ≡ all_sites decl.now) }
{
    let mut sites = List::new(alloc);
    for site in 0..decl.sites {
        sites.push(site)?;
    }
    Ok(sites)
}

/// Requests to these sites, with the numbers from `first` on.
fn calls_from(sites: &Sites, first: u32) -> Calls
    requires few { length sites.now ≤ most_sites }
    requires numbers { first + most_sites < 2 ^ 32 }
    ensures { result ≡ calls_from first sites.now }
{
    let mut calls = Calls::new();
    let mut number = first;
    for site in sites.items() {
        calls.add(number, *site);
        number += 1;
    }
    calls
}

/// Sites as a set: site k is bit k.
fn site_set(sites: &Sites) -> u16
    requires { site_set sites.now < 2 ^ 16 }
    ensures { result ≡ site_set sites.now }
{
    let mut set = 0;
    for site in sites.items() {
        set += 1 << *site;
    }
    set
}
