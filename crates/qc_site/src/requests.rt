//! What a site does for a request: first whether it may grant at all, by epoch
//! and life.

ghost use Rattle.std.specs.Prelude.{◌≡◌, ◌≤◌, IfOk, OnErr, if◌then◌else◌, MatchOption, None, Some};
ghost use Rattle.qc_decl.specs.Limits.{most_clients, most_sites};
ghost use Rattle.qc_decl.specs.Lookup.{kind_at};
ghost use Rattle.qc_msg.specs.Turns.{quiet};
ghost use Rattle.qc_site.specs.Requests.{closed_fault, fault_of, life_fault, names_declared, names_object};
ghost use Rattle.qc_site.specs.Requests.{requested};
ghost use Rattle.qc_site.specs.Site.{moved};

use crate::Site;
use crate::asker::Requester;
use qc_decl::Declaration;
use qc_list::OutOfMemory;
use qc_msg::{Answer, Turn, Want};
use qc_stamp::TxId;
use qc_table::Kind;
use std::alloc::Global;

impl Site {
    /// Does what a request calls for, where its epoch and life have this
    /// fault, if any. What isn't declared is asked for in no run, and nothing
    /// is done then.
    pub(crate) fn request(
        &mut self,
        alloc: Global,
        decl: &Declaration,
        requester: Requester,
        want: &Want,
        fault: Option<Answer>,
    ) -> Result<Turn, OutOfMemory>
        requires sites { decl.now.sites ≤ most_sites }
        requires clients { decl.now.clients ≤ most_clients }
        ensures ok { IfOk result (λ turn. (if names_declared decl.now requester.tx want.now
            then requested decl.now self.old requester.asker.from requester.asker.number requester.tx want.now fault
            else moved self.old quiet) ≡ record { site = self.new; turn = turn }) }
        ensures err { OnErr result (self.new ≡ self.old) }
    {
        if !names_declared(decl, requester.tx, want) {
            return Ok(Turn::quiet(alloc));
        }
        match fault {
            Some(fault) => requester.asker.answered(alloc, fault),
            None => self.grant(alloc, decl, requester, want),
        }
    }

    /// What refuses a request of this epoch, which names this life, or 0 for
    /// none: the first row that applies.
    pub(crate) fn fault_of(&self, epoch: u8, life: u32) -> Option<Answer>
        ensures { result ≡ fault_of self.now epoch life }
    {
        if self.epoch < epoch {
            return Some(Answer::Behind { epoch: self.epoch });
        }
        if epoch < self.epoch {
            return Some(Answer::Closed { epoch: self.epoch });
        }
        self.closed_fault(life)
    }

    /// What refuses a request of the installed epoch.
    fn closed_fault(&self, life: u32) -> Option<Answer>
        ensures { result ≡ closed_fault self.now life self.now.closed_for }
    {
        match self.closed_for {
            Some(epoch) => Some(Answer::Closed { epoch }),
            None => self.life_fault(life),
        }
    }

    /// What refuses a request that names this life.
    fn life_fault(&self, life: u32) -> Option<Answer>
        ensures { result ≡ life_fault self.now life }
    {
        if life == 0 || life == self.life {
            return None;
        }
        Some(Answer::Restarted { life: self.life })
    }
}

/// Whether what a request names is declared.
fn names_declared(decl: &Declaration, tx: TxId, want: &Want) -> bool
    ensures { result ≡ names_declared decl.now tx want.now }
{
    tx.client < decl.clients && names_object(decl, want)
}

/// Whether the object of a request is declared, where it names one.
fn names_object(decl: &Declaration, want: &Want) -> bool
    ensures { result ≡ names_object decl.now want.now }
{
    match want {
        Want::Read(read) => kind_of(decl, read.object).is_some(),
        Want::Append { object, .. } => kind_of(decl, *object).is_some(),
        Want::Prepare => true,
    }
}

/// The type of an object, or `None` where there is no such object.
pub(crate) fn kind_of(decl: &Declaration, object: u8) -> Option<&Kind>
    ensures { MatchOption result (kind_at decl.now object ≡ None) (λ k. kind_at decl.now object ≡ Some k.now) }
{
    let kind = *decl.objects.items().get(object as usize)?;
    decl.kinds.items().get(kind as usize)
}
