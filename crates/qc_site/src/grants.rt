//! What a site grants: a lock with what it covers, or own lines, unless another
//! transaction holds what conflicts (Herlihy 1986).

ghost use Rattle.std.specs.Prelude.{◌≡◌, ◌==◌, ◌≤◌, ◌<◌, ◌+◌, IfOk, OnErr, IsSome, true, None, Some};
ghost use Rattle.std.specs.Prelude.{if◌then◌else◌, take, unwrap_or};
ghost use Rattle.std.specs.List.{list_all};
ghost use Rattle.qc_decl.specs.Limits.{most_clients, most_sites};
ghost use Rattle.qc_decl.specs.Lookup.{kind_at};
ghost use Rattle.qc_entry.specs.Log.{of_object};
ghost use Rattle.qc_lock.specs.Clash.{append_clash, read_clash};
ghost use Rattle.qc_msg.specs.declared.message.Answer.TheVariants.{Granted};
ghost use Rattle.qc_msg.specs.Payloads.{grant_with};
ghost use Rattle.qc_site.specs.Requests.{appends_by, clashing, grant_told, grants, names_declared, reads_by};
ghost use Rattle.qc_decl.specs.Lookup.{relation_at};
ghost use Rattle.qc_site.specs.Site.{moved};

use crate::Site;
use crate::asker::{Asker, Requester};
use crate::requests::kind_of;
use qc_decl::Declaration;
use qc_entry::{Arrivals, Log, Owns, Told};
use qc_list::OutOfMemory;
use qc_lock::{Clash, LockFault};
use qc_msg::{Answer, Grant, Message, Posting, ReadRequest, Turn, Want};
use std::alloc::{AllocError, Global};

impl Site {
    /// Grants what a request of the site's epoch and life wants, or tells why
    /// not.
    pub(crate) fn grant(
        &mut self,
        alloc: Global,
        decl: &Declaration,
        requester: Requester,
        want: &Want,
    ) -> Result<Turn, OutOfMemory>
        requires sites { decl.now.sites ≤ most_sites }
        requires clients { decl.now.clients ≤ most_clients }
        requires declared { names_declared decl.now requester.tx want.now ≡ true }
        ensures ok { IfOk result (λ turn. grants decl.now self.old requester.asker.from requester.asker.number
            requester.tx want.now
            ≡ record { site = self.new; turn = turn }) }
        ensures err { OnErr result (self.new ≡ self.old) }
    {
        match want {
            Want::Read(read) => self.read(alloc, decl, requester, *read),
            Want::Append { object, view, own } => {
                self.append(alloc, decl, requester, *object, view, own)
            }
            Want::Prepare => self.prepare(alloc, requester.asker, requester.tx),
        }
    }

    /// Holds a lock, and grants those lines of the object that its mark doesn't
    /// count.
    fn read(
        &mut self,
        alloc: Global,
        decl: &Declaration,
        requester: Requester,
        read: ReadRequest,
    ) -> Result<Turn, OutOfMemory>
        requires sites { decl.now.sites ≤ most_sites }
        requires client { requester.tx.client < most_clients }
        requires declared { IsSome (kind_at decl.now read.object) }
        ensures ok { IfOk result (λ turn. reads_by decl.now self.old requester.asker.from requester.asker.number
            requester.tx read
            (read_clash (relation_at decl.now read.object) self.old.held requester.tx read.object read.inv)
            ≡ record { site = self.new; turn = turn }) }
        ensures err { OnErr result (self.new ≡ self.old) }
    {
        let Requester { asker, tx } = requester;
        let kind = kind_of(decl, read.object).unwrap();
        let told = self.told(alloc, read)?;
        let turn = asker.answered(alloc, self.granted(told))?;
        match self.held.try_read(kind, tx, read.object, read.inv) {
            Ok(()) => Ok(turn),
            Err(LockFault::Conflict(clash)) => clashing(alloc, decl, asker, clash),
            Err(LockFault::OutOfMemory) => Err(AllocError),
        }
    }

    /// What is told of the object's lines.
    fn told(&mut self, alloc: Global, read: ReadRequest) -> Result<Told, OutOfMemory>
        ensures site { self.new ≡ self.old }
        ensures told { IfOk result (λ t. grant_with self.old.life self.old.clock t.log t.count
            ≡ grant_told self.old read) }
    {
        let ReadRequest { object, mark, .. } = read;
        self.arrived
            .tell(alloc, self.life, self.epoch, object, mark)
    }

    /// Holds own lines, and learns the view. The merged log is made first, since
    /// the locks change last; where they don't, the lines that came go again.
    fn append(
        &mut self,
        alloc: Global,
        decl: &Declaration,
        requester: Requester,
        object: u8,
        view: &Log,
        own: &Owns,
    ) -> Result<Turn, OutOfMemory>
        requires sites { decl.now.sites ≤ most_sites }
        requires client { requester.tx.client < most_clients }
        requires declared { IsSome (kind_at decl.now object) }
        ensures ok { IfOk result (λ turn. appends_by decl.now self.old requester.asker.from requester.asker.number
            requester.tx view.now own.now
            (append_clash (relation_at decl.now object) self.old.held requester.tx own.now)
            ≡ record { site = self.new; turn = turn }) }
        ensures err { OnErr result (self.new ≡ self.old) }
    {
        let Requester { asker, tx } = requester;
        let kind = kind_of(decl, object).unwrap();
        let log = Log::new(alloc)?;
        let turn = asker.answered(alloc, self.granted(Told { count: 0, log }))?;
        let log = self.learned(view)?;
        let fresh = self.fresh(view)?;
        let count = self.arrived.count();
        self.arrived.join(fresh.lines())?;
        let held = self.held.try_append(kind, tx, own.items());
        settle(&mut self.log, &mut self.arrived, held.is_ok(), log, count);
        match held {
            Ok(()) => Ok(turn),
            Err(LockFault::Conflict(clash)) => clashing(alloc, decl, asker, clash),
            Err(LockFault::OutOfMemory) => Err(AllocError),
        }
    }

    /// The answer that grants, and tells this.
    fn granted(&self, told: Told) -> Answer
        ensures { result ≡ Granted (grant_with self.now.life self.now.clock told.log told.count) }
    {
        Answer::Granted(Grant {
            life: self.life,
            clock: self.clock.value,
            log: told.log,
            count: told.count,
        })
    }
}

/// Where an append is granted, its log is this one, if the view brought lines; else
/// those that came behind the first so many go again.
fn settle(
    log: &mut Log,
    arrived: &mut Arrivals,
    is_granted: bool,
    learned: Option<Log>,
    count: usize,
)
    ensures log { log.new ≡ (if is_granted then unwrap_or learned log.old else log.old) }
    ensures arrived { arrived.new ≡ (if is_granted then arrived.old else take count arrived.old) }
{
    if !is_granted {
        arrived.truncate(count);
        return;
    }
    if let Some(learned) = learned {
        *log = learned;
    }
}

/// The turn that tells a clash, and asks the holder's client how its
/// transaction stands.
fn clashing(
    alloc: Global,
    decl: &Declaration,
    asker: Asker,
    clash: Clash,
) -> Result<Turn, OutOfMemory>
    requires sites { decl.now.sites ≤ most_sites }
    requires client { clash.holder.client < most_clients }
    ensures { IfOk result (λ turn. turn ≡ clashing decl.now asker.from asker.number clash) }
{
    let Clash { holder, inv, event } = clash;
    let mut sends = asker.answering(alloc, Answer::Clash { holder, inv, event })?;
    sends.push(Posting {
        to: decl.client_actor(holder.client),
        message: Message::Inquiry { tx: holder },
    })?;
    Ok(Turn::sending(alloc, sends))
}
