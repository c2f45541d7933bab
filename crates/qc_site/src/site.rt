//! A site's state, and what it does as a message comes.

ghost use Rattle.std.specs.Prelude.{◌≡◌, ◌≤◌, ◌<◌, ◌-◌, ◌^◌, IfOk, OnErr};
ghost use Rattle.qc_decl.specs.Limits.{most_clients, most_sites};
ghost use Rattle.qc_entry.specs.Log.{union};
ghost use Rattle.qc_site.specs.Conduct.{site_at, site_on};
ghost use Rattle.qc_site.specs.Promise.{dropped};
ghost use Rattle.qc_site.specs.Holders.{AreByClients, AreOfClients};
ghost use Rattle.qc_site.specs.Site.{new_site};

use crate::asker::{Asker, Requester};
use crate::clock::clock_after;
use crate::known::both;
use qc_decl::Declaration;
use qc_entry::{Arrivals, Log, Prepared};
use qc_list::OutOfMemory;
use qc_lock::{Locks, TransactionMap};
use qc_msg::{FIRST_EPOCH, Message, Turn};
use qc_stamp::{Clock, FIRST_LIFE};
use std::alloc::Global;
use std::marker::Model;

/// Promises, at most one of a transaction, in the order in which they were made.
pub type Promises = TransactionMap<Prepared>;

/// What a site's records give as it rises.
#[derive(Drop)]
pub struct RisenState {
    /// Its life.
    pub life: u32,
    /// Its epoch.
    pub epoch: u8,
    /// The epoch that it has closed that one for, if any.
    pub closed_for: Option<u8>,
    /// The lines that its epoch began with.
    pub began: Log,
    /// The lines since.
    pub lines: Log,
    /// What its promises hold.
    pub held: Locks,
    /// Its promises.
    pub prepared: Promises,
    /// Its clock.
    pub clock: Clock,
}

/// A site: its life and epoch, what its epoch began with and the log since, all
/// lines in the order in which they came, what is held and promised, and its clock. Each transaction that holds
/// something or is promised is of a client below the most clients.
#[derive(Drop)]
pub struct Site {
    pub(crate) number: u8,
    pub(crate) life: u32,
    pub(crate) epoch: u8,
    pub(crate) closed_for: Option<u8>,
    pub(crate) began: Log,
    pub(crate) log: Log,
    pub(crate) recorded: Log,
    pub(crate) arrived: Arrivals,
    pub(crate) held: Locks,
    pub(crate) prepared: Promises,
    pub(crate) clock: Clock,
}

impl Model for Site {
    ghost use Rattle.qc_site.specs.Site.{SiteState};
    ghost use Rattle.qc_site.specs.Holders.{AreByClients, AreOfClients};

    ghost Value = { SiteState };

    ghost view = { λ s. record {
      number = s.number;
      life = s.life;
      epoch = s.epoch;
      closed_for = s.closed_for;
      began = s.began;
      log = s.log;
      recorded = s.recorded;
      arrived = s.arrived;
      held = s.held;
      prepared = s.prepared;
      clock = s.clock.value;
    } };

    ghost invariant = { λ s. AreOfClients s.held × AreByClients s.prepared };
}

impl Site {
    /// The site with this number, as it begins.
    pub fn new(alloc: Global, number: u8) -> Result<Site, OutOfMemory>
        ensures { IfOk result (λ s. s ≡ new_site number) }
    {
        Ok(Site {
            number,
            life: FIRST_LIFE,
            epoch: FIRST_EPOCH,
            closed_for: None,
            began: Log::new(alloc)?,
            log: Log::new(alloc)?,
            recorded: Log::new(alloc)?,
            arrived: Arrivals::new(alloc),
            held: Locks::new(alloc),
            prepared: Promises::new(alloc),
            clock: Clock { value: 0 },
        })
    }

    /// The site of this number that rises with what its records give.
    pub fn risen(alloc: Global, number: u8, state: RisenState) -> Result<Site, OutOfMemory>
        requires held { AreOfClients state.held }
        requires prepared { AreByClients state.prepared }
        ensures { IfOk result (λ s. s ≡ record {
          number = number;
          life = state.life;
          epoch = state.epoch;
          closed_for = state.closed_for;
          began = state.began;
          log = state.lines;
          recorded = state.lines;
          arrived = union state.began state.lines;
          held = state.held;
          prepared = state.prepared;
          clock = state.clock.value;
        }) }
    {
        let mut arrived = Arrivals::new(alloc);
        arrived.join(both(&state.began, &state.lines)?.lines())?;
        Ok(Site {
            number,
            life: state.life,
            epoch: state.epoch,
            closed_for: state.closed_for,
            began: state.began,
            recorded: state.lines.copy()?,
            log: state.lines,
            arrived,
            held: state.held,
            prepared: state.prepared,
            clock: state.clock,
        })
    }

    /// Takes the message of this sender and number, and gives the turn to be
    /// posted. The clock passes first, whatever becomes of the message. After
    /// want of memory the site is as it was.
    pub fn handle(
        &mut self,
        alloc: Global,
        decl: &Declaration,
        from: u8,
        number: u32,
        message: &Message,
    ) -> Result<Turn, OutOfMemory>
        requires sites { decl.now.sites ≤ most_sites }
        requires clients { decl.now.clients ≤ most_clients }
        requires life { self.old.life < 2 ^ 32 - 1 }
        ensures ok { IfOk result (λ turn. site_on decl.now self.old from number message.now
            ≡ record { site = self.new; turn = turn }) }
        ensures err { OnErr result (self.new ≡ self.old) }
    {
        let before = self.clock;
        self.clock = clock_after(before, message);
        let asker = Asker { from, number };
        let turn = self.take(alloc, decl, asker, message);
        if turn.is_err() {
            self.clock = before;
        }
        turn
    }

    /// What it does for a message once its clock has passed.
    fn take(
        &mut self,
        alloc: Global,
        decl: &Declaration,
        asker: Asker,
        message: &Message,
    ) -> Result<Turn, OutOfMemory>
        requires sites { decl.now.sites ≤ most_sites }
        requires clients { decl.now.clients ≤ most_clients }
        requires life { self.old.life < 2 ^ 32 - 1 }
        ensures ok { IfOk result (λ turn. site_at decl.now self.old asker.from asker.number message.now
            ≡ record { site = self.new; turn = turn }) }
        ensures err { OnErr result (self.new ≡ self.old) }
    {
        match message {
            Message::Request {
                tx,
                epoch,
                life,
                want,
            } => {
                let fault = self.fault_of(*epoch, *life);
                let requester = Requester { asker, tx: *tx };
                self.request(alloc, decl, requester, want, fault)
            }
            Message::Decision { tx, verdict } => self.finish(alloc, *tx, *verdict),
            Message::Close { epoch } => self.close(alloc, asker, *epoch),
            Message::Install(start) => self.install(alloc, asker, start),
            Message::Answer { .. } | Message::Inquiry { .. } | Message::Ask { .. } => {
                Ok(Turn::quiet(alloc))
            }
        }
    }
}
