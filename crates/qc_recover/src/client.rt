//! The client that rises from its records.

ghost use Rattle.std.specs.Prelude.{◌≡◌, ◌<◌, ◌-◌, ◌^◌, length, [], IfOk, OnOk};
ghost use Rattle.qc_client.specs.Client.{moved};
ghost use Rattle.qc_recover.specs.Clients.{client_by, client_rises, keeps, kept_by, nothing_kept};

use crate::commits::LastCommits;
use crate::turn::rising;
use qc_client::Client;
use qc_list::{List, OutOfMemory};
use qc_msg::{Record, Turn};
use qc_stamp::{Clock, FIRST_LIFE};
use std::alloc::Global;
use std::marker::Model;

/// A client that has risen, and its rising turn.
#[derive(Drop)]
pub struct RisenClient {
    /// The client, in the life whose record the turn writes.
    pub client: Client,
    /// What it does as it rises: it writes that record.
    pub turn: Turn,
}

/// The client of this number that rises from the records of its journal, and
/// its rising turn.
pub fn client_of(alloc: Global, client: u8, records: &[Record]) -> Result<RisenClient, OutOfMemory>
    requires { length records.now < 2 ^ 32 - 2 }
    ensures { IfOk result (λ risen. client_rises client records.now ≡ moved risen.client risen.turn) }
{
    let mut kept = kept_by(alloc, records)?;
    kept.keep(&Record::Life)?;
    Ok(RisenClient {
        client: client_by(alloc, client, kept)?,
        turn: rising(alloc, List::new(alloc)),
    })
}

/// What a client's records give, as far as they were read.
#[derive(Drop)]
struct ClientRecords {
    /// 1 more than the records of a rise.
    life: u32,
    /// The commit records, the last one of each transaction.
    commits: LastCommits,
    /// The greatest clock of their stamps.
    clock: Clock,
}

impl Model for ClientRecords {
    ghost use Rattle.qc_recover.specs.Clients.{Kept};

    ghost Value = { Kept };

    ghost view = { λ k. record { life = k.life; commits = k.commits; clock = k.clock.value } };
}

impl ClientRecords {
    /// What no record gives. It takes no memory.
    fn new(alloc: Global) -> ClientRecords
        ensures { result ≡ nothing_kept }
    {
        ClientRecords {
            life: FIRST_LIFE,
            commits: LastCommits::new(alloc),
            clock: Clock { value: 0 },
        }
    }

    /// Keeps what one record more gives.
    fn keep(&mut self, rec: &Record) -> Result<(), OutOfMemory>
        requires { self.old.life < 2 ^ 32 - 1 }
        ensures { OnOk result (self.new ≡ keeps self.old rec.now) }
    {
        match rec {
            Record::Life => self.life += 1,
            Record::Commit(commit) => {
                self.commits.add(commit.copy()?)?;
                self.clock.pass(commit.stamp.clock);
            }
            Record::Prepare(_)
            | Record::Done { .. }
            | Record::Close { .. }
            | Record::Install(_)
            | Record::Decide(_) => {}
        }
        Ok(())
    }
}

/// What the records give.
fn kept_by(alloc: Global, records: &[Record]) -> Result<ClientRecords, OutOfMemory>
    requires { length records.now < 2 ^ 32 - 2 }
    ensures { IfOk result (λ kept. kept ≡ kept_by records.now) }
{
    let mut kept = ClientRecords::new(alloc);
    'records: for rec in records {
        kept.keep(rec)?;
    }
    Ok(kept)
}

/// The client of this number that has what its records give.
fn client_by(alloc: Global, client: u8, kept: ClientRecords) -> Result<Client, OutOfMemory>
    ensures { IfOk result (λ c. c ≡ client_by client kept) }
{
    let ClientRecords {
        life,
        commits,
        clock,
    } = kept;
    let commits = commits.into_list(alloc)?;
    Ok(Client::risen(client, life, clock, commits))
}
