//! How many messages there were from each actor to each.

ghost use Rattle.std.specs.Prelude.{◌≡◌, ◌+◌, ◌*◌, ◌^◌, ◌<◌};
ghost use Rattle.qc_mailbox.specs.Tallies.{count, no_messages, one_message_more, place};
ghost use Rattle.qc_link.specs.Limits.{most_actors};

use qc_link::{ACTOR_PAIRS, MOST_ACTORS};
use std::marker::Model;

/// How many messages there were, in all and from each actor to each.
#[derive(Drop)]
pub struct Counts {
    /// By sender, then by receiver.
    each: [u32; ACTOR_PAIRS],
    /// In all.
    all: u32,
}

impl Model for Counts {
    ghost use Rattle.std.specs.Prelude.{◌≡◌, ◌*◌, length};
    ghost use Rattle.qc_link.specs.Limits.{most_actors};
    ghost use Rattle.qc_mailbox.specs.Few.{AreFew};
    ghost use Rattle.qc_mailbox.specs.Tallies.{Tally};

    ghost Value = { Tally };

    ghost view = { λ c. record { each = c.each; all = c.all } };

    ghost invariant = { λ c. (length c.each ≡ most_actors * most_actors) × AreFew c.each c.all };
}

impl Counts {
    /// There were none.
    pub(crate) fn new() -> Counts
        ensures { result ≡ no_messages }
    {
        Counts {
            each: [0; ACTOR_PAIRS],
            all: 0,
        }
    }

    /// How many there were in all.
    pub(crate) fn all(&self) -> u32
        ensures { result ≡ self.now.all }
    {
        self.all
    }

    /// Counts one message more, and tells its number among those from its
    /// sender to its receiver, from 1.
    pub(crate) fn add(&mut self, from: u8, to: u8) -> u32
        requires from { from < most_actors }
        requires to { to < most_actors }
        requires room { self.old.all + 1 < 2 ^ 32 }
        ensures after { self.new ≡ one_message_more self.old from to }
        ensures ordinal { result ≡ count self.old from to + 1 }
    {
        let place = place(from, to);
        let ordinal = self.each[place] + 1;
        self.each[place] = ordinal;
        self.all += 1;
        ordinal
    }
}

/// The place of a sender and a receiver.
fn place(from: u8, to: u8) -> usize
    requires from { from < most_actors }
    requires to { to < most_actors }
    ensures place { result ≡ place from to }
    ensures within { result < most_actors * most_actors }
{
    MOST_ACTORS * from as usize + to as usize
}
