//! How the requests of the last turn get their numbers.

ghost use Rattle.std.specs.Prelude.{◌≡◌, ◌+◌, ◌^◌, ◌<◌, ◌≤◌, length};
ghost use Rattle.qc_decl.specs.Limits.{most_sites};
ghost use Rattle.qc_front.specs.Conduct.{awaited, sent};
ghost use Rattle.qc_front.specs.Fits.{AsksFew};
ghost use Rattle.qc_msg.specs.Calls.{calls_from, numbered_from};

use crate::doing::Doing;
use crate::front::Front;
use qc_msg::Calls;
use qc_plan::Round;

impl Front {
    /// The messages of the last turn were given the numbers from `first` on:
    /// requests that were just asked have these. It takes no memory, and
    /// changes nothing where the last turn asked nothing.
    pub fn sent(&mut self, first: u32)
        requires room { first + most_sites < 2 ^ 32 }
        requires few { AsksFew self.old.doing }
        ensures { self.new ≡ sent self.old first }
    {
        match &mut self.doing {
            Doing::Idle => {}
            Doing::Reading { calls, round, .. } => number(calls, round, first),
            Doing::Appending { calls, round, .. } => number(calls, round, first),
        }
    }
}

/// Where no request is open, the asked sites that aren't noted were asked in
/// the last turn, whose messages have the numbers from `first` on.
fn number(calls: &mut Calls, round: &Round, first: u32)
    requires room { first + most_sites < 2 ^ 32 }
    requires few { length round.now.asked ≤ most_sites }
    ensures { calls.new ≡ numbered_from calls.old (awaited round.now) first }
{
    if calls.is_empty() {
        *calls = calls_of(round, first);
    }
}

/// Requests to the sites of which nothing is noted, with the numbers from
/// `first` on.
pub fn calls_of(round: &Round, first: u32) -> Calls
    requires room { first + most_sites < 2 ^ 32 }
    requires few { length round.now.asked ≤ most_sites }
    ensures { result ≡ calls_from first (awaited round.now) }
{
    let mut calls = Calls::new();
    let mut number = first;
    for asked in round.asked_sites() {
        if asked.standing.is_none() {
            calls.add(number, asked.site);
            number += 1;
        }
    }
    calls
}
