//! What is ready for an actor, and which actor comes next.

ghost use Rattle.std.specs.Prelude.{◌≡◌, ◌≤◌, ◌<◌};
ghost use Rattle.qc_decl.specs.Actors.{actors};
ghost use Rattle.qc_script.specs.Ready.{takes_commands};
ghost use Rattle.qc_mailbox.specs.Inputs.{input_in};
ghost use Rattle.qc_mailbox.specs.Picks.{comes_before, is_held, sooner};
ghost use Rattle.qc_mailbox.specs.PicksKept.{input_rank, picked_in, rank_in};
ghost use Rattle.qc_mailbox.specs.Passed.{either};
ghost use Rattle.qc_link.specs.Limits.{most_actors};

use crate::mailboxes::Mailboxes;
use crate::{Candidate, Rank, ReadyInput};
use qc_decl::Declaration;

/// Whether an actor is a client or the administrator.
fn takes_commands(decl: &Declaration, actor: u8) -> bool
    ensures { result ≡ takes_commands decl.now actor }
{
    let first = decl.sites as usize;
    let last = first + decl.clients as usize;
    let actor = actor as usize;
    (first <= actor && actor < last) || actor == last
}

/// Whether a rank comes before another.
fn comes_before(rank: Rank, other: Rank) -> bool
    ensures { result ≡ comes_before rank other }
{
    match (rank, other) {
        (Rank::Copy(first), Rank::Copy(second)) => first < second,
        (Rank::Copy(_), Rank::Lost | Rank::Command(_)) => true,
        (Rank::Lost, Rank::Copy(_) | Rank::Lost) => false,
        (Rank::Lost, Rank::Command(_)) => true,
        (Rank::Command(_), Rank::Copy(_) | Rank::Lost) => false,
        (Rank::Command(first), Rank::Command(second)) => first < second,
    }
}

/// The best of the candidates of lower actors and this actor.
fn sooner(best: Option<Candidate>, actor: u8, rank: Option<Rank>) -> Option<Candidate>
    ensures { result ≡ sooner best actor rank }
{
    let Some(rank) = rank else {
        return best;
    };
    match best {
        Some(first) if !comes_before(rank, first.rank) => best,
        _ => Some(Candidate { actor, rank }),
    }
}

/// How soon an actor comes that called so many commands, by its input.
fn rank_of(calls: u32, input: ReadyInput) -> Rank
    ensures { result ≡ input_rank calls input }
{
    match input {
        ReadyInput::Copy(number) => Rank::Copy(number),
        ReadyInput::Lost(_) => Rank::Lost,
        ReadyInput::Command(_) => Rank::Command(calls),
    }
}

/// Whether an actor's bit is set.
pub fn is_set(bits: &[bool], actor: u8) -> bool
    ensures { result ≡ is_held bits.now actor }
{
    (actor as usize) < bits.len() && bits[actor as usize]
}

/// Whether one of two bits of an actor is set.
#[tactic(auto, using(crate::proofs::Passing::held_either))]
fn is_passed(inputs: &[bool], held: &[bool], actor: u8) -> bool
    ensures { result ≡ is_held (either inputs.now held.now) actor }
{
    is_set(inputs, actor) || is_set(held, actor)
}

impl Mailboxes {
    /// What is ready next for an actor.
    pub fn ready(&self, decl: &Declaration, actor: u8) -> Option<ReadyInput>
        requires { actor < most_actors }
        ensures { result ≡ input_in decl.now actor self.now.inboxes }
    {
        match self.next_control() {
            Some(_) => None,
            None => self.ready_for(actor, takes_commands(decl, actor)),
        }
    }

    /// How soon an actor comes, if something is ready for it and no bit of it
    /// is set, neither that of an open input nor that of being held.
    fn rank(&self, decl: &Declaration, inputs: &[bool], held: &[bool], actor: u8) -> Option<Rank>
        requires { actor < most_actors }
        ensures { result ≡ rank_in decl.now (either inputs.now held.now) self.now.inboxes actor }
    {
        if is_passed(inputs, held, actor) {
            return None;
        }
        match self.ready(decl, actor) {
            Some(input) => Some(rank_of(self.calls(actor), input)),
            None => None,
        }
    }

    /// The actor that comes next, of those that have no open input and aren't
    /// held: the one whose first copy has the smallest number, else the
    /// lowest with a lost request, else the one that called the fewest commands
    /// in this phase, the lowest on a tie. None where nothing is ready for any of
    /// them.
    pub fn pick(&self, decl: &Declaration, inputs: &[bool], held: &[bool]) -> Option<u8>
        requires { actors decl.now ≤ most_actors }
        ensures { result ≡ picked_in decl.now (either inputs.now held.now) self.now.inboxes }
    {
        let mut best = None;
        'actors: for actor in 0..decl.sites + decl.clients + 1 {
            best = sooner(best, actor, self.rank(decl, inputs, held, actor));
        }
        match best {
            Some(candidate) => Some(candidate.actor),
            None => None,
        }
    }
}
