//! Cuts between actors.

ghost use Rattle.std.specs.Prelude.{◌≡◌, ◌<◌, ◌*◌};
ghost use Rattle.qc_link.specs.Cuts.{is_cut, no_cuts, pair_place, with_cut, without_cut};
ghost use Rattle.qc_link.specs.Limits.{most_actors};

use crate::limits::{ACTOR_PAIRS, MOST_ACTORS};
use std::marker::Model;

/// Which actors are cut from each other.
#[derive(Drop)]
pub struct Cuts {
    /// For each pair of actors, the lower number first, whether it is cut.
    cut: [bool; ACTOR_PAIRS],
}

impl Model for Cuts {
    ghost use Rattle.std.specs.Prelude.{◌≡◌, ◌*◌, List, Bool, length};
    ghost use Rattle.qc_link.specs.Limits.{most_actors};

    ghost Value = { List Bool };

    ghost view = { λ c. c.cut };

    ghost invariant = { λ c. length c.cut ≡ most_actors * most_actors };
}

impl Cuts {
    /// No actors are cut from each other.
    pub fn new() -> Cuts
        ensures { result ≡ no_cuts }
    {
        Cuts {
            cut: [false; ACTOR_PAIRS],
        }
    }

    /// Cuts two actors from each other.
    pub fn cut(&mut self, a: u8, b: u8)
        requires a { a < most_actors }
        requires b { b < most_actors }
        ensures { self.new ≡ with_cut self.old a b }
    {
        self.cut[place(a, b)] = true;
    }

    /// Joins two actors, however often they were cut.
    pub fn heal(&mut self, a: u8, b: u8)
        requires a { a < most_actors }
        requires b { b < most_actors }
        ensures { self.new ≡ without_cut self.old a b }
    {
        self.cut[place(a, b)] = false;
    }

    /// Whether two actors are cut from each other.
    pub fn is_cut(&self, a: u8, b: u8) -> bool
        requires a { a < most_actors }
        requires b { b < most_actors }
        ensures { result ≡ is_cut self.now a b }
    {
        self.cut[place(a, b)]
    }
}

/// The place of a pair of actors, in either order.
fn place(a: u8, b: u8) -> usize
    requires a { a < most_actors }
    requires b { b < most_actors }
    ensures place { result ≡ pair_place a b }
    ensures within { result < most_actors * most_actors }
{
    let (low, high) = (a.min(b) as usize, a.max(b) as usize);
    MOST_ACTORS * low + high
}
