//! Which actors are up.

ghost use Rattle.std.specs.Prelude.{◌≡◌, ◌<◌, set};
ghost use Rattle.qc_script.specs.Inbox.{everybody, is_up};
ghost use Rattle.qc_link.specs.Limits.{most_actors};

use qc_link::MOST_ACTORS;
use std::marker::Model;

/// Which actors are up.
#[derive(Drop)]
pub struct Ups {
    /// By actor.
    up: [bool; MOST_ACTORS],
}

impl Model for Ups {
    ghost use Rattle.std.specs.Prelude.{◌≡◌, List, Bool, length};
    ghost use Rattle.qc_link.specs.Limits.{most_actors};

    ghost Value = { List Bool };

    ghost view = { λ u. u.up };

    ghost invariant = { λ u. length u.up ≡ most_actors };
}

impl Ups {
    /// Everybody is up.
    pub(crate) fn new() -> Ups
        ensures { result ≡ everybody }
    {
        Ups {
            up: [true; MOST_ACTORS],
        }
    }

    /// Whether an actor is up.
    pub(crate) fn is_up(&self, actor: usize) -> bool
        ensures { result ≡ is_up self.now actor }
    {
        actor >= MOST_ACTORS || self.up[actor]
    }

    /// An actor rises, or falls.
    pub(crate) fn set(&mut self, actor: u8, up: bool)
        requires { actor < most_actors }
        ensures { self.new ≡ set self.old actor up }
    {
        self.up[actor as usize] = up;
    }
}
