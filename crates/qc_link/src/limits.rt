//! The limit of links. `specs/Limits.antt` has the same number for definitions,
//! and the law at the end says that both agree.

ghost use Rattle.std.specs.Prelude.{◌≡◌, ◌*◌};
ghost use Rattle.qc_link.specs.Limits.{most_actors};

/// How many actors there are at most: 16 sites, 16 clients, the administrator
/// and the controller. An actor's number is below this.
pub const MOST_ACTORS: usize = 34;

/// How many pairs of actors there are, each in both orders.
pub const ACTOR_PAIRS: usize = MOST_ACTORS * MOST_ACTORS;

/// The limit of the code is that of the definitions.
pub fn limit_of_actors_is_as_defined()
    ensures actors { MOST_ACTORS ≡ most_actors }
    ensures pairs { ACTOR_PAIRS ≡ most_actors * most_actors }
{}
