//! Laws of cuts, each the contract of a function with nothing to do.

ghost use Rattle.std.specs.Prelude.{◌≡◌, ℕ, ◌<◌, ◌*◌, ◌&&◌, ◌||◌, not, Bool, List, length};
ghost use Rattle.qc_link.specs.Cuts.{is_cut, is_pair, with_cut, without_cut};
ghost use Rattle.qc_link.specs.Limits.{most_actors};

/// A cut parts the two actors, in both directions, and no others.
pub fn cuts_part_two_actors()
    ensures { (cuts : List Bool) (a b x y : ℕ) → length cuts ≡ most_actors * most_actors
        → a < most_actors → b < most_actors → x < most_actors → y < most_actors
        → is_cut (with_cut cuts a b) x y ≡ (is_pair a b x y || is_cut cuts x y) }
{}

/// A heal joins the two actors, however often they were cut, and no others.
pub fn heals_join_two_actors()
    ensures { (cuts : List Bool) (a b x y : ℕ) → length cuts ≡ most_actors * most_actors
        → a < most_actors → b < most_actors → x < most_actors → y < most_actors
        → is_cut (without_cut cuts a b) x y ≡ (not (is_pair a b x y) && is_cut cuts x y) }
{}
