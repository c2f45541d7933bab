//! Laws of the histories that the state keeps, each the contract of a function
//! with nothing to do.

ghost use Rattle.std.specs.Prelude.{◌≡◌, List, Some, None};
ghost use Rattle.qc_msg.specs.Steps.{Entry};
ghost use Rattle.qc_fabric.specs.Limits.{HasReached, IsBelow};
ghost use Rattle.qc_fabric.specs.Logs.{full_of};
ghost use Rattle.qc_fabric.specs.declared.full.Full.{Full};

/// What is told of limits: nothing where each counted quantity is below its own,
/// and else the first that isn't, with its number.
#[tactic(auto, using(crate::proofs::Limits::none_reached, crate::proofs::Limits::first_reached))]
pub fn limits_are_told()
    ensures below { (h : List Entry) → full_of h ≡ None → IsBelow h }
    ensures reached { (h : List Entry) (full : Full) → full_of h ≡ Some full → HasReached full.what full.number h }
{}
