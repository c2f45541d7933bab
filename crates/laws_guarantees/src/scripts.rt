//! Scripts that nothing disturbs exist, and the others are refused: the contract
//! of a function with nothing to do. Without the first the laws on such scripts
//! would speak of none.

ghost use Rattle.laws_guarantees.specs.Scripts.{at_once, behind_a_cut, in_turn, over_a_link};
ghost use Rattle.laws_guarantees.specs.Undisturbed.{IsUndisturbed};

/// Clients that act in phases of their own are undisturbed. Clients of one
/// phase aren't, nor is whoever acts under a rule of links or behind a cut.
pub fn undisturbed_scripts_are_told_apart()
    ensures taken { IsUndisturbed in_turn }
    ensures clients { IsUndisturbed at_once → ⊥ }
    ensures link { IsUndisturbed over_a_link → ⊥ }
    ensures cut { IsUndisturbed behind_a_cut → ⊥ }
{}
