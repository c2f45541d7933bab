//! The rule that each step on the word keeps.

use crate::view::View;
use atomic_table::TableRule;

/// The pass rule: all seats are of one history.
pub(crate) struct PassRule;

impl<E> TableRule<(), View<E>, ()> for PassRule {
    ghost use Rattle.std.specs.Prelude.{[]};
    ghost use Rattle.qc_pass.specs.Rule.{IsOneHistory};
    ghost use Rattle.qc_pass.specs.Views.{right_view};

    ghost holds = { λ _ s. IsOneHistory s };

    // The first seat has the right to a history without entries and passes.
    ghost first = { λ _. right_view [] [] [] };
}
