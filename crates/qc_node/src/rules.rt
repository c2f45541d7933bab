//! The conduct of the whole system, as a run names it.

use qc_fabric::Conduct;

/// Each actor posts the turn that its deeds call for, and rises with records that
/// fit it.
pub struct Rules;

impl Conduct for Rules {
    ghost use Rattle.qc_core.specs.Conduct.{IsLawfulWithFalls};
    ghost use Rattle.qc_node.specs.Rules.{fits_of};

    ghost lawful = { IsLawfulWithFalls };

    ghost fits = { fits_of };
}
