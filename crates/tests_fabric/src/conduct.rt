//! A conduct under which an actor that is up may do anything.

use qc_fabric::Conduct;

/// An actor that is up may do anything, and one that is down may tell replies. It
/// may rise with any records.
pub struct AnyTurn;

impl Conduct for AnyTurn {
    ghost use Rattle.tests_fabric.specs.Turns.{any_records, any_turn};

    ghost lawful = { any_turn };

    ghost fits = { any_records };
}
