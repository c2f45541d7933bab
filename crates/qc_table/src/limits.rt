//! The limits of a type, each once. `specs/Limits.antt` has the same numbers for
//! definitions, and the law at the end says that both agree.

ghost use Rattle.std.specs.Prelude.{◌≡◌};
ghost use Rattle.qc_table.specs.Limits as limits;

/// The most states of a type.
pub const MOST_STATES: usize = 64;

/// The most invocations of a type.
pub const MOST_INVOCATIONS: usize = 32;

/// The most responses of a type.
pub const MOST_RESPONSES: usize = 32;

/// The most events of a type.
pub const MOST_EVENTS: usize = 64;

/// The most rows of a type.
pub const MOST_ROWS: usize = 131_072;

/// The limits of the code are those of the definitions.
pub fn limits_of_types_are_as_defined()
    ensures states { MOST_STATES ≡ limits.most_states }
    ensures invocations { MOST_INVOCATIONS ≡ limits.most_invocations }
    ensures responses { MOST_RESPONSES ≡ limits.most_responses }
    ensures events { MOST_EVENTS ≡ limits.most_events }
    ensures rows { MOST_ROWS ≡ limits.most_rows }
{}
