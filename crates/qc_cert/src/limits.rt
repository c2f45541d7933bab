//! The limit of certificates. `specs/Limits.antt` has the same number for
//! definitions, and the law at the end says that both agree.

ghost use Rattle.std.specs.Prelude.{◌≡◌};
ghost use Rattle.qc_cert.specs.Limits.{most_triples};

/// The most triples of a type.
pub const MOST_TRIPLES: usize = 65_536;

/// The limit of the code is that of the definitions.
pub fn limit_of_triples_is_as_defined()
    ensures { MOST_TRIPLES ≡ most_triples }
{}
