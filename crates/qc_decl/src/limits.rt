//! The limits, each once: how much there may be of each thing. Those of types,
//! certificates and plans stand in the crates that test them, and are handed on.
//! `specs/Limits.antt` has the same numbers for definitions, and the law at the
//! end says that both agree; the crates below have such a law of their own.

ghost use Rattle.std.specs.Prelude.{◌≡◌};
ghost use Rattle.qc_decl.specs.Limits as limits;

pub use qc_cert::MOST_TRIPLES;
pub use qc_plan::MOST_SITES;
pub use qc_table::{MOST_EVENTS, MOST_INVOCATIONS, MOST_RESPONSES, MOST_ROWS, MOST_STATES};

/// The most clients.
pub const MOST_CLIENTS: u8 = 16;

/// The most types.
pub const MOST_TYPES: usize = 8;

/// The most objects.
pub const MOST_OBJECTS: usize = 16;

/// The most epochs.
pub const MOST_EPOCHS: usize = 8;

/// The most triples with the same two states.
pub const MOST_ALIKE_TRIPLES: u16 = 1_024;

/// The most bytes of a name.
pub const LONGEST_NAME: usize = 32;

/// The greatest weight of a site.
pub const GREATEST_WEIGHT: u8 = 255;

/// The greatest threshold of a quorum.
pub const GREATEST_THRESHOLD: u16 = 65_535;

/// The most bytes of a declaration's file.
pub const MOST_DECLARATION_BYTES: u32 = 4_194_304;

/// The most bytes of a script's file.
pub const MOST_SCRIPT_BYTES: u32 = 1_048_576;

/// The most operations of a transaction.
pub const MOST_TRANSACTION_OPERATIONS: usize = 16;

/// The most bytes of the body of a journal's record.
pub const MOST_RECORD_BYTES: usize = 65_536;

/// The most steps of a run.
pub const MOST_STEPS: u64 = 262_144;

/// The most committed operations with a response of a run.
pub const MOST_COMMITTED_OPERATIONS: u32 = 1_024;

/// The most lines that a run's messages carry.
pub const MOST_CARRIED_LINES: u32 = 8_388_608;

/// The limits of the code are those of the definitions.
pub fn limits_are_as_defined()
    ensures clients { MOST_CLIENTS ≡ limits.most_clients }
    ensures types { MOST_TYPES ≡ limits.most_types }
    ensures objects { MOST_OBJECTS ≡ limits.most_objects }
    ensures epochs { MOST_EPOCHS ≡ limits.most_epochs }
    ensures alike_triples { MOST_ALIKE_TRIPLES ≡ limits.most_alike_triples }
    ensures name { LONGEST_NAME ≡ limits.longest_name }
    ensures weight { GREATEST_WEIGHT ≡ limits.greatest_weight }
    ensures threshold { GREATEST_THRESHOLD ≡ limits.greatest_threshold }
    ensures declaration_bytes { MOST_DECLARATION_BYTES ≡ limits.most_declaration_bytes }
    ensures script_bytes { MOST_SCRIPT_BYTES ≡ limits.most_script_bytes }
    ensures transaction_operations { MOST_TRANSACTION_OPERATIONS ≡ limits.most_transaction_operations }
    ensures record_bytes { MOST_RECORD_BYTES ≡ limits.most_record_bytes }
    ensures steps { MOST_STEPS ≡ limits.most_steps }
    ensures committed_operations { MOST_COMMITTED_OPERATIONS ≡ limits.most_committed_operations }
    ensures carried_lines { MOST_CARRIED_LINES ≡ limits.most_carried_lines }
{}
