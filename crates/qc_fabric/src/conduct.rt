//! What is said of a run from outside: how actors act, and which run it is.

use std::marker::Brand;

/// How actors act. It has no calls: what is lawful, and what an actor may rise
/// with, is said in proofs.
pub trait Conduct {
    ghost use Rattle.std.specs.Prelude.{ℕ, List};
    ghost use Rattle.qc_decl.specs.declared.declaration.Declaration.{Declaration};
    ghost use Rattle.qc_msg.specs.Deeds.{Deed};
    ghost use Rattle.qc_msg.specs.declared.record.Record.{Record};
    ghost use Rattle.qc_msg.specs.declared.turn.Turn.{Turn};

    /// Which turns are lawful for an actor of a declaration after its deeds, the
    /// last of which is the input that it took, or its rise.
    ghost lawful: { Declaration → ℕ → List Deed → Turn → Type 0 };

    /// With which records an actor of a declaration may rise.
    ghost fits: { Declaration → ℕ → List Record → Type 0 };
}

/// The name of a run. A value behind a lock is known by its type alone, so the
/// values of one run carry its name in their types. It has no calls: one call of
/// a program picks it.
pub trait RunName {
    ghost use Rattle.std.specs.Prelude.{Bool};
    ghost use Rattle.qc_decl.specs.declared.declaration.Declaration.{Declaration};
    ghost use Rattle.qc_script.specs.declared.script.Script.{Script};
    ghost use Rattle.atomic_table.specs.Seated.{TableId};

    /// The declaration of the run.
    ghost declaration: { Declaration };

    /// Its script.
    ghost script: { Script };

    /// The word that its passes are of.
    ghost table: { TableId };

    /// Whether its disks tell what they hold. Nothing here speaks of it; the types
    /// of those who have the disks do.
    ghost tells: { Bool };
}

impl RunName for Brand {
    ghost use Rattle.std.specs.Prelude.{false};
    ghost use Rattle.qc_fabric.specs.Brands.{no_declaration, no_script, no_table};

    ghost declaration = { no_declaration };

    ghost script = { no_script };

    ghost table = { no_table };

    ghost tells = { false };
}
