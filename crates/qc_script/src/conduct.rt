//! How actors act where they fall and rise, as runs are told of it.

/// It has no calls: what is lawful, and what an actor may rise with, is said in
/// proofs.
pub trait ConductWithFalls {
    ghost use Rattle.std.specs.Prelude.{ℕ, List};
    ghost use Rattle.qc_msg.specs.Deeds.{Deed};
    ghost use Rattle.qc_msg.specs.declared.record.Record.{Record};
    ghost use Rattle.qc_msg.specs.declared.turn.Turn.{Turn};

    /// Which turns are lawful for an actor after its deeds, the last of which is
    /// the input that it took, or its rise.
    ghost lawful: { ℕ → List Deed → Turn → Type 0 };

    /// With which records an actor may rise.
    ghost fits: { ℕ → List Record → Type 0 };
}
