//! When a record fits, in words.

ghost use Rattle.std.specs.Prelude.{◌≡◌, ◌↔◌, ℕ, true};
ghost use Rattle.qc_decl.specs.declared.declaration.Declaration.{Declaration};
ghost use Rattle.qc_fit.specs.Fits.{fits};
ghost use Rattle.qc_fit.specs.Said.{IsFit};
ghost use Rattle.qc_msg.specs.declared.record.Record.{Record};

/// A record fits exactly where each of the sentences on its parts holds.
pub fn fits_is_as_said()
    ensures { (decl : Declaration) (actor before : ℕ) (rec : Record)
        → (fits decl actor before rec ≡ true) ↔ IsFit decl actor before rec }
{}
