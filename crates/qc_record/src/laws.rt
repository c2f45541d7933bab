//! Laws of the bytes of records.

ghost use Rattle.std.specs.Prelude.{◌≡◌, ◌↔◌, ◌<◌, ◌≤◌, ℕ, List, true, length, take, ◌++◌, ◌∷◌, Ok, Err};
ghost use Rattle.qc_entry.specs.declared.record.Prepared.{Prepared};
ghost use Rattle.qc_msg.specs.Lengths.{prepare_length};
ghost use Rattle.qc_msg.specs.declared.record.Record.{Record};
ghost use Rattle.qc_msg.specs.declared.record.Record.TheVariants.{Prepare};
ghost use Rattle.qc_record.specs.declared.fault.RecordFault.TheVariants.{Torn};
ghost use Rattle.qc_record.specs.Form.{IsBytes};
ghost use Rattle.qc_record.specs.Legal.{IsInForm};
ghost use Rattle.qc_record.specs.Records.{record_at, spelled, is_legal, framed, most_bytes};

/// Bytes are read as a record exactly where they are the spelling of that
/// record.
pub fn one_spelling()
    ensures again { (rec : Record) → is_legal rec ≡ true → record_at (spelled rec) ≡ Ok rec }
    ensures taken { (bytes : List ℕ) (rec : Record) → IsBytes bytes → record_at bytes ≡ Ok rec
        → (bytes ≡ spelled rec) × (is_legal rec ≡ true) }
{}

/// A record is legal exactly where its numbers are in their ranges, and its lists
/// no longer than their counts and in their orders.
pub fn legal_records_are_in_form()
    ensures { (rec : Record) → (is_legal rec ≡ true) ↔ IsInForm rec }
{}

/// Different records have different spellings.
pub fn spellings_are_apart()
    ensures { (a b : Record) → is_legal a ≡ true → is_legal b ≡ true → spelled a ≡ spelled b → a ≡ b }
{}

/// A Prepare's spelling is as long as its length tells, by which a site knows
/// before it promises whether the record fits.
pub fn prepares_are_as_long_as_told()
    ensures { (p : Prepared) → length (spelled (Prepare p)) ≡ prepare_length p }
{}

/// No record's spelling behind a gate and its length is a prefix of another's.
pub fn no_frame_is_a_prefix()
    ensures { (a b : Record) (rest : List ℕ) → is_legal a ≡ true → is_legal b ≡ true
        → length (spelled a) ≤ most_bytes → length (spelled b) ≤ most_bytes → framed a ++ rest ≡ framed b → a ≡ b }
{}

/// A spelling that is cut is refused where the bytes end.
pub fn cut_spellings_are_refused()
    ensures { (rec : Record) (n : ℕ) → is_legal rec ≡ true → n < length (spelled rec)
        → record_at (take n (spelled rec)) ≡ Err (Torn n) }
{}

/// A spelling with bytes behind it is refused where it ends.
pub fn longer_spellings_are_refused()
    ensures { (rec : Record) (byte : ℕ) (rest : List ℕ) → is_legal rec ≡ true
        → record_at (spelled rec ++ byte ∷ rest) ≡ Err (Torn (length (spelled rec))) }
{}

/// No record's spelling is a prefix of another's.
pub fn no_spelling_is_a_prefix()
    ensures { (a b : Record) (rest : List ℕ) → is_legal a ≡ true → is_legal b ≡ true
        → spelled a ++ rest ≡ spelled b → a ≡ b }
{}
