//! Bytes that are read, and others that are refused at their first fault: the
//! contracts of functions with nothing to do.

ghost use Rattle.std.specs.Prelude.{◌≡◌, ◌<◌, ℕ, List, [], ◌∷◌, ◌^◌, Err};
ghost use Rattle.qc_msg.specs.declared.record.Record.TheVariants.{Close, Commit, Decide, Done, Install, Life, Prepare};
ghost use Rattle.qc_msg.specs.Payloads.{start_with};
ghost use Rattle.qc_record.specs.declared.fault.RecordFault.TheVariants.{Unknown};
ghost use Rattle.qc_record.specs.Records.{record_at};
ghost use Rattle.qc_record.specs.Spellings.{IsRead, TornAt, absent, behind_line, clock_bytes, commit, commit_bytes};
ghost use Rattle.qc_record.specs.Spellings.{done_bytes, four, install_bytes, line, line_bytes, prepare_bytes};
ghost use Rattle.qc_record.specs.Spellings.{promise, tx};

/// A record of each kind is read from its spelling. Lines ascend where the first
/// number that differs rises, whatever follows it.
#[tactic(auto, unfolding(crate::specs::Form::number_at, crate::specs::Form::items_at))]
pub fn spellings_are_read()
    ensures life { IsRead (1 ∷ []) Life }
    ensures prepare { IsRead (prepare_bytes (0 ∷ 1 ∷ 0 ∷ 0 ∷ 1 ∷ 1 ∷ 0 ∷ 3 ∷ four 0 []))
        (Prepare promise) }
    ensures done { IsRead (done_bytes 0 1 1 (clock_bytes 1 [])) (Done (tx 0 1 1) 1) }
    ensures greatest_clock { IsRead (done_bytes 15 1 1 (64 ∷ 0 ∷ 0 ∷ 0 ∷ four 0 []))
        (Done (tx 15 1 1) (2 ^ 62)) }
    ensures close { IsRead (4 ∷ 8 ∷ []) (Close 8) }
    ensures install { IsRead (install_bytes 1 (line_bytes 5 1 9 7 1 3 5 []))
        (Install (start_with 2 9 (line 5 1 9 7 1 3 5 ∷ []))) }
    ensures later_clock { IsRead (behind_line (line_bytes 10 0 1 1 1 0 0 []))
        (Install (start_with 2 9 (line 9 2 3 7 4 5 6 ∷ line 10 0 1 1 1 0 0 ∷ []))) }
    ensures later_event { IsRead (behind_line (line_bytes 9 2 3 7 4 5 7 []))
        (Install (start_with 2 9 (line 9 2 3 7 4 5 6 ∷ line 9 2 3 7 4 5 7 ∷ []))) }
    ensures commit { IsRead (commit_bytes 2 (0 ∷ 2 ∷ 2 ∷ 0 ∷ 0 ∷ 1 ∷ [])) (Commit commit) }
    ensures absent { IsRead (commit_bytes 1 (0 ∷ 2 ∷ 255 ∷ [])) (Commit absent) }
    ensures decide { IsRead (7 ∷ 2 ∷ clock_bytes 0 (four 0 [])) (Decide (start_with 2 0 [])) }
{}

/// Locks, own lines and lines that are equal or descend are refused at the first
/// number that isn't as it is to be.
#[tactic(auto, unfolding(crate::specs::Form::number_at, crate::specs::Form::items_at))]
pub fn lists_out_of_order_are_refused()
    ensures equal_locks { TornAt 16 (prepare_bytes (0 ∷ 2 ∷ 0 ∷ 3 ∷ 0 ∷ 3 ∷ 0 ∷ four 0 [])) }
    ensures locks_by_object { TornAt 15 (prepare_bytes (0 ∷ 2 ∷ 1 ∷ 0 ∷ 0 ∷ 5 ∷ 0 ∷ four 0 [])) }
    ensures locks_by_inv { TornAt 16 (prepare_bytes (0 ∷ 2 ∷ 0 ∷ 3 ∷ 0 ∷ 2 ∷ 0 ∷ four 0 [])) }
    ensures equal_owns { TornAt 17 (prepare_bytes (0 ∷ 0 ∷ 2 ∷ 1 ∷ 0 ∷ 3 ∷ 1 ∷ 0 ∷ 4 ∷ four 0 [])) }
    ensures owns { TornAt 17 (prepare_bytes (0 ∷ 0 ∷ 2 ∷ 2 ∷ 0 ∷ 3 ∷ 1 ∷ 0 ∷ 4 ∷ four 0 [])) }
    ensures equal_lines { TornAt 53 (behind_line (line_bytes 9 2 3 7 4 5 6 [])) }
    ensures lines_by_clock { TornAt 34 (behind_line (line_bytes 8 3 4 8 5 6 7 [])) }
    ensures lines_by_client { TornAt 42 (behind_line (line_bytes 9 1 4 8 5 6 7 [])) }
    ensures lines_by_life { TornAt 43 (behind_line (line_bytes 9 2 2 8 5 6 7 [])) }
    ensures lines_by_number { TornAt 47 (behind_line (line_bytes 9 2 3 6 5 6 7 [])) }
    ensures lines_by_operation { TornAt 51 (behind_line (line_bytes 9 2 3 7 3 6 7 [])) }
    ensures lines_by_object { TornAt 52 (behind_line (line_bytes 9 2 3 7 4 4 7 [])) }
    ensures lines_by_event { TornAt 53 (behind_line (line_bytes 9 2 3 7 4 5 5 [])) }
{}

/// A count that is short leaves an item to be read as what follows, and bytes
/// behind the last field where nothing does. One that is long asks for more
/// bytes than there are, and one past its range is refused itself.
#[tactic(auto, unfolding(crate::specs::Form::number_at, crate::specs::Form::items_at))]
pub fn wrong_counts_are_refused()
    ensures short_locks { TornAt 20 (prepare_bytes (0 ∷ 0 ∷ 0 ∷ 3 ∷ 0 ∷ four 0 [])) }
    ensures short_lines { TornAt 14 (install_bytes 0 (line_bytes 9 1 1 7 1 3 5 [])) }
    ensures short_operations { TornAt 22 (commit_bytes 1 (0 ∷ 2 ∷ 2 ∷ 0 ∷ 0 ∷ 1 ∷ [])) }
    ensures long_locks { TornAt 16 (prepare_bytes (0 ∷ 2 ∷ 0 ∷ 3 ∷ 0 ∷ four 0 [])) }
    ensures long_lines { TornAt 34 (install_bytes 2 (line_bytes 9 1 1 7 1 3 5 [])) }
    ensures long_operations { TornAt 25 (commit_bytes 3 (0 ∷ 2 ∷ 2 ∷ 0 ∷ 0 ∷ 1 ∷ [])) }
    ensures own_lines { TornAt 13 (prepare_bytes (0 ∷ 0 ∷ 17 ∷ four 0 [])) }
    ensures operations { TornAt 18 (commit_bytes 17 (0 ∷ 2 ∷ 2 ∷ [])) }
{}

/// Numbers below and above their ranges are refused at their first bytes.
#[tactic(auto, unfolding(crate::specs::Form::number_at, crate::specs::Form::items_at))]
pub fn numbers_out_of_range_are_refused()
    ensures client { TornAt 1 (done_bytes 16 1 1 (clock_bytes 1 [])) }
    ensures life { TornAt 2 (done_bytes 0 0 1 (clock_bytes 1 [])) }
    ensures number { TornAt 6 (done_bytes 0 1 0 (clock_bytes 1 [])) }
    ensures clock { TornAt 10 (done_bytes 0 1 1 (clock_bytes 0 [])) }
    ensures clock_above { TornAt 10 (done_bytes 0 1 1 (64 ∷ 0 ∷ 0 ∷ 0 ∷ four 1 [])) }
    ensures start_above { TornAt 2 (7 ∷ 2 ∷ 64 ∷ 0 ∷ 0 ∷ 0 ∷ four 1 (four 0 [])) }
    ensures no_epoch { TornAt 1 (4 ∷ 0 ∷ []) }
    ensures epoch { TornAt 1 (4 ∷ 9 ∷ []) }
    ensures locked_object { TornAt 13 (prepare_bytes (0 ∷ 1 ∷ 16 ∷ 0 ∷ 0 ∷ four 0 [])) }
    ensures locked_invocation { TornAt 14 (prepare_bytes (0 ∷ 1 ∷ 0 ∷ 32 ∷ 0 ∷ four 0 [])) }
    ensures no_operation { TornAt 14 (prepare_bytes (0 ∷ 0 ∷ 1 ∷ 0 ∷ 0 ∷ 3 ∷ four 0 [])) }
    ensures operation { TornAt 14 (prepare_bytes (0 ∷ 0 ∷ 1 ∷ 17 ∷ 0 ∷ 3 ∷ four 0 [])) }
    ensures object { TornAt 15 (prepare_bytes (0 ∷ 0 ∷ 1 ∷ 1 ∷ 16 ∷ 3 ∷ four 0 [])) }
    ensures event { TornAt 16 (prepare_bytes (0 ∷ 0 ∷ 1 ∷ 1 ∷ 0 ∷ 64 ∷ four 0 [])) }
    ensures line_clock { TornAt 14 (install_bytes 1 (line_bytes 0 1 1 7 1 3 5 [])) }
    ensures line_client { TornAt 22 (install_bytes 1 (line_bytes 9 16 1 7 1 3 5 [])) }
    ensures line_operation { TornAt 31 (install_bytes 1 (line_bytes 9 1 1 7 0 3 5 [])) }
    ensures line_event { TornAt 33 (install_bytes 1 (line_bytes 9 1 1 7 1 3 64 [])) }
    ensures invocation { TornAt 20 (commit_bytes 1 (0 ∷ 32 ∷ 2 ∷ [])) }
    ensures response { TornAt 21 (commit_bytes 1 (0 ∷ 2 ∷ 32 ∷ [])) }
    ensures response_before_none { TornAt 21 (commit_bytes 1 (0 ∷ 2 ∷ 254 ∷ [])) }
{}

/// No bytes are no record, a record with a byte behind it is none, and no first
/// byte but 1 to 7 is a kind.
pub fn other_bytes_are_refused()
    ensures none { TornAt 0 [] }
    ensures behind { TornAt 1 (1 ∷ 1 ∷ []) }
    ensures no_kind { (rest : List ℕ) → record_at (0 ∷ rest) ≡ Err (Unknown 0) }
    ensures kind { (kind : ℕ) (rest : List ℕ) → 7 < kind → record_at (kind ∷ rest) ≡ Err (Unknown kind) }
{}
