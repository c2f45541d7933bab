//! Records over `@three` that fit, and others that don't: the contracts of
//! functions with nothing to do.

ghost use Rattle.std.specs.Prelude.{◌≡◌, ◌+◌, ◌-◌, ◌^◌, true, false, [], ◌∷◌, Some, None};
ghost use Rattle.qc_decl.specs.One.{three};
ghost use Rattle.qc_fit.specs.Cases.{commit, committed, done, line, lock, op, own, prepare, prepared};
ghost use Rattle.qc_fit.specs.Fits.{fits};
ghost use Rattle.qc_msg.specs.declared.record.Record.TheVariants.{Close, Decide, Install, Life};
ghost use Rattle.qc_msg.specs.Payloads.{start_with};

/// Each kind fits who writes it.
pub fn written_records_fit()
    ensures life_of_site { fits three 0 0 Life ≡ true }
    ensures life_of_client { fits three 3 0 Life ≡ true }
    ensures life_of_administrator { fits three 6 0 Life ≡ true }
    ensures prepare { fits three 0 0 prepared ≡ true }
    ensures prepare_with_line { fits three 2 0 (prepare 0 1 [] [] (line 1 2 0 0 ∷ [])) ≡ true }
    ensures done { fits three 0 1 (done 0 1) ≡ true }
    ensures close { fits three 1 0 (Close 1) ≡ true }
    ensures install { fits three 2 0 (Install (start_with 1 0 (line 1 2 0 3 ∷ []))) ≡ true }
    ensures commit { fits three 3 0 committed ≡ true }
    ensures commit_of_absent { fits three 5 0 (commit 2 1 (op 0 2 None ∷ [])) ≡ true }
    ensures decide { fits three 6 0 (Decide (start_with 1 0 (line 1 2 0 3 ∷ []))) ≡ true }
    ensures greatest { fits three 0 (2 ^ 31 - 1) (done 2 (2 ^ 61)) ≡ true }
{}

/// No kind fits an actor that doesn't write it, nor a Commit another client.
pub fn records_of_others_dont_fit()
    ensures life { fits three 7 0 Life ≡ false }
    ensures prepare { fits three 3 0 prepared ≡ false }
    ensures done { fits three 6 0 (done 0 1) ≡ false }
    ensures close { fits three 6 0 (Close 1) ≡ false }
    ensures install { fits three 6 0 (Install (start_with 1 0 [])) ≡ false }
    ensures commit { fits three 0 0 committed ≡ false }
    ensures other_client { fits three 4 0 committed ≡ false }
    ensures administrator { fits three 6 0 (commit 3 1 []) ≡ false }
    ensures decide { fits three 0 0 (Decide (start_with 1 0 [])) ≡ false }
{}

/// No record fits with a client or an epoch that isn't declared.
pub fn undeclared_clients_and_epochs_dont_fit()
    ensures client_prepared { fits three 0 0 (prepare 3 1 [] [] []) ≡ false }
    ensures client_done { fits three 0 0 (done 3 1) ≡ false }
    ensures client_of_line { fits three 0 0 (Install (start_with 1 0 (line 1 3 0 0 ∷ []))) ≡ false }
    ensures epoch_prepared { fits three 0 0 (prepare 0 2 [] [] []) ≡ false }
    ensures epoch_closed { fits three 0 0 (Close 2) ≡ false }
    ensures epoch_installed { fits three 0 0 (Install (start_with 2 0 [])) ≡ false }
    ensures epoch_decided { fits three 6 0 (Decide (start_with 2 0 [])) ≡ false }
    ensures no_epoch { fits three 0 0 (Close 0) ≡ false }
{}

/// No record fits with an object that isn't declared, nor with an invocation,
/// a response or an event that its type doesn't have.
pub fn undeclared_objects_and_events_dont_fit()
    ensures object_locked { fits three 0 0 (prepare 0 1 (lock 1 0 ∷ []) [] []) ≡ false }
    ensures object_own { fits three 0 0 (prepare 0 1 [] (own 1 0 ∷ []) []) ≡ false }
    ensures object_of_line { fits three 0 0 (prepare 0 1 [] [] (line 1 0 1 0 ∷ [])) ≡ false }
    ensures object_of_operation { fits three 3 0 (commit 0 1 (op 1 0 None ∷ [])) ≡ false }
    ensures invocation_locked { fits three 0 0 (prepare 0 1 (lock 0 3 ∷ []) [] []) ≡ false }
    ensures invocation_of_operation { fits three 3 0 (commit 0 1 (op 0 3 None ∷ [])) ≡ false }
    ensures response { fits three 3 0 (commit 0 1 (op 0 0 (Some 3) ∷ [])) ≡ false }
    ensures event_own { fits three 0 0 (prepare 0 1 [] (own 0 4 ∷ []) []) ≡ false }
    ensures event_of_line { fits three 6 0 (Decide (start_with 1 0 (line 1 0 0 3 ∷ line 2 0 0 4 ∷ []))) ≡ false }
{}

/// No record fits with a clock above 2^61, nor behind 2^31 others.
pub fn late_records_dont_fit()
    ensures done { fits three 0 0 (done 0 (2 ^ 61 + 1)) ≡ false }
    ensures install { fits three 0 0 (Install (start_with 1 (2 ^ 61 + 1) [])) ≡ false }
    ensures commit { fits three 3 0 (commit 0 (2 ^ 61 + 1) []) ≡ false }
    ensures decide { fits three 6 0 (Decide (start_with 1 (2 ^ 61 + 1) [])) ≡ false }
    ensures line { fits three 0 0 (prepare 0 1 [] [] (line (2 ^ 61 + 1) 0 0 0 ∷ [])) ≡ false }
    ensures behind { fits three 0 (2 ^ 31) Life ≡ false }
{}
