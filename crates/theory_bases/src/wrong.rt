//! What the definitions refuse: the contracts of functions with nothing to do.

ghost use Rattle.std.specs.Prelude.{◌≡◌, ◌≢◌, ◌++◌, [], ◌∷◌};
ghost use Rattle.qc_entry.specs.Log.{union};
ghost use Rattle.theory_machine.specs.Site.{site_after};
ghost use Rattle.theory_witnesses.specs.Settings.{moving_register, three_in_two_epochs};
ghost use Rattle.theory_witnesses.specs.Stories.{first, first_again};
ghost use Rattle.theory_bases.specs.Bases.{IsAbove};
ghost use Rattle.theory_bases.specs.Short.{AreShortDeeds, IsUnionOf, StandsFor, base_of, short_site_after};
ghost use Rattle.theory_bases.specs.Witnesses.{write_line};
ghost use Rattle.theory_bases.specs.Wrong.{HasLaterView, HasMissedLine, HasStrayLine, HasTwoDecisions};
ghost use Rattle.theory_bases.specs.Wrong.{IsUndisciplinedRun};
ghost use Rattle.theory_bases.specs.Wrong.{appended_without_threshold, decided_twice, decided_with_two_logs};
ghost use Rattle.theory_bases.specs.Wrong.{granted_in_another_epoch, seen_in_another_epoch, short_deeds};
ghost use Rattle.theory_bases.specs.Wrong.{shared_with_another_epoch, shorter_deeds, whole_deeds};

/// The machine allows an epoch to be decided twice, with another clock.
#[tactic(auto, using(crate::proofs::Undisciplined::epochs_decided_twice_are_refused))]
pub fn epochs_decided_twice_are_refused()
    ensures { IsUndisciplinedRun moving_register decided_twice HasTwoDecisions }
{}

/// Even with another log: then a site that has installed the one lacks a line of
/// the other.
#[tactic(auto, using(crate::proofs::Undisciplined::epochs_with_two_logs_are_refused))]
pub fn epochs_with_two_logs_are_refused()
    ensures { IsUndisciplinedRun three_in_two_epochs decided_with_two_logs HasMissedLine }
{}

/// It allows a site to grant what belongs to a later epoch: its log has a line
/// of that epoch.
#[tactic(auto, using(crate::proofs::Undisciplined::grants_of_another_epoch_are_refused))]
pub fn grants_of_another_epoch_are_refused()
    ensures { IsUndisciplinedRun moving_register granted_in_another_epoch (HasStrayLine moving_register) }
{}

/// It allows a site to take what a site of a later epoch shares: its log has a line
/// of that epoch.
#[tactic(auto, using(crate::proofs::Undisciplined::shares_of_another_epoch_are_refused))]
pub fn shares_of_another_epoch_are_refused()
    ensures { IsUndisciplinedRun moving_register shared_with_another_epoch (HasStrayLine moving_register) }
{}

/// So an operation may see a line of a later epoch.
#[tactic(auto, using(crate::proofs::Undisciplined::views_of_later_epochs_are_refused))]
pub fn views_of_later_epochs_are_refused()
    ensures { IsUndisciplinedRun moving_register seen_in_another_epoch HasLaterView }
{}

/// It allows lines of events without a final threshold: its site's log has a
/// line that no quorum has.
#[tactic(auto, using(crate::proofs::Undisciplined::lines_without_threshold_are_refused))]
pub fn lines_without_threshold_are_refused()
    ensures { IsUndisciplinedRun moving_register appended_without_threshold (HasStrayLine moving_register) }
{}

/// A line with a clock that isn't greater isn't above another, and it needn't
/// stand behind it.
pub fn lower_lines_are_refused()
    ensures equal { IsAbove (write_line first 1 ∷ []) (write_line first_again 1 ∷ []) → ⊥ }
    ensures less { IsAbove (write_line first_again 2 ∷ []) (write_line first 1 ∷ []) → ⊥ }
    ensures behind { union (write_line first_again 2 ∷ []) (write_line first 1 ∷ [])
        ≢ (write_line first_again 2 ∷ []) ++ (write_line first 1 ∷ []) }
{}

/// A short site needn't be sent the line that its base has. It has to be sent
/// the other one.
pub fn shorter_sites_are_refused()
    ensures short { AreShortDeeds whole_deeds short_deeds }
    ensures log { (short_site_after short_deeds).volatile ≡ write_line first_again 2 ∷ [] }
    ensures refused { AreShortDeeds whole_deeds shorter_deeds → ⊥ }
    ensures lost { StandsFor (base_of whole_deeds) (site_after whole_deeds) (short_site_after shorter_deeds) → ⊥ }
{}

/// A union lacks no line of its parts, and has no other.
pub fn other_unions_are_refused()
    ensures less { IsUnionOf (write_line first 1 ∷ []) (write_line first_again 2 ∷ [])
        (write_line first_again 2 ∷ []) → ⊥ }
    ensures more { IsUnionOf [] (write_line first 1 ∷ []) (write_line first 1 ∷ write_line first_again 2 ∷ []) → ⊥ }
{}
