//! Wrong histories of sites, each refused.

ghost use Rattle.tests_epochs.specs.Whole.{IsSiteDueIn};
ghost use Rattle.tests_epochs.specs.WrongShuts as wrong_shuts;
ghost use Rattle.tests_epochs.specs.WrongGrants as wrong_grants;
ghost use Rattle.tests_epochs.specs.WrongRisenSites as wrong_risen_sites;
ghost use Rattle.tests_epochs.specs.Declarations.{three_epochs};

/// These aren't due: sites that close and install epochs.
pub fn wrong_shuts_are_refused()
    ensures promises_by_their_coming { IsSiteDueIn three_epochs 0 wrong_shuts.promises_by_their_coming → ⊥ }
    ensures a_promise_left_out { IsSiteDueIn three_epochs 0 wrong_shuts.a_promise_left_out → ⊥ }
    ensures shut_without_a_record { IsSiteDueIn three_epochs 0 wrong_shuts.shut_without_a_record → ⊥ }
    ensures a_line_left_out { IsSiteDueIn three_epochs 0 wrong_shuts.a_line_left_out → ⊥ }
    ensures shut_below_its_clock { IsSiteDueIn three_epochs 0 wrong_shuts.shut_below_its_clock → ⊥ }
    ensures promised_once_closed { IsSiteDueIn three_epochs 0 wrong_shuts.promised_once_closed → ⊥ }
    ensures installed_without_a_record { IsSiteDueIn three_epochs 0 wrong_shuts.installed_without_a_record → ⊥ }
    ensures installed_without_a_line { IsSiteDueIn three_epochs 0 wrong_shuts.installed_without_a_line → ⊥ }
    ensures an_earlier_epoch_installed { IsSiteDueIn three_epochs 2 wrong_shuts.an_earlier_epoch_installed → ⊥ }
    ensures redeemed_once_installed { IsSiteDueIn three_epochs 0 wrong_shuts.redeemed_once_installed → ⊥ }
{}

/// These aren't due: sites that grant what the next epoch doesn't let them.
pub fn wrong_grants_are_refused()
    ensures granted_in_a_closed_epoch { IsSiteDueIn three_epochs 1 wrong_grants.granted_in_a_closed_epoch → ⊥ }
    ensures granted_without_installed_lines { IsSiteDueIn three_epochs 1 wrong_grants.granted_without_installed_lines
        → ⊥ }
    ensures granted_below_installed_clock { IsSiteDueIn three_epochs 1 wrong_grants.granted_below_installed_clock → ⊥ }
    ensures granted_in_the_first_life { IsSiteDueIn three_epochs 1 wrong_grants.granted_in_the_first_life → ⊥ }
    ensures refused_for_what_was_dropped { IsSiteDueIn three_epochs 1 wrong_grants.refused_for_what_was_dropped → ⊥ }
{}

/// These aren't due: sites that rise closed, or in an installed epoch.
pub fn wrong_risen_sites_are_refused()
    ensures a_closed_site_grants { IsSiteDueIn three_epochs 0 wrong_risen_sites.a_closed_site_grants → ⊥ }
    ensures a_told_promise_forgotten { IsSiteDueIn three_epochs 0 wrong_risen_sites.a_told_promise_forgotten → ⊥ }
    ensures a_promise_unasked { IsSiteDueIn three_epochs 0 wrong_risen_sites.a_promise_unasked → ⊥ }
    ensures closed_again { IsSiteDueIn three_epochs 0 wrong_risen_sites.closed_again → ⊥ }
    ensures an_epoch_forgotten { IsSiteDueIn three_epochs 1 wrong_risen_sites.an_epoch_forgotten → ⊥ }
    ensures installed_lines_forgotten { IsSiteDueIn three_epochs 1 wrong_risen_sites.installed_lines_forgotten → ⊥ }
{}
