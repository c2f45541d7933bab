//! Histories with falls that were worked by hand first.

ghost use Rattle.std.specs.Prelude.{◌≡◌, Some};
ghost use Rattle.qc_decl.specs.One.{three};
ghost use Rattle.tests_falls.specs.Perform.{run_with_falls};
ghost use Rattle.tests_falls.specs.RestartedSite as restarted_site;
ghost use Rattle.tests_falls.specs.UnknownCommit as unknown_commit;
ghost use Rattle.tests_falls.specs.LostDecisions as lost_decisions;
ghost use Rattle.tests_falls.specs.FaultyPromise as faulty_promise;
ghost use Rattle.tests_falls.specs.SecondLives as second_lives;
ghost use Rattle.tests_falls.specs.KeptPromise as kept_promise;
ghost use Rattle.tests_falls.specs.WorkedScripts as scripts;

/// The worked histories are whole runs of their scripts.
pub fn worked_falls_are_runs()
    ensures restarted_site { run_with_falls three scripts.restarted_site restarted_site.moves
        ≡ Some restarted_site.history }
    ensures unknown_commit { run_with_falls three scripts.unknown_commit unknown_commit.moves
        ≡ Some unknown_commit.history }
    ensures lost_decisions { run_with_falls three scripts.lost_decisions lost_decisions.moves
        ≡ Some lost_decisions.history }
    ensures faulty_promise { run_with_falls faulty_promise.decl scripts.faulty_promise faulty_promise.moves
        ≡ Some faulty_promise.history }
    ensures second_lives { run_with_falls three scripts.second_lives second_lives.moves ≡ Some second_lives.history }
    ensures kept_promise { run_with_falls three scripts.kept_promise kept_promise.moves ≡ Some kept_promise.history }
{}
