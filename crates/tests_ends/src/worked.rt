//! Histories with falls that were worked by hand first.

ghost use Rattle.tests_ends.specs.Answered.{IsAnswered};
ghost use Rattle.tests_falls.specs.FaultyPromise as faulty_promise;
ghost use Rattle.tests_falls.specs.KeptPromise as kept_promise;
ghost use Rattle.tests_falls.specs.LostDecisions as lost_decisions;
ghost use Rattle.tests_falls.specs.RestartedSite as restarted_site;
ghost use Rattle.tests_falls.specs.SecondLives as second_lives;
ghost use Rattle.tests_falls.specs.UnknownCommit as unknown_commit;
ghost use Rattle.tests_falls.specs.WorkedScripts as scripts;

/// In the worked histories each command is answered, of each client.
pub fn worked_falls_are_answered()
    ensures restarted_site { IsAnswered scripts.restarted_site restarted_site.history 3 }
    ensures unknown_commit { IsAnswered scripts.unknown_commit unknown_commit.history 3
        × IsAnswered scripts.unknown_commit unknown_commit.history 4 }
    ensures lost_decisions { IsAnswered scripts.lost_decisions lost_decisions.history 3
        × IsAnswered scripts.lost_decisions lost_decisions.history 4 }
    ensures faulty_promise { IsAnswered scripts.faulty_promise faulty_promise.history 3 }
    ensures second_lives { IsAnswered scripts.second_lives second_lives.history 3 }
    ensures kept_promise { IsAnswered scripts.kept_promise kept_promise.history 3
        × IsAnswered scripts.kept_promise kept_promise.history 5 }
{}
