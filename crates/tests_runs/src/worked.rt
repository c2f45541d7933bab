//! Histories that were worked by hand first.

ghost use Rattle.std.specs.Prelude.{◌≡◌, Some};
ghost use Rattle.qc_decl.specs.One.{three};
ghost use Rattle.tests_histories.specs.ReadAfterWrite as read_after_write;
ghost use Rattle.tests_histories.specs.ReadBeforeCommit as read_before_commit;
ghost use Rattle.tests_histories.specs.BlindWrites as blind_writes;
ghost use Rattle.tests_histories.specs.CutOff as cut_off;
ghost use Rattle.tests_histories.specs.LateCopy as late_copy;
ghost use Rattle.tests_histories.specs.EveryMessageTwice as every_message_twice;
ghost use Rattle.tests_histories.specs.DoomedWrite as doomed_write;
ghost use Rattle.tests_runs.specs.Perform.{all_takers, run_by};
ghost use Rattle.tests_runs.specs.WorkedScripts as scripts;
ghost use Rattle.tests_runs.specs.WorkedTakers as takers;

/// The worked histories are whole runs of their scripts.
pub fn worked_histories_are_runs()
    ensures read_after_write { run_by three scripts.read_after_write read_after_write.moves
        ≡ Some read_after_write.history }
    ensures read_before_commit { run_by three scripts.read_before_commit read_before_commit.moves
        ≡ Some read_before_commit.history }
    ensures blind_writes { run_by three scripts.blind_writes blind_writes.moves ≡ Some blind_writes.history }
    ensures cut_off { run_by three scripts.cut_off cut_off.moves ≡ Some cut_off.history }
    ensures late_copy { run_by three scripts.late_copy late_copy.moves ≡ Some late_copy.history }
    ensures every_message_twice { run_by three scripts.every_message_twice every_message_twice.moves
        ≡ Some every_message_twice.history }
    ensures doomed_write { run_by three scripts.doomed_write doomed_write.moves ≡ Some doomed_write.history }
{}

/// In the worked histories those that may take an input are the model's.
pub fn takers_of_worked_histories_are_right()
    ensures read_after_write { all_takers three scripts.read_after_write read_after_write.moves
        ≡ takers.read_after_write }
    ensures read_before_commit { all_takers three scripts.read_before_commit read_before_commit.moves
        ≡ takers.read_before_commit }
    ensures blind_writes { all_takers three scripts.blind_writes blind_writes.moves ≡ takers.blind_writes }
    ensures cut_off { all_takers three scripts.cut_off cut_off.moves ≡ takers.cut_off }
    ensures late_copy { all_takers three scripts.late_copy late_copy.moves ≡ takers.late_copy }
    ensures every_message_twice { all_takers three scripts.every_message_twice every_message_twice.moves
        ≡ takers.every_message_twice }
    ensures doomed_write { all_takers three scripts.doomed_write doomed_write.moves ≡ takers.doomed_write }
{}
