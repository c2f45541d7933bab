//! Histories that were worked by hand first.

ghost use Rattle.std.specs.Prelude.{◌≡◌, Some};
ghost use Rattle.qc_decl.specs.One.{three};
ghost use Rattle.tests_histories.specs.Play.{performed};
ghost use Rattle.tests_histories.specs.ReadAfterWrite as read_after_write;
ghost use Rattle.tests_histories.specs.ReadBeforeCommit as read_before_commit;
ghost use Rattle.tests_histories.specs.BlindWrites as blind_writes;
ghost use Rattle.tests_histories.specs.CutOff as cut_off;
ghost use Rattle.tests_histories.specs.LateCopy as late_copy;
ghost use Rattle.tests_histories.specs.EveryMessageTwice as every_message_twice;
ghost use Rattle.tests_histories.specs.DoomedWrite as doomed_write;

/// The conduct performs each worked history, step by step.
pub fn worked_histories_are_performed()
    ensures read_after_write { performed three read_after_write.moves ≡ Some read_after_write.history }
    ensures read_before_commit { performed three read_before_commit.moves ≡ Some read_before_commit.history }
    ensures blind_writes { performed three blind_writes.moves ≡ Some blind_writes.history }
    ensures cut_off { performed three cut_off.moves ≡ Some cut_off.history }
    ensures late_copy { performed three late_copy.moves ≡ Some late_copy.history }
    ensures every_message_twice { performed three every_message_twice.moves ≡ Some every_message_twice.history }
    ensures doomed_write { performed three doomed_write.moves ≡ Some doomed_write.history }
{}
