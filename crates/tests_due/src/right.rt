//! Right histories, in which all is due.

ghost use Rattle.std.specs.Prelude.{[]};
ghost use Rattle.qc_decl.specs.One.{three};
ghost use Rattle.qc_msg.specs.Deeds.{deeds};
ghost use Rattle.qc_promise.specs.Due.{Due};
ghost use Rattle.qc_promise.specs.Replies.{AreRepliesDue};
ghost use Rattle.tests_histories.specs.ReadAfterWrite as read_after_write;
ghost use Rattle.tests_histories.specs.ReadBeforeCommit as read_before_commit;
ghost use Rattle.tests_histories.specs.BlindWrites as blind_writes;
ghost use Rattle.tests_histories.specs.CutOff as cut_off;
ghost use Rattle.tests_histories.specs.LateCopy as late_copy;
ghost use Rattle.tests_histories.specs.EveryMessageTwice as every_message_twice;
ghost use Rattle.tests_histories.specs.DoomedWrite as doomed_write;
ghost use Rattle.tests_histories.specs.Random1 as random1;
ghost use Rattle.tests_histories.specs.Random2 as random2;
ghost use Rattle.tests_histories.specs.Random3 as random3;
ghost use Rattle.tests_histories.specs.Random4 as random4;
ghost use Rattle.tests_histories.specs.Random5 as random5;
ghost use Rattle.tests_histories.specs.Random6 as random6;
ghost use Rattle.tests_histories.specs.Random7 as random7;
ghost use Rattle.tests_histories.specs.Random8 as random8;
ghost use Rattle.tests_histories.specs.Random9 as random9;
ghost use Rattle.tests_histories.specs.Random10 as random10;
ghost use Rattle.tests_histories.specs.Random11 as random11;
ghost use Rattle.tests_histories.specs.Random12 as random12;
ghost use Rattle.tests_histories.specs.Random13 as random13;
ghost use Rattle.tests_histories.specs.Random14 as random14;
ghost use Rattle.tests_histories.specs.Random15 as random15;
ghost use Rattle.tests_histories.specs.Random16 as random16;
ghost use Rattle.tests_histories.specs.Random17 as random17;
ghost use Rattle.tests_histories.specs.Random18 as random18;
ghost use Rattle.tests_histories.specs.Random19 as random19;
ghost use Rattle.tests_histories.specs.Random20 as random20;
ghost use Rattle.tests_histories.specs.Random21 as random21;
ghost use Rattle.tests_histories.specs.Random22 as random22;
ghost use Rattle.tests_histories.specs.Random23 as random23;
ghost use Rattle.tests_histories.specs.Random24 as random24;
ghost use Rattle.tests_histories.specs.Random25 as random25;
ghost use Rattle.tests_histories.specs.Random26 as random26;
ghost use Rattle.tests_histories.specs.Random27 as random27;
ghost use Rattle.tests_histories.specs.Random28 as random28;
ghost use Rattle.tests_histories.specs.Random29 as random29;
ghost use Rattle.tests_histories.specs.Random30 as random30;
ghost use Rattle.tests_histories.specs.Random31 as random31;
ghost use Rattle.tests_histories.specs.Random32 as random32;
ghost use Rattle.tests_histories.specs.Random33 as random33;
ghost use Rattle.tests_histories.specs.Random34 as random34;
ghost use Rattle.tests_histories.specs.Random35 as random35;
ghost use Rattle.tests_histories.specs.Random36 as random36;
ghost use Rattle.tests_histories.specs.Random37 as random37;
ghost use Rattle.tests_histories.specs.Random38 as random38;
ghost use Rattle.tests_histories.specs.Random39 as random39;
ghost use Rattle.tests_histories.specs.Random40 as random40;
ghost use Rattle.tests_due.specs.LaterRows as later_rows;
ghost use Rattle.tests_due.specs.LongTransaction as long_transaction;

/// All is due in the worked histories.
pub fn all_is_due_in_worked_histories()
    ensures read_after_write { Due three read_after_write.history }
    ensures read_before_commit { Due three read_before_commit.history }
    ensures blind_writes { Due three blind_writes.history }
    ensures cut_off { Due three cut_off.history }
    ensures late_copy { Due three late_copy.history }
    ensures every_message_twice { Due three every_message_twice.history }
    ensures doomed_write { Due three doomed_write.history }
{}

/// Rows that those histories and the random ones don't have: their replies are due.
pub fn replies_of_other_rows_are_due()
    ensures closed_reading { AreRepliesDue three 0 (deeds 3 [] later_rows.closed_reading) }
    ensures closed_appending { AreRepliesDue three 0 (deeds 3 [] later_rows.closed_appending) }
    ensures closed_vote { AreRepliesDue three 0 (deeds 3 [] later_rows.closed_vote) }
    ensures restarted { AreRepliesDue three 0 (deeds 3 [] later_rows.restarted) }
    ensures fault { AreRepliesDue three 0 (deeds 3 [] later_rows.fault) }
    ensures forgotten { AreRepliesDue three 0 (deeds 3 [] later_rows.forgotten) }
    ensures left_behind { AreRepliesDue three 0 (deeds 3 [] later_rows.left_behind) }
    ensures unknown { AreRepliesDue three 0 (deeds 3 [] later_rows.unknown) }
    ensures too_long { Due three long_transaction.too_long }
{}

/// All is due in the random histories 1 to 10.
pub fn all_is_due_in_1_to_10()
    ensures random1 { Due random1.decl random1.history }
    ensures random2 { Due random2.decl random2.history }
    ensures random3 { Due random3.decl random3.history }
    ensures random4 { Due random4.decl random4.history }
    ensures random5 { Due random5.decl random5.history }
    ensures random6 { Due random6.decl random6.history }
    ensures random7 { Due random7.decl random7.history }
    ensures random8 { Due random8.decl random8.history }
    ensures random9 { Due random9.decl random9.history }
    ensures random10 { Due random10.decl random10.history }
{}

/// All is due in the random histories 11 to 20.
pub fn all_is_due_in_11_to_20()
    ensures random11 { Due random11.decl random11.history }
    ensures random12 { Due random12.decl random12.history }
    ensures random13 { Due random13.decl random13.history }
    ensures random14 { Due random14.decl random14.history }
    ensures random15 { Due random15.decl random15.history }
    ensures random16 { Due random16.decl random16.history }
    ensures random17 { Due random17.decl random17.history }
    ensures random18 { Due random18.decl random18.history }
    ensures random19 { Due random19.decl random19.history }
    ensures random20 { Due random20.decl random20.history }
{}

/// All is due in the random histories 21 to 30.
pub fn all_is_due_in_21_to_30()
    ensures random21 { Due random21.decl random21.history }
    ensures random22 { Due random22.decl random22.history }
    ensures random23 { Due random23.decl random23.history }
    ensures random24 { Due random24.decl random24.history }
    ensures random25 { Due random25.decl random25.history }
    ensures random26 { Due random26.decl random26.history }
    ensures random27 { Due random27.decl random27.history }
    ensures random28 { Due random28.decl random28.history }
    ensures random29 { Due random29.decl random29.history }
    ensures random30 { Due random30.decl random30.history }
{}

/// All is due in the random histories 31 to 40.
pub fn all_is_due_in_31_to_40()
    ensures random31 { Due random31.decl random31.history }
    ensures random32 { Due random32.decl random32.history }
    ensures random33 { Due random33.decl random33.history }
    ensures random34 { Due random34.decl random34.history }
    ensures random35 { Due random35.decl random35.history }
    ensures random36 { Due random36.decl random36.history }
    ensures random37 { Due random37.decl random37.history }
    ensures random38 { Due random38.decl random38.history }
    ensures random39 { Due random39.decl random39.history }
    ensures random40 { Due random40.decl random40.history }
{}
