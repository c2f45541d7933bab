//! Right histories with falls and epochs, in which all is due.

ghost use Rattle.qc_promise.specs.Due.{Due};
ghost use Rattle.tests_epochs.specs.MovedOnce as moved_once;
ghost use Rattle.tests_epochs.specs.StampsPassReads as stamps_pass_reads;
ghost use Rattle.tests_epochs.specs.AskLost as ask_lost;
ghost use Rattle.tests_epochs.specs.InstallsLate as installs_late;
ghost use Rattle.tests_epochs.specs.TooFewClose as too_few_close;
ghost use Rattle.tests_epochs.specs.SeveralPromises as several_promises;
ghost use Rattle.tests_epochs.specs.DoubtOfSecond as doubt_of_second;
ghost use Rattle.tests_epochs.specs.EachEntryMerged as each_entry_merged;
ghost use Rattle.tests_epochs.specs.OneUnheard as one_unheard;
ghost use Rattle.tests_epochs.specs.DoubtfulCommit as doubtful_commit;
ghost use Rattle.tests_epochs.specs.DecideStops as decide_stops;
ghost use Rattle.tests_epochs.specs.ClosedRises as closed_rises;
ghost use Rattle.tests_epochs.specs.ShutRises as shut_rises;
ghost use Rattle.tests_epochs.specs.ToldPromiseStays as told_promise_stays;
ghost use Rattle.tests_epochs.specs.InstalledAgain as installed_again;
ghost use Rattle.tests_epochs.specs.LastDecision as last_decision;
ghost use Rattle.tests_epochs.specs.AdministratorDown as administrator_down;
ghost use Rattle.tests_epochs.specs.AskedWhileActive as asked_while_active;
ghost use Rattle.tests_epochs.specs.Random1 as random1;
ghost use Rattle.tests_epochs.specs.Random2 as random2;
ghost use Rattle.tests_epochs.specs.Random3 as random3;
ghost use Rattle.tests_epochs.specs.Random4 as random4;
ghost use Rattle.tests_epochs.specs.Random5 as random5;
ghost use Rattle.tests_epochs.specs.Random6 as random6;
ghost use Rattle.tests_epochs.specs.Random7 as random7;
ghost use Rattle.tests_epochs.specs.Random8 as random8;
ghost use Rattle.tests_epochs.specs.Random9 as random9;
ghost use Rattle.tests_epochs.specs.Random10 as random10;
ghost use Rattle.tests_epochs.specs.Random11 as random11;
ghost use Rattle.tests_epochs.specs.Random12 as random12;
ghost use Rattle.tests_epochs.specs.Random13 as random13;
ghost use Rattle.tests_epochs.specs.Random14 as random14;
ghost use Rattle.tests_epochs.specs.Random15 as random15;
ghost use Rattle.tests_epochs.specs.Random16 as random16;
ghost use Rattle.tests_epochs.specs.Random17 as random17;
ghost use Rattle.tests_epochs.specs.Random18 as random18;
ghost use Rattle.tests_epochs.specs.Random19 as random19;
ghost use Rattle.tests_epochs.specs.Random20 as random20;
ghost use Rattle.tests_epochs.specs.Random21 as random21;
ghost use Rattle.tests_epochs.specs.Random22 as random22;
ghost use Rattle.tests_epochs.specs.Random23 as random23;
ghost use Rattle.tests_epochs.specs.Random24 as random24;
ghost use Rattle.tests_epochs.specs.Random25 as random25;
ghost use Rattle.tests_epochs.specs.Random26 as random26;
ghost use Rattle.tests_epochs.specs.Random27 as random27;
ghost use Rattle.tests_epochs.specs.Random28 as random28;
ghost use Rattle.tests_epochs.specs.Random29 as random29;
ghost use Rattle.tests_epochs.specs.Random30 as random30;
ghost use Rattle.tests_epochs.specs.Random31 as random31;
ghost use Rattle.tests_epochs.specs.Random32 as random32;
ghost use Rattle.tests_epochs.specs.Random33 as random33;
ghost use Rattle.tests_epochs.specs.Random34 as random34;
ghost use Rattle.tests_epochs.specs.Random35 as random35;
ghost use Rattle.tests_epochs.specs.Random36 as random36;
ghost use Rattle.tests_epochs.specs.Random37 as random37;
ghost use Rattle.tests_epochs.specs.Random38 as random38;
ghost use Rattle.tests_epochs.specs.Random39 as random39;
ghost use Rattle.tests_epochs.specs.Random40 as random40;
ghost use Rattle.tests_epochs.specs.Declarations.{three_epochs, two_objects};

/// All is due in the worked histories.
pub fn all_is_due_in_worked_histories()
    ensures moved_once { Due three_epochs moved_once.history }
    ensures stamps_pass_reads { Due three_epochs stamps_pass_reads.history }
    ensures ask_lost { Due three_epochs ask_lost.history }
    ensures installs_late { Due three_epochs installs_late.history }
    ensures too_few_close { Due three_epochs too_few_close.history }
    ensures several_promises { Due three_epochs several_promises.history }
    ensures doubt_of_second { Due three_epochs doubt_of_second.history }
    ensures each_entry_merged { Due two_objects each_entry_merged.history }
    ensures one_unheard { Due three_epochs one_unheard.history }
    ensures doubtful_commit { Due three_epochs doubtful_commit.history }
    ensures decide_stops { Due three_epochs decide_stops.history }
    ensures closed_rises { Due three_epochs closed_rises.history }
    ensures shut_rises { Due three_epochs shut_rises.history }
    ensures told_promise_stays { Due three_epochs told_promise_stays.history }
    ensures installed_again { Due three_epochs installed_again.history }
    ensures last_decision { Due three_epochs last_decision.history }
    ensures administrator_down { Due three_epochs administrator_down.history }
    ensures asked_while_active { Due three_epochs asked_while_active.history }
{}

/// All is due in the random histories 1 to 10.
pub fn all_is_due_in_1_to_10()
    ensures random1 { Due random1.decl random1.history }
    ensures random2 { Due random2.decl random2.history }
    ensures random3 { Due random3.decl random3.history }
    ensures random4 { Due random4.decl random4.history }
    ensures random5 { Due random5.decl random5.history }
    ensures random6 { Due random6.decl random6.history }
    ensures random7 { Due random7.decl random7.history }
    ensures random8 { Due random8.decl random8.history }
    ensures random9 { Due random9.decl random9.history }
    ensures random10 { Due random10.decl random10.history }
{}

/// All is due in the random histories 11 to 20.
pub fn all_is_due_in_11_to_20()
    ensures random11 { Due random11.decl random11.history }
    ensures random12 { Due random12.decl random12.history }
    ensures random13 { Due random13.decl random13.history }
    ensures random14 { Due random14.decl random14.history }
    ensures random15 { Due random15.decl random15.history }
    ensures random16 { Due random16.decl random16.history }
    ensures random17 { Due random17.decl random17.history }
    ensures random18 { Due random18.decl random18.history }
    ensures random19 { Due random19.decl random19.history }
    ensures random20 { Due random20.decl random20.history }
{}

/// All is due in the random histories 21 to 30.
pub fn all_is_due_in_21_to_30()
    ensures random21 { Due random21.decl random21.history }
    ensures random22 { Due random22.decl random22.history }
    ensures random23 { Due random23.decl random23.history }
    ensures random24 { Due random24.decl random24.history }
    ensures random25 { Due random25.decl random25.history }
    ensures random26 { Due random26.decl random26.history }
    ensures random27 { Due random27.decl random27.history }
    ensures random28 { Due random28.decl random28.history }
    ensures random29 { Due random29.decl random29.history }
    ensures random30 { Due random30.decl random30.history }
{}

/// All is due in the random histories 31 to 40.
pub fn all_is_due_in_31_to_40()
    ensures random31 { Due random31.decl random31.history }
    ensures random32 { Due random32.decl random32.history }
    ensures random33 { Due random33.decl random33.history }
    ensures random34 { Due random34.decl random34.history }
    ensures random35 { Due random35.decl random35.history }
    ensures random36 { Due random36.decl random36.history }
    ensures random37 { Due random37.decl random37.history }
    ensures random38 { Due random38.decl random38.history }
    ensures random39 { Due random39.decl random39.history }
    ensures random40 { Due random40.decl random40.history }
{}
