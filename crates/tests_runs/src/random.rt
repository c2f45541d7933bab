//! Random histories of the model, from the shortest to the longest.

ghost use Rattle.std.specs.Prelude.{◌≡◌, Some};
ghost use Rattle.tests_histories.specs.Random1 as random1;
ghost use Rattle.tests_histories.specs.Random2 as random2;
ghost use Rattle.tests_histories.specs.Random3 as random3;
ghost use Rattle.tests_histories.specs.Random4 as random4;
ghost use Rattle.tests_histories.specs.Random5 as random5;
ghost use Rattle.tests_histories.specs.Random6 as random6;
ghost use Rattle.tests_histories.specs.Random7 as random7;
ghost use Rattle.tests_histories.specs.Random8 as random8;
ghost use Rattle.tests_histories.specs.Random9 as random9;
ghost use Rattle.tests_histories.specs.Random10 as random10;
ghost use Rattle.tests_runs.specs.Perform.{all_takers, run_by};
ghost use Rattle.tests_runs.specs.Random1To10Scripts as scripts1;
ghost use Rattle.tests_runs.specs.Random1To10Takers as takers1;
ghost use Rattle.tests_histories.specs.Random11 as random11;
ghost use Rattle.tests_histories.specs.Random12 as random12;
ghost use Rattle.tests_histories.specs.Random13 as random13;
ghost use Rattle.tests_histories.specs.Random14 as random14;
ghost use Rattle.tests_histories.specs.Random15 as random15;
ghost use Rattle.tests_histories.specs.Random16 as random16;
ghost use Rattle.tests_histories.specs.Random17 as random17;
ghost use Rattle.tests_histories.specs.Random18 as random18;
ghost use Rattle.tests_histories.specs.Random19 as random19;
ghost use Rattle.tests_histories.specs.Random20 as random20;
ghost use Rattle.tests_runs.specs.Random11To20Scripts as scripts2;
ghost use Rattle.tests_runs.specs.Random11To20Takers as takers2;
ghost use Rattle.tests_histories.specs.Random21 as random21;
ghost use Rattle.tests_histories.specs.Random22 as random22;
ghost use Rattle.tests_histories.specs.Random23 as random23;
ghost use Rattle.tests_histories.specs.Random24 as random24;
ghost use Rattle.tests_histories.specs.Random25 as random25;
ghost use Rattle.tests_histories.specs.Random26 as random26;
ghost use Rattle.tests_histories.specs.Random27 as random27;
ghost use Rattle.tests_histories.specs.Random28 as random28;
ghost use Rattle.tests_histories.specs.Random29 as random29;
ghost use Rattle.tests_histories.specs.Random30 as random30;
ghost use Rattle.tests_runs.specs.Random21To30Scripts as scripts3;
ghost use Rattle.tests_runs.specs.Random21To30Takers as takers3;
ghost use Rattle.tests_histories.specs.Random31 as random31;
ghost use Rattle.tests_histories.specs.Random32 as random32;
ghost use Rattle.tests_histories.specs.Random33 as random33;
ghost use Rattle.tests_histories.specs.Random34 as random34;
ghost use Rattle.tests_histories.specs.Random35 as random35;
ghost use Rattle.tests_runs.specs.Random31To35Scripts as scripts4;
ghost use Rattle.tests_runs.specs.Random31To35Takers as takers4;
ghost use Rattle.tests_histories.specs.Random36 as random36;
ghost use Rattle.tests_histories.specs.Random37 as random37;
ghost use Rattle.tests_histories.specs.Random38 as random38;
ghost use Rattle.tests_histories.specs.Random39 as random39;
ghost use Rattle.tests_histories.specs.Random40 as random40;
ghost use Rattle.tests_runs.specs.Random36To40Scripts as scripts5;
ghost use Rattle.tests_runs.specs.Random36To40Takers as takers5;

/// The random histories 1 to 10 are whole runs of their scripts.
pub fn histories_1_to_10_are_runs()
    ensures random1 { run_by random1.decl scripts1.random1 random1.moves ≡ Some random1.history }
    ensures random2 { run_by random2.decl scripts1.random2 random2.moves ≡ Some random2.history }
    ensures random3 { run_by random3.decl scripts1.random3 random3.moves ≡ Some random3.history }
    ensures random4 { run_by random4.decl scripts1.random4 random4.moves ≡ Some random4.history }
    ensures random5 { run_by random5.decl scripts1.random5 random5.moves ≡ Some random5.history }
    ensures random6 { run_by random6.decl scripts1.random6 random6.moves ≡ Some random6.history }
    ensures random7 { run_by random7.decl scripts1.random7 random7.moves ≡ Some random7.history }
    ensures random8 { run_by random8.decl scripts1.random8 random8.moves ≡ Some random8.history }
    ensures random9 { run_by random9.decl scripts1.random9 random9.moves ≡ Some random9.history }
    ensures random10 { run_by random10.decl scripts1.random10 random10.moves ≡ Some random10.history }
{}

/// In the random histories 1 to 10 those that may take an input are the model's.
pub fn takers_of_histories_1_to_10_are_right()
    ensures random1 { all_takers random1.decl scripts1.random1 random1.moves ≡ takers1.random1 }
    ensures random2 { all_takers random2.decl scripts1.random2 random2.moves ≡ takers1.random2 }
    ensures random3 { all_takers random3.decl scripts1.random3 random3.moves ≡ takers1.random3 }
    ensures random4 { all_takers random4.decl scripts1.random4 random4.moves ≡ takers1.random4 }
    ensures random5 { all_takers random5.decl scripts1.random5 random5.moves ≡ takers1.random5 }
    ensures random6 { all_takers random6.decl scripts1.random6 random6.moves ≡ takers1.random6 }
    ensures random7 { all_takers random7.decl scripts1.random7 random7.moves ≡ takers1.random7 }
    ensures random8 { all_takers random8.decl scripts1.random8 random8.moves ≡ takers1.random8 }
    ensures random9 { all_takers random9.decl scripts1.random9 random9.moves ≡ takers1.random9 }
    ensures random10 { all_takers random10.decl scripts1.random10 random10.moves ≡ takers1.random10 }
{}

/// The random histories 11 to 20 are whole runs of their scripts.
pub fn histories_11_to_20_are_runs()
    ensures random11 { run_by random11.decl scripts2.random11 random11.moves ≡ Some random11.history }
    ensures random12 { run_by random12.decl scripts2.random12 random12.moves ≡ Some random12.history }
    ensures random13 { run_by random13.decl scripts2.random13 random13.moves ≡ Some random13.history }
    ensures random14 { run_by random14.decl scripts2.random14 random14.moves ≡ Some random14.history }
    ensures random15 { run_by random15.decl scripts2.random15 random15.moves ≡ Some random15.history }
    ensures random16 { run_by random16.decl scripts2.random16 random16.moves ≡ Some random16.history }
    ensures random17 { run_by random17.decl scripts2.random17 random17.moves ≡ Some random17.history }
    ensures random18 { run_by random18.decl scripts2.random18 random18.moves ≡ Some random18.history }
    ensures random19 { run_by random19.decl scripts2.random19 random19.moves ≡ Some random19.history }
    ensures random20 { run_by random20.decl scripts2.random20 random20.moves ≡ Some random20.history }
{}

/// In the random histories 11 to 20 those that may take an input are the model's.
pub fn takers_of_histories_11_to_20_are_right()
    ensures random11 { all_takers random11.decl scripts2.random11 random11.moves ≡ takers2.random11 }
    ensures random12 { all_takers random12.decl scripts2.random12 random12.moves ≡ takers2.random12 }
    ensures random13 { all_takers random13.decl scripts2.random13 random13.moves ≡ takers2.random13 }
    ensures random14 { all_takers random14.decl scripts2.random14 random14.moves ≡ takers2.random14 }
    ensures random15 { all_takers random15.decl scripts2.random15 random15.moves ≡ takers2.random15 }
    ensures random16 { all_takers random16.decl scripts2.random16 random16.moves ≡ takers2.random16 }
    ensures random17 { all_takers random17.decl scripts2.random17 random17.moves ≡ takers2.random17 }
    ensures random18 { all_takers random18.decl scripts2.random18 random18.moves ≡ takers2.random18 }
    ensures random19 { all_takers random19.decl scripts2.random19 random19.moves ≡ takers2.random19 }
    ensures random20 { all_takers random20.decl scripts2.random20 random20.moves ≡ takers2.random20 }
{}

/// The random histories 21 to 30 are whole runs of their scripts.
pub fn histories_21_to_30_are_runs()
    ensures random21 { run_by random21.decl scripts3.random21 random21.moves ≡ Some random21.history }
    ensures random22 { run_by random22.decl scripts3.random22 random22.moves ≡ Some random22.history }
    ensures random23 { run_by random23.decl scripts3.random23 random23.moves ≡ Some random23.history }
    ensures random24 { run_by random24.decl scripts3.random24 random24.moves ≡ Some random24.history }
    ensures random25 { run_by random25.decl scripts3.random25 random25.moves ≡ Some random25.history }
    ensures random26 { run_by random26.decl scripts3.random26 random26.moves ≡ Some random26.history }
    ensures random27 { run_by random27.decl scripts3.random27 random27.moves ≡ Some random27.history }
    ensures random28 { run_by random28.decl scripts3.random28 random28.moves ≡ Some random28.history }
    ensures random29 { run_by random29.decl scripts3.random29 random29.moves ≡ Some random29.history }
    ensures random30 { run_by random30.decl scripts3.random30 random30.moves ≡ Some random30.history }
{}

/// In the random histories 21 to 30 those that may take an input are the model's.
pub fn takers_of_histories_21_to_30_are_right()
    ensures random21 { all_takers random21.decl scripts3.random21 random21.moves ≡ takers3.random21 }
    ensures random22 { all_takers random22.decl scripts3.random22 random22.moves ≡ takers3.random22 }
    ensures random23 { all_takers random23.decl scripts3.random23 random23.moves ≡ takers3.random23 }
    ensures random24 { all_takers random24.decl scripts3.random24 random24.moves ≡ takers3.random24 }
    ensures random25 { all_takers random25.decl scripts3.random25 random25.moves ≡ takers3.random25 }
    ensures random26 { all_takers random26.decl scripts3.random26 random26.moves ≡ takers3.random26 }
    ensures random27 { all_takers random27.decl scripts3.random27 random27.moves ≡ takers3.random27 }
    ensures random28 { all_takers random28.decl scripts3.random28 random28.moves ≡ takers3.random28 }
    ensures random29 { all_takers random29.decl scripts3.random29 random29.moves ≡ takers3.random29 }
    ensures random30 { all_takers random30.decl scripts3.random30 random30.moves ≡ takers3.random30 }
{}

/// The random histories 31 to 35 are whole runs of their scripts.
pub fn histories_31_to_35_are_runs()
    ensures random31 { run_by random31.decl scripts4.random31 random31.moves ≡ Some random31.history }
    ensures random32 { run_by random32.decl scripts4.random32 random32.moves ≡ Some random32.history }
    ensures random33 { run_by random33.decl scripts4.random33 random33.moves ≡ Some random33.history }
    ensures random34 { run_by random34.decl scripts4.random34 random34.moves ≡ Some random34.history }
    ensures random35 { run_by random35.decl scripts4.random35 random35.moves ≡ Some random35.history }
{}

/// In the random histories 31 to 35 those that may take an input are the model's.
pub fn takers_of_histories_31_to_35_are_right()
    ensures random31 { all_takers random31.decl scripts4.random31 random31.moves ≡ takers4.random31 }
    ensures random32 { all_takers random32.decl scripts4.random32 random32.moves ≡ takers4.random32 }
    ensures random33 { all_takers random33.decl scripts4.random33 random33.moves ≡ takers4.random33 }
    ensures random34 { all_takers random34.decl scripts4.random34 random34.moves ≡ takers4.random34 }
    ensures random35 { all_takers random35.decl scripts4.random35 random35.moves ≡ takers4.random35 }
{}

/// The random histories 36 to 40 are whole runs of their scripts.
pub fn histories_36_to_40_are_runs()
    ensures random36 { run_by random36.decl scripts5.random36 random36.moves ≡ Some random36.history }
    ensures random37 { run_by random37.decl scripts5.random37 random37.moves ≡ Some random37.history }
    ensures random38 { run_by random38.decl scripts5.random38 random38.moves ≡ Some random38.history }
    ensures random39 { run_by random39.decl scripts5.random39 random39.moves ≡ Some random39.history }
    ensures random40 { run_by random40.decl scripts5.random40 random40.moves ≡ Some random40.history }
{}

/// In the random histories 36 to 40 those that may take an input are the model's.
pub fn takers_of_histories_36_to_40_are_right()
    ensures random36 { all_takers random36.decl scripts5.random36 random36.moves ≡ takers5.random36 }
    ensures random37 { all_takers random37.decl scripts5.random37 random37.moves ≡ takers5.random37 }
    ensures random38 { all_takers random38.decl scripts5.random38 random38.moves ≡ takers5.random38 }
    ensures random39 { all_takers random39.decl scripts5.random39 random39.moves ≡ takers5.random39 }
    ensures random40 { all_takers random40.decl scripts5.random40 random40.moves ≡ takers5.random40 }
{}
