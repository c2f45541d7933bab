//! Random histories of the model, from the shortest to the longest.

ghost use Rattle.std.specs.Prelude.{◌≡◌, Some};
ghost use Rattle.tests_histories.specs.Play.{performed};
ghost use Rattle.tests_histories.specs.Random1 as random1;
ghost use Rattle.tests_histories.specs.Random2 as random2;
ghost use Rattle.tests_histories.specs.Random3 as random3;
ghost use Rattle.tests_histories.specs.Random4 as random4;
ghost use Rattle.tests_histories.specs.Random5 as random5;
ghost use Rattle.tests_histories.specs.Random6 as random6;
ghost use Rattle.tests_histories.specs.Random7 as random7;
ghost use Rattle.tests_histories.specs.Random8 as random8;
ghost use Rattle.tests_histories.specs.Random9 as random9;
ghost use Rattle.tests_histories.specs.Random10 as random10;
ghost use Rattle.tests_histories.specs.Random11 as random11;
ghost use Rattle.tests_histories.specs.Random12 as random12;
ghost use Rattle.tests_histories.specs.Random13 as random13;
ghost use Rattle.tests_histories.specs.Random14 as random14;
ghost use Rattle.tests_histories.specs.Random15 as random15;
ghost use Rattle.tests_histories.specs.Random16 as random16;
ghost use Rattle.tests_histories.specs.Random17 as random17;
ghost use Rattle.tests_histories.specs.Random18 as random18;
ghost use Rattle.tests_histories.specs.Random19 as random19;
ghost use Rattle.tests_histories.specs.Random20 as random20;
ghost use Rattle.tests_histories.specs.Random21 as random21;
ghost use Rattle.tests_histories.specs.Random22 as random22;
ghost use Rattle.tests_histories.specs.Random23 as random23;
ghost use Rattle.tests_histories.specs.Random24 as random24;
ghost use Rattle.tests_histories.specs.Random25 as random25;
ghost use Rattle.tests_histories.specs.Random26 as random26;
ghost use Rattle.tests_histories.specs.Random27 as random27;
ghost use Rattle.tests_histories.specs.Random28 as random28;
ghost use Rattle.tests_histories.specs.Random29 as random29;
ghost use Rattle.tests_histories.specs.Random30 as random30;
ghost use Rattle.tests_histories.specs.Random31 as random31;
ghost use Rattle.tests_histories.specs.Random32 as random32;
ghost use Rattle.tests_histories.specs.Random33 as random33;
ghost use Rattle.tests_histories.specs.Random34 as random34;
ghost use Rattle.tests_histories.specs.Random35 as random35;
ghost use Rattle.tests_histories.specs.Random36 as random36;
ghost use Rattle.tests_histories.specs.Random37 as random37;
ghost use Rattle.tests_histories.specs.Random38 as random38;
ghost use Rattle.tests_histories.specs.Random39 as random39;
ghost use Rattle.tests_histories.specs.Random40 as random40;

/// The conduct performs the random histories 1 to 10, step by step.
pub fn histories_1_to_10_are_performed()
    ensures random1 { performed random1.decl random1.moves ≡ Some random1.history }
    ensures random2 { performed random2.decl random2.moves ≡ Some random2.history }
    ensures random3 { performed random3.decl random3.moves ≡ Some random3.history }
    ensures random4 { performed random4.decl random4.moves ≡ Some random4.history }
    ensures random5 { performed random5.decl random5.moves ≡ Some random5.history }
    ensures random6 { performed random6.decl random6.moves ≡ Some random6.history }
    ensures random7 { performed random7.decl random7.moves ≡ Some random7.history }
    ensures random8 { performed random8.decl random8.moves ≡ Some random8.history }
    ensures random9 { performed random9.decl random9.moves ≡ Some random9.history }
    ensures random10 { performed random10.decl random10.moves ≡ Some random10.history }
{}

/// The conduct performs the random histories 11 to 20, step by step.
pub fn histories_11_to_20_are_performed()
    ensures random11 { performed random11.decl random11.moves ≡ Some random11.history }
    ensures random12 { performed random12.decl random12.moves ≡ Some random12.history }
    ensures random13 { performed random13.decl random13.moves ≡ Some random13.history }
    ensures random14 { performed random14.decl random14.moves ≡ Some random14.history }
    ensures random15 { performed random15.decl random15.moves ≡ Some random15.history }
    ensures random16 { performed random16.decl random16.moves ≡ Some random16.history }
    ensures random17 { performed random17.decl random17.moves ≡ Some random17.history }
    ensures random18 { performed random18.decl random18.moves ≡ Some random18.history }
    ensures random19 { performed random19.decl random19.moves ≡ Some random19.history }
    ensures random20 { performed random20.decl random20.moves ≡ Some random20.history }
{}

/// The conduct performs the random histories 21 to 30, step by step.
pub fn histories_21_to_30_are_performed()
    ensures random21 { performed random21.decl random21.moves ≡ Some random21.history }
    ensures random22 { performed random22.decl random22.moves ≡ Some random22.history }
    ensures random23 { performed random23.decl random23.moves ≡ Some random23.history }
    ensures random24 { performed random24.decl random24.moves ≡ Some random24.history }
    ensures random25 { performed random25.decl random25.moves ≡ Some random25.history }
    ensures random26 { performed random26.decl random26.moves ≡ Some random26.history }
    ensures random27 { performed random27.decl random27.moves ≡ Some random27.history }
    ensures random28 { performed random28.decl random28.moves ≡ Some random28.history }
    ensures random29 { performed random29.decl random29.moves ≡ Some random29.history }
    ensures random30 { performed random30.decl random30.moves ≡ Some random30.history }
{}

/// The conduct performs the random histories 31 to 40, step by step.
pub fn histories_31_to_40_are_performed()
    ensures random31 { performed random31.decl random31.moves ≡ Some random31.history }
    ensures random32 { performed random32.decl random32.moves ≡ Some random32.history }
    ensures random33 { performed random33.decl random33.moves ≡ Some random33.history }
    ensures random34 { performed random34.decl random34.moves ≡ Some random34.history }
    ensures random35 { performed random35.decl random35.moves ≡ Some random35.history }
    ensures random36 { performed random36.decl random36.moves ≡ Some random36.history }
    ensures random37 { performed random37.decl random37.moves ≡ Some random37.history }
    ensures random38 { performed random38.decl random38.moves ≡ Some random38.history }
    ensures random39 { performed random39.decl random39.moves ≡ Some random39.history }
    ensures random40 { performed random40.decl random40.moves ≡ Some random40.history }
{}
