//! Random histories of the model with falls, from the shortest to the longest.

ghost use Rattle.std.specs.Prelude.{◌≡◌, Some};
ghost use Rattle.tests_falls.specs.Perform.{run_with_falls};
ghost use Rattle.tests_falls.specs.Random1 as random1;
ghost use Rattle.tests_falls.specs.Random2 as random2;
ghost use Rattle.tests_falls.specs.Random3 as random3;
ghost use Rattle.tests_falls.specs.Random4 as random4;
ghost use Rattle.tests_falls.specs.Random5 as random5;
ghost use Rattle.tests_falls.specs.Random6 as random6;
ghost use Rattle.tests_falls.specs.Random7 as random7;
ghost use Rattle.tests_falls.specs.Random8 as random8;
ghost use Rattle.tests_falls.specs.Random9 as random9;
ghost use Rattle.tests_falls.specs.Random10 as random10;
ghost use Rattle.tests_falls.specs.Random1To10Scripts as scripts1;
ghost use Rattle.tests_falls.specs.Random11 as random11;
ghost use Rattle.tests_falls.specs.Random12 as random12;
ghost use Rattle.tests_falls.specs.Random13 as random13;
ghost use Rattle.tests_falls.specs.Random14 as random14;
ghost use Rattle.tests_falls.specs.Random15 as random15;
ghost use Rattle.tests_falls.specs.Random16 as random16;
ghost use Rattle.tests_falls.specs.Random17 as random17;
ghost use Rattle.tests_falls.specs.Random18 as random18;
ghost use Rattle.tests_falls.specs.Random19 as random19;
ghost use Rattle.tests_falls.specs.Random20 as random20;
ghost use Rattle.tests_falls.specs.Random11To20Scripts as scripts2;
ghost use Rattle.tests_falls.specs.Random21 as random21;
ghost use Rattle.tests_falls.specs.Random22 as random22;
ghost use Rattle.tests_falls.specs.Random23 as random23;
ghost use Rattle.tests_falls.specs.Random24 as random24;
ghost use Rattle.tests_falls.specs.Random25 as random25;
ghost use Rattle.tests_falls.specs.Random26 as random26;
ghost use Rattle.tests_falls.specs.Random27 as random27;
ghost use Rattle.tests_falls.specs.Random28 as random28;
ghost use Rattle.tests_falls.specs.Random29 as random29;
ghost use Rattle.tests_falls.specs.Random30 as random30;
ghost use Rattle.tests_falls.specs.Random21To30Scripts as scripts3;
ghost use Rattle.tests_falls.specs.Random31 as random31;
ghost use Rattle.tests_falls.specs.Random32 as random32;
ghost use Rattle.tests_falls.specs.Random33 as random33;
ghost use Rattle.tests_falls.specs.Random34 as random34;
ghost use Rattle.tests_falls.specs.Random35 as random35;
ghost use Rattle.tests_falls.specs.Random36 as random36;
ghost use Rattle.tests_falls.specs.Random37 as random37;
ghost use Rattle.tests_falls.specs.Random38 as random38;
ghost use Rattle.tests_falls.specs.Random39 as random39;
ghost use Rattle.tests_falls.specs.Random40 as random40;
ghost use Rattle.tests_falls.specs.Random31To40Scripts as scripts4;

/// The random histories 1 to 10 are whole runs of their scripts.
pub fn falls_1_to_10_are_runs()
    ensures random1 { run_with_falls random1.decl scripts1.random1 random1.moves ≡ Some random1.history }
    ensures random2 { run_with_falls random2.decl scripts1.random2 random2.moves ≡ Some random2.history }
    ensures random3 { run_with_falls random3.decl scripts1.random3 random3.moves ≡ Some random3.history }
    ensures random4 { run_with_falls random4.decl scripts1.random4 random4.moves ≡ Some random4.history }
    ensures random5 { run_with_falls random5.decl scripts1.random5 random5.moves ≡ Some random5.history }
    ensures random6 { run_with_falls random6.decl scripts1.random6 random6.moves ≡ Some random6.history }
    ensures random7 { run_with_falls random7.decl scripts1.random7 random7.moves ≡ Some random7.history }
    ensures random8 { run_with_falls random8.decl scripts1.random8 random8.moves ≡ Some random8.history }
    ensures random9 { run_with_falls random9.decl scripts1.random9 random9.moves ≡ Some random9.history }
    ensures random10 { run_with_falls random10.decl scripts1.random10 random10.moves ≡ Some random10.history }
{}

/// The random histories 11 to 20 are whole runs of their scripts.
pub fn falls_11_to_20_are_runs()
    ensures random11 { run_with_falls random11.decl scripts2.random11 random11.moves ≡ Some random11.history }
    ensures random12 { run_with_falls random12.decl scripts2.random12 random12.moves ≡ Some random12.history }
    ensures random13 { run_with_falls random13.decl scripts2.random13 random13.moves ≡ Some random13.history }
    ensures random14 { run_with_falls random14.decl scripts2.random14 random14.moves ≡ Some random14.history }
    ensures random15 { run_with_falls random15.decl scripts2.random15 random15.moves ≡ Some random15.history }
    ensures random16 { run_with_falls random16.decl scripts2.random16 random16.moves ≡ Some random16.history }
    ensures random17 { run_with_falls random17.decl scripts2.random17 random17.moves ≡ Some random17.history }
    ensures random18 { run_with_falls random18.decl scripts2.random18 random18.moves ≡ Some random18.history }
    ensures random19 { run_with_falls random19.decl scripts2.random19 random19.moves ≡ Some random19.history }
    ensures random20 { run_with_falls random20.decl scripts2.random20 random20.moves ≡ Some random20.history }
{}

/// The random histories 21 to 30 are whole runs of their scripts.
pub fn falls_21_to_30_are_runs()
    ensures random21 { run_with_falls random21.decl scripts3.random21 random21.moves ≡ Some random21.history }
    ensures random22 { run_with_falls random22.decl scripts3.random22 random22.moves ≡ Some random22.history }
    ensures random23 { run_with_falls random23.decl scripts3.random23 random23.moves ≡ Some random23.history }
    ensures random24 { run_with_falls random24.decl scripts3.random24 random24.moves ≡ Some random24.history }
    ensures random25 { run_with_falls random25.decl scripts3.random25 random25.moves ≡ Some random25.history }
    ensures random26 { run_with_falls random26.decl scripts3.random26 random26.moves ≡ Some random26.history }
    ensures random27 { run_with_falls random27.decl scripts3.random27 random27.moves ≡ Some random27.history }
    ensures random28 { run_with_falls random28.decl scripts3.random28 random28.moves ≡ Some random28.history }
    ensures random29 { run_with_falls random29.decl scripts3.random29 random29.moves ≡ Some random29.history }
    ensures random30 { run_with_falls random30.decl scripts3.random30 random30.moves ≡ Some random30.history }
{}

/// The random histories 31 to 40 are whole runs of their scripts.
pub fn falls_31_to_40_are_runs()
    ensures random31 { run_with_falls random31.decl scripts4.random31 random31.moves ≡ Some random31.history }
    ensures random32 { run_with_falls random32.decl scripts4.random32 random32.moves ≡ Some random32.history }
    ensures random33 { run_with_falls random33.decl scripts4.random33 random33.moves ≡ Some random33.history }
    ensures random34 { run_with_falls random34.decl scripts4.random34 random34.moves ≡ Some random34.history }
    ensures random35 { run_with_falls random35.decl scripts4.random35 random35.moves ≡ Some random35.history }
    ensures random36 { run_with_falls random36.decl scripts4.random36 random36.moves ≡ Some random36.history }
    ensures random37 { run_with_falls random37.decl scripts4.random37 random37.moves ≡ Some random37.history }
    ensures random38 { run_with_falls random38.decl scripts4.random38 random38.moves ≡ Some random38.history }
    ensures random39 { run_with_falls random39.decl scripts4.random39 random39.moves ≡ Some random39.history }
    ensures random40 { run_with_falls random40.decl scripts4.random40 random40.moves ≡ Some random40.history }
{}
